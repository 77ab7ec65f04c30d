// A call as a record of the trace, into lent bytes. The record's numbers are gathered first, so that
// its length is known before a byte is written: a record that does not fit leaves the room as it was.
//
// Room and place stand apart, as in numbers: the contracts speak of both (`wrote_of out.old at`), the caller goes on
// at the answer, and a struct of them would be made by each caller and taken apart again.
ghost use Rattle.std.specs.Prelude.{◌≡◌, ◌+◌, ◌*◌, [], ◌∷◌, take};
ghost use Rattle.panel.specs.Tests.{when◌then◌else◌, ◌=?◌};
ghost use Rattle.panel.specs.Points.{fingers};
ghost use Rattle.gesture.specs.Calls.{call_of, report};
ghost use Rattle.numbers.specs.Numbers.{bytes_of};
ghost use Rattle.numbers.specs.Writing.{wrote_of, written_of};
ghost use Rattle.trace.specs.Sizes.{version, kind_report};
ghost use Rattle.trace.specs.Calls.{coordinates, numbers_of, record_of};
ghost use Rattle.trace.specs.code.Sizes.{report_numbers};

use crate::sizes::{CAPTURE, DIRECT, GRAB, MOST_NUMBERS, RAW, REPORT, REPORT_HEAD, TICK, VERSION};
use gesture::Call;
use numbers::{put_number, put_numbers};
use panel::{Event, MAX_POINTS, Point, Refusal, fingers_of};

// The points of a report, those in use in front: for one finger that is `p`. Count and five points, here and below and
// in records.rt: a report is that in document 01, and C hands it over so.
#[tactic(auto, using(panel::proofs::Follow::follow))]
fn used_first(count: u8, p: Point, pts: [Point; MAX_POINTS]) -> [Point; MAX_POINTS]
    ensures { take (fingers count) result ≡ when◌then◌else◌ (count =? 1) (p ∷ []) (take (fingers count) pts) }
{
    if count == 1 {
        return [p; MAX_POINTS];
    }
    pts
}

// The numbers of a report whose points are these, and zeros behind them. By index: the i-th point goes to two places of
// v, and the invariant (Gathering) counts the points that are in it. Tried with `chunks_exact_mut(2)` zipped with the
// points: an invariant on the pairs already lent was left to find, and with it the loop's start, its step and the end.
fn gather(time: u64, keys: u8, count: u8, pts: [Point; MAX_POINTS]) -> [u64; MOST_NUMBERS]
    ensures { take (report_numbers count) result ≡ kind_report ∷ time ∷ keys ∷ count ∷ coordinates (take (fingers count) pts) }
{
    let mut v = [0; MOST_NUMBERS];
    v[0] = REPORT;
    v[1] = time;
    v[2] = u64::from(keys);
    v[3] = u64::from(count);
    for i in 0..fingers_of(count) {
        v[REPORT_HEAD + 2 * i] = u64::from(pts[i].x);
        v[REPORT_HEAD + 2 * i + 1] = u64::from(pts[i].y);
    }
    v
}

#[tactic(auto, unfolding(crate::specs::Calls::record_of, crate::specs::Calls::numbers_of, gesture::specs::Answers::points_in_use))]
fn put_report(out: &mut [u8], at: usize, e: Event, time: u64) -> Result<usize, Refusal>
    ensures value { result ≡ wrote_of out.old at (record_of (report time e)) }
    ensures out_after { out.new ≡ written_of out.old at (record_of (report time e)) }
{
    let v = gather(time, e.keys, e.points, used_first(e.points, e.p, e.pts));
    put_numbers(out, at, &v[..REPORT_HEAD + 2 * fingers_of(e.points)])
}

// Writes the record of a call from `at` on, where there is room for all of it.
#[tactic(auto, using(panel::proofs::Follow::follow), unfolding(crate::specs::Calls::record_of, crate::specs::Calls::numbers_of))]
pub fn put_record(out: &mut [u8], at: usize, c: Call) -> Result<usize, Refusal>
    ensures value { result ≡ wrote_of out.old at (record_of (call_of c)) }
    ensures out_after { out.new ≡ written_of out.old at (record_of (call_of c)) }
{
    match c {
        Call::Report(e, time) => put_report(out, at, e, time),
        Call::Tick(time) => put_numbers(out, at, &[TICK, time]),
        Call::Capture => put_numbers(out, at, &[CAPTURE]),
        Call::CaptureDirect => put_numbers(out, at, &[DIRECT]),
        Call::RawNext(on) => put_numbers(out, at, &[RAW, u64::from(on)]),
        Call::SetGrabMs(ms) => put_numbers(out, at, &[GRAB, u64::from(ms)]),
    }
}

// Writes the version, with which a trace begins.
pub fn put_head(out: &mut [u8], at: usize) -> Result<usize, Refusal>
    ensures value { result ≡ wrote_of out.old at (bytes_of version) }
    ensures out_after { out.new ≡ written_of out.old at (bytes_of version) }
{
    put_number(out, at, VERSION)
}
