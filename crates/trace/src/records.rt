// One record of the trace as a call of the tracker.
//
// Bytes and place stand apart, as in numbers: the contracts speak of both (`record_at s.now at`), a refusal names a
// place in the whole trace, and who plays one keeps the place between calls. Where a number read is narrowed by `as`,
// number_at keeps it below its most.
ghost use Rattle.std.specs.Prelude.{◌≡◌, ◌≤◌};
ghost use Rattle.panel.specs.Sizes.{max_points};
ghost use Rattle.trace.specs.Records.{report_from, tick_from, raw_from, grab_from, of_kind, record_at};
ghost use Rattle.trace.specs.code.Points.{point_from, filled_from, event_with};
ghost use Rattle.trace.specs.Traces.{head_of};

use crate::sizes::{
    CAPTURE, DIRECT, GRAB, MOST_1, MOST_8, MOST_16, MOST_BYTES, RAW, REPORT, TICK, VERSION,
};
use gesture::Call;
use numbers::{MOST_64, Stop, number_at};
use panel::{Event, MAX_POINTS, Point, Refusal, fingers_of};

// A report has this where no point is in use.
const NOWHERE: Point = Point { x: 0, y: 0 };

#[tactic(auto, unfolding(crate::specs::code::Points::point_from))]
fn point_from(s: &[u8], at: usize) -> Result<(Point, usize), Stop>
    ensures { result ≡ point_from s.now at }
{
    let (x, at) = number_at(s, at, MOST_16)?;
    let (y, at) = number_at(s, at, MOST_16)?;
    let p = Point {
        x: x as u16,
        y: y as u16,
    };
    Ok((p, at))
}

// The next n points, the others zero.
fn points_from(s: &[u8], at: usize, n: usize) -> Result<([Point; MAX_POINTS], usize), Stop>
    requires { n ≤ max_points }
    ensures { result ≡ filled_from s.now at n }
{
    let mut pts = [NOWHERE; MAX_POINTS];
    let mut to = at;
    for p in &mut pts[..n] {
        let (read, next) = point_from(s, to)?;
        *p = read;
        to = next;
    }
    Ok((pts, to))
}

// The report that these make. `p` is the first point, and for one finger `pts` stays zero.
#[tactic(auto, using(panel::proofs::Follow::follow), unfolding(crate::specs::code::Points::event_with))]
fn event_with(keys: u8, count: u8, pts: [Point; MAX_POINTS]) -> Event
    ensures { result ≡ event_with keys count pts }
{
    let event = Event {
        points: count,
        p: pts[0],
        pts,
        keys,
    };
    if count == 1 {
        return Event {
            pts: [NOWHERE; MAX_POINTS],
            ..event
        };
    }
    event
}

#[tactic(auto, unfolding(crate::specs::Records::report_from))]
fn report_from(s: &[u8], at: usize) -> Result<(Call, usize), Stop>
    ensures { result ≡ report_from s.now at }
{
    let (time, at) = number_at(s, at, MOST_64)?;
    let (keys, at) = number_at(s, at, MOST_8)?;
    let (count, at) = number_at(s, at, MOST_8)?;
    let count = count as u8;
    let (pts, at) = points_from(s, at, fingers_of(count))?;
    Ok((Call::Report(event_with(keys as u8, count, pts), time), at))
}

// This one and the two that follow are a number and a constructor each. They stay apart: each has its definition, and
// its number a most of its own.
#[tactic(auto, unfolding(crate::specs::Records::tick_from))]
fn tick_from(s: &[u8], at: usize) -> Result<(Call, usize), Stop>
    ensures { result ≡ tick_from s.now at }
{
    let (time, at) = number_at(s, at, MOST_64)?;
    Ok((Call::Tick(time), at))
}

#[tactic(auto, unfolding(crate::specs::Records::raw_from))]
fn raw_from(s: &[u8], at: usize) -> Result<(Call, usize), Stop>
    ensures { result ≡ raw_from s.now at }
{
    let (on, at) = number_at(s, at, MOST_1)?;
    Ok((Call::RawNext(on == 1), at))
}

#[tactic(auto, unfolding(crate::specs::Records::grab_from))]
fn grab_from(s: &[u8], at: usize) -> Result<(Call, usize), Stop>
    ensures { result ≡ grab_from s.now at }
{
    let (ms, at) = number_at(s, at, MOST_16)?;
    Ok((Call::SetGrabMs(ms as u16), at))
}

// The record at a place, by its kind, with its fields from another on. The kinds are the format's numbers: reader and
// writer share the constants of sizes.rt, and Call is the enum. A second one would only stand between the two.
#[tactic(auto, using(panel::proofs::Follow::follow), unfolding(crate::specs::Records::of_kind))]
fn of_kind(s: &[u8], at: usize, kind: u64, fields: usize) -> Result<(Call, usize), Stop>
    ensures { result ≡ of_kind s.now at kind fields }
{
    match kind {
        REPORT => report_from(s, fields),
        TICK => tick_from(s, fields),
        CAPTURE => Ok((Call::Capture, fields)),
        DIRECT => Ok((Call::CaptureDirect, fields)),
        RAW => raw_from(s, fields),
        GRAB => grab_from(s, fields),
        _ => Err(Stop {
            why: Refusal::Kind,
            at,
        }),
    }
}

// The record at a place, and where the next one begins.
#[tactic(auto, unfolding(crate::specs::Records::record_at))]
pub fn next_record(s: &[u8], at: usize) -> Result<(Call, usize), Stop>
    ensures { result ≡ record_at s.now at }
{
    let (kind, fields) = number_at(s, at, MOST_64)?;
    of_kind(s, at, kind, fields)
}

// Where the records of a trace begin, after its version.
#[tactic(auto, using(panel::proofs::Follow::follow), unfolding(crate::specs::Traces::head_of))]
pub fn head(s: &[u8]) -> Result<usize, Stop>
    ensures { result ≡ head_of s.now }
{
    if MOST_BYTES < s.len() {
        return Err(Stop {
            why: Refusal::File,
            at: 0,
        });
    }
    let (v, next) = number_at(s, 0, MOST_64)?;
    if v == VERSION {
        return Ok(next);
    }
    Err(Stop {
        why: Refusal::Version,
        at: 0,
    })
}
