// A trace played: its calls made one after the other on a fresh tracker, and their text written.
ghost use Rattle.std.specs.Prelude.{◌≡◌, ◌+◌, ◌*◌, ◌≤◌, length};
ghost use Rattle.text.specs.Played.{room_for, played_of, left_of};
ghost use Rattle.text.specs.Sizes.{line_most};
ghost use Rattle.text.specs.Texts.{printed};
ghost use Rattle.text.specs.code.Written.{Written};
ghost use Rattle.trace.specs.Sizes.{most_bytes};
ghost use Rattle.trace.specs.Traces.{records_from};

use crate::lines;
use panel::Refusal;

// The longest line: `65535 Drag`, four coordinates of five digits, and the axis.
pub const LINE_MOST: usize = 37;

// The bytes of the longest trace and one more, by which a program that reads one knows a longer one.
pub const INPUT_MOST: u64 = 65_537;

// The longest text of as many bytes: 37 for each of them and for the last line.
pub const TEXT_MOST: usize = 2_424_906;

// How much of its input a program that plays a trace reads.
pub fn input_most() -> u64
    ensures { result ≡ most_bytes + 1 }
{
    INPUT_MOST
}

// The room that it lends for the text.
pub fn text_most() -> usize
    ensures { result ≡ line_most * (most_bytes + 2) }
{
    TEXT_MOST
}

// The text of the records from a place on, at the start of the room. Each takes a byte or more, so that there
// are no more of them than bytes.
fn records(s: &[u8], out: &mut [u8], from: usize) -> usize
    requires { (length s.now ≤ most_bytes) × (room_for s.now ≤ length out.old) }
    ensures written { Written out.old 0 (printed (records_from (length s.now) s.now from)) result out.new }
    ensures upper_bound { result ≤ length out.old }
{
    let mut t = gesture::fresh();
    let mut at = from;
    let mut to = 0;
    for i in 0..s.len() as u64 {
        if s.len() <= at {
            return lines::end_line(out, to, i);
        }
        match trace::next_record(s, at) {
            Ok((call, next)) => {
                let a = gesture::make(t, call);
                to = lines::answer_line(out, to, i + 1, a.told);
                t = a.tracker;
                at = next;
            }
            Err(stop) => return lines::stop_line(out, to, stop),
        }
    }
    lines::end_line(out, to, s.len() as u64)
}

// The text of a trace, at the start of the room lent. The room asked for is that of the longest line for each
// byte of the trace and for the last line: where there is less nothing is written.
pub fn play(s: &[u8], out: &mut [u8]) -> Result<usize, Refusal>
    ensures value { result ≡ played_of s.now out.old }
    ensures out_after { out.new ≡ left_of s.now out.old }
{
    if out.len() / LINE_MOST <= s.len() {
        return Err(Refusal::Room);
    }
    match trace::head(s) {
        Ok(at) => Ok(records(s, out, at)),
        Err(stop) => Ok(lines::stop_line(out, 0, stop)),
    }
}
