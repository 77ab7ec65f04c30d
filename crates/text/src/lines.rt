// The lines of a text: one for each answer that has something to say, and the last one.
ghost use Rattle.std.specs.Prelude.{◌≡◌, ◌+◌, ◌≤◌, ◌<◌, length};
ghost use Rattle.panel.specs.Refusals.{number_of};
ghost use Rattle.text.specs.Gestures.{words_of};
ghost use Rattle.text.specs.Sizes.{small_end, line_most};
ghost use Rattle.text.specs.Texts.{given_line, refused_line, answer_line, stop_line, end_line};
ghost use Rattle.text.specs.Words.{decimal, line};
ghost use Rattle.text.specs.code.Written.{Written};

use crate::{gestures, words};
use gesture::{Gesture, Response};
use numbers::Stop;
use panel::Refusal;

// A refusal's number, of two digits at most.
fn number(why: Refusal) -> u64
    ensures value { result ≡ number_of why }
    ensures upper_bound { result < 100 }
{
    u64::from(u8::from(why))
}

fn gesture_line(out: &mut [u8], at: usize, i: u64, g: Gesture) -> usize
    requires { (i < small_end) × (at + line_most ≤ length out.old) }
    ensures written { Written out.old at (line (decimal i) (words_of g)) result out.new }
    ensures upper_bound { result ≤ at + line_most }
{
    let a = words::number(out, at, i);
    let b = gestures::gesture_words(out, a, g);
    words::finish(out, b)
}

#[tactic(auto, using(crate::proofs::Writing::written_none), unfolding(crate::specs::Texts::given_line))]
fn given_line(out: &mut [u8], at: usize, i: u64, given: Option<Gesture>) -> usize
    requires { (i < small_end) × (at + line_most ≤ length out.old) }
    ensures written { Written out.old at (given_line i given) result out.new }
    ensures upper_bound { result ≤ at + line_most }
{
    match given {
        None => at,
        Some(g) => gesture_line(out, at, i, g),
    }
}

fn refused_line(out: &mut [u8], at: usize, i: u64, why: Refusal) -> usize
    requires { (i < small_end) × (at + line_most ≤ length out.old) }
    ensures written { Written out.old at (refused_line i (number_of why)) result out.new }
    ensures upper_bound { result ≤ at + line_most }
{
    let a = words::number(out, at, i);
    let b = words::word(out, a, b"refused");
    let c = words::value(out, b, number(why));
    words::finish(out, c)
}

// The line of record i, where its answer has one.
#[tactic(auto, unfolding(crate::specs::Texts::answer_line))]
pub(crate) fn answer_line(
    out: &mut [u8],
    at: usize,
    i: u64,
    told: Result<Response, Refusal>,
) -> usize
    requires { (i < small_end) × (at + line_most ≤ length out.old) }
    ensures written { Written out.old at (answer_line i told) result out.new }
    ensures upper_bound { result ≤ at + line_most }
{
    match told {
        Ok(r) => given_line(out, at, i, r.gesture),
        Err(why) => refused_line(out, at, i, why),
    }
}

pub(crate) fn stop_line(out: &mut [u8], at: usize, stop: Stop) -> usize
    requires { at + line_most ≤ length out.old }
    ensures written { Written out.old at (stop_line (number_of stop.why) stop.at) result out.new }
    ensures upper_bound { result ≤ at + line_most }
{
    let a = words::say(out, at, b"stopped");
    let b = words::value(out, a, number(stop.why));
    let c = words::word(out, b, b"at");
    let d = words::large(out, c, stop.at as u64);
    words::finish(out, d)
}

pub(crate) fn end_line(out: &mut [u8], at: usize, count: u64) -> usize
    requires { (count < small_end) × (at + line_most ≤ length out.old) }
    ensures written { Written out.old at (end_line count) result out.new }
    ensures upper_bound { result ≤ at + line_most }
{
    let a = words::say(out, at, b"end");
    let b = words::value(out, a, count);
    words::finish(out, b)
}
