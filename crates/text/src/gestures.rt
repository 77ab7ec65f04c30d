// The words of a gesture: its name and its numbers in the order of the Rust's fields. No other crate has the names.
ghost use Rattle.std.specs.Prelude.{◌≡◌, [], ◌∷◌, ◌+◌, ◌≤◌, ◌<◌, length};
ghost use Rattle.text.specs.Gestures.{words_of, gesture_text_of};
ghost use Rattle.text.specs.Sizes.{small_end, name_most, point_name_most, words_most};
ghost use Rattle.text.specs.Words.{decimal, spaced};
ghost use Rattle.text.specs.code.Written.{Written};
ghost use Rattle.fingers.specs.declared.gestures.Gesture.TheVariants.{Drag, Move, Pinch};

use crate::words;
use gesture::Gesture;
use panel::{Axis, Point};

// The room that the longest words take: `Drag`, four coordinates of five digits, and the axis.
pub const WORDS_MOST: usize = 31;

// The words of a gesture: the first n bytes, with a space before each word. Behind them are zeros. The length stands
// beside the bytes as in the definition `gesture_text_of`: they are handed out by value, and a slice would be of lent
// room.
#[derive(Clone, Copy)]
pub struct GestureText {
    pub bytes: [u8; WORDS_MOST],
    pub n: usize,
}

// One function for each shape of a gesture's numbers: what they share is words::value, place and axis.

fn with_number(out: &mut [u8], at: usize, name: &[u8], v: u64) -> usize
    requires { (length name.now ≤ name_most) × (v < small_end) × (at + words_most ≤ length out.old) }
    ensures written { Written out.old at (spaced (name.now ∷ decimal v ∷ [])) result out.new }
    ensures upper_bound { result ≤ at + words_most }
{
    let a = words::word(out, at, name);
    words::value(out, a, v)
}

fn with_point(out: &mut [u8], at: usize, name: &[u8], p: Point) -> usize
    requires { (length name.now ≤ point_name_most) × (at + words_most ≤ length out.old) }
    ensures written { Written out.old at (spaced (name.now ∷ decimal p.x ∷ decimal p.y ∷ [])) result out.new }
    ensures upper_bound { result ≤ at + words_most }
{
    let a = words::word(out, at, name);
    words::place(out, a, p)
}

fn drag(out: &mut [u8], at: usize, start: Point, p: Point, axis: Axis) -> usize
    requires { at + words_most ≤ length out.old }
    ensures written { Written out.old at (spaced (words_of (Drag start p axis))) result out.new }
    ensures upper_bound { result ≤ at + words_most }
{
    let a = words::word(out, at, b"Drag");
    let b = words::place(out, a, start);
    let c = words::place(out, b, p);
    words::axis(out, c, axis)
}

fn moved(out: &mut [u8], at: usize, prev: Point, p: Point) -> usize
    requires { at + words_most ≤ length out.old }
    ensures written { Written out.old at (spaced (words_of (Move prev p))) result out.new }
    ensures upper_bound { result ≤ at + words_most }
{
    let a = words::word(out, at, b"Move");
    let b = words::place(out, a, prev);
    words::place(out, b, p)
}

// By `as`, as in words::place: after u64::from the proof is left with from's result in place of the spans.
fn pinch(out: &mut [u8], at: usize, axis: Axis, span0: u16, span: u16) -> usize
    requires { at + words_most ≤ length out.old }
    ensures written { Written out.old at (spaced (words_of (Pinch axis span0 span))) result out.new }
    ensures upper_bound { result ≤ at + words_most }
{
    let a = words::word(out, at, b"Pinch");
    let b = words::axis(out, a, axis);
    let c = words::value(out, b, span0 as u64);
    words::value(out, c, span as u64)
}

#[tactic(auto, unfolding(crate::specs::Gestures::words_of, crate::specs::Words::ascii))]
pub(crate) fn gesture_words(out: &mut [u8], at: usize, g: Gesture) -> usize
    requires { at + words_most ≤ length out.old }
    ensures written { Written out.old at (spaced (words_of g)) result out.new }
    ensures upper_bound { result ≤ at + words_most }
{
    match g {
        Gesture::Down(p) => with_point(out, at, b"Down", p),
        Gesture::Tap(p) => with_point(out, at, b"Tap", p),
        Gesture::LongPress(p) => with_point(out, at, b"LongPress", p),
        Gesture::Drag(start, p, axis) => drag(out, at, start, p, axis),
        Gesture::Grab(p) => with_point(out, at, b"Grab", p),
        Gesture::Up(p) => with_point(out, at, b"Up", p),
        Gesture::SwipeLeft => words::word(out, at, b"SwipeLeft"),
        Gesture::SwipeRight => words::word(out, at, b"SwipeRight"),
        Gesture::SwipeUp => words::word(out, at, b"SwipeUp"),
        Gesture::SwipeDown => words::word(out, at, b"SwipeDown"),
        Gesture::Cancel => words::word(out, at, b"Cancel"),
        Gesture::MultiSwipeDown(n) => with_number(out, at, b"MultiSwipeDown", u64::from(n)),
        Gesture::KeyDown(key) => with_number(out, at, b"KeyDown", u64::from(key)),
        Gesture::KeyUp(key) => with_number(out, at, b"KeyUp", u64::from(key)),
        Gesture::Move(prev, p) => moved(out, at, prev, p),
        Gesture::Pinch(axis, span0, span) => pinch(out, at, axis, span0, span),
        Gesture::PinchEnd(released) => with_number(
            out,
            at,
            b"PinchEnd",
            u64::from(panel::bit(released)),
        ),
    }
}

// The words of a gesture, for a program that prints it in lines of its own.
pub fn gesture_text(g: Gesture) -> GestureText
    ensures value { result ≡ gesture_text_of g }
    ensures n_in_bounds { result.n ≤ length result.bytes }
{
    let mut bytes = [0u8; WORDS_MOST];
    let n = gesture_words(&mut bytes, 0, g);
    GestureText { bytes, n }
}
