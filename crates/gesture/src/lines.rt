// The log line that a call leaves, at most one: the gesture's letter, argument and point, by a table over the
// gestures' code numbers; or a note of why a touch came to nothing.
ghost use Rattle.std.specs.Prelude.{◌≡◌};
ghost use Rattle.gesture.specs.Lines as rule;
ghost use Rattle.gesture.specs.Lines.{report_gesture_line, report_line, capture_line};
ghost use Rattle.gesture.specs.code.Codes.{coded_as, code_of, line_by_code, is_later_drag};

use fingers::{Gesture, Note, Outcome};
use panel::Point;

// Letter and argument are numbers, as document 01's table of the log line gives them and as the C interface tells them.
#[derive(Clone, Copy)]
pub struct Line {
    pub letter: u8,
    pub argument: u8,
    pub p: Point,
    pub time: u64,
}

// A gesture's code number, its small number and its point, as far as it has them. A number, since the table is a match
// over it: document 01, "The form each place takes".
#[derive(Clone, Copy)]
struct Coded {
    code: u8,
    number: u8,
    p: Point,
}

// The code number of a Drag.
const DRAG: u8 = 3;

fn logged(letter: u8, argument: u8, p: Point, now: u64) -> Option<Line>
    ensures { result ≡ rule.line letter argument p now }
{
    Some(Line {
        letter,
        argument,
        p,
        time: now,
    })
}

// By a name, the definition's: laid out, a literal takes five lines in each of the seventeen cases below.
#[tactic(auto, unfolding(crate::specs::code::Codes::coded_as))]
fn coded_as(code: u8, number: u8, p: Point) -> Coded
    ensures { result ≡ coded_as code number p }
{
    Coded { code, number, p }
}

// The code number is the place in the Rust's list of gestures.
#[tactic(auto, unfolding(crate::specs::code::Codes::code_of))]
fn code_of(g: Gesture) -> Coded
    ensures { result ≡ code_of g }
{
    let z = Point { x: 0, y: 0 };
    match g {
        Gesture::Down(p) => coded_as(0, 0, p),
        Gesture::Tap(p) => coded_as(1, 0, p),
        Gesture::LongPress(p) => coded_as(2, 0, p),
        Gesture::Drag(_, p, a) => coded_as(DRAG, u8::from(a), p),
        Gesture::Grab(p) => coded_as(4, 0, p),
        Gesture::Up(p) => coded_as(5, 0, p),
        Gesture::SwipeLeft => coded_as(6, 0, z),
        Gesture::SwipeRight => coded_as(7, 0, z),
        Gesture::SwipeUp => coded_as(8, 0, z),
        Gesture::SwipeDown => coded_as(9, 0, z),
        Gesture::Cancel => coded_as(10, 0, z),
        Gesture::MultiSwipeDown(n) => coded_as(11, n, z),
        Gesture::KeyDown(key) => coded_as(12, key, z),
        Gesture::KeyUp(key) => coded_as(13, key, z),
        Gesture::Move(_, p) => coded_as(14, 0, p),
        Gesture::Pinch(a, _, _) => coded_as(15, u8::from(a), z),
        Gesture::PinchEnd(released) => coded_as(16, panel::bit(released), z),
    }
}

// The table, as document 01 lists it in "The form each place takes": "a match over the gesture's code number". Move and
// Pinch, 14 and 15, come once per report and are not logged.
#[tactic(auto, using(panel::proofs::Follow::follow), unfolding(crate::specs::code::Codes::line_by_code))]
fn line_by_code(code: u8, n: u8, p: Point, now: u64) -> Option<Line>
    ensures { result ≡ line_by_code code n p now }
{
    let z = Point { x: 0, y: 0 };
    match code {
        0 => logged(b'D', 0, p, now),
        1 => logged(b'T', 0, p, now),
        2 => logged(b'L', 0, p, now),
        3 => logged(b'M', n, p, now),
        4 => logged(b'G', 0, p, now),
        5 => logged(b'U', 0, p, now),
        6 => logged(b'<', 0, z, now),
        7 => logged(b'>', 0, z, now),
        8 => logged(b'^', 0, z, now),
        9 => logged(b'v', 0, z, now),
        10 => logged(b'C', 0, z, now),
        11 => logged(b'W', n, z, now),
        12 => logged(b'K', n, z, now),
        13 => logged(b'k', n, z, now),
        16 => logged(b'E', n, z, now),
        _ => None,
    }
}

// Only the first Drag of a touch is logged.
#[tactic(auto, using(panel::proofs::Follow::follow), unfolding(crate::specs::code::Codes::is_later_drag))]
fn is_later_drag(code: u8, locked: bool) -> bool
    ensures { result ≡ is_later_drag code locked }
{
    code == DRAG && locked
}

// Taken into each place that calls it: as a call of its own it costs every gesture some thirty instructions.
#[inline(always)]
#[tactic(auto, using(panel::proofs::Follow::follow, crate::proofs::Table::line_is_by_code, crate::proofs::Table::later_drag_by_code), unfolding(crate::specs::Lines::report_gesture_line))]
fn gesture_line(g: Gesture, locked: bool, now: u64) -> Option<Line>
    ensures { result ≡ report_gesture_line g locked now }
{
    let c = code_of(g);
    if is_later_drag(c.code, locked) {
        return None;
    }
    line_by_code(c.code, c.number, c.p, now)
}

#[tactic(auto, unfolding(crate::specs::Lines::note_line))]
fn note_line(note: Note, now: u64) -> Option<Line>
    ensures { result ≡ rule.note_line note now }
{
    logged(b'N', note.number, note.p, now)
}

// The line of a report or of a tick; whether an axis was locked is asked before a report, and a tick logs whatever it
// gives. Inlined, for the tick: what it gives is mostly nothing.
#[tactic(auto, unfolding(crate::specs::Lines::report_line))]
#[inline(always)]
pub(crate) fn line_of(out: Outcome, locked: bool, now: u64) -> Option<Line>
    ensures { result ≡ report_line out locked now }
{
    match out {
        Outcome::Quiet => None,
        Outcome::Noted(note) => note_line(note, now),
        Outcome::Gives(g) => gesture_line(g, locked, now),
    }
}

// A capture has no time of its own.
#[tactic(auto, unfolding(crate::specs::Lines::capture_line))]
pub(crate) fn capture_line(raw: bool, last: Point) -> Option<Line>
    ensures { result ≡ capture_line raw last }
{
    logged(b'c', panel::bit(raw), last, 0)
}
