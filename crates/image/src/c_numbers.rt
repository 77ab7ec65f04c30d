// An answer as numbers: the gesture's code and its own numbers, then the log line.
ghost use Rattle.std.specs.Prelude.{◌≡◌};
ghost use Rattle.image.specs.Numbers.{coded, gesture_numbers, given_numbers, log_numbers, listed};

use gesture::{Gesture, Line, Response};
use panel::Point;

pub const ANSWER_NUMBERS: usize = 11;

// A gesture's code number, 0 for none, and its numbers in the order of its fields. Each has a name, by which
// tools/header reads the places of the C header from the definition `listed`.
#[derive(Clone, Copy)]
struct GestureNumbers {
    code: u64,
    a: u64,
    b: u64,
    c: u64,
    d: u64,
    e: u64,
}

#[derive(Clone, Copy)]
struct LogNumbers {
    letter: u64,
    argument: u64,
    x: u64,
    y: u64,
    time: u64,
}

fn alone(code: u64) -> GestureNumbers
    ensures { result ≡ coded code 0 0 0 0 0 }
{
    GestureNumbers {
        code,
        a: 0,
        b: 0,
        c: 0,
        d: 0,
        e: 0,
    }
}

fn counted(code: u64, n: u8) -> GestureNumbers
    ensures { result ≡ coded code n 0 0 0 0 }
{
    GestureNumbers {
        a: u64::from(n),
        ..alone(code)
    }
}

fn at(code: u64, p: Point) -> GestureNumbers
    ensures { result ≡ coded code p.x p.y 0 0 0 }
{
    GestureNumbers {
        a: u64::from(p.x),
        b: u64::from(p.y),
        ..alone(code)
    }
}

fn between(code: u64, p: Point, q: Point, n: u8) -> GestureNumbers
    ensures { result ≡ coded code p.x p.y q.x q.y n }
{
    GestureNumbers {
        c: u64::from(q.x),
        d: u64::from(q.y),
        e: u64::from(n),
        ..at(code, p)
    }
}

fn spans(code: u64, axis: u8, span0: u16, span: u16) -> GestureNumbers
    ensures { result ≡ coded code axis span0 span 0 0 }
{
    GestureNumbers {
        b: u64::from(span0),
        c: u64::from(span),
        ..counted(code, axis)
    }
}

// The code is 1 and the place in the Rust's list of gestures, by cases since the fields are taken out here; the log's
// codes are private to gesture and count from 0.
fn gesture_numbers(g: Gesture) -> GestureNumbers
    ensures { result ≡ gesture_numbers g }
{
    match g {
        Gesture::Down(p) => at(1, p),
        Gesture::Tap(p) => at(2, p),
        Gesture::LongPress(p) => at(3, p),
        Gesture::Drag(start, p, a) => between(4, start, p, u8::from(a)),
        Gesture::Grab(p) => at(5, p),
        Gesture::Up(p) => at(6, p),
        Gesture::SwipeLeft => alone(7),
        Gesture::SwipeRight => alone(8),
        Gesture::SwipeUp => alone(9),
        Gesture::SwipeDown => alone(10),
        Gesture::Cancel => alone(11),
        Gesture::MultiSwipeDown(n) => counted(12, n),
        Gesture::KeyDown(key) => counted(13, key),
        Gesture::KeyUp(key) => counted(14, key),
        Gesture::Move(prev, p) => between(15, prev, p, 0),
        Gesture::Pinch(a, span0, span) => spans(16, u8::from(a), span0, span),
        Gesture::PinchEnd(released) => counted(17, panel::bit(released)),
    }
}

fn given_numbers(given: Option<Gesture>) -> GestureNumbers
    ensures { result ≡ given_numbers given }
{
    match given {
        None => alone(0),
        Some(g) => gesture_numbers(g),
    }
}

fn log_numbers(log: Option<Line>) -> LogNumbers
    ensures { result ≡ log_numbers log }
{
    match log {
        None => LogNumbers {
            letter: 0,
            argument: 0,
            x: 0,
            y: 0,
            time: 0,
        },
        Some(l) => LogNumbers {
            letter: u64::from(l.letter),
            argument: u64::from(l.argument),
            x: u64::from(l.p.x),
            y: u64::from(l.p.y),
            time: l.time,
        },
    }
}

pub(crate) fn numbers_of(r: Response) -> [u64; ANSWER_NUMBERS]
    ensures { result ≡ listed (given_numbers r.gesture) (log_numbers r.log) }
{
    let g = given_numbers(r.gesture);
    let l = log_numbers(r.log);
    [
        g.code, g.a, g.b, g.c, g.d, g.e, l.letter, l.argument, l.x, l.y, l.time,
    ]
}
