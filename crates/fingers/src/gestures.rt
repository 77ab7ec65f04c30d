// The gestures, with the Rust's names and field order, and what one step of the tracker comes to.
use panel::{Axis, Point};

#[derive(Clone, Copy)]
pub enum Gesture {
    // Finger down, for immediate feedback.
    Down(Point),
    Tap(Point),
    LongPress(Point),
    // Finger moved while down: start, current point, locked axis.
    Drag(Point, Point, Axis),
    // Hold-to-grab only: the grab time is over and no report of it was early, a drag may follow.
    Grab(Point),
    // Release of a captured touch: the app owned it, so that it is no tap and no swipe.
    Up(Point),
    SwipeLeft,
    SwipeRight,
    SwipeUp,
    SwipeDown,
    // A second finger landed during a one-finger touch: undo what its Down and Drag did.
    Cancel,
    // That many fingers swiped down.
    MultiSwipeDown(u8),
    // A side key went down or up: its number, 0 to 7.
    KeyDown(u8),
    KeyUp(u8),
    // Raw-move touch: from the point of the last report that was read to this one's.
    Move(Point, Point),
    // Axis of the finger pair, its separation along it at the start and now, pixels; 0 is told as 1.
    Pinch(Axis, u16, u16),
    // Pinch over: released (true), or abandoned for a third finger (false).
    PinchEnd(bool),
}

// Why a touch came to nothing, for the log: the note's number and the point that goes with it. A number and no enum, as
// in the definition `noted` and in the log's line: the document gives the notes as numbers.
#[derive(Clone, Copy)]
pub struct Note {
    pub number: u8,
    pub p: Point,
}

// What a step comes to.
#[derive(Clone, Copy)]
pub enum Outcome {
    // Nothing, and nothing to log.
    Quiet,
    // Nothing, and a note for the log of why.
    Noted(Note),
    Gives(Gesture),
}
