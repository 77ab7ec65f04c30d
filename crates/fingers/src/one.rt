// One finger on the panel: what it did, and what the app made of its touch. Where and when it went down stands in the
// tracker's touch.
#![tactic(auto, using(panel::proofs::Follow::follow), unfolding(crate::specs::Fields::reset, crate::specs::Fields::untaken, crate::specs::Fields::set_captured, crate::specs::Fields::set_direct))]

ghost use Rattle.std.specs.Prelude.{◌≡◌};
ghost use Rattle.fingers.specs.Fields as fields;

use crate::gestures::Outcome;
use panel::{Axis, Point};

// What the one finger of a touch did. It outlives the touch: what a capture and the log look at is the last one-finger
// touch, which several fingers may have followed.
#[derive(Clone, Copy)]
pub struct One {
    pub last: Point,
    pub long_sent: bool,
    // Farthest distance from the touch-down of the reports that were read, pixels.
    pub far: u16,
    // Hold-to-grab: a report was past GRAB_SLOP before the grab, so that no Grab comes. It drags all the same once the
    // hold is off: captured direct, or the grab time set to 0.
    pub early: bool,
    // Hold-to-grab: Grab was told, drags are allowed.
    pub grabbed: bool,
    pub moved: bool,
    // Drag axis, once it is found: looked for from the first report that may drag, wherever the finger then is.
    pub axis: Option<Axis>,
}

// What the app made of the touch. It outlives the touch too.
#[derive(Clone, Copy)]
pub struct App {
    // Raw-move touch: raw_next was on at the capture.
    pub raw: bool,
    // Captured with capture_direct: no hold-to-grab for this touch.
    pub direct: bool,
    // The app owns this touch: its release, if it has one finger to the end, is no swipe and no tap.
    pub captured: bool,
}

#[derive(Clone, Copy)]
pub struct OneStep {
    pub out: Outcome,
    pub one: One,
}

// What is known of a finger that goes down at p.
pub fn reset(p: Point) -> One
    ensures { result ≡ fields.reset p }
{
    One {
        last: p,
        moved: false,
        far: 0,
        long_sent: false,
        axis: None,
        grabbed: false,
        early: false,
    }
}

// A touch that the app has not taken. By name and no derived Default: the definitions of a new touch and of a fresh
// tracker speak of `untaken`.
pub fn untaken() -> App
    ensures { result ≡ fields.untaken }
{
    App {
        captured: false,
        raw: false,
        direct: false,
    }
}

// The touch in the app's hands, for raw moves or not.
pub fn with_capture(app: App, raw: bool) -> App
    ensures { result ≡ fields.set_captured app raw }
{
    App {
        captured: true,
        raw,
        ..app
    }
}

// The touch in the app's hands, with no hold before a drag.
pub fn with_direct(app: App) -> App
    ensures { result ≡ fields.set_direct app }
{
    App {
        captured: true,
        direct: true,
        ..app
    }
}
