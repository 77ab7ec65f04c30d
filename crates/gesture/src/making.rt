// A call as one value, and the one function that makes it on a tracker. Whatever makes calls that it was handed (a
// trace, the host, a run of cases) comes through here.
ghost use Rattle.std.specs.Prelude.{◌≡◌};
ghost use Rattle.gesture.specs.Calls.{answer_of, call_of};

use crate::answers::Answer;
use crate::calls;
use crate::record::Tracker;
use panel::Event;

// A call on a tracker.
#[derive(Clone, Copy)]
pub enum Call {
    // A report of the controller, and its time.
    Report(Event, u64),
    Tick(u64),
    Capture,
    CaptureDirect,
    RawNext(bool),
    SetGrabMs(u16),
}

// Makes a call on a tracker.
pub fn make(t: Tracker, c: Call) -> Answer
    ensures { result ≡ answer_of t (call_of c) }
{
    match c {
        Call::Report(ev, now) => calls::event(t, ev, now),
        Call::Tick(now) => calls::tick(t, now),
        Call::Capture => calls::capture(t),
        Call::CaptureDirect => calls::capture_direct(t),
        Call::RawNext(on) => calls::raw_next(t, on),
        Call::SetGrabMs(ms) => calls::set_grab_ms(t, ms),
    }
}
