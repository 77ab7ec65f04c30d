// The public calls on a lent tracker: document 01, "The form each place takes", lists them as "a few thin functions
// over the proved by-value steps". In each the record is copied out whole and passed by value, and the new one is stored
// whole.
ghost use Rattle.std.specs.Prelude.{◌≡◌};
ghost use Rattle.gesture.specs.Answers.{event_of, tick_of, capture_of, capture_direct_of, raw_next_of, set_grab_of, grab_of};
ghost use Rattle.lent.specs.Lent.{TellsAndLeaves};

use gesture::{Answer, Response, Tracker};
use panel::{Event, Refusal};

// Leaves the tracker of an answer where the lent one stood, and tells the rest.
fn left(t: &mut Tracker, a: Answer) -> Result<Response, Refusal>
    ensures { TellsAndLeaves a result t.new }
{
    *t = a.tracker;
    a.told
}

// A report of the controller.
pub fn event(t: &mut Tracker, ev: Event, time: u64) -> Result<Response, Refusal>
    ensures { TellsAndLeaves (event_of t.old ev time) result t.new }
{
    left(t, gesture::event(*t, ev, time))
}

// To be called periodically, between the reports.
pub fn tick(t: &mut Tracker, time: u64) -> Result<Response, Refusal>
    ensures { TellsAndLeaves (tick_of t.old time) result t.new }
{
    left(t, gesture::tick(*t, time))
}

// The app took the current touch, its Down or its Drag: the release of its one finger is then no swipe and no tap.
pub fn capture(t: &mut Tracker) -> Result<Response, Refusal>
    ensures { TellsAndLeaves (capture_of t.old) result t.new }
{
    left(t, gesture::capture(*t))
}

// The app took the current touch, which has no hold before a drag from here on: a slider, not the scope. The raw wish
// is cleared.
pub fn capture_direct(t: &mut Tracker) -> Result<Response, Refusal>
    ensures { TellsAndLeaves (capture_direct_of t.old) result t.new }
{
    left(t, gesture::capture_direct(*t))
}

// Ask for raw moves on the touch that the app is about to capture.
pub fn raw_next(t: &mut Tracker, on: bool) -> Result<Response, Refusal>
    ensures { TellsAndLeaves (raw_next_of t.old on) result t.new }
{
    left(t, gesture::raw_next(*t, on))
}

pub fn set_grab_ms(t: &mut Tracker, ms: u16) -> Result<Response, Refusal>
    ensures { TellsAndLeaves (set_grab_of t.old ms) result t.new }
{
    left(t, gesture::set_grab_ms(*t, ms))
}

// Hold-to-grab time in ms, 0 for direct drags. The tracker is only looked at.
pub fn grab_ms(t: &Tracker) -> Result<u16, Refusal>
    ensures { result ≡ grab_of t.now }
{
    gesture::grab_ms(*t)
}
