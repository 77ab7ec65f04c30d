// The tracker of touches: reports and ticks go in, gestures and log lines come out, the tracker with them, by
// value. Every call looks at the tracker's state rule first and refuses a tracker that breaks it; a refused
// call gives back the tracker as it came.
#![tactic(auto)]

mod answers;
mod calls;
mod captures;
mod lines;
mod making;
mod record;
mod reports;
mod states;
mod ticks;

pub use answers::{Answer, Response};
pub use calls::{capture, capture_direct, event, grab_ms, raw_next, set_grab_ms, tick};
pub use fingers::{App, Gesture, Keys, Multi, One, Pair, Settings};
pub use lines::Line;
pub use making::{Call, make};
pub use record::{Touch, Tracker, fresh};
pub use states::state_ok;
