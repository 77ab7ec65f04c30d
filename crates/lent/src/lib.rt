// The tracker lent by the caller and altered where it stands: each call is thin, the by-value call of the crate
// gesture on the tracker as it came, its tracker stored back, the rest told.
#![tactic(auto)]

mod calls;

pub use calls::{capture, capture_direct, event, grab_ms, raw_next, set_grab_ms, tick};
pub use gesture::Response;
