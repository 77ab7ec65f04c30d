// Distances by the tenths that came before request [6] of document 02, for runs beside the Rust, whose rule they are.
// No library of the firmware links this crate; the probe does. What is not tenths is that of `calmap` and `touchcal`.
#![tactic(auto)]

mod fitting;
mod gaps;
mod residuals;

pub use fitting::old_fit_of;
pub use gaps::{Old, old_dist10};
pub use residuals::old_resid_of;
