// The touch calibration, the half that is floats: coefficients as f32 and as Q16 steps, the pending
// values of the command, and the least-squares fit of taps to targets. The half that is integers,
// the map itself and its checks, is crate calmap.
#![tactic(auto)]

mod fitting;
mod floats;
mod lists;
mod moments;
mod scpi;
mod solving;

pub use fitting::{Fit, Unfit, fit_by, fit_held, fit_of, weigh};
pub use floats::{CoefPlace, Coefs, from_f32, no_cal, q16, to_f32};
pub use lists::fit;
pub use scpi::{Pending, cleared, scpi_put, scpi_take};
