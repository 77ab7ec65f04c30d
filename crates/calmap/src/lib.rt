// The integer half of the touch calibration: the units that it counts in, the map of a point through a
// calibration, the root and the distance in tenths of a pixel, and over lists of taps and of targets the
// residuals of a calibration and the verdict on it. What it works out in floats stands in the crate above.
#![tactic(auto)]

mod arrays;
mod checked;
mod gaps;
mod limits;
mod lists;
mod mapping;
mod residuals;
mod roots;
mod screens;
mod units;

pub use arrays::{Held, check_held, resid_held};
pub use gaps::{Rule, Scaled, dist10, dist10_by, gap_between};
pub use limits::{Verdict, check_of};
pub use lists::{check, pairs_of, points_of, resid};
pub use mapping::{Spot, apply16};
pub use residuals::{Spread, farther, miss, resid_by, resid_of};
pub use roots::isqrt;
pub use screens::screen;
pub use units::{Aim, Cal, MAX_TAPS, Q16, Sixteenths, Tap, Tenths};
