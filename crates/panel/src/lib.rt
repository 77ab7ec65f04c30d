// The panel's geometry: the leaf that the tracker and the calibration stand on. Points and reports,
// the panel's size, the refusal numbers of all crates, and the three measures of document 01: how
// far two points are apart, where the middle of some fingers is, and along which axis a drag runs.
#![tactic(auto)]

mod axes;
mod distances;
mod middle;
mod points;
mod refusals;
mod truths;

pub use axes::{Axis, axis_along, lock_axis, magnitude};
pub use distances::{apart, apart2, dist, dist2, gap, square};
pub use middle::{centroid, middle_of};
pub use points::{
    Event, HEIGHT, MAX_POINTS, Point, WIDTH, all_on_panel, each_on_panel, fingers_of, on_panel,
};
pub use refusals::Refusal;
pub use truths::bit;
