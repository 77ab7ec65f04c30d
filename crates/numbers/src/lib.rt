// A number as bytes: groups of seven bits, low first, in the shortest form and no other. The trace is made of such
// numbers. Reading refuses with the place that it speaks of; writing leaves the room as it was where it refuses.
#![tactic(auto)]

mod reading;
mod sizes;
mod writing;

pub use reading::{Stop, next_number, number_at};
pub use sizes::MOST_64;
pub use writing::{length_of, put_number, put_numbers};
