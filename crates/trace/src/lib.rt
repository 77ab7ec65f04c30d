// The trace: what a panel was told, call by call, as bytes. A record of numbers for each call, and the
// version in front. What is read is written again byte for byte, and what is written is read back.
#![tactic(auto)]

mod records;
mod sizes;
mod writing;

pub use records::{head, next_record};
pub use writing::{put_head, put_record};
