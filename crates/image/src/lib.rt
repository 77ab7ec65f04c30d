// The byte image of a tracker, for a host that keeps it in an area of its own: one tracker has one image, and an
// area that is no tracker's image is refused. docs/IMAGE.md has the layout.
#![tactic(auto)]

mod c_numbers;
mod calls;
mod codec;
mod ended;
mod fields;
mod finger;
mod keys;
mod settings;
mod touches;
mod whole;

pub use c_numbers::ANSWER_NUMBERS;
pub use calls::{grab_ms, make};
pub use codec::{decode, encode, encode_fresh};
pub use settings::IMAGE_BYTES;
