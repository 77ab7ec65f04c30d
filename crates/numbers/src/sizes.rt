// The sizes of a number as bytes, as they are in specs/Sizes.antt.

// A byte below this is a last group, and one from it on has the high bit.
pub(crate) const GROUP: u64 = 128;

pub(crate) const HIGH_BIT: u8 = GROUP as u8;

pub(crate) const MOST_GROUPS: u64 = 10;

// A rest of this size and the group in front of it pass 64 bits: 2 ^ 57.
pub(crate) const REST_END: u64 = 144_115_188_075_855_872;

// The largest number.
pub const MOST_64: u64 = 18_446_744_073_709_551_615;
