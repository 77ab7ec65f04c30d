// The notes of the log.

// Why a touch came to nothing, as the log notes it: after a long press, a swipe on a slant, too far for a tap
// (with the farthest distance added, at most 99), and the last finger of a multi-finger touch.
pub(crate) const NOTE_LONG: u8 = 200;

pub(crate) const NOTE_SLANT: u8 = 255;

pub(crate) const NOTE_FAR: u8 = 100;

pub(crate) const NOTE_FAR_MOST: u16 = 99;

pub const NOTE_RESIDUAL: u8 = 250;
