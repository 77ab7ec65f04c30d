// The thresholds, under the Rust's names where it has one.

// Movement tolerated for a long press, and before a drag, pixels.
pub(crate) const SLOP: u16 = 15;

// Hold-to-grab: a report farther than this before the grab is early, and no Grab follows, pixels.
pub(crate) const GRAB_SLOP: u16 = 8;

// A touch that the app did not capture is still a tap when it never got farther than this, pixels. A
// fingertip that rolls or jitters by 16 to 30 pixels would lose its tap otherwise.
pub(crate) const TAP_SLOP: u16 = 30;

// Minimum travel for a swipe, pixels, and the time in which it must finish.
pub(crate) const SWIPE_MIN: u16 = 60;

pub(crate) const SWIPE_MAX_MS: u64 = 800;

// A press without movement this long is a long press; with a grab time set it takes longer.
pub(crate) const LONG_MS: u64 = 700;

pub(crate) const LONG_HOLD_MS: u64 = 1200;

// The longest grab time that can be set.
pub const GRAB_MOST_MS: u16 = 5000;

// A one-finger touch-down sooner than this after a multi-finger touch ended is its last finger.
pub const LIFT_GAP_MS: u64 = 300;

// The change of the finger separation that makes two fingers a pinch, and the downward travel of the
// centroid that makes them none, pixels: whichever comes first, and the pinch where both do.
pub(crate) const PINCH_MIN: u16 = 20;

pub(crate) const PINCH_SWIPE: u16 = 30;

// The spans that a Pinch tells.
pub(crate) const SPAN_LEAST: u16 = 1;

pub(crate) const SPAN_MOST: u16 = 999;

// Minimum downward centroid travel of a swipe with two and with three fingers, pixels, and the longest time from
// the first to the last of its reports that count.
pub(crate) const MULTI_MIN_2: u16 = 60;

pub(crate) const MULTI_MIN_3: u16 = 30;

pub(crate) const MULTI_MAX_MS: u64 = 2000;
