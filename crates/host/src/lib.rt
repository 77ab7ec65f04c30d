// What a host's C main loop calls: each function takes the area of bytes that holds the tracker, and numbers, and gives
// a refusal number, or 0; the numbers of the answer go into an array that the caller lends. docs/IMAGE.md has both.
#![tactic(auto)]

mod calibration;
mod calls;
mod widths;

pub use calibration::touch_apply16;
pub use calls::{
    touch_capture, touch_capture_direct, touch_event, touch_fresh, touch_grab_ms, touch_raw_next,
    touch_set_grab_ms, touch_tick,
};
pub use image::ANSWER_NUMBERS;
