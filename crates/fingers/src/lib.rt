// What fingers and keys come to, rule by rule: the side keys, one finger, its hold and its release, several
// fingers, and the pair that tells a pinch. Each rule works on the part of the tracker that it alters; the
// crate gesture above keeps the tracker and decides which rule a call goes by. Most contracts name a definition of
// specs/: the attribute at a module's head names those that its proofs open, and `follow`, the laws that they go by.
#![tactic(auto)]

mod gestures;
mod hold;
mod keys;
mod later;
mod notes;
mod one;
mod pair;
mod releases;
mod settings;
mod several;
mod thresholds;

pub use gestures::{Gesture, Note, Outcome};
pub use hold::{elapsed, held_still};
pub use keys::{Keys, key_step};
pub use later::later_report;
pub use notes::NOTE_RESIDUAL;
pub use one::{App, One, OneStep, reset, untaken, with_capture, with_direct};
pub use pair::{Pair, new_pair};
pub use releases::release;
pub use settings::{Settings, unset, with_grab_ms, with_raw};
pub use several::{Multi, MultiStep, multi_end, multi_from, three_fingers, two_fingers};
pub use thresholds::{GRAB_MOST_MS, LIFT_GAP_MS};
