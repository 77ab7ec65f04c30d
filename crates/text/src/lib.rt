// The text of a played trace: what the trace program prints, as bytes. A trace is read record by record, each
// call is made on a tracker, and each answer that has something to say becomes a line. The words of a gesture are also
// given alone, for programs that print other lines.
#![tactic(auto)]

mod gestures;
mod lines;
mod playing;
mod words;

pub use gestures::{GestureText, WORDS_MOST, gesture_text};
pub use playing::{INPUT_MOST, TEXT_MOST, input_most, play, text_most};
