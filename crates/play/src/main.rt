// The trace program: plays the trace on standard input on a fresh tracker, and prints what comes of it. What it prints is
// decided by text::play; here is only the reading and the writing. What went wrong is a line on standard error, by which the
// script `play` knows it, and the exit status 1.
#![tactic(auto)]

use std::alloc::AllocError;
use std::io::Read;
use std::process::ExitCode;
use text::{INPUT_MOST, input_most, text_most};

// Room for the longest trace, one byte more, by which a longer one is known, and one for the read that finds its end.
const ROOM: usize = INPUT_MOST as usize + 1;

fn main(rt: HostRuntime) -> Result<ExitCode, AllocError> {
    let mut input = Vec::with_capacity(rt.alloc(), ROOM)?;
    // A trace cut by a failed read would be played as a shorter one.
    if rt
        .stdin()
        .take(input_most())
        .read_to_end(&mut input)
        .is_err()
    {
        let _ = eprintln!(rt; "play: standard input cannot be read");
        return Ok(ExitCode::FAILURE);
    }
    let mut out = vec![in rt.alloc(); 0u8; text_most()]?;
    match text::play(&input, &mut out) {
        Ok(k) => {
            if rt.write_all(&out[..k]).is_err() {
                let _ = eprintln!(rt; "play: standard output cannot be written");
                return Ok(ExitCode::FAILURE);
            }
            Ok(ExitCode::SUCCESS)
        }
        Err(_) => Ok(ExitCode::SUCCESS),
    }
}
