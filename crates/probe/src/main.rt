// Makes the calls that standard input names on the proved functions, and prints a line for each. One tracker
// and one pending record live through the run.
#![tactic(auto)]

mod calibration;
mod ended;
mod geometry;
mod reader;
mod replies;
mod run;
mod tracker;

use ended::Ended;
use numbers::Stop;
use panel::Refusal;
use reader::Reader;
use run::Run;
use std::io;
use std::io::{Read, Write};

// The most bytes that a run may have.
const INPUT_MOST: u64 = 1_048_576;

// Room for those, for one more, by which a longer run is known, and for the read that finds the input's end.
const ROOM: usize = INPUT_MOST as usize + 2;

// Lines are gathered and written out from this many bytes on: each time at once, so that a write that fails is the last.
const GATHERED: usize = 64_512;

// What the buffer has room for: lines that are not written yet, and the longest one, which is under 400 bytes.
const LINES_ROOM: usize = GATHERED + 1024;

// Standard input, or so much of it that it is seen to be too long.
fn input(rt: &HostRuntime) -> io::Result<Vec<u8>> {
    let mut bytes = Vec::with_capacity(rt.alloc(), ROOM)?;
    rt.stdin().take(INPUT_MOST + 1).read_to_end(&mut bytes)?;
    Ok(bytes)
}

// Writes the lines out that were gathered.
fn write(rt: &HostRuntime, lines: &mut Vec<u8>) -> io::Result<()> {
    rt.write_all(lines)?;
    lines.clear();
    Ok(())
}

// Makes the calls and prints their lines: how many there were.
fn calls(rt: &HostRuntime, s: &[u8], lines: &mut Vec<u8>) -> Result<usize, Ended> {
    if INPUT_MOST < s.len() as u64 {
        return Err(Ended::Stopped(Stop {
            why: Refusal::File,
            at: 0,
        }));
    }
    let mut run = Run::new();
    let mut r = Reader::new(rt.alloc(), s);
    // A call takes a byte or more, so there are no more of them than bytes.
    for made in 0..s.len() {
        if r.is_at_end() {
            return Ok(made);
        }
        let reply = run.call(&mut r)?;
        writeln!(lines, "{} {reply}", made + 1)?;
        if GATHERED <= lines.len() {
            write(rt, lines)?;
        }
    }
    Ok(s.len())
}

// The lines of the calls, and the last one.
fn play(rt: &HostRuntime, s: &[u8], lines: &mut Vec<u8>) -> io::Result<()> {
    match calls(rt, s, lines) {
        Ok(made) => writeln!(lines, "end {made}")?,
        Err(Ended::Stopped(stop)) => writeln!(
            lines,
            "stopped {} at {}",
            u8::from(stop.why),
            stop.at
        )?,
        Err(Ended::Failed(e)) => return Err(e),
    }
    write(rt, lines)
}

fn main(rt: HostRuntime) -> io::Result<()> {
    let s = input(&rt)?;
    let mut lines = Vec::with_capacity(rt.alloc(), LINES_ROOM)?;
    play(&rt, &s, &mut lines)
}
