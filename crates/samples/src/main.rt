// Named traces with what they print. For each word NAME that it is started with the program plays NAME.trace, of the
// folder it runs in, and holds the text to NAME.txt byte for byte.
#![tactic(auto)]

use std::alloc::{AllocError, Global};
use std::env::{Env, FillError};
use std::fs::File;
use std::io;
use std::io::Read;
use text::{INPUT_MOST, input_most, text_most};

// Room for the longest trace, one byte more, by which a longer one is known, and one for the read that finds its end.
const ROOM: usize = INPUT_MOST as usize + 1;

// How much of a text is read at a time.
const PIECE: usize = 4096;

// The file NAME with an ending, opened for reading, if it can be.
fn open(rt: &HostRuntime, name: &str, ending: &str) -> Result<Option<File>, AllocError> {
    let path = format!(in rt.alloc(); "{name}{ending}")?;
    Ok(File::open(rt, path.as_str()).ok())
}

// The bytes of a trace. A read that fails ends it.
fn trace_in(alloc: Global, file: File) -> io::Result<Vec<u8>> {
    let mut bytes = Vec::with_capacity(alloc, ROOM)?;
    match file.take(input_most()).read_to_end(&mut bytes) {
        Err(e) if e.kind() == io::ErrorKind::OutOfMemory => Err(e),
        _ => Ok(bytes),
    }
}

// Whether a file holds the text and nothing more. It is read piece by piece, and no further than the first one that
// differs: it may be longer than memory is, or go on only when somebody writes to it.
fn holds(file: &mut File, text: &[u8]) -> bool {
    let mut room = [0u8; PIECE];
    for piece in text.chunks(PIECE) {
        let part = &mut room[..piece.len().min(PIECE)];
        if file.read_exact(part).is_err() || &*part != piece {
            return false;
        }
    }
    // a read that fails ends it
    file.read(&mut room).unwrap_or(0) == 0
}

// Whether the trace prints what the file has. A name that is no text names no file.
fn agrees(rt: &HostRuntime, name: &[u8]) -> io::Result<bool> {
    let Ok(name) = str::from_utf8(name) else {
        return Ok(false);
    };
    let Some(source) = open(rt, name, ".trace")? else {
        return Ok(false);
    };
    let trace = trace_in(rt.alloc(), source)?;
    let Some(mut told) = open(rt, name, ".txt")? else {
        return Ok(false);
    };
    let mut out = vec![in rt.alloc(); 0u8; text_most()]?;
    match text::play(&trace, &mut out) {
        Ok(k) => Ok(holds(&mut told, &out[..k])),
        Err(_) => Ok(false),
    }
}

fn hold(rt: &HostRuntime, name: &[u8]) -> io::Result<()> {
    let agrees = agrees(rt, name)?;
    rt.write_all(name)?;
    rt.write_all(if agrees { b" ok\n" } else { b" differs\n" })
}

// A word that is longer than the room for it names no file. The words are asked for by number: env::args refuses all of
// them where one is no UTF-8.
fn main(rt: HostRuntime) -> io::Result<()> {
    let mut name = [0u8; 4096];
    for i in 1..usize::MAX {
        match rt.arg(i, &mut name) {
            Ok(n) => hold(&rt, &name[..n])?,
            Err(FillError::TooLong) => hold(&rt, b"")?,
            Err(FillError::NotPresent) => break,
        }
    }
    Ok(())
}
