// Makes the calls that bench/run counts the instructions of. Standard input has numbers as in the trace: which row,
// how many calls, and then what the row takes. What comes back of each call goes into
// one number, which is printed: the Rust beside it prints the same.
//
// Nothing comes from the heap: what is read stands in arrays, with a count of the places in use. So no row can run out of
// memory, and the loops that are counted find the array at the stack pointer: the pointer and the length of a vector, spilled
// there, took five instructions more for a report of keys.
#![tactic(auto)]

mod fits;
mod fold;
mod rounds;
mod rows;
mod tracker;
mod values;

ghost use Rattle.std.specs.Prelude.{◌+◌, ◌≤◌, length, IfOk};
ghost use Rattle.std.specs.Counts.{IsPrefixLen};

use std::io;
use std::io::{Read, Stdin};

// What standard input may have; more is not read.
const INPUT_MOST: usize = 4096;

// One read into the room from a place on: how many bytes came, none where the input ends.
fn read_on(from: &mut Stdin, room: &mut [u8], at: usize) -> io::Result<usize>
    requires { at ≤ length room.old }
    ensures { IfOk result (λ n. at + n ≤ length room.old) }
{
    from.read(&mut room[at..])
}

// Reads until the room is full or the input ends: how many bytes stand at its start.
fn read_full(from: &mut Stdin, room: &mut [u8]) -> io::Result<usize>
    ensures { IfOk result (λ n. IsPrefixLen n room.new) }
{
    let mut n = 0;
    while n < room.len() {
        let more = read_on(from, room, n)?;
        if more == 0 {
            return Ok(n);
        }
        n += more;
    }
    Ok(n)
}

// A row by its number, which is its name outside.
fn row(s: &[u8], kind: u64, calls: u64, at: usize) -> u64 {
    match kind {
        1 => tracker::reports(rounds::calls_at(s, at).in_use(), calls),
        2 => rows::apply16(values::all(s, at, rows::LEAST).in_use(), calls),
        3 => rows::isqrt(values::all(s, at, 0).in_use(), calls),
        4 => rows::q16(values::all(s, at, 0).in_use(), calls),
        5 => fits::fit(values::all(s, at, fits::NUMBERS).in_use(), calls),
        6 => tracker::ticks(rounds::calls_at(s, at).in_use(), calls),
        _ => 0,
    }
}

// 0 where there is no row.
fn measured(s: &[u8]) -> u64 {
    let Ok((kind, at)) = numbers::number_at(s, 0, numbers::MOST_64) else {
        return 0;
    };
    let Ok((calls, at)) = numbers::number_at(s, at, numbers::MOST_64) else {
        return 0;
    };
    row(s, kind, calls, at)
}

fn main(rt: HostRuntime) -> io::Result<()> {
    let mut room = [0u8; INPUT_MOST];
    let n = read_full(&mut rt.stdin(), &mut room)?;
    let sum = measured(&room[..n]);
    print!(rt; "{sum}")
}
