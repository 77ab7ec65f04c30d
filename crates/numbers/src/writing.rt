// Numbers into lent bytes. How long they are is known before a byte is written: numbers that do not fit leave the room
// as it was.
//
// Room and place stand apart in every function here: the contracts speak of both (`wrote_of out.old at`), the caller
// goes on at the answer, and a struct of them would be made by each caller and taken apart again.
ghost use Rattle.std.specs.Prelude.{◌≡◌, ◌+◌, ◌≤◌, length};
ghost use Rattle.std.proofs.lemmas.List.Edits.{sets};
ghost use Rattle.numbers.specs.Numbers.{bytes_of, bytes_of_all};
ghost use Rattle.numbers.specs.Writing.{wrote_of, written_of};

use crate::sizes::{GROUP, MOST_GROUPS};
use panel::Refusal;

// How many bytes the number takes. By recursion, as its bytes are defined: a loop would keep what is left of v and the
// count so far, and be no shorter.
#[tactic(auto, using(crate::proofs::Bytes::bytes))]
pub fn length_of(v: u64) -> usize
    ensures { result ≡ length (bytes_of v) }
{
    if v < GROUP {
        return 1;
    }
    length_of(v / GROUP) + 1
}

// Writes the bytes of v from `at` on, and answers where they end. By recursion: v is divided as it is written, and a
// loop would keep the place and what is left of v, which are the two arguments here. It would be no plainer.
#[tactic(auto, using(crate::proofs::Bytes::bytes))]
fn put(out: &mut [u8], at: usize, v: u64) -> usize
    requires { at + length (bytes_of v) ≤ length out.old }
    ensures value { result ≡ at + length (bytes_of v) }
    ensures out_after { out.new ≡ sets out.old at (bytes_of v) }
{
    if v < GROUP {
        out[at] = v as u8;
        return at + 1;
    }
    out[at] = (GROUP + v % GROUP) as u8;
    put(out, at + 1, v / GROUP)
}

// How many bytes the numbers take.
#[tactic(auto, using(crate::proofs::Bytes::bytes, crate::proofs::Bytes::pieces))]
fn total(v: &[u64]) -> usize
    ensures { result ≡ length (bytes_of_all v.now) }
{
    let mut sum = 0;
    for x in v {
        sum += length_of(*x);
    }
    sum
}

// Writes the numbers from `at` on, and answers where they end.
#[tactic(auto, using(crate::proofs::Bytes::pieces))]
fn put_all(out: &mut [u8], at: usize, v: &[u64]) -> usize
    requires { at + length (bytes_of_all v.now) ≤ length out.old }
    ensures value { result ≡ at + length (bytes_of_all v.now) }
    ensures out_after { out.new ≡ sets out.old at (bytes_of_all v.now) }
{
    let mut to = at;
    for x in v {
        to = put(out, to, *x);
    }
    to
}

// Writes a number from `at` on, where there is room for all of it. Where there is room for any number it is written
// straight away: how long this one is need not be known before.
pub fn put_number(out: &mut [u8], at: usize, v: u64) -> Result<usize, Refusal>
    ensures value { result ≡ wrote_of out.old at (bytes_of v) }
    ensures out_after { out.new ≡ written_of out.old at (bytes_of v) }
{
    if out.len() < at {
        return Err(Refusal::Room);
    }
    let room = out.len() - at;
    if room < MOST_GROUPS as usize && room < length_of(v) {
        return Err(Refusal::Room);
    }
    Ok(put(out, at, v))
}

// Writes numbers one after another from `at` on, where there is room for all of them.
pub fn put_numbers(out: &mut [u8], at: usize, v: &[u64]) -> Result<usize, Refusal>
    ensures value { result ≡ wrote_of out.old at (bytes_of_all v.now) }
    ensures out_after { out.new ≡ written_of out.old at (bytes_of_all v.now) }
{
    let n = total(v);
    if out.len() < at || out.len() - at < n {
        return Err(Refusal::Room);
    }
    Ok(put_all(out, at, v))
}
