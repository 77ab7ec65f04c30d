// Words and numbers of a line, into lent room from a place on. Each function answers where it ended. Here and in
// gestures and lines the room and the place are two arguments, and how much a function needs stands in its contract:
// each contract says `Written out.old at bytes result out.new`, and a struct of room and place would say the same of
// its fields. The bound small_end stands in each too: a type of the numbers below it would be made of a u16 or a count
// at each call.
ghost use Rattle.std.specs.Prelude.{◌≡◌, [], ◌∷◌, ◌+◌, ◌≤◌, ◌<◌, length};
ghost use Rattle.text.specs.Sizes.{most_digits, small_end, small_digits};
ghost use Rattle.text.specs.Words.{newline, digits_by, decimal, letter_of, spaced};
ghost use Rattle.text.specs.code.Written.{Written};

use panel::{Axis, Point};

// The digit 0, as it is written.
const ZERO: u64 = 48;

// The most digits that a number has.
const DIGITS_MOST: u64 = 20;

// The digits of v, at most `left` of them, the highest first. By recursion, as digits_by is: the highest digit is
// written first and known last.
fn digits(out: &mut [u8], at: usize, v: u64, left: u64) -> usize
    requires { at + length (digits_by left v) ≤ length out.old }
    ensures { Written out.old at (digits_by left v) result out.new }
{
    if left == 0 {
        return at;
    }
    if v < 10 {
        out[at] = (v + ZERO) as u8;
        return at + 1;
    }
    let a = digits(out, at, v / 10, left - 1);
    out[a] = (v % 10 + ZERO) as u8;
    a + 1
}

// A number. Most have four digits or fewer, and these are written straight away. By hand, since the room is lent bytes:
// std's Display wants a writer, which would keep the place a second time.
pub(crate) fn number(out: &mut [u8], at: usize, v: u64) -> usize
    requires { (v < small_end) × (at + small_digits ≤ length out.old) }
    ensures written { Written out.old at (decimal v) result out.new }
    ensures upper_bound { result ≤ at + small_digits }
    ensures upper_bound_2 { v < 100 → result ≤ at + 2 }
{
    if v < 10 {
        out[at] = (v + ZERO) as u8;
        return at + 1;
    }
    if v < 100 {
        out[at] = (v / 10 + ZERO) as u8;
        out[at + 1] = (v % 10 + ZERO) as u8;
        return at + 2;
    }
    if v < 1000 {
        out[at] = (v / 10 / 10 + ZERO) as u8;
        out[at + 1] = (v / 10 % 10 + ZERO) as u8;
        out[at + 2] = (v % 10 + ZERO) as u8;
        return at + 3;
    }
    if v < 10000 {
        out[at] = (v / 10 / 10 / 10 + ZERO) as u8;
        out[at + 1] = (v / 10 / 10 % 10 + ZERO) as u8;
        out[at + 2] = (v / 10 % 10 + ZERO) as u8;
        out[at + 3] = (v % 10 + ZERO) as u8;
        return at + 4;
    }
    digits(out, at, v, DIGITS_MOST)
}

// The bytes of a word.
pub(crate) fn say(out: &mut [u8], at: usize, w: &[u8]) -> usize
    requires { at + length w.now ≤ length out.old }
    ensures { Written out.old at w.now result out.new }
{
    let end = at + w.len();
    out[at..end].copy_from_slice(w);
    end
}

// A word, with the space before it.
pub(crate) fn word(out: &mut [u8], at: usize, w: &[u8]) -> usize
    requires { at + 1 + length w.now ≤ length out.old }
    ensures written { Written out.old at (spaced (w.now ∷ [])) result out.new }
    ensures value { result ≡ at + 1 + length w.now }
{
    out[at] = b' ';
    say(out, at + 1, w)
}

// A number, with the space before it. Apart from `large` by their bounds: this one's room is of small_digits, and that
// one's of most_digits.
pub(crate) fn value(out: &mut [u8], at: usize, v: u64) -> usize
    requires { (v < small_end) × (at + 1 + small_digits ≤ length out.old) }
    ensures written { Written out.old at (spaced (decimal v ∷ [])) result out.new }
    ensures upper_bound { result ≤ at + 1 + small_digits }
    ensures upper_bound_2 { v < 100 → result ≤ at + 3 }
{
    out[at] = b' ';
    number(out, at + 1, v)
}

// A number of any size, with the space before it.
pub(crate) fn large(out: &mut [u8], at: usize, v: u64) -> usize
    requires { at + 1 + most_digits ≤ length out.old }
    ensures written { Written out.old at (spaced (decimal v ∷ [])) result out.new }
    ensures upper_bound { result ≤ at + 1 + most_digits }
{
    out[at] = b' ';
    digits(out, at + 1, v, DIGITS_MOST)
}

// A point's x and y. By `as`: after u64::from the proof is left with from's result, where words-then wants the number.
pub(crate) fn place(out: &mut [u8], at: usize, p: Point) -> usize
    requires { at + 2 + small_digits + small_digits ≤ length out.old }
    ensures written { Written out.old at (spaced (decimal p.x ∷ decimal p.y ∷ [])) result out.new }
    ensures upper_bound { result ≤ at + 2 + small_digits + small_digits }
{
    let a = value(out, at, p.x as u64);
    value(out, a, p.y as u64)
}

// The byte of an axis, in the text alone: the programs print the axis in words of their own, the probe with `-` for
// none.
#[tactic(auto, unfolding(crate::specs::Words::letter_of))]
fn letter(a: Axis) -> u8
    ensures { result ≡ letter_of a }
{
    match a {
        Axis::H => b'H',
        Axis::V => b'V',
    }
}

pub(crate) fn axis(out: &mut [u8], at: usize, a: Axis) -> usize
    requires { at + 2 ≤ length out.old }
    ensures written { Written out.old at (spaced ((letter_of a ∷ []) ∷ [])) result out.new }
    ensures value { result ≡ at + 2 }
{
    out[at] = b' ';
    out[at + 1] = letter(a);
    at + 2
}

// The end of a line.
pub(crate) fn finish(out: &mut [u8], at: usize) -> usize
    requires { at + 1 ≤ length out.old }
    ensures written { Written out.old at (newline ∷ []) result out.new }
    ensures value { result ≡ at + 1 }
{
    out[at] = b'\n';
    at + 1
}
