// The integer square root of every u64, a binary digit at a time, with shifts and subtraction, and no division of 64
// bits, for which a controller without that instruction calls a routine. `u64::isqrt` goes 32 turns for any number;
// this goes one for each pair of digits, and takes 115.3 instructions, of at most 0.6 times the Rust's 235.1
// (docs/BENCH.md).
ghost use Rattle.std.specs.Prelude.{◌≡◌, ℕ, ◌*◌, ◌^◌, ◌≤◌, ◌<◌};
ghost use Rattle.calmap.specs.Roots.{root_of};

// What the highest pair of binary digits that v has counts: a power of four.
fn top_pair(v: u64) -> u64
    requires { 0 < v }
    ensures { (result ≤ v) × (v < 4 * result) × (result ≤ 2 ^ 62) × ((n : ℕ) × (result ≡ 4 ^ n)) }
{
    1u64 << ((63 - u64::leading_zeros(v)) >> 1 << 1)
}

// The largest r with r * r <= v, from its highest binary digit down: one for each pair of v's, and the first is 1. With
// a for the root so far and b for what its next digit counts, `bit` is b * b, `root` is 2 * a * b and `rest` is v - a *
// a. A digit 1 makes a square of (a + b) * (a + b), which has `root + bit` more. Behind the last digit b is a half, so
// that `bit` is 0 and `root` is a. The two digits go round the loop each its own way: where they are joined, the
// compiler makes moves of the test, and takes more instructions.
pub fn isqrt(v: u64) -> u64
    ensures { result ≡ root_of v }
{
    if v == 0 {
        return 0;
    }
    let first = top_pair(v);
    let mut bit = first >> 2;
    let mut root = first;
    let mut rest = v - first;
    while bit != 0 {
        let next = root + bit;
        if rest < next {
            root = root >> 1;
            bit = bit >> 2;
            continue;
        }
        rest = rest - next;
        root = (root >> 1) + bit;
        bit = bit >> 2;
    }
    root
}
