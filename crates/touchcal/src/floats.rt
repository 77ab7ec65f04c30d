// Coefficients as floats and as Q16 steps: what a technician reads and writes, and what is kept.
// Each operation is the Rust's, in its order, and rounds once.
ghost use Rattle.std.specs.Prelude.{◌≡◌, T, pos};
ghost use Rattle.std.specs.Float.Ieee.{lt, le};
ghost use Rattle.touchcal.specs.Binary32.{cut};
ghost use Rattle.touchcal.specs.Sizes.{half32, least32, most32};
ghost use Rattle.touchcal.specs.Floats.{half_away, q16_of, out_of, off_identity, to_f32_of, from_f32_of, identity};
ghost use Rattle.touchcal.specs.Solutions.{or_place, stepped_of};

use calmap::{Cal, Q16};
use panel::Refusal;

// Steps to the pixel, and to the factor 1.
const ONE: f32 = 65536.0;

// Steps from here on, either way, are refused, a little before the end of i32.
const TOO_MANY: f32 = 2.0e9;

// The first of a float's 24 digits, by its weight.
const FIRST: u32 = 8388608;

// The coefficients as numbers: x' = a x + b y + c, y' = d x + e y + f.
#[derive(Clone, Copy)]
pub struct Coefs {
    pub a: f32,
    pub b: f32,
    pub c: f32,
    pub d: f32,
    pub e: f32,
    pub f: f32,
}

// The place of a coefficient: 0 for a to 5 for f, as c0 to c5 are counted. A number and no enum: STEEP tells it as its
// value (document 02).
#[derive(Clone, Copy, Debug, PartialEq, Eq)]
pub struct CoefPlace(pub u8);

// t without its fraction, from its bits: t is `digits`·2^(exponent - 150), of 24 digits, the first of which the bits
// leave out. From a half to TOO_MANY the exponent is 126 to 157, so that with eight places more, 256, the shift is
// down for each of them.
fn whole(t: f32) -> u64
    requires { T (le half32 t) × T (le t most32) }
    ensures { pos result ≡ cut t }
{
    let bits = f32::to_bits(t);
    let exponent = bits / FIRST;
    let digits = FIRST + bits % FIRST;
    u64::from(digits * 256) >> (158 - exponent)
}

// s and a half, away from 0, without its fraction. Rounding does not look at the sign, so that -s gives the same below
// 0.
fn nearest(s: f32) -> i32
    requires { T (lt least32 s) × T (lt s most32) }
    ensures { result ≡ cut (half_away s) }
{
    if s < 0.0 {
        -(whole(-s + 0.5) as i32)
    } else {
        whole(s + 0.5) as i32
    }
}

// v in steps, to the nearest. NaN and what is too large are refused, so that the cut is always within i32.
pub fn q16(v: f32) -> Result<Q16, Refusal>
    ensures { result ≡ q16_of v }
{
    let s = v * ONE;
    if s > -TOO_MANY && s < TOO_MANY {
        return Ok(Q16(nearest(s)));
    }
    Err(Refusal::Huge)
}

// One coefficient as a number: its steps, and what the identity has in its place.
fn out(c: Q16, base: f32) -> f32
    ensures { result ≡ out_of base c.0 }
{
    std::num::nearest_i32_to_f32(c.0) / ONE + base
}

// The coefficients of a calibration as numbers.
pub fn to_f32(c: Cal) -> Coefs
    ensures { result ≡ to_f32_of c }
{
    Coefs {
        a: out(c.c0, 1.0),
        b: out(c.c1, 0.0),
        c: out(c.c2, 0.0),
        d: out(c.c3, 0.0),
        e: out(c.c4, 1.0),
        f: out(c.c5, 0.0),
    }
}

// A coefficient in steps, to the nearest, or its place where it is too large.
fn stepped(v: f32, place: CoefPlace) -> Result<Q16, CoefPlace>
    ensures { result ≡ or_place (q16_of v) place }
{
    q16(v).map_err(|_| place)
}

// Differences from the identity in steps, unless one of them is too large: then the place of the first that is.
pub(crate) fn in_steps(v: Coefs) -> Result<Cal, CoefPlace>
    ensures { result ≡ stepped_of v }
{
    Ok(Cal {
        c0: stepped(v.a, CoefPlace(0))?,
        c1: stepped(v.b, CoefPlace(1))?,
        c2: stepped(v.c, CoefPlace(2))?,
        c3: stepped(v.d, CoefPlace(3))?,
        c4: stepped(v.e, CoefPlace(4))?,
        c5: stepped(v.f, CoefPlace(5))?,
    })
}

// What is left of the coefficients when the identity is taken off. Beside `deltas` of solving, since each is the Rust's
// operations and has its definition: from_f32 takes 0.0 off too, the fit does not.
fn off_identity(v: Coefs) -> Coefs
    ensures { result ≡ off_identity v }
{
    Coefs {
        a: v.a - 1.0,
        b: v.b - 0.0,
        c: v.c - 0.0,
        d: v.d - 0.0,
        e: v.e - 1.0,
        f: v.f - 0.0,
    }
}

// The calibration that has these coefficients, NaN and too large ones refused.
pub fn from_f32(v: Coefs) -> Result<Cal, Refusal>
    ensures { result ≡ from_f32_of v }
{
    in_steps(off_identity(v)).map_err(|_| Refusal::Huge)
}

// No calibration: the identity, by a name, as the definition `identity` has one.
pub fn no_cal() -> Cal
    ensures { result ≡ identity }
{
    let none = Q16(0);
    Cal {
        c0: none,
        c1: none,
        c2: none,
        c3: none,
        c4: none,
        c5: none,
    }
}
