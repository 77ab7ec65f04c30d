// The map of a point through a calibration, in sixteenths of a pixel.
ghost use Rattle.std.specs.Prelude.{◌≡◌, true};
ghost use Rattle.calmap.specs.Wide.{in16};
ghost use Rattle.calmap.specs.Units.{down_twelve};
ghost use Rattle.calmap.specs.Maps.{line, line_fits, apply_of};
ghost use Rattle.calmap.specs.code.Checked.{line_of, map_fits, spot_of, few_pixels, few_steps, small, slight};

use crate::checked;
use crate::units::{Cal, Q16, Sixteenths};
use panel::Refusal;

// A place in sixteenths of a pixel: x, then y.
#[derive(Clone, Copy, Debug, PartialEq, Eq)]
pub struct Spot(pub Sixteenths, pub Sixteenths);

// Pixels, and steps of a shift, each way. With fewer of them, and with coefficients of i16, the products and k are
// below 2^29 and a little, 2^28, 2^28 and 2^29, and no sum of them leaves i32.
const NEAR: i32 = 8192;

const SHORT: Q16 = Q16(536870912);

// Whether v is one of i16. By the range: with `i16::try_from(v).is_ok()` that it is what the definition `in16` says was
// left open.
fn in_i16(v: i32) -> bool
    ensures { result ≡ in16 v }
{
    (-32768..32768).contains(&v)
}

// v·65536 + p·x + q·y + k in i32, from left to right. It takes one by one what `line` of specs/Maps.antt does. p, q and
// k are a row of the six numbers, which document 01 counts c0 to c5. `nudge` of screens has three of these terms and a
// half: one function of both would add a zero here.
fn line(v: i32, p: Q16, q: Q16, k: Q16, x: i32, y: i32) -> Option<Q16>
    ensures { result ≡ line_of v p q k x y }
{
    let a = checked::add(checked::whole(v)?, checked::scaled(p, x)?)?;
    let b = checked::add(a, checked::scaled(q, y)?)?;
    checked::add(b, k)
}

// Whether none of its products and partial sums leaves i32.
fn line_fits(v: i32, p: Q16, q: Q16, k: Q16, x: i32, y: i32) -> bool
    ensures { result ≡ line_fits v p q k x y }
{
    line(v, p, q, k, x, y).is_some()
}

// Whether (x, y) has a place through c, looked at product by product and sum by sum. It stands apart, since it is
// seldom asked: inside `fits` it would keep that one out of those that call it, which then take more instructions.
#[cold]
#[inline(never)]
fn both_fit(c: Cal, x: i32, y: i32) -> bool
    ensures { result ≡ map_fits c x y }
{
    in_i16(x)
        && in_i16(y)
        && line_fits(x, c.c0, c.c1, c.c2, x, y)
        && line_fits(y, c.c3, c.c4, c.c5, x, y)
}

// Whether v is on a panel, or not far off it.
fn few_pixels(v: i32) -> bool
    ensures { result ≡ few_pixels v }
{
    (-NEAR..NEAR).contains(&v)
}

// Whether a shift is not far.
fn few_steps(q: Q16) -> bool
    ensures { result ≡ few_steps q }
{
    (-SHORT.0..SHORT.0).contains(&q.0)
}

// Whether a scale or a cross term is less than a half off.
fn is_small(q: Q16) -> bool
    ensures { result ≡ small q }
{
    in_i16(q.0)
}

// Whether a calibration is slight: scales and cross terms less than a half off, and shifts not far. What `check` passes
// at a target is. Its tests are joined by `&`, where others are by `&&`: with that, `resid` of nine taps takes 13
// instructions more, and a fit twice as many.
fn is_slight(c: Cal) -> bool
    ensures { result ≡ slight c }
{
    let scales = is_small(c.c0) & is_small(c.c1) & is_small(c.c3) & is_small(c.c4);
    scales & few_steps(c.c2) & few_steps(c.c5)
}

// Whether (x, y) has a place through c: none of the products and partial sums leaves i32. Few pixels through a
// slight calibration have, without a look at them.
pub(crate) fn fits(c: Cal, x: i32, y: i32) -> bool
    ensures { result ≡ map_fits c x y }
{
    is_slight(c) && few_pixels(x) && few_pixels(y) || both_fit(c, x, y)
}

// v·65536 + p·x + q·y + k where it fits: what `line` is Some of, for those that have asked `fits`.
fn line_at(v: i32, p: Q16, q: Q16, k: Q16, x: i32, y: i32) -> Q16
    requires { line_fits v p q k x y ≡ true }
    ensures { result ≡ line v p q k x y }
{
    let a = checked::sum_at(checked::whole_at(v), checked::scaled_at(p, x));
    let b = checked::sum_at(a, checked::scaled_at(q, y));
    checked::sum_at(b, k)
}

// Steps down by twelve places, toward minus infinity, are sixteenths. Document 01 wants a signed right shift here and
// in `down_sixteen` of screens: a function of both would lose the unit, which is another for each.
fn down_twelve(q: Q16) -> Sixteenths
    ensures { result ≡ down_twelve q }
{
    Sixteenths(q.0 >> 12)
}

// The place of (x, y) through c.
pub(crate) fn spot_at(c: Cal, x: i32, y: i32) -> Spot
    requires { map_fits c x y ≡ true }
    ensures { result ≡ spot_of c x y }
{
    let u = line_at(x, c.c0, c.c1, c.c2, x, y);
    let v = line_at(y, c.c3, c.c4, c.c5, x, y);
    Spot(down_twelve(u), down_twelve(v))
}

// The point (x, y) through c, in sixteenths of a pixel, held to nothing.
pub fn apply16(c: Cal, x: i32, y: i32) -> Result<Spot, Refusal>
    ensures { result ≡ apply_of c x y }
{
    if fits(c, x, y) {
        return Ok(spot_at(c, x, y));
    }
    Err(Refusal::Wide)
}
