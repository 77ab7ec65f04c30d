// How far two points are apart: the larger of the two differences, which every threshold of the
// tracker is held against, and the square of the straight line, by which fingers keep their names.
ghost use Rattle.std.specs.Prelude.{◌≡◌, ◌*◌, ◌≤◌, max, pos, nat_abs, ◌-ℤ◌};
ghost use Rattle.panel.specs.Distances.{difference, distance, distance2, dist_of, dist2_of};

use crate::points;
use crate::points::Point;
use crate::refusals::Refusal;

// How far two coordinates are apart. It has a name, as the definition `difference` has.
pub fn gap(a: u16, b: u16) -> u16
    ensures { result ≡ difference a b }
{
    a.abs_diff(b)
}

// The way from one coordinate to another, below 0 where it leads back.
fn offset(a: u16, b: u16) -> i32
    ensures { result ≡ pos b -ℤ pos a }
{
    i32::from(b) - i32::from(a)
}

// The square of a number. It is formed at 64 bits, where it always fits: at most 2^62. Both signs have the same, so
// that nothing has to be turned first.
pub fn square(d: i32) -> u64
    ensures { (result ≡ nat_abs d * nat_abs d) × (result ≤ 4611686018427387904) }
{
    let w = i64::from(d);
    (w * w) as u64
}

// The two measures of document 01, `apart` and `apart2`: a line each, and what they share is the signature.

// What dist answers, for points that are known to be on the panel or need not be.
pub fn apart(p: Point, q: Point) -> u32
    ensures { result ≡ distance p q }
{
    u32::from(gap(p.x, q.x).max(gap(p.y, q.y)))
}

// What dist2 answers, for points that are known to be on the panel or need not be.
pub fn apart2(p: Point, q: Point) -> u64
    ensures { result ≡ distance2 p q }
{
    square(offset(p.x, q.x)) + square(offset(p.y, q.y))
}

// `dist` and `dist2`: two calls of document 01, each with its definition. A function of both, which takes the measure
// as a closure, would be as long as the two tests.

// The larger of the two differences of two points on the panel.
pub fn dist(p: Point, q: Point) -> Result<u32, Refusal>
    ensures { result ≡ dist_of p q }
{
    if points::on_panel(p) && points::on_panel(q) {
        Ok(apart(p, q))
    } else {
        Err(Refusal::Panel)
    }
}

// The squared straight-line distance of two points on the panel.
pub fn dist2(p: Point, q: Point) -> Result<u32, Refusal>
    ensures { result ≡ dist2_of p q }
{
    if points::on_panel(p) && points::on_panel(q) {
        Ok(apart2(p, q) as u32)
    } else {
        Err(Refusal::Panel)
    }
}
