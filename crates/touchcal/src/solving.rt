// The least squares' solution: the affine map nearest to the pairs, in f32, and then in steps.
ghost use Rattle.std.specs.Prelude.{◌≡◌, ◌≤◌, length};
ghost use Rattle.calmap.specs.Sizes.{longest};
ghost use Rattle.touchcal.specs.Solutions.{det_of, spreads, coefs_of, deltas_of, solved_of};

use crate::floats::{CoefPlace, Coefs};
use crate::moments::{Moments, Sums};
use crate::{floats, moments};
use calmap::{Aim, Cal};

// The fewest pairs that have an affine map.
const FEWEST: usize = 3;

// Raw taps whose determinant is at most this part of the two spreads' product are on one line.
const THIN: f32 = 1e-3;

// Raw taps whose squares along x or along y add up to less than this are in one place there.
const LEAST: f32 = 1.0;

// Why pairs come to no calibration.
#[derive(Clone, Copy, Debug, PartialEq, Eq)]
pub enum Unsolved {
    // Fewer than three pairs.
    Few,
    // The raw taps are on one line, or nearly so, or too close together.
    Line,
    // A coefficient is too large for steps: the first of them, a to f.
    Steep(CoefPlace),
}

// The determinant of the sums.
fn det(s: Sums) -> f32
    ensures { result ≡ det_of s }
{
    s.sxx * s.syy - s.sxy * s.sxy
}

// Whether the raw taps are spread over a plane: no NaN passes.
fn is_spread(s: Sums) -> bool
    ensures { result ≡ spreads s }
{
    let thin = THIN * s.sxx * s.syy;
    det(s) > thin && !(s.sxx < LEAST) && !(s.syy < LEAST)
}

// The coefficients of the map.
fn plane(w: Moments) -> Coefs
    ensures { result ≡ coefs_of w }
{
    let m = w.means;
    let s = w.sums;
    let det = det(s);
    let a = (s.sxu * s.syy - s.syu * s.sxy) / det;
    let b = (s.syu * s.sxx - s.sxu * s.sxy) / det;
    let d = (s.sxv * s.syy - s.syv * s.sxy) / det;
    let e = (s.syv * s.sxx - s.sxv * s.sxy) / det;
    let c = m.mu - a * m.mx - b * m.my;
    let f = m.mv - d * m.mx - e * m.my;
    Coefs { a, b, c, d, e, f }
}

// Their differences from the identity. Beside `off_identity` of floats, as that comment says.
fn deltas(v: Coefs) -> Coefs
    ensures { result ≡ deltas_of v }
{
    Coefs {
        a: v.a - 1.0,
        e: v.e - 1.0,
        ..v
    }
}

// The calibration nearest to the pairs, or why there is none.
pub(crate) fn solve(pairs: &[Aim]) -> Result<Cal, Unsolved>
    requires { length pairs.now ≤ longest }
    ensures { result ≡ solved_of pairs.now }
{
    if pairs.len() < FEWEST {
        return Err(Unsolved::Few);
    }
    let w = moments::moments_of(pairs);
    if !is_spread(w.sums) {
        return Err(Unsolved::Line);
    }
    floats::in_steps(deltas(plane(w))).map_err(Unsolved::Steep)
}
