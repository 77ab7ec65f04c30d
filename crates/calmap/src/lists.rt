// The calls of document 01 that take lent lists of points. Each looks into the lists and leaves the rest
// to the functions over arrays by value.
ghost use Rattle.std.specs.Prelude.{◌≡◌};
ghost use Rattle.calmap.specs.Resids.{pairs_of, resid_of};
ghost use Rattle.calmap.specs.Checks.{check_of};
ghost use Rattle.calmap.specs.code.Arrays.{held_points, held_pairs};

use crate::arrays;
use crate::arrays::Held;
use crate::limits::Verdict;
use crate::residuals::Spread;
use crate::units::{Aim, Cal, Tap};
use panel::{Point, Refusal};

// The points of a list.
pub fn points_of(s: &[Point]) -> Held<Point>
    ensures { result ≡ held_points s.now }
{
    Held::of(s, Point { x: 0, y: 0 })
}

// The taps of a list and their targets, as many as the shorter list has.
pub fn pairs_of(raw: &[Tap], tgt: &[Tap]) -> Held<Aim>
    ensures { result ≡ held_pairs raw.now tgt.now }
{
    let none = Tap { x: 0, y: 0 };
    arrays::pair_up(Held::of(raw, none), Held::of(tgt, none))
}

// Mean and largest distance of the taps, through c, from their targets.
pub fn resid(c: Cal, raw: &[Tap], tgt: &[Tap]) -> Result<Spread, Refusal>
    ensures { result ≡ resid_of c (pairs_of raw.now tgt.now) }
{
    arrays::resid_held(c, pairs_of(raw, tgt))
}

// The verdict on c: scales and cross terms, then the shift at each target.
pub fn check(c: Cal, targets: &[Point]) -> Result<Verdict, Refusal>
    ensures { result ≡ check_of c targets.now }
{
    arrays::check_held(c, points_of(targets))
}
