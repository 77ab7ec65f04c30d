// The fit of lent lists: it takes them apart and leaves the rest to the functions over arrays by value.
ghost use Rattle.std.specs.Prelude.{◌≡◌};
ghost use Rattle.calmap.specs.Resids.{pairs_of};
ghost use Rattle.touchcal.specs.Fits.{fit_of};

use crate::fitting;
use crate::fitting::{Fit, Unfit};
use calmap::Tap;
use panel::Point;

// The least-squares fit of raw taps to their targets, as many as the shorter list has, judged over
// the check points.
pub fn fit(raw: &[Tap], tgt: &[Tap], targets: &[Point]) -> Result<Fit, Unfit>
    ensures { result ≡ fit_of (pairs_of raw.now tgt.now) targets.now }
{
    fitting::fit_held(calmap::pairs_of(raw, tgt), calmap::points_of(targets))
}
