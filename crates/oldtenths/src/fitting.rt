// The fit, measured by the old tenths.
ghost use Rattle.std.specs.Prelude.{◌≡◌};
ghost use Rattle.touchcal.specs.code.Arrays.{fit_first_by};
ghost use Rattle.oldtenths.specs.OldTenths.{old_tenths_of};

use crate::gaps::Old;
use calmap::{Aim, MAX_TAPS};
use panel::Point;
use touchcal::{Fit, Unfit};

// `fit` of the first n pairs, judged over the first m targets. Arrays by value, each with its count, as
// `touchcal::fit_of` takes them (document 01, "The form each place takes").
pub fn old_fit_of(
    pairs: [Aim; MAX_TAPS],
    n: usize,
    targets: [Point; MAX_TAPS],
    m: usize,
) -> Result<Fit, Unfit>
    ensures { result ≡ fit_first_by old_tenths_of n pairs m targets }
{
    touchcal::fit_by::<Old>(pairs, n, targets, m)
}
