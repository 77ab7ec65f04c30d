// How far two places are apart, in tenths of a pixel.
ghost use Rattle.std.specs.Prelude.{◌≡◌, ℕ, ◌≤◌};
ghost use Rattle.calmap.specs.Distances.{gap_of, tenths_of, dist10_by, dist10_of};
ghost use Rattle.calmap.specs.code.Checked.{farthest, farthest_tenths};
ghost use Rattle.calmap.specs.declared.units.Tenths.{Tenths};

use crate::units::{Sixteenths, Tenths};
use crate::{checked, roots};
use panel::Refusal;

// A rule by which a squared distance in sixteenths of a pixel is told in tenths. What is made of it stands over any
// rule, so that the one before can be run as well; it is another `impl`, in a crate of its own that no library of the
// firmware links.
pub trait Rule {
    ghost tenths: { ℕ → Tenths };

    // That of a tap from its target is so small that 64 of them have a sum in u32.
    fn in_tenths(d2: u64) -> Tenths
        ensures told { result ≡ tenths d2 }
        ensures near { d2 ≤ farthest → result.0 ≤ farthest_tenths };
}

// The rule of the calls: the largest t with 16t * 16t <= 100 * d2, which is t * t <= 25 * d2 / 64.
pub struct Scaled;

impl Rule for Scaled {
    ghost tenths = { tenths_of };

    // 25 * d2 / 64 is no more than d2, and is worked out so that no product on the way to it passes 64 bits.
    fn in_tenths(d2: u64) -> Tenths {
        Tenths(roots::isqrt(25 * (d2 >> 6) + (25 * (d2 & 63) >> 6)) as u32)
    }
}

// The squared distance of two places. Four numbers, and no two `Spot`s, since its contract and that of `dist10` take
// four: the definitions `gap_of`, `dist10_by` and `dist10_of`, by which the promises go. The sum of the two squares is
// unsigned, so that the largest of them, 2^63, is told as well.
pub fn gap_between(ax: Sixteenths, ay: Sixteenths, bx: Sixteenths, by: Sixteenths) -> Option<u64>
    ensures { result ≡ gap_of ax ay bx by }
{
    let dx = checked::minus(ax, bx)?;
    let dy = checked::minus(ay, by)?;
    Some(panel::square(dx.0) + panel::square(dy.0))
}

// The distance of two places in tenths of a pixel, by a rule.
pub fn dist10_by<R: Rule>(
    ax: Sixteenths,
    ay: Sixteenths,
    bx: Sixteenths,
    by: Sixteenths,
) -> Result<Tenths, Refusal>
    ensures { result ≡ dist10_by R.tenths ax ay bx by }
{
    let d2 = gap_between(ax, ay, bx, by).ok_or(Refusal::Wide)?;
    Ok(R::in_tenths(d2))
}

// By the rule of the calls.
pub fn dist10(
    ax: Sixteenths,
    ay: Sixteenths,
    bx: Sixteenths,
    by: Sixteenths,
) -> Result<Tenths, Refusal>
    ensures { result ≡ dist10_of ax ay bx by }
{
    dist10_by::<Scaled>(ax, ay, bx, by)
}
