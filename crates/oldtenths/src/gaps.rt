// The old tenths as a rule, and the distance of two places by them: the root is cut before it is scaled.
ghost use Rattle.std.specs.Prelude.{◌≡◌};
ghost use Rattle.calmap.specs.Distances.{dist10_by};
ghost use Rattle.oldtenths.specs.OldTenths.{old_tenths_of};

use calmap::{Rule, Sixteenths, Tenths};
use panel::Refusal;

// The rule of the Rust.
pub struct Old;

impl Rule for Old {
    ghost tenths = { old_tenths_of };

    fn in_tenths(d2: u64) -> Tenths {
        Tenths((calmap::isqrt(d2) * 10 >> 4) as u32)
    }
}

// `dist10`. Four numbers, as its contract and the definition `dist10_by` have them.
pub fn old_dist10(
    ax: Sixteenths,
    ay: Sixteenths,
    bx: Sixteenths,
    by: Sixteenths,
) -> Result<Tenths, Refusal>
    ensures { result ≡ dist10_by old_tenths_of ax ay bx by }
{
    calmap::dist10_by::<Old>(ax, ay, bx, by)
}
