// How far taps land from their targets, by the old tenths.
ghost use Rattle.std.specs.Prelude.{◌≡◌};
ghost use Rattle.calmap.specs.Resids.{resid_first_by};
ghost use Rattle.oldtenths.specs.OldTenths.{old_tenths_of};

use crate::gaps::Old;
use calmap::{Aim, Cal, MAX_TAPS, Spread};
use panel::Refusal;

// `resid` of the first n taps. An array by value with its count, as `calmap::resid_of` takes it (document 01, "The form
// each place takes").
pub fn old_resid_of(c: Cal, pairs: [Aim; MAX_TAPS], n: usize) -> Result<Spread, Refusal>
    ensures { result ≡ resid_first_by old_tenths_of c n pairs }
{
    calmap::resid_by::<Old>(c, pairs, n)
}
