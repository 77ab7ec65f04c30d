// How far taps land from their targets, through a calibration.
ghost use Rattle.std.specs.Prelude.{◌≡◌, ◌+◌, ◌≤◌, ◌<◌};
ghost use Rattle.calmap.specs.Units.{farther_of, together_of};
ghost use Rattle.calmap.specs.Resids.{miss_of, resid_first, resid_first_by};
ghost use Rattle.calmap.specs.code.Checked.{farthest, square_in};

use crate::gaps::{Rule, Scaled};
use crate::units::{Aim, Cal, MAX_TAPS, Sixteenths, Tenths};
use crate::{gaps, mapping};
use panel::Refusal;

// The mean, rounded down, and the largest of some distances; both are 0 for none.
#[derive(Clone, Copy, Debug, PartialEq, Eq)]
pub struct Spread {
    pub mean: Tenths,
    pub max: Tenths,
}

// The larger of two distances. It has a name, since the definitions name it `farther_of`.
pub fn farther(a: Tenths, b: Tenths) -> Tenths
    ensures { result ≡ farther_of a b }
{
    a.max(b)
}

// Their sum.
fn together(a: Tenths, b: Tenths) -> Tenths
    requires { a.0 + b.0 < 4294967296 }
    ensures { result ≡ together_of a b }
{
    Tenths(a.0 + b.0)
}

// How far a tap lands from its target, squared. It lands within 2^19 sixteenths of 0 each way, and its target is there
// too.
pub fn miss(c: Cal, p: Aim) -> Option<u64>
    ensures { (result ≡ miss_of c p) × (square_in result ≤ farthest) }
{
    let s = mapping::apply16(c, i32::from(p.raw.x), i32::from(p.raw.y)).ok()?;
    gaps::gap_between(
        s.0,
        s.1,
        Sixteenths::from(p.tgt.x),
        Sixteenths::from(p.tgt.y),
    )
}

// Mean and largest distance of the first n taps from their targets, through c, by a rule of tenths. A distance is at
// most 1310720 tenths, so that 64 of them fit a u32. An array by value with its count: the core for which lent lists
// are taken apart (document 01, "The form each place takes").
pub fn resid_by<R: Rule>(c: Cal, pairs: [Aim; MAX_TAPS], n: usize) -> Result<Spread, Refusal>
    ensures { result ≡ resid_first_by R.tenths c n pairs }
{
    if MAX_TAPS < n {
        return Err(Refusal::Long);
    }
    if n == 0 {
        return Ok(Spread {
            mean: Tenths(0),
            max: Tenths(0),
        });
    }
    let mut sum = Tenths(0);
    let mut most = Tenths(0);
    for p in &pairs[..n] {
        let d2 = miss(c, *p).ok_or(Refusal::Wide)?;
        let d = R::in_tenths(d2);
        sum = together(sum, d);
        most = farther(most, d);
    }
    Ok(Spread {
        mean: Tenths(sum.0 / (n as u32)),
        max: most,
    })
}

// By the rule of the calls.
pub fn resid_of(c: Cal, pairs: [Aim; MAX_TAPS], n: usize) -> Result<Spread, Refusal>
    ensures { result ≡ resid_first c n pairs }
{
    resid_by::<Scaled>(c, pairs, n)
}
