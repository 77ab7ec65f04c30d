// The limits that a calibration has to keep: its scales and cross terms, and how far it moves a target.
ghost use Rattle.std.specs.Prelude.{◌≡◌, nat_abs};
ghost use Rattle.panel.specs.Tests.{◌≤?◌};
ghost use Rattle.calmap.specs.Checks.{mild, scale_holds, near, stays, all_stay, verdict_of, check_first};

use crate::units::{Cal, MAX_TAPS, Q16, Sixteenths};
use crate::{checked, mapping};
use panel::{Point, Refusal};

// What a fit or a check says of a calibration. `Pass` is among them, as in document 01: a fit carries its verdict as a
// value, and Err is for what is refused.
#[derive(Clone, Copy, Debug, PartialEq, Eq)]
pub enum Verdict {
    // Within every limit.
    Pass,
    // A scale or a cross term is too far from the identity.
    Scale,
    // A target is moved too far.
    Shift,
    // A tap is too far from where the fitted map takes it: given by a fit only.
    Resid,
}

// Scales and cross terms are within this of the identity's: 0.15, cut to a whole number.
const MAX_SCALE_DEV: Q16 = Q16(9830);

// A target is moved by at most this each way: 40 pixels.
const MAX_SHIFT: Sixteenths = Sixteenths(640);

// Whether a number is at most so many each way.
fn within(most: i32, v: i32) -> bool
    ensures { result ≡ (nat_abs v ≤? nat_abs most) }
{
    v.unsigned_abs() <= most.unsigned_abs()
}

// Whether a scale or a cross term is near the identity's.
fn is_mild(q: Q16) -> bool
    ensures { result ≡ mild q }
{
    within(MAX_SCALE_DEV.0, q.0)
}

// Whether a, b, d and e are: the shifts c and f are held to the targets instead.
fn scale_holds(c: Cal) -> bool
    ensures { result ≡ scale_holds c }
{
    is_mild(c.c0) && is_mild(c.c1) && is_mild(c.c3) && is_mild(c.c4)
}

// Whether a coordinate is moved to a place that is near.
fn is_near(s: Sixteenths, v: u16) -> bool
    ensures { result ≡ near s v }
{
    match checked::minus(s, Sixteenths::from(v)) {
        Some(d) => within(MAX_SHIFT.0, d.0),
        None => false,
    }
}

// Whether a target is moved to a place that is near. A sum past i32 is not near.
fn is_kept(c: Cal, p: Point) -> bool
    ensures { result ≡ stays c p }
{
    let x = i32::from(p.x);
    let y = i32::from(p.y);
    if mapping::fits(c, x, y) {
        let s = mapping::spot_at(c, x, y);
        return is_near(s.0, p.x) && is_near(s.1, p.y);
    }
    false
}

// Whether each target is.
fn all_kept(c: Cal, targets: &[Point]) -> bool
    ensures { result ≡ all_stay c targets.now }
{
    targets.iter().all(|p| is_kept(c, *p))
}

// The verdict, on targets that are on the panel.
fn judge(c: Cal, targets: &[Point]) -> Verdict
    ensures { result ≡ verdict_of c targets.now }
{
    if !scale_holds(c) {
        Verdict::Scale
    } else if all_kept(c, targets) {
        Verdict::Pass
    } else {
        Verdict::Shift
    }
}

// The verdict on c over the first n targets. An array by value with its count: the core for which lent lists are taken
// apart (document 01, "The form each place takes").
pub fn check_of(c: Cal, targets: [Point; MAX_TAPS], n: usize) -> Result<Verdict, Refusal>
    ensures { result ≡ check_first c n targets }
{
    if MAX_TAPS < n {
        return Err(Refusal::Long);
    }
    let used = &targets[..n];
    if !panel::each_on_panel(used) {
        return Err(Refusal::Target);
    }
    Ok(judge(c, used))
}
