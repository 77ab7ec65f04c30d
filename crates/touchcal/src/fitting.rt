// The fit of a calibration to taps: the solution of the least squares, how far the taps are from it
// and how far they were without it, and the verdict.
ghost use Rattle.std.specs.Prelude.{◌≡◌};
ghost use Rattle.calmap.specs.Units.{over};
ghost use Rattle.touchcal.specs.Fits.{judged_by, fit_with, unfit_of, weighed};
ghost use Rattle.touchcal.specs.code.Arrays.{cal_or_identity, fit_first, fit_first_by, fit_held};
ghost use Rattle.touchcal.specs.declared.fitting.Unfit.TheVariants.{Refused};

use crate::floats::CoefPlace;
use crate::solving::Unsolved;
use crate::{floats, solving};
use calmap::{Aim, Cal, Held, MAX_TAPS, Rule, Scaled, Spread, Tenths, Verdict};
use panel::{Point, Refusal};

// The largest residual of an accepted fit.
const MAX_RESID: Tenths = Tenths(250);

// A fit and its residuals: mean and max of the taps through the fitted map, before the mean without
// a calibration.
#[derive(Clone, Copy)]
pub struct Fit {
    pub cal: Cal,
    pub mean: Tenths,
    pub max: Tenths,
    pub before: Tenths,
    pub verdict: Verdict,
}

// Why there is no fit. STEEP alone carries a value, and so it stands by itself: `Refused` never says it.
#[derive(Clone, Copy, Debug, PartialEq, Eq)]
pub enum Unfit {
    Refused(Refusal),
    Steep(CoefPlace),
}

impl From<Refusal> for Unfit {
    ghost from_gives = { λ why r. r ≡ Refused why };

    fn from(why: Refusal) -> Unfit {
        Unfit::Refused(why)
    }
}

impl From<Unsolved> for Unfit {
    ghost from_gives = { λ why r. r ≡ unfit_of why };

    fn from(why: Unsolved) -> Unfit {
        match why {
            Unsolved::Few => Unfit::Refused(Refusal::Few),
            Unsolved::Line => Unfit::Refused(Refusal::Line),
            Unsolved::Steep(p) => Unfit::Steep(p),
        }
    }
}

// Whether a distance is over a limit.
fn is_over(limit: Tenths, d: Tenths) -> bool
    ensures { result ≡ over limit d }
{
    limit < d
}

// The verdict of check, and then that of the largest residual.
fn judged_by(v: Verdict, max: Tenths) -> Verdict
    ensures { result ≡ judged_by v max }
{
    match v {
        Verdict::Pass if is_over(MAX_RESID, max) => Verdict::Resid,
        _ => v,
    }
}

// A calibration with its residuals, those without it, and the verdict of check.
fn fit_with(c: Cal, after: Spread, before: Spread, v: Verdict) -> Fit
    ensures { result ≡ fit_with c after before v }
{
    Fit {
        cal: c,
        mean: after.mean,
        max: after.max,
        before: before.mean,
        verdict: judged_by(v, after.max),
    }
}

// The same, where none of them is refused.
pub fn weigh(
    c: Cal,
    after: Result<Spread, Refusal>,
    before: Result<Spread, Refusal>,
    check: Result<Verdict, Refusal>,
) -> Result<Fit, Unfit>
    ensures { result ≡ weighed c after before check }
{
    Ok(fit_with(c, after?, before?, check?))
}

// The calibration that was found, or none at all.
fn cal_or_identity(s: Result<Cal, Unsolved>) -> Cal
    ensures { result ≡ cal_or_identity s }
{
    s.unwrap_or(floats::no_cal())
}

// The fit of the first n pairs, judged over the first m targets, and measured by a rule of tenths. What check refuses
// it refuses for any calibration, so that it is asked once, before anything else is refused, whether one was found or
// not. Arrays by value, each with its count: document 01's form of the core, for which module lists takes lent lists
// apart.
pub fn fit_by<R: Rule>(
    pairs: [Aim; MAX_TAPS],
    n: usize,
    targets: [Point; MAX_TAPS],
    m: usize,
) -> Result<Fit, Unfit>
    ensures { result ≡ fit_first_by R.tenths n pairs m targets }
{
    if MAX_TAPS < n {
        return Err(Unfit::Refused(Refusal::Long));
    }
    let solved = solving::solve(&pairs[..n]);
    let verdict = calmap::check_of(cal_or_identity(solved), targets, m)?;
    let c = solved?;
    let none = floats::no_cal();
    let after = calmap::resid_by::<R>(c, pairs, n);
    let before = calmap::resid_by::<R>(none, pairs, n);
    weigh(c, after, before, Ok(verdict))
}

// The same by the rule of the calls.
pub fn fit_of(
    pairs: [Aim; MAX_TAPS],
    n: usize,
    targets: [Point; MAX_TAPS],
    m: usize,
) -> Result<Fit, Unfit>
    ensures { result ≡ fit_first n pairs m targets }
{
    fit_by::<Scaled>(pairs, n, targets, m)
}

// The fit of what is held of lent lists.
pub fn fit_held(a: Held<Aim>, t: Held<Point>) -> Result<Fit, Unfit>
    ensures { result ≡ fit_held a t }
{
    if a.long || t.long {
        return Err(Unfit::Refused(Refusal::Long));
    }
    fit_of(a.list, a.n, t.list, t.n)
}
