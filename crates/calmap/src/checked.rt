// Arithmetic within i32 that says where it does not fit: each product and sum of steps, and each difference of
// sixteenths. `whole`, `scaled` and `add` say whether what they form fits. The same with `_at` are for where that is
// known: their clause says it, and so their contract is the sum itself, without an Option that could not be None.
ghost use Rattle.std.specs.Prelude.{true, ◌≡◌, ◌*ℤ◌};
ghost use Rattle.calmap.specs.Units.{steps, whole_steps, ◌·◌, ◌⊞◌, steps_fit, ◌⊟◌};
ghost use Rattle.calmap.specs.code.Checked.{narrow_of, across_of};

use crate::units::{Q16, Sixteenths};

// A whole pixel, and a coefficient of 1.
const ONE: Q16 = Q16(65536);

fn times(a: i32, b: i32) -> Option<Q16>
    ensures { result ≡ narrow_of (steps (a *ℤ b)) }
{
    Some(Q16(a.checked_mul(b)?))
}

// Whole pixels in steps.
pub(crate) fn whole(v: i32) -> Option<Q16>
    ensures { result ≡ narrow_of (whole_steps v) }
{
    times(v, ONE.0)
}

// So many steps for each pixel of x.
pub(crate) fn scaled(q: Q16, x: i32) -> Option<Q16>
    ensures { result ≡ narrow_of (q · x) }
{
    times(q.0, x)
}

pub(crate) fn add(a: Q16, b: Q16) -> Option<Q16>
    ensures { result ≡ narrow_of (a ⊞ b) }
{
    Some(Q16(a.0.checked_add(b.0)?))
}

// From b to a.
pub(crate) fn minus(a: Sixteenths, b: Sixteenths) -> Option<Sixteenths>
    ensures { result ≡ across_of (a ⊟ b) }
{
    Some(Sixteenths(a.0.checked_sub(b.0)?))
}

// Whole pixels, a product and a sum where they are known to fit.
pub(crate) fn whole_at(v: i32) -> Q16
    requires { steps_fit (whole_steps v) ≡ true }
    ensures { result ≡ whole_steps v }
{
    Q16(v * ONE.0)
}

pub(crate) fn scaled_at(q: Q16, x: i32) -> Q16
    requires { steps_fit (q · x) ≡ true }
    ensures { result ≡ q · x }
{
    Q16(q.0 * x)
}

pub(crate) fn sum_at(a: Q16, b: Q16) -> Q16
    requires { steps_fit (a ⊞ b) ≡ true }
    ensures { result ≡ a ⊞ b }
{
    Q16(a.0 + b.0)
}
