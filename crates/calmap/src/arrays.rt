// What is taken out of a lent list: an array with room for 64, how many of it are in use, and whether
// the list goes on past it. Those that look into a lent list of structs do no more than that (module
// lists).
ghost use Rattle.std.specs.Prelude.{◌≡◌};
ghost use Rattle.calmap.specs.Resids.{pairs_of};
ghost use Rattle.calmap.specs.code.Arrays.{held, pair_up, resid_held, check_held};

use crate::limits::Verdict;
use crate::residuals::Spread;
use crate::units::{Aim, Cal, MAX_TAPS, Tap};
use crate::{limits, residuals};
use panel::{Point, Refusal};

// Taps or points of a lent list, or taps of one beside those of another, as far as both go. An array and its count: the
// firmware has no heap, and the lists are taken apart for a core by value (document 01, "The form each place takes").
// `long` is a flag and no Err: of two lists side by side the longer may pass 64, as long as the shorter does not
// (`pair_up`).
#[derive(Clone, Copy)]
pub struct Held<T> {
    pub list: [T; MAX_TAPS],
    pub n: usize,
    pub long: bool,
}

impl<T: Copy> Held<T> {
    // What is held of a list. What it has no more of is `none`.
    pub(crate) fn of(s: &[T], none: T) -> Held<T>
        ensures { result ≡ held none s.now }
    {
        let n = s.len().min(MAX_TAPS);
        let mut list = [none; MAX_TAPS];
        list[..n].copy_from_slice(&s[..n]);
        Held {
            list,
            n,
            long: MAX_TAPS < s.len(),
        }
    }
}

// Taps and targets side by side. By index: over `r.iter_mut().zip(&a).zip(&b)` the invariant, in which the places that
// are passed stand as what three iterators have left, was left open.
fn side_by_side(a: [Tap; MAX_TAPS], b: [Tap; MAX_TAPS]) -> [Aim; MAX_TAPS]
    ensures { result ≡ pairs_of a b }
{
    let z = Tap { x: 0, y: 0 };
    let mut r = [Aim { raw: z, tgt: z }; MAX_TAPS];
    for i in 0..MAX_TAPS {
        r[i] = Aim {
            raw: a[i],
            tgt: b[i],
        };
    }
    r
}

// Taps and their targets, as many as the shorter of the two has.
pub(crate) fn pair_up(a: Held<Tap>, b: Held<Tap>) -> Held<Aim>
    ensures { result ≡ pair_up a b }
{
    Held {
        list: side_by_side(a.list, b.list),
        n: a.n.min(b.n),
        long: a.long && b.long,
    }
}

// `resid` of what is held.
pub fn resid_held(c: Cal, a: Held<Aim>) -> Result<Spread, Refusal>
    ensures { result ≡ resid_held c a }
{
    if a.long {
        return Err(Refusal::Long);
    }
    residuals::resid_of(c, a.list, a.n)
}

// `check` over what is held.
pub fn check_held(c: Cal, a: Held<Point>) -> Result<Verdict, Refusal>
    ensures { result ≡ check_held c a }
{
    if a.long {
        return Err(Refusal::Long);
    }
    limits::check_of(c, a.list, a.n)
}
