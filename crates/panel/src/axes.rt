// The axis of a drag: which of the two it runs along, once that can be told. A drag that starts on a
// slant waits, so that a horizontal drag does not nudge the vertical.
ghost use Rattle.std.specs.Prelude.{◌≡◌, nat_abs};
ghost use Rattle.panel.specs.Axes.{axis_of, axis_number, lock_of};

use crate::refusals::Refusal;

// The locked axis of a drag, and the axis along which two fingers stand.
#[derive(Clone, Copy, PartialEq, Eq)]
pub enum Axis {
    // Along x.
    H,
    // Along y.
    V,
}

// An axis as a number, for the log, the image and C.
impl From<Axis> for u8 {
    ghost from_gives = { λ a n. n ≡ axis_number a };

    fn from(a: Axis) -> u8 {
        match a {
            Axis::H => 0,
            Axis::V => 1,
        }
    }
}

// A drag on a slant takes its larger part once that is over this, pixels.
const LOCK_MAX: u32 = 30;

// The largest part of a drag whose threefold is an i32, as the Rust computes it.
const LOCK_WIDE: u32 = 715_827_882;

// How far a number is from 0. It has a name, since the definitions of the axis speak of it.
pub fn magnitude(v: i32) -> u32
    ensures { result ≡ nat_abs v }
{
    v.unsigned_abs()
}

// What lock_axis answers for a drag by ax along x and ay along y, whichever way: for callers whose
// parts are magnitudes already. It is worked out at 64 bits, where every product fits.
// By `as`: with u64::from the tests stay open in the search that proves these.
pub fn axis_along(ax: u32, ay: u32) -> Option<Axis>
    ensures { result ≡ axis_of ax ay }
{
    let x = ax as u64;
    let y = ay as u64;
    if 3 * y <= 2 * x {
        return Some(Axis::H);
    }
    if 3 * x <= 2 * y {
        return Some(Axis::V);
    }
    if LOCK_MAX < ax.max(ay) {
        return Some(if ay <= ax { Axis::H } else { Axis::V });
    }
    None
}

// The axis of a drag by (dx, dy), if it can be told yet.
pub fn lock_axis(dx: i32, dy: i32) -> Result<Option<Axis>, Refusal>
    ensures { result ≡ lock_of dx dy }
{
    let ax = magnitude(dx);
    let ay = magnitude(dy);
    if LOCK_WIDE < ax || LOCK_WIDE < ay {
        return Err(Refusal::Wide);
    }
    Ok(axis_along(ax, ay))
}
