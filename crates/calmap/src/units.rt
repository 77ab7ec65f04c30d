// The units of the calibration, a type for each, so that one is never taken for another; and the
// six numbers of a calibration.
ghost use Rattle.std.specs.Prelude.{◌≡◌, pos};
ghost use Rattle.calmap.specs.Units.{in_sixteenths};

// Sixteenths of a pixel.
#[derive(Clone, Copy, Debug, PartialEq, Eq)]
pub struct Sixteenths(pub i32);

// Those of a coordinate of a point.
impl From<u16> for Sixteenths {
    ghost from_gives = { λ v s. s ≡ in_sixteenths (pos v) };

    fn from(v: u16) -> Sixteenths {
        Sixteenths(i32::from(v) * 16)
    }
}

// Those of a coordinate of a tap.
impl From<i16> for Sixteenths {
    ghost from_gives = { λ v s. s ≡ in_sixteenths v };

    fn from(v: i16) -> Sixteenths {
        Sixteenths(i32::from(v) * 16)
    }
}

// Tenths of a pixel.
#[derive(Clone, Copy, Debug, PartialEq, Eq, PartialOrd, Ord)]
pub struct Tenths(pub u32);

// Steps of 1/65536.
#[derive(Clone, Copy, Debug, PartialEq, Eq)]
pub struct Q16(pub i32);

// A calibration: x' = a x + b y + c, y' = d x + e y + f, kept as the difference from the identity,
// a - 1, b, c, d, e - 1, f in Q16 steps. All zero is no calibration.
#[derive(Clone, Copy, Debug, PartialEq, Eq)]
pub struct Cal {
    pub c0: Q16,
    pub c1: Q16,
    pub c2: Q16,
    pub c3: Q16,
    pub c4: Q16,
    pub c5: Q16,
}

// The most pairs in use, and the most targets.
pub const MAX_TAPS: usize = 64;

// A point in pixels that need not be on the panel: a raw tap, or where it should have been.
#[derive(Clone, Copy, Debug, PartialEq, Eq)]
pub struct Tap {
    pub x: i16,
    pub y: i16,
}

// A raw tap and the target that it was meant for.
#[derive(Clone, Copy, Debug, PartialEq, Eq)]
pub struct Aim {
    pub raw: Tap,
    pub tgt: Tap,
}
