// The rows of the calibration: each call takes the next of the numbers that are held. A loop each, in which the call
// that is counted stands itself.
use crate::fold;
use crate::values::{PLACES, first, signed32};
use calmap::{Cal, Q16, Spot};
use panel::Refusal;

pub(crate) fn isqrt(held: &[u64], calls: u64) -> u64 {
    let mut sum = 0;
    for (_, v) in (0..calls).zip(held.iter().cycle()) {
        sum = fold::with(sum, calmap::isqrt(*v));
    }
    sum
}

// Thousandths, as a float.
fn float(v: u64) -> f32 {
    std::num::nearest_i32_to_f32(signed32(v)) / 1000.0
}

fn stepped(told: Result<Q16, Refusal>) -> u64 {
    told.map_or(1, |n| fold::signed(n.0))
}

pub(crate) fn q16(held: &[u64], calls: u64) -> u64 {
    let mut floats = [0.0; PLACES];
    for (x, v) in floats.iter_mut().zip(held) {
        *x = float(*v);
    }
    let mut sum = 0;
    for (_, x) in (0..calls).zip(first(&floats, held.len()).iter().cycle()) {
        sum = fold::with(sum, stepped(touchcal::q16(*x)));
    }
    sum
}

fn applied(told: Result<Spot, Refusal>) -> u64 {
    match told {
        Ok(Spot(x, y)) => fold::with(fold::signed(x.0), fold::signed(y.0)),
        Err(_) => 1,
    }
}

// What the row takes at the least: six steps and a point.
pub(crate) const LEAST: usize = 8;

// Six steps, and then the points. Where a last number stands alone, it is the x of a point whose y is 0.
pub(crate) fn apply16(held: &[u64], calls: u64) -> u64 {
    let [c0, c1, c2, c3, c4, c5, rest @ ..] = held else {
        return 0;
    };
    let step = |v: &u64| Q16(signed32(*v));
    let c = Cal {
        c0: step(c0),
        c1: step(c1),
        c2: step(c2),
        c3: step(c3),
        c4: step(c4),
        c5: step(c5),
    };
    let mut points = [(0, 0); PLACES];
    let pairs = rest.chunks(2);
    for (p, xy) in points.iter_mut().zip(pairs) {
        match xy {
            [x, y] => *p = (signed32(*x), signed32(*y)),
            [x] => p.0 = signed32(*x),
            _ => {}
        }
    }
    let mut sum = 0;
    for (_, p) in (0..calls).zip(first(&points, rest.len().div_ceil(2)).iter().cycle()) {
        let (x, y) = *p;
        sum = fold::with(sum, applied(calmap::apply16(c, x, y)));
    }
    sum
}
