// The row of the fit: nine taps, their targets and nine check points, the first tap moved by a pixel from call to call.
use crate::fold;
use crate::values::{low16, signed16};
use calmap::{Aim, MAX_TAPS, Tap};
use panel::Point;
use touchcal::{Fit, Unfit};

// So many of the 64 places of each list are used: fit_of takes a list and its count.
const TAPS: usize = 9;

// What the row takes: two numbers for each tap, each of its targets and each check point.
pub(crate) const NUMBERS: usize = 54;

fn tap(x: u64, y: u64) -> Tap {
    Tap {
        x: signed16(x),
        y: signed16(y),
    }
}

// The taps beside their targets.
fn pairs(raw: &[u64], tgt: &[u64]) -> [Aim; MAX_TAPS] {
    let p = Tap { x: 0, y: 0 };
    let mut list = [Aim { raw: p, tgt: p }; MAX_TAPS];
    let both = raw.chunks_exact(2).zip(tgt.chunks_exact(2));
    for (aim, numbers) in list.iter_mut().zip(both) {
        if let ([x, y], [u, v]) = numbers {
            aim.raw = tap(*x, *y);
            aim.tgt = tap(*u, *v);
        }
    }
    list
}

fn targets(numbers: &[u64]) -> [Point; MAX_TAPS] {
    let mut list = [Point { x: 0, y: 0 }; MAX_TAPS];
    for (p, xy) in list.iter_mut().zip(numbers.chunks_exact(2)) {
        if let [x, y] = xy {
            p.x = low16(*x);
            p.y = low16(*y);
        }
    }
    list
}

fn with_fit(sum: u64, f: Fit) -> u64 {
    let sum = fold::with(sum, fold::signed(f.cal.c2.0));
    let sum = fold::with(sum, u64::from(f.mean.0));
    let sum = fold::with(sum, u64::from(f.max.0));
    let sum = fold::with(sum, u64::from(f.before.0));
    fold::with(sum, fold::verdict(f.verdict))
}

fn fitted(sum: u64, told: Result<Fit, Unfit>) -> u64 {
    match told {
        Ok(f) => with_fit(sum, f),
        Err(Unfit::Refused(_)) => fold::with(sum, 1),
        Err(Unfit::Steep(p)) => fold::with(sum, u64::from(p.0)),
    }
}

pub(crate) fn fit(held: &[u64], calls: u64) -> u64 {
    if held.len() < NUMBERS {
        return 0;
    }
    let mut list = pairs(&held[..18], &held[18..36]);
    let check = targets(&held[36..54]);
    let mut sum = 0;
    for i in 0..calls {
        list[0].raw.x = (i % 4) as i16;
        sum = fitted(sum, touchcal::fit_of(list, TAPS, check, TAPS));
    }
    sum
}
