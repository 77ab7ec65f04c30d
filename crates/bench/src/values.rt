// The numbers that a row of the calibration takes.

// The most numbers that a row takes: three lists of nine points, and some to spare.
pub(crate) const PLACES: usize = 64;

// So many of them are in use; behind them stand zeros.
#[derive(Clone, Copy)]
pub(crate) struct Numbers {
    places: [u64; PLACES],
    count: usize,
}

impl Numbers {
    pub(crate) fn in_use(&self) -> &[u64] {
        first(&self.places, self.count)
    }
}

// The first n of a list, or all where it has no more.
pub(crate) fn first<T>(list: &[T], n: usize) -> &[T] {
    &list[..n.min(list.len())]
}

// All numbers from a place on, and zeros for those that are missing of the first `least`. A reading loop like that of the
// calls (rounds.rt): a function of both would take what is read, and how many at most, and be as long.
pub(crate) fn all(s: &[u8], at: usize, least: usize) -> Numbers {
    let mut places = [0; PLACES];
    let mut count = 0;
    let mut at = at;
    for (i, place) in places.iter_mut().enumerate() {
        let Ok((v, next)) = numbers::number_at(s, at, numbers::MOST_64) else {
            break;
        };
        *place = v;
        count = i + 1;
        at = next;
    }
    Numbers {
        places,
        count: count.max(least),
    }
}

// A signed number is written 2v, or -2v - 1 below zero, as for the probe: std has no zigzag.
fn signed(v: u64) -> i64 {
    let half = (v / 2) as i64;
    if v % 2 == 0 { half } else { -1 - half }
}

// Of what is beyond the width nothing is kept, here and below. By way of i64, with which the loop of apply16 takes nine
// instructions fewer than with i32 alone.
pub(crate) fn signed32(v: u64) -> i32 {
    i32::try_from(signed(v % 4294967296)).unwrap_or(0)
}

pub(crate) fn signed16(v: u64) -> i16 {
    i16::try_from(signed(v % 65536)).unwrap_or(0)
}

pub(crate) fn low16(v: u64) -> u16 {
    (v % 65536) as u16
}
