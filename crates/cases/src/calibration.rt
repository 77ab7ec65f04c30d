// The calibration: where a correction is too large, distances on both sides of a tenth, the fit of four corners onto
// themselves, moved, and taps that have no fit.
use crate::print::{Shown, Told};
use calmap::{Aim, Cal, MAX_TAPS, Q16, Sixteenths, Tap};
use panel::{Point, Refusal};
use std::fmt::Display;
use std::{fmt, io};
use touchcal::{Fit, Unfit};

// A calibration that moves x alone.
fn moves_x(c2: i32) -> Cal {
    Cal {
        c2: Q16(c2),
        ..touchcal::no_cal()
    }
}

fn check(rt: &impl Print, c2: i32) -> io::Result<()> {
    let targets = [Point { x: 0, y: 0 }; MAX_TAPS];
    println!(rt;
        "check, only c2 {c2} -> {}",
        Told(calmap::check_of(moves_x(c2), targets, 1).map(Shown))
    )
}

pub(crate) fn checks(rt: &impl Print) -> io::Result<()> {
    check(rt, 2625535)?;
    check(rt, 2625536)?;
    check(rt, -2621440)?;
    check(rt, -2621441)
}

// The distance of two places that are so far apart along x and along y.
fn dist10(rt: &impl Print, dx: i32, dy: i32) -> io::Result<()> {
    let z = Sixteenths(0);
    println!(rt;
        "dist10, by {dx} {dy} -> {}",
        Told(calmap::dist10(Sixteenths(dx), Sixteenths(dy), z, z).map(Shown))
    )
}

// The roots 401 and 402, exact ones; the squared distances 13 and 2^63.
pub(crate) fn distances(rt: &impl Print) -> io::Result<()> {
    dist10(rt, 401, 0)?;
    dist10(rt, 402, 0)?;
    dist10(rt, 2, 3)?;
    dist10(rt, -2147483648, -2147483648)
}

// A corner, and where it should have been.
fn corner(x: i16, y: i16, u: i16, v: i16) -> Aim {
    Aim {
        raw: Tap { x, y },
        tgt: Tap { x: u, y: v },
    }
}

// A function for each kind of case, of corners here and of three taps below: its numbers are read at one glance.

// The corners from (0, 0) to (100, 100) onto themselves, moved along x to left and right.
fn corners(left: i16, right: i16) -> [Aim; MAX_TAPS] {
    let mut pairs = [corner(0, 0, 0, 0); MAX_TAPS];
    pairs[0] = corner(0, 0, left, 0);
    pairs[1] = corner(100, 0, right, 0);
    pairs[2] = corner(0, 100, left, 100);
    pairs[3] = corner(100, 100, right, 100);
    pairs
}

// The corners onto themselves, but for two that are opposite, moved by the same: the fit lies half way.
fn two_corners(by: i16, down: i16, right: i16, below: i16) -> [Aim; MAX_TAPS] {
    let mut pairs = [corner(0, 0, 0, 0); MAX_TAPS];
    pairs[0] = corner(0, 0, by, down);
    pairs[1] = corner(100, 0, 100, 0);
    pairs[2] = corner(0, 100, 0, 100);
    pairs[3] = corner(100, 100, right, below);
    pairs
}

// A fit, or why there is none. Where a coefficient is too large the refusal's number has its place behind it.
#[derive(Clone, Copy)]
struct Fitted(Result<Fit, Unfit>);

impl Display for Fitted {
    fn fmt<W: fmt::Write>(&self, f: &mut fmt::Formatter<W>) -> fmt::Result {
        match self.0 {
            Ok(fit) => write!(f, "{}", Shown(fit)),
            Err(Unfit::Refused(why)) => write!(f, "{}", Told::<u8>(Err(why))),
            Err(Unfit::Steep(p)) => write!(f, "{} {}", Told::<u8>(Err(Refusal::Steep)), p.0),
        }
    }
}

// By an array and its count, as fit_of takes them. The fit of the first n of these pairs, held against one target.
fn fit(pairs: [Aim; MAX_TAPS], n: usize) -> Fitted {
    Fitted(touchcal::fit_of(pairs, n, [Point { x: 240, y: 160 }; MAX_TAPS], 1))
}

fn moved(rt: &impl Print, by: u64, pairs: [Aim; MAX_TAPS]) -> io::Result<()> {
    println!(rt; "fit, corners moved by {by} -> {}", fit(pairs, 4))
}

fn two_moved(rt: &impl Print, by: u64, down: u64, pairs: [Aim; MAX_TAPS]) -> io::Result<()> {
    println!(rt;
        "fit, two corners moved by {by} {down} -> {}",
        fit(pairs, 4)
    )
}

pub(crate) fn fits(rt: &impl Print) -> io::Result<()> {
    moved(rt, 41, corners(41, 141))?;
    moved(rt, 40, corners(40, 140))?;
    two_moved(rt, 50, 4, two_corners(50, 4, 150, 104))?;
    two_moved(rt, 50, 5, two_corners(50, 5, 150, 105))
}

// Few taps, and where they should have been.
fn of_few(rt: &impl Print, aims: &[Aim]) -> io::Result<()> {
    print!(rt; "fit,")?;
    for a in aims {
        print!(rt; " {}", Shown(a.raw))?;
    }
    print!(rt; " onto")?;
    for a in aims {
        print!(rt; " {}", Shown(a.tgt))?;
    }
    let mut pairs = [corner(0, 0, 0, 0); MAX_TAPS];
    for (pair, a) in pairs.iter_mut().zip(aims) {
        *pair = *a;
    }
    println!(rt; " -> {}", fit(pairs, aims.len()))
}

// The taps (0, 0), (2, 0) and (0, 2), and where these should have been.
fn spread(rt: &impl Print, u0: i16, v0: i16, u1: i16, v1: i16, u2: i16, v2: i16) -> io::Result<()> {
    of_few(
        rt,
        &[
            corner(0, 0, u0, v0),
            corner(2, 0, u1, v1),
            corner(0, 2, u2, v2),
        ],
    )
}

// Why a fit fails, by few taps close together: two; three on one line; three too close together, along both axes, along
// x, along y. Then a coefficient beyond its steps, a to f, the targets one short of it in front of the first and the
// third; and where several are, b and d, e and f, all six, the first of them.
pub(crate) fn unfits(rt: &impl Print) -> io::Result<()> {
    of_few(rt, &[corner(0, 0, 0, 0), corner(2, 0, 2, 0)])?;
    of_few(
        rt,
        &[corner(0, 0, 0, 0), corner(1, 1, 1, 1), corner(2, 2, 2, 2)],
    )?;
    of_few(
        rt,
        &[corner(0, 0, 0, 0), corner(1, 0, 1, 0), corner(0, 1, 0, 1)],
    )?;
    of_few(
        rt,
        &[corner(0, 0, 0, 0), corner(1, 0, 1, 0), corner(0, 2, 0, 2)],
    )?;
    of_few(
        rt,
        &[corner(0, 0, 0, 0), corner(2, 0, 2, 0), corner(0, 1, 0, 1)],
    )?;
    spread(rt, -30517, 0, 30520, 0, -30517, 2)?;
    spread(rt, -30517, 0, 30521, 0, -30517, 2)?;
    spread(rt, -30517, 0, -30515, 0, 30519, 2)?;
    spread(rt, 30517, 0, 30519, 0, 30517, 2)?;
    spread(rt, 30518, 0, 30520, 0, 30518, 2)?;
    spread(rt, 0, -30517, 2, 30519, 0, -30515)?;
    spread(rt, 0, -30517, 2, -30517, 0, 30521)?;
    spread(rt, 0, 30518, 2, 30518, 0, 30520)?;
    spread(rt, -30517, -30517, -30515, 30519, 30519, -30515)?;
    spread(rt, 0, -30518, 2, -30518, 0, 30520)?;
    spread(rt, -32768, -32768, 32767, 32767, 32767, 32767)
}

// Three taps that are nearly on one line, up and down. All targets are (0, 0) but that of the tap between.
fn upright(rt: &impl Print, u: i16, v: i16) -> io::Result<()> {
    of_few(
        rt,
        &[
            corner(-1, 19, 0, 0),
            corner(0, 0, u, v),
            corner(1, -17, 0, 0),
        ],
    )
}

// The same across.
fn level(rt: &impl Print, u: i16, v: i16) -> io::Result<()> {
    of_few(
        rt,
        &[
            corner(19, -1, 0, 0),
            corner(0, 0, u, v),
            corner(-17, 1, 0, 0),
        ],
    )
}

// The same up and down, away from (0, 0).
fn aside(rt: &impl Print, u: i16, v: i16) -> io::Result<()> {
    of_few(
        rt,
        &[
            corner(25, -9, 0, 0),
            corner(26, 0, u, v),
            corner(27, 8, 0, 0),
        ],
    )
}

// The smallest fits found with a coefficient beyond its steps, a to f, and c with f: the sizes of the numbers add up to 1,734,
// to 164 for c and f alone, and a search found none by less.
pub(crate) fn steepest(rt: &impl Print) -> io::Result<()> {
    upright(rt, 1696, 0)?;
    level(rt, 1696, 0)?;
    aside(rt, 69, 0)?;
    upright(rt, 0, 1696)?;
    level(rt, 0, 1696)?;
    aside(rt, 0, 69)?;
    aside(rt, 69, 69)
}
