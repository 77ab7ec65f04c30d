// Two fingers as a pair, to tell a pinch. The controller's slot order is not stable: a finger keeps its name
// by the smaller squared travel between two reports.
#![tactic(auto, using(panel::proofs::Follow::follow), unfolding(crate::specs::Pairs::span_along, crate::specs::Pairs::pair_axis, crate::specs::Pairs::new_pair, crate::specs::Pairs::keeps_order, crate::specs::Pairs::state_next, crate::specs::Pairs::pair_at, crate::specs::Pairs::pair_next, crate::specs::Pairs::span_told, crate::specs::Pairs::pinch_of, crate::specs::Pairs::not_pinch))]

ghost use Rattle.std.specs.Prelude.{◌≡◌};
ghost use Rattle.fingers.specs.Pairs.{span_along, pair_axis, new_pair, keeps_order, state_next, pair_at, pair_next, span_told, pinch_of, not_pinch};

use crate::gestures::Gesture;
use crate::thresholds::{PINCH_MIN, PINCH_SWIPE, SPAN_LEAST, SPAN_MOST};
use panel::{Axis, Point};

// The fingers in identity order, the separation and the centroid at the start, the classification.
#[derive(Clone, Copy)]
pub struct Pair {
    pub a: Point,
    pub b: Point,
    pub axis: Axis,
    pub span0: u16,
    pub c0: Point,
    // 0 undecided, 1 pinch, 2 not a pinch: a swipe or a third finger. A number and no enum: document
    // 01's rule "pair state 0..2" is part of `state_rule`, and by its contract each call on a tracker refuses a 3 with
    // STATE. Over an enum it could not say so; and an image may have a 3 there, as its areas hold any byte.
    pub state: u8,
}

const UNDECIDED: u8 = 0;

pub(crate) const PINCHING: u8 = 1;

const NO_PINCH: u8 = 2;

fn span(axis: Axis, p: Point, q: Point) -> u16
    ensures { result ≡ span_along axis p q }
{
    match axis {
        Axis::H => panel::gap(p.x, q.x),
        Axis::V => panel::gap(p.y, q.y),
    }
}

fn pair_axis(p: Point, q: Point) -> Axis
    ensures { result ≡ pair_axis p q }
{
    if panel::gap(p.y, q.y) <= panel::gap(p.x, q.x) {
        Axis::H
    } else {
        Axis::V
    }
}

// The pair that the fingers p and q make, whose centroid is c.
pub fn new_pair(p: Point, q: Point, c: Point) -> Pair
    ensures { result ≡ new_pair p q c }
{
    let axis = pair_axis(p, q);
    Pair {
        a: p,
        b: q,
        axis,
        span0: span(axis, p, q),
        c0: c,
        state: UNDECIDED,
    }
}

// Identity: the order in which the squares of the two ways have the smaller sum.
fn keeps_order(r: Pair, p: Point, q: Point) -> bool
    ensures { result ≡ keeps_order r p q }
{
    let kept = panel::apart2(r.a, p) + panel::apart2(r.b, q);
    let crossed = panel::apart2(r.a, q) + panel::apart2(r.b, p);
    kept <= crossed
}

fn state_next(state: u8, change: u16, down: u16) -> u8
    ensures { result ≡ state_next state change down }
{
    if state != UNDECIDED {
        state
    } else if PINCH_MIN <= change {
        PINCHING
    } else if PINCH_SWIPE <= down {
        NO_PINCH
    } else {
        UNDECIDED
    }
}

fn pair_at(r: Pair, a: Point, b: Point, c: Point) -> Pair
    ensures { result ≡ pair_at r a b c }
{
    let change = panel::gap(span(r.axis, a, b), r.span0);
    let down = c.y.saturating_sub(r.c0.y);
    Pair {
        a,
        b,
        state: state_next(r.state, change, down),
        ..r
    }
}

// The pair at the next report of two fingers.
pub(crate) fn pair_next(r: Pair, p: Point, q: Point, c: Point) -> Pair
    ensures { result ≡ pair_next r p q c }
{
    if keeps_order(r, p, q) {
        pair_at(r, p, q, c)
    } else {
        pair_at(r, q, p, c)
    }
}

fn span_told(span: u16) -> u16
    ensures { result ≡ span_told span }
{
    span.clamp(SPAN_LEAST, SPAN_MOST)
}

pub(crate) fn pinch(r: Pair) -> Gesture
    ensures { result ≡ pinch_of r }
{
    Gesture::Pinch(
        r.axis,
        span_told(r.span0),
        span_told(span(r.axis, r.a, r.b)),
    )
}

pub(crate) fn not_pinch(r: Pair) -> Pair
    ensures { result ≡ not_pinch r }
{
    Pair {
        state: NO_PINCH,
        ..r
    }
}
