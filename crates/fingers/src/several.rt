// Several fingers: the most seen in the touch, where and when they were first and last that many, and what
// their end comes to. Fingers lift one by one, so that a report with fewer does not count. Nor does one that tells a
// Pinch or its end, unless there were never so many.
#![tactic(auto, using(panel::proofs::Follow::follow), unfolding(crate::specs::Several::multi_from, crate::specs::Several::multi_grown, crate::specs::Several::multi_seen, crate::specs::Several::pinch_or_seen, crate::specs::Several::two_fingers, crate::specs::Several::pinch_end_or_seen, crate::specs::Several::three_fingers, crate::specs::Several::far_down, crate::specs::Several::swiped_down, crate::specs::Several::multi_rule, crate::specs::Several::is_pinch, crate::specs::Several::multi_end))]

ghost use Rattle.std.specs.Prelude.{◌≡◌};
ghost use Rattle.fingers.specs.Several.{multi_from, multi_grown, multi_seen, pinch_or_seen, two_fingers, pinch_end_or_seen, three_fingers, far_down, swiped_down, multi_rule, is_pinch, multi_end};

use crate::gestures::{Gesture, Outcome};
use crate::pair::{PINCHING, Pair};
use crate::thresholds::{MULTI_MAX_MS, MULTI_MIN_2, MULTI_MIN_3};
use crate::{hold, pair};
use panel::Point;

#[derive(Clone, Copy)]
pub struct Multi {
    // When the most fingers of this touch were first seen, how many they are, and their centroid.
    pub t0: u64,
    pub n: u8,
    pub c0: Point,
    // Time and centroid of the last report with n fingers that counts: the first, or one that told neither Pinch nor
    // PinchEnd.
    pub t1: u64,
    pub c1: Point,
}

// The pair beside the rest, here, in Touch::Multi and as an argument: the rules of a pinch take it alone, and a touch
// that began with three fingers has none.
#[derive(Clone, Copy)]
pub struct MultiStep {
    pub out: Outcome,
    pub pair: Option<Pair>,
    pub multi: Multi,
}

// n fingers for the first time.
pub fn multi_from(n: u8, c: Point, now: u64) -> Multi
    ensures { result ≡ multi_from n c now }
{
    Multi {
        n,
        c0: c,
        t0: now,
        c1: c,
        t1: now,
    }
}

// More fingers than before: the gesture restarts here.
fn grown(m: Multi, n: u8, c: Point, now: u64) -> Multi
    ensures { result ≡ multi_grown m n c now }
{
    if m.n < n { multi_from(n, c, now) } else { m }
}

// As many as the most: they were last seen here. Fewer, a finger lifted: the last full-count report is kept.
fn seen(m: Multi, n: u8, c: Point, now: u64) -> Multi
    ensures { result ≡ multi_seen m n c now }
{
    if m.n < n {
        multi_from(n, c, now)
    } else if n == m.n {
        Multi {
            t1: now,
            c1: c,
            ..m
        }
    } else {
        m
    }
}

fn pinch_or_seen(r: Pair, m: Multi, c: Point, now: u64) -> MultiStep
    ensures { result ≡ pinch_or_seen r m c now }
{
    if r.state == PINCHING {
        MultiStep {
            out: Outcome::Gives(pair::pinch(r)),
            multi: m,
            pair: Some(r),
        }
    } else {
        MultiStep {
            out: Outcome::Quiet,
            multi: seen(m, 2, c, now),
            pair: Some(r),
        }
    }
}

// Two fingers, p and q, in a touch that has had several.
pub fn two_fingers(pr: Option<Pair>, m: Multi, p: Point, q: Point, c: Point, now: u64) -> MultiStep
    ensures { result ≡ two_fingers pr m p q c now }
{
    match pr {
        None => MultiStep {
            out: Outcome::Quiet,
            multi: seen(m, 2, c, now),
            pair: Some(pair::new_pair(p, q, c)),
        },
        Some(r) => pinch_or_seen(pair::pair_next(r, p, q, c), m, c, now),
    }
}

fn pinch_end_or_seen(r: Pair, m: Multi, n: u8, c: Point, now: u64) -> MultiStep
    ensures { result ≡ pinch_end_or_seen r m n c now }
{
    let pair = Some(pair::not_pinch(r));
    if r.state == PINCHING {
        MultiStep {
            out: Outcome::Gives(Gesture::PinchEnd(false)),
            multi: grown(m, n, c, now),
            pair,
        }
    } else {
        MultiStep {
            out: Outcome::Quiet,
            multi: seen(m, n, c, now),
            pair,
        }
    }
}

// Three fingers or more, n, in a touch that has had several.
pub fn three_fingers(pr: Option<Pair>, m: Multi, n: u8, c: Point, now: u64) -> MultiStep
    ensures { result ≡ three_fingers pr m n c now }
{
    match pr {
        None => MultiStep {
            out: Outcome::Quiet,
            multi: seen(m, n, c, now),
            pair: None,
        },
        Some(r) => pinch_end_or_seen(r, m, n, c, now),
    }
}

// Four or five points, a palm, are no swipe.
fn far_down(n: u8, dy: u16) -> bool
    ensures { result ≡ far_down n dy }
{
    match n {
        2 => MULTI_MIN_2 <= dy,
        3 => MULTI_MIN_3 <= dy,
        _ => false,
    }
}

fn swiped_down(n: u8, dx: u16, dy: u16, took: u64) -> bool
    ensures { result ≡ swiped_down n dx dy took }
{
    far_down(n, dy) && dx < dy && took <= MULTI_MAX_MS
}

fn multi_gesture(m: Multi) -> Outcome
    ensures { result ≡ multi_rule m }
{
    let dx = panel::gap(m.c0.x, m.c1.x);
    let dy = m.c1.y.saturating_sub(m.c0.y);
    if swiped_down(m.n, dx, dy, hold::elapsed(m.t1, m.t0)) {
        Outcome::Gives(Gesture::MultiSwipeDown(m.n))
    } else {
        Outcome::Quiet
    }
}

fn is_pinch(pr: Option<Pair>) -> bool
    ensures { result ≡ is_pinch pr }
{
    pr.is_some_and(|r| r.state == PINCHING)
}

// All fingers are up that were several. A pinch that no third finger has ended is no swipe.
pub fn multi_end(m: Multi, pr: Option<Pair>) -> Outcome
    ensures { result ≡ multi_end m pr }
{
    if is_pinch(pr) {
        Outcome::Gives(Gesture::PinchEnd(true))
    } else {
        multi_gesture(m)
    }
}
