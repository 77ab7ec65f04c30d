// A report: one key change if there is any, else the fingers, by their count.
ghost use Rattle.std.specs.Prelude.{◌≡◌};
ghost use Rattle.panel.specs.Points.{first_points};
ghost use Rattle.panel.specs.Centroids.{middle};
ghost use Rattle.fingers.specs.Several.{multi_step, multi_from};
ghost use Rattle.gesture.specs.Reports as rule;
ghost use Rattle.gesture.specs.Reports.{up_outcome, end_stored, all_up, is_last_finger, residual_touch, new_touch, touch_down, goes_on, one_finger, two, more, finger, fingers_of, report_step};

use crate::record;
use crate::record::{Step, Touch, Tracker};
use fingers::{
    App, Gesture, Keys, LIFT_GAP_MS, MultiStep, NOTE_RESIDUAL, Note, One, OneStep, Outcome, Pair,
};
use panel::{Event, MAX_POINTS, Point};

// What the end of a touch comes to.
#[tactic(auto, unfolding(crate::specs::Reports::up_outcome))]
fn up_outcome(touch: Touch, one: One, app: App, now: u64) -> Outcome
    ensures { result ≡ up_outcome touch one app now }
{
    match touch {
        Touch::Idle | Touch::Residual => Outcome::Quiet,
        Touch::Multi(m, pr) => fingers::multi_end(m, pr),
        Touch::Down(p0, t0) => fingers::release(one, app, p0, t0, now),
    }
}

#[tactic(auto, unfolding(crate::specs::Reports::end_stored))]
fn end_stored(touch: Touch, end: Option<u64>, now: u64) -> Option<u64>
    ensures { result ≡ end_stored touch end now }
{
    match touch {
        Touch::Idle | Touch::Down(_, _) | Touch::Residual => end,
        Touch::Multi(_, _) => Some(now),
    }
}

// No finger any more.
#[tactic(auto, unfolding(crate::specs::Reports::all_up, crate::specs::Trackers::touched, crate::specs::Trackers::whole))]
fn all_up(t: Tracker, now: u64) -> Step
    ensures { result ≡ all_up t now }
{
    let mut n = t;
    n.touch = Touch::Idle;
    n.multi_end = end_stored(t.touch, t.multi_end, now);
    Step {
        out: up_outcome(t.touch, t.one, t.app, now),
        tracker: n,
    }
}

// Whether a touch-down is the remaining finger after a release reported between two lifts.
#[tactic(auto, using(panel::proofs::Follow::follow), unfolding(crate::specs::Reports::is_last_finger))]
fn is_last_finger(end: Option<u64>, now: u64) -> bool
    ensures { result ≡ is_last_finger end now }
{
    end.is_some_and(|t| fingers::elapsed(now, t) < LIFT_GAP_MS)
}

// The remaining finger is part of the multi-finger touch, ignored until it is up or gains another.
#[tactic(auto, unfolding(crate::specs::Reports::residual_touch, crate::specs::Trackers::touched, crate::specs::Trackers::whole))]
fn residual(t: Tracker, p: Point) -> Step
    ensures { result ≡ residual_touch t p }
{
    let mut n = t;
    n.touch = Touch::Residual;
    n.multi_end = None;
    Step {
        out: Outcome::Noted(Note {
            number: NOTE_RESIDUAL,
            p,
        }),
        tracker: n,
    }
}

#[tactic(auto, unfolding(crate::specs::Reports::new_touch, crate::specs::Trackers::touched, crate::specs::Trackers::whole))]
fn down(t: Tracker, p: Point, now: u64) -> Step
    ensures { result ≡ new_touch t p now }
{
    let mut n = t;
    n.touch = Touch::Down(p, now);
    n.one = fingers::reset(p);
    n.app = fingers::untaken();
    n.multi_end = None;
    Step {
        out: Outcome::Gives(Gesture::Down(p)),
        tracker: n,
    }
}

#[tactic(auto, using(panel::proofs::Follow::follow), unfolding(crate::specs::Reports::touch_down))]
fn touch_down(t: Tracker, p: Point, now: u64) -> Step
    ensures { result ≡ touch_down t p now }
{
    if is_last_finger(t.multi_end, now) {
        residual(t, p)
    } else {
        down(t, p, now)
    }
}

#[tactic(auto, unfolding(crate::specs::Reports::goes_on, crate::specs::Trackers::touched, crate::specs::Trackers::whole))]
pub(crate) fn goes_on(s: OneStep, touch: Touch, t: Tracker) -> Step
    ensures { result ≡ goes_on s touch t }
{
    let mut n = t;
    n.touch = touch;
    n.one = s.one;
    Step {
        out: s.out,
        tracker: n,
    }
}

// The touch once more beside the tracker that has it: the definition is by cases on it.
#[tactic(auto, unfolding(crate::specs::Reports::one_finger))]
fn one_finger(touch: Touch, t: Tracker, p: Point, now: u64) -> Step
    ensures { result ≡ one_finger touch t p now }
{
    match touch {
        Touch::Idle => touch_down(t, p, now),
        // Fingers lifting after a multi-finger touch.
        Touch::Residual | Touch::Multi(_, _) => record::quiet(t),
        Touch::Down(p0, t0) => {
            let s = fingers::later_report(t.one, t.app, p0, t0, p, now, t.settings);
            goes_on(s, Touch::Down(p0, t0), t)
        }
    }
}

// A touch of several fingers begins, with two or with more.
fn start(out: Outcome, n: u8, pair: Option<Pair>, c: Point, now: u64) -> MultiStep
    ensures { result ≡ multi_step out (multi_from n c now) pair }
{
    MultiStep {
        out,
        multi: fingers::multi_from(n, c, now),
        pair,
    }
}

// Two fingers. The last finger of a multi touch that gains one again is a new touch of several. Two and more are
// apart, as document 01's rules for them and the definitions `two` and `more` are, and case by case as these.
#[tactic(auto, unfolding(crate::specs::Reports::two, crate::specs::Reports::two_start))]
fn two_at(touch: Touch, p: Point, q: Point, c: Point, now: u64) -> MultiStep
    ensures { result ≡ two touch p q c now }
{
    match touch {
        Touch::Idle | Touch::Residual => start(
            Outcome::Quiet,
            2,
            Some(fingers::new_pair(p, q, c)),
            c,
            now,
        ),
        Touch::Down(_, _) => start(
            Outcome::Gives(Gesture::Cancel),
            2,
            Some(fingers::new_pair(p, q, c)),
            c,
            now,
        ),
        Touch::Multi(m, pr) => fingers::two_fingers(pr, m, p, q, c, now),
    }
}

// Three fingers or more.
#[tactic(auto, unfolding(crate::specs::Reports::more, crate::specs::Reports::more_start))]
fn more_at(touch: Touch, n: u8, c: Point, now: u64) -> MultiStep
    ensures { result ≡ more touch n c now }
{
    match touch {
        Touch::Idle | Touch::Residual => start(Outcome::Quiet, n, None, c, now),
        Touch::Down(_, _) => start(Outcome::Gives(Gesture::Cancel), n, None, c, now),
        Touch::Multi(m, pr) => fingers::three_fingers(pr, m, n, c, now),
    }
}

// The touch is one of several from here on.
#[tactic(auto, unfolding(crate::specs::Reports::several, crate::specs::Trackers::touched, crate::specs::Trackers::whole))]
fn several(s: MultiStep, t: Tracker) -> Step
    ensures { result ≡ rule.several s t }
{
    let mut n = t;
    n.touch = Touch::Multi(s.multi, s.pair);
    Step {
        out: s.out,
        tracker: n,
    }
}

// The steps of several fingers take the touch alone and not the tracker: a call that is handed the whole record and
// gives it back has it stored and fetched again for every report.
fn two_of(touch: Touch, pts: [Point; MAX_POINTS], now: u64) -> MultiStep
    ensures { result ≡ two touch (finger 0 pts) (finger 1 pts) (middle (first_points 2 pts)) now }
{
    two_at(touch, pts[0], pts[1], panel::middle_of(2, pts), now)
}

fn more_of(touch: Touch, n: u8, pts: [Point; MAX_POINTS], now: u64) -> MultiStep
    ensures { result ≡ more touch n (middle (first_points n pts)) now }
{
    more_at(touch, n, panel::middle_of(n, pts), now)
}

// The fingers of a report, by their count; a count over five means five. A match over its ranges: document 01,
// "The form each place takes", "over count ranges 0, 1, 2, 3 to 5 in the step".
#[tactic(auto, using(panel::proofs::Follow::follow, crate::proofs::Counted::counted), unfolding(crate::specs::Reports::fingers_of, crate::specs::Reports::two_of, crate::specs::Reports::more_of))]
fn by_count(t: Tracker, ev: Event, now: u64) -> Step
    ensures { result ≡ fingers_of t ev now }
{
    match ev.points {
        0 => all_up(t, now),
        1 => one_finger(t.touch, t, ev.p, now),
        2 => several(two_of(t.touch, ev.pts, now), t),
        3..=5 => several(more_of(t.touch, ev.points, ev.pts, now), t),
        _ => several(more_of(t.touch, MAX_POINTS as u8, ev.pts, now), t),
    }
}

// What a report comes to. A key change is told as in `tick_step`: a function for it would be as long as both places.
#[tactic(auto, unfolding(crate::specs::Reports::keys_then_fingers, crate::specs::Reports::report_step))]
pub(crate) fn report_step(t: Tracker, ev: Event, now: u64) -> Step
    ensures { result ≡ report_step t ev now }
{
    let wanted = ev.keys;
    match fingers::key_step(t.keys.told, wanted) {
        Some((g, told)) => Step {
            out: Outcome::Gives(g),
            tracker: record::with_keys(t, Keys { told, wanted }),
        },
        None => {
            let told = t.keys.told;
            by_count(record::with_keys(t, Keys { told, wanted }), ev, now)
        }
    }
}
