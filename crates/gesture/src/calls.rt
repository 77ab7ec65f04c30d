// The public calls: each looks at the state rule first, a report at its points next, and then answers by the
// step of its own. At most one gesture and one log line to a call. The state rule's test stands in each call, as
// `refused State t` does in each definition: `event` has a second test, `grab_ms` an answer of another type, and `tick`
// is left as it is counted in docs/BENCH.md, so that a function with the rest as a closure would serve four calls, and
// be about as long as what it saves them.
ghost use Rattle.std.specs.Prelude.{◌≡◌};
ghost use Rattle.panel.specs.Points.{all_on_panel};
ghost use Rattle.gesture.specs.Answers.{points_in_use, reported, captured, event_of, tick_of, capture_of, capture_direct_of, raw_next_of, set_grab_of, grab_of};

use crate::answers::Answer;
use crate::record::{Step, Tracker};
use crate::{answers, captures, lines, reports, states, ticks};
use panel::{Event, Refusal};

// Whether the points that the report's count takes into use are on the panel.
#[tactic(auto, using(panel::proofs::Follow::follow, crate::proofs::Counted::counted), unfolding(crate::specs::Answers::points_in_use))]
fn points_ok(ev: Event) -> bool
    ensures { result ≡ all_on_panel (points_in_use ev) }
{
    if ev.points == 1 {
        panel::on_panel(ev.p)
    } else {
        panel::all_on_panel(ev.points, ev.pts)
    }
}

// What a step of a report or of a tick comes to. Inlined: as a call of its own it has the tracker go through memory, and a
// report takes twice the instructions.
#[tactic(auto, unfolding(crate::specs::Answers::reported))]
#[inline(always)]
fn step_answer(s: Step, locked: bool, now: u64) -> Answer
    ensures { result ≡ reported s locked now }
{
    answers::answered(
        answers::given_by(s.out),
        lines::line_of(s.out, locked, now),
        s.tracker,
    )
}

// A report of the controller.
#[tactic(auto, using(panel::proofs::Follow::follow, crate::proofs::Logged::locked_is_some), unfolding(crate::specs::Answers::event_of))]
pub fn event(t: Tracker, ev: Event, now: u64) -> Answer
    ensures { result ≡ event_of t ev now }
{
    if !states::state_ok(t) {
        return answers::refused(Refusal::State, t);
    }
    if !points_ok(ev) {
        return answers::refused(Refusal::Panel, t);
    }
    let locked = t.one.axis.is_some();
    step_answer(reports::report_step(t, ev, now), locked, now)
}

// To be called periodically, between the reports.
#[tactic(auto, using(panel::proofs::Follow::follow, crate::proofs::Logged::ticked_is_reported), unfolding(crate::specs::Answers::tick_of))]
pub fn tick(t: Tracker, now: u64) -> Answer
    ensures { result ≡ tick_of t now }
{
    if !states::state_ok(t) {
        return answers::refused(Refusal::State, t);
    }
    step_answer(ticks::tick_step(t, now), false, now)
}

// The raw wish is used up whether the touch is taken or not.
#[tactic(auto, using(panel::proofs::Follow::follow), unfolding(crate::specs::Answers::captured))]
fn capture_answer(t: Tracker) -> Answer
    ensures { result ≡ captured t }
{
    if captures::is_takeable(t) {
        let log = lines::capture_line(t.settings.raw_next, t.one.last);
        answers::answered(None, log, captures::with_taken(t))
    } else {
        answers::answered(None, None, captures::with_wish(t, false))
    }
}

// The app took the current touch, its Down or its Drag: the release of its one finger is then no swipe and no tap.
#[tactic(auto, using(panel::proofs::Follow::follow), unfolding(crate::specs::Answers::capture_of))]
pub fn capture(t: Tracker) -> Answer
    ensures { result ≡ capture_of t }
{
    if !states::state_ok(t) {
        return answers::refused(Refusal::State, t);
    }
    capture_answer(t)
}

// The app took the current touch, which has no hold before a drag from here on: a slider, not the scope. The raw wish
// is cleared.
#[tactic(auto, using(panel::proofs::Follow::follow), unfolding(crate::specs::Answers::capture_direct_of))]
pub fn capture_direct(t: Tracker) -> Answer
    ensures { result ≡ capture_direct_of t }
{
    if !states::state_ok(t) {
        return answers::refused(Refusal::State, t);
    }
    answers::answered(None, None, captures::after_capture_direct(t))
}

// Ask for raw moves on the touch that the app is about to capture.
#[tactic(auto, using(panel::proofs::Follow::follow), unfolding(crate::specs::Answers::raw_next_of))]
pub fn raw_next(t: Tracker, on: bool) -> Answer
    ensures { result ≡ raw_next_of t on }
{
    if !states::state_ok(t) {
        return answers::refused(Refusal::State, t);
    }
    answers::answered(None, None, captures::with_wish(t, on))
}

#[tactic(auto, using(panel::proofs::Follow::follow), unfolding(crate::specs::Answers::set_grab_of))]
pub fn set_grab_ms(t: Tracker, ms: u16) -> Answer
    ensures { result ≡ set_grab_of t ms }
{
    if !states::state_ok(t) {
        return answers::refused(Refusal::State, t);
    }
    answers::answered(None, None, captures::after_set_grab(t, ms))
}

// Hold-to-grab time in ms, 0 for direct drags.
#[tactic(auto, using(panel::proofs::Follow::follow), unfolding(crate::specs::Answers::grab_of))]
pub fn grab_ms(t: Tracker) -> Result<u16, Refusal>
    ensures { result ≡ grab_of t }
{
    if !states::state_ok(t) {
        return Err(Refusal::State);
    }
    Ok(t.settings.grab_ms)
}
