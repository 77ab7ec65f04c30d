// Later reports of one finger: where it has gone, and whether it grabs, moves or drags.
#![tactic(auto, using(panel::proofs::Follow::follow), unfolding(crate::specs::OneFinger::early_now, crate::specs::OneFinger::tracked, crate::specs::OneFinger::same_point, crate::specs::OneFinger::move_from, crate::specs::OneFinger::axis_at, crate::specs::OneFinger::drag_along, crate::specs::Fields::set_axis, crate::specs::OneFinger::may_drag, crate::specs::OneFinger::later_report, crate::specs::OneFinger::grab_or_moving, crate::specs::OneFinger::moving, crate::specs::Fields::set_grabbed))]

ghost use Rattle.std.specs.Prelude.{◌≡◌};
ghost use Rattle.panel.specs.Distances.{distance};
ghost use Rattle.fingers.specs.OneFinger.{early_now, tracked, move_from, axis_at, drag_along, may_drag, moving, grab_or_moving, later_report};

use crate::gestures::{Gesture, Outcome};
use crate::hold;
use crate::one::{App, One, OneStep};
use crate::settings::Settings;
use crate::thresholds::{GRAB_SLOP, SLOP};
use panel::{Axis, Point};

// How far p is from the touch-down, in the width of a coordinate, where it always fits.
fn away(p0: Point, p: Point) -> u16
    ensures { result ≡ distance p0 p }
{
    panel::apart(p0, p) as u16
}

fn is_early(o: One, hold: u16, d: u16) -> bool
    ensures { result ≡ early_now o hold d }
{
    o.early || (hold != 0 && !o.grabbed && GRAB_SLOP < d)
}

// The finger is at p, d away from the touch-down.
fn track(o: One, hold: u16, d: u16, p: Point) -> One
    ensures { result ≡ tracked o hold d p }
{
    One {
        last: p,
        moved: o.moved || SLOP < d,
        far: o.far.max(d),
        early: is_early(o, hold, d),
        ..o
    }
}

fn move_from(prev: Point, p: Point) -> Outcome
    ensures { result ≡ move_from prev p }
{
    if prev == p {
        Outcome::Quiet
    } else {
        Outcome::Gives(Gesture::Move(prev, p))
    }
}

fn axis_at(o: One, p0: Point, p: Point) -> Option<Axis>
    ensures { result ≡ axis_at o.axis p0 p }
{
    o.axis.or_else(|| {
        panel::axis_along(
            u32::from(panel::gap(p0.x, p.x)),
            u32::from(panel::gap(p0.y, p.y)),
        )
    })
}

fn drag(axis: Option<Axis>, o: One, p0: Point, p: Point) -> OneStep
    ensures { result ≡ drag_along axis o p0 p }
{
    match axis {
        Some(a) => OneStep {
            out: Outcome::Gives(Gesture::Drag(p0, p, a)),
            one: One { axis: Some(a), ..o },
        },
        None => OneStep {
            out: Outcome::Quiet,
            one: o,
        },
    }
}

// Hold-to-grab: while the hold is on and no Grab was told, no drag.
fn may_drag(o: One, hold: u16) -> bool
    ensures { result ≡ may_drag o hold }
{
    o.moved && (o.grabbed || hold == 0)
}

// A report of one finger at p, down at p0 since t0; the two stay apart, as `held_still` says.
pub fn later_report(
    o: One,
    app: App,
    p0: Point,
    t0: u64,
    p: Point,
    now: u64,
    set: Settings,
) -> OneStep
    ensures { result ≡ later_report o app p0 t0 p now set }
{
    let hold = hold::hold_of(app.direct, set.grab_ms);
    let n = track(o, hold, away(p0, p), p);
    if hold::grab_due(n, hold, hold::elapsed(now, t0)) {
        OneStep {
            out: Outcome::Gives(Gesture::Grab(p0)),
            one: One { grabbed: true, ..n },
        }
    } else if app.raw {
        // Raw-move touch: every report that moved, from the first; one that told a Grab does not come here.
        OneStep {
            out: move_from(o.last, p),
            one: n,
        }
    } else if may_drag(n, hold) {
        drag(axis_at(n, p0, p), n, p0, p)
    } else {
        OneStep {
            out: Outcome::Quiet,
            one: n,
        }
    }
}
