// Holding a finger still: hold-to-grab, and the long press. Both are looked for at a tick, the grab at a
// report too, since the controller reports jitter as moves and ticks may then not run.
#![tactic(auto, using(panel::proofs::Follow::follow), unfolding(crate::specs::Holds::hold_of, crate::specs::Holds::grab_due, crate::specs::Holds::long_from, crate::specs::Holds::long_due, crate::specs::Holds::held_still, crate::specs::Fields::set_grabbed, crate::specs::Fields::set_long_sent))]

ghost use Rattle.std.specs.Prelude.{◌≡◌, ◌-◌};
ghost use Rattle.fingers.specs.Holds.{hold_of, grab_due, long_from, long_due, held_still};

use crate::gestures::{Gesture, Outcome};
use crate::one::{App, One, OneStep};
use crate::settings::Settings;
use crate::thresholds::{LONG_HOLD_MS, LONG_MS};
use panel::Point;

// The time from t to now, 0 where the clock is behind.
pub fn elapsed(now: u64, t: u64) -> u64
    ensures { result ≡ now - t }
{
    now.saturating_sub(t)
}

// The time to hold before a drag, 0 for none.
pub(crate) fn hold_of(direct: bool, grab: u16) -> u16
    ensures { result ≡ hold_of direct grab }
{
    if direct { 0 } else { grab }
}

// Whether a Grab is due: the grab time is over, no report was early, and no Grab was told yet.
pub(crate) fn grab_due(o: One, hold: u16, held: u64) -> bool
    ensures { result ≡ grab_due o hold held }
{
    hold != 0 && !o.early && !o.grabbed && u64::from(hold) <= held
}

fn long_from(grab: u16) -> u64
    ensures { result ≡ long_from grab }
{
    if grab == 0 { LONG_MS } else { LONG_HOLD_MS }
}

fn long_due(o: One, grab: u16, held: u64) -> bool
    ensures { result ≡ long_due o grab held }
{
    !o.moved && !o.long_sent && long_from(grab) <= held
}

// A tick while one finger is down at p0, since t0. The two stay apart, here and in `later_report` and `release`: a
// struct of them would be made at each call of what Touch::Down(p0, t0) holds, and taken apart again at once.
pub fn held_still(o: One, app: App, p0: Point, t0: u64, now: u64, set: Settings) -> OneStep
    ensures { result ≡ held_still o app p0 t0 now set }
{
    let held = elapsed(now, t0);
    if grab_due(o, hold_of(app.direct, set.grab_ms), held) {
        OneStep {
            out: Outcome::Gives(Gesture::Grab(p0)),
            one: One { grabbed: true, ..o },
        }
    } else if long_due(o, set.grab_ms, held) {
        OneStep {
            out: Outcome::Gives(Gesture::LongPress(p0)),
            one: One {
                long_sent: true,
                ..o
            },
        }
    } else {
        OneStep {
            out: Outcome::Quiet,
            one: o,
        }
    }
}
