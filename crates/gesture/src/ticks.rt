// The tick between two reports: the rest of a multi-key change, and what is due while a finger is held.
ghost use Rattle.std.specs.Prelude.{◌≡◌};
ghost use Rattle.gesture.specs.Ticks.{still_down, tick_step};

use crate::record::{Step, Touch, Tracker};
use crate::{record, reports};
use fingers::{Keys, Outcome};

// The touch once more beside the tracker that has it: the definition is by cases on it.
#[tactic(auto, unfolding(crate::specs::Ticks::still_down))]
fn still_down(touch: Touch, t: Tracker, now: u64) -> Step
    ensures { result ≡ still_down touch t now }
{
    match touch {
        Touch::Idle | Touch::Residual | Touch::Multi(_, _) => record::quiet(t),
        Touch::Down(p0, t0) => {
            let s = fingers::held_still(t.one, t.app, p0, t0, now, t.settings);
            reports::goes_on(s, Touch::Down(p0, t0), t)
        }
    }
}

// What a tick comes to.
#[tactic(auto, unfolding(crate::specs::Ticks::keys_then_hold, crate::specs::Ticks::tick_step))]
pub(crate) fn tick_step(t: Tracker, now: u64) -> Step
    ensures { result ≡ tick_step t now }
{
    let wanted = t.keys.wanted;
    match fingers::key_step(t.keys.told, wanted) {
        Some((g, told)) => Step {
            out: Outcome::Gives(g),
            tracker: record::with_keys(t, Keys { told, wanted }),
        },
        None => still_down(t.touch, t, now),
    }
}
