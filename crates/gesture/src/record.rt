// The tracker record, by what changes together: the settings, the keys, the touch that is on, what its one finger did, what
// the app made of it, and when several fingers were last up. The touch is an enum, so that there are never two; the
// finger's part and the app's stand beside it because they outlive a touch.
ghost use Rattle.std.specs.Prelude.{◌≡◌};
ghost use Rattle.fingers.specs.declared.gestures.Outcome.TheVariants.{Quiet};
ghost use Rattle.gesture.specs.Trackers.{fresh_tracker, is_active, step, keyed};

use fingers::{App, Keys, Multi, One, Outcome, Pair, Settings};
use panel::Point;

#[derive(Clone, Copy)]
pub enum Touch {
    Idle,
    // One finger: where and when it went down.
    Down(Point, u64),
    // The touch had two or more fingers, and may have a pair to tell a pinch by.
    Multi(Multi, Option<Pair>),
    // The remaining finger of a multi-finger touch: key changes alone are told until it is up or gains another.
    Residual,
}

// The order of the fields, here and in their parts, is for speed: docs/BENCH.md. So is how a part is set, on a copy: with
// the other fields by `..t` a report takes 40 to 65 instructions more.
#[derive(Clone, Copy)]
pub struct Tracker {
    pub settings: Settings,
    pub touch: Touch,
    pub multi_end: Option<u64>,
    pub keys: Keys,
    pub app: App,
    pub one: One,
}

// What a call comes to, and the tracker that it leaves.
#[derive(Clone, Copy)]
pub struct Step {
    pub out: Outcome,
    pub tracker: Tracker,
}

// Its parts by the names that they have in the definition `fresh_tracker`, and no derived Default.
#[tactic(auto, unfolding(crate::specs::Trackers::fresh_tracker, crate::specs::Trackers::whole))]
pub fn fresh() -> Tracker
    ensures { result ≡ fresh_tracker }
{
    Tracker {
        touch: Touch::Idle,
        one: fingers::reset(Point { x: 0, y: 0 }),
        app: fingers::untaken(),
        multi_end: None,
        keys: Keys { told: 0, wanted: 0 },
        settings: fingers::unset(),
    }
}

// A touch is in progress, with any number of fingers.
#[tactic(auto, unfolding(crate::specs::Trackers::is_active))]
pub(crate) fn is_active(touch: Touch) -> bool
    ensures { result ≡ is_active touch }
{
    !matches!(touch, Touch::Idle)
}

// Nothing came of the call, and nothing is altered.
pub(crate) fn quiet(t: Tracker) -> Step
    ensures { result ≡ step Quiet t }
{
    Step {
        out: Outcome::Quiet,
        tracker: t,
    }
}

#[tactic(auto, unfolding(crate::specs::Trackers::keyed, crate::specs::Trackers::whole))]
pub(crate) fn with_keys(t: Tracker, keys: Keys) -> Tracker
    ensures { result ≡ keyed t keys }
{
    let mut n = t;
    n.keys = keys;
    n
}
