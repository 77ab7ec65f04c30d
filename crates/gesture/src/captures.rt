// The app takes a touch, and its settings. The release of the one finger of a touch that
// is taken is no swipe and no tap.
ghost use Rattle.std.specs.Prelude.{◌≡◌};
ghost use Rattle.gesture.specs.Captures.{takes, owned, settled, taken, wished, after_capture_direct, after_set_grab};

use crate::record;
use crate::record::Tracker;
use fingers::{App, GRAB_MOST_MS, Settings};

// Whether a capture takes the touch: one is on, and not taken yet.
#[tactic(auto, using(panel::proofs::Follow::follow), unfolding(crate::specs::Captures::takes))]
pub(crate) fn is_takeable(t: Tracker) -> bool
    ensures { result ≡ takes t }
{
    record::is_active(t.touch) && !t.app.captured
}

// The touch is the app's, and the raw wish is used up.
#[tactic(auto, unfolding(crate::specs::Captures::owned, crate::specs::Trackers::whole))]
fn with_app(t: Tracker, app: App) -> Tracker
    ensures { result ≡ owned t app }
{
    let mut n = t;
    n.app = app;
    n.settings = fingers::with_raw(t.settings, false);
    n
}

// The settings alone.
#[tactic(auto, unfolding(crate::specs::Captures::settled, crate::specs::Trackers::whole))]
fn with_settings(t: Tracker, set: Settings) -> Tracker
    ensures { result ≡ settled t set }
{
    let mut n = t;
    n.settings = set;
    n
}

// The touch is the app's, for raw moves if they were wished for.
#[tactic(auto, unfolding(crate::specs::Captures::taken))]
pub(crate) fn with_taken(t: Tracker) -> Tracker
    ensures { result ≡ taken t }
{
    with_app(t, fingers::with_capture(t.app, t.settings.raw_next))
}

#[tactic(auto, unfolding(crate::specs::Captures::wished))]
pub(crate) fn with_wish(t: Tracker, on: bool) -> Tracker
    ensures { result ≡ wished t on }
{
    with_settings(t, fingers::with_raw(t.settings, on))
}

#[tactic(auto, using(panel::proofs::Follow::follow), unfolding(crate::specs::Captures::after_capture_direct))]
pub(crate) fn after_capture_direct(t: Tracker) -> Tracker
    ensures { result ≡ after_capture_direct t }
{
    if record::is_active(t.touch) {
        with_app(t, fingers::with_direct(t.app))
    } else {
        with_wish(t, false)
    }
}

#[tactic(auto, unfolding(crate::specs::Captures::after_set_grab))]
pub(crate) fn after_set_grab(t: Tracker, ms: u16) -> Tracker
    ensures { result ≡ after_set_grab t ms }
{
    with_settings(t, fingers::with_grab_ms(t.settings, ms.min(GRAB_MOST_MS)))
}
