// What the app sets: it outlives the touches. A setting more is a field here, its first value in `unset`, and a setter.
#![tactic(auto, using(panel::proofs::Follow::follow), unfolding(crate::specs::Settings::unset, crate::specs::Settings::set_raw, crate::specs::Settings::set_grab))]

ghost use Rattle.std.specs.Prelude.{◌≡◌};
ghost use Rattle.fingers.specs.Settings as settings;
ghost use Rattle.fingers.specs.Settings.{set_raw, set_grab};

#[derive(Clone, Copy)]
pub struct Settings {
    // A capture that takes the touch makes it a raw-move touch. Every capture uses the wish up.
    pub raw_next: bool,
    // Hold-to-grab time, 0 for direct drags.
    pub grab_ms: u16,
}

// By name and no derived Default: the definitions and the theorems of a fresh tracker speak of `unset`.
pub fn unset() -> Settings
    ensures { result ≡ settings.unset }
{
    Settings {
        grab_ms: 0,
        raw_next: false,
    }
}

pub fn with_raw(set: Settings, on: bool) -> Settings
    ensures { result ≡ set_raw set on }
{
    Settings {
        raw_next: on,
        ..set
    }
}

pub fn with_grab_ms(set: Settings, ms: u16) -> Settings
    ensures { result ≡ set_grab set ms }
{
    Settings { grab_ms: ms, ..set }
}
