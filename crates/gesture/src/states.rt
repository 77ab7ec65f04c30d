// The state rule of the tracker, tested part by part. What the types rule out by themselves (two touches at a
// time, a pair without several fingers) needs no test. Where a part has several numbers, their tests are joined by `&`,
// which is measured: docs/DECISIONS.md, "Tests joined by `&`".
ghost use Rattle.std.specs.Prelude.{◌≡◌};
ghost use Rattle.gesture.specs.code.Parts.{one_part, pair_places, pair_part, pairing_part, multi_places, multi_part, several_part, touch_part};
ghost use Rattle.gesture.specs.States.{raw_rule, state_rule};

use crate::record::{Touch, Tracker};
use fingers::{App, GRAB_MOST_MS, Multi, One, Pair};
use panel::{MAX_POINTS, WIDTH};

// The largest pair state.
const STATE_MOST: u8 = 2;

// The fewest fingers of a touch of several.
const FINGERS_LEAST: u8 = 2;

// A raw-move touch is the app's.
#[tactic(auto, using(panel::proofs::Follow::follow), unfolding(crate::specs::States::raw_rule))]
fn app_ok(app: App) -> bool
    ensures { result ≡ raw_rule app }
{
    !app.raw || app.captured
}

#[tactic(auto, using(panel::proofs::Follow::both, panel::proofs::Follow::joined), unfolding(crate::specs::code::Parts::one_part))]
fn one_ok(o: One) -> bool
    ensures { result ≡ one_part o }
{
    panel::on_panel(o.last) & (o.far < WIDTH)
}

#[tactic(auto, using(panel::proofs::Follow::both, panel::proofs::Follow::joined), unfolding(crate::specs::code::Parts::pair_places))]
fn places_ok(r: Pair) -> bool
    ensures { result ≡ pair_places r }
{
    panel::on_panel(r.a) & panel::on_panel(r.b) & panel::on_panel(r.c0)
}

#[tactic(auto, using(panel::proofs::Follow::both, panel::proofs::Follow::joined), unfolding(crate::specs::code::Parts::pair_part))]
fn pair_ok(r: Pair) -> bool
    ensures { result ≡ pair_part r }
{
    places_ok(r) & (r.span0 < WIDTH) & (r.state <= STATE_MOST)
}

#[tactic(auto, unfolding(crate::specs::code::Parts::pairing_part))]
fn pairing_ok(pr: Option<Pair>) -> bool
    ensures { result ≡ pairing_part pr }
{
    pr.is_none_or(pair_ok)
}

#[tactic(auto, using(panel::proofs::Follow::both, panel::proofs::Follow::joined), unfolding(crate::specs::code::Parts::multi_places))]
fn centroids_ok(m: Multi) -> bool
    ensures { result ≡ multi_places m }
{
    panel::on_panel(m.c0) & panel::on_panel(m.c1)
}

#[tactic(auto, using(panel::proofs::Follow::both, panel::proofs::Follow::joined), unfolding(crate::specs::code::Parts::multi_part))]
fn multi_ok(m: Multi) -> bool
    ensures { result ≡ multi_part m }
{
    (FINGERS_LEAST <= m.n) & (m.n <= MAX_POINTS as u8) & centroids_ok(m)
}

#[tactic(auto, using(panel::proofs::Follow::follow), unfolding(crate::specs::code::Parts::several_part))]
fn several_ok(m: Multi, pr: Option<Pair>) -> bool
    ensures { result ≡ several_part m pr }
{
    multi_ok(m) && pairing_ok(pr)
}

#[tactic(auto, unfolding(crate::specs::code::Parts::touch_part))]
fn touch_ok(touch: Touch) -> bool
    ensures { result ≡ touch_part touch }
{
    match touch {
        Touch::Idle | Touch::Residual => true,
        Touch::Down(p0, _) => panel::on_panel(p0),
        Touch::Multi(m, pr) => several_ok(m, pr),
    }
}

// Whether the tracker keeps the rules of its state.
#[tactic(auto, using(panel::proofs::Follow::follow, crate::proofs::Rule::rule_is_parts), unfolding(crate::specs::code::Parts::all_parts))]
pub fn state_ok(t: Tracker) -> bool
    ensures { result ≡ state_rule t }
{
    touch_ok(t.touch) && one_ok(t.one) && app_ok(t.app) && t.settings.grab_ms <= GRAB_MOST_MS
}
