// The side keys, a bit for each. One change is told at a call, a released key first: its KeyUp ends what it
// started. Taking the lowest changed bit whichever way it changed would tell a press as a release's key.
#![tactic(auto, using(panel::proofs::Follow::follow), unfolding(crate::specs::Keys::without, crate::specs::Keys::lowest, crate::specs::Keys::flipped, crate::specs::Keys::key_step))]

ghost use Rattle.std.specs.Prelude.{◌≡◌, ◌<◌};
ghost use Rattle.fingers.specs.Keys.{key_count, without, lowest, flipped, key_step};

use crate::gestures::Gesture;

// The side keys, a bit for each.
#[derive(Clone, Copy)]
pub struct Keys {
    // As told by gestures so far ...
    pub told: u8,
    // ... and as the last report has them. They differ after a report that changed more than one key: the rest is told
    // one key per call, releases first, at the next report or tick.
    pub wanted: u8,
}

// The keys of one mask that are not in another. Masks are worked on by bits: document 01, "The form each place takes".
fn clear(mask: u8, other: u8) -> u8
    ensures { result ≡ without mask other }
{
    mask & !other
}

// The lowest key of a mask that has one.
fn lowest_of(mask: u8) -> u8
    requires { 0 < mask }
    ensures { (result ≡ lowest mask) × (result < key_count) }
{
    mask.trailing_zeros() as u8
}

fn flip(mask: u8, key: u8) -> u8
    requires { key < key_count }
    ensures { result ≡ flipped mask key }
{
    mask ^ (1 << key)
}

// One side-key change of the mask that gestures told of, towards the wanted one: the key's gesture, and the mask with
// its bit flipped. None where what gestures told of is what is wanted.
pub fn key_step(keys: u8, want: u8) -> Option<(Gesture, u8)>
    ensures { result ≡ key_step keys want }
{
    if keys == want {
        return None;
    }
    let up = clear(keys, want);
    if 0 < up {
        let code = lowest_of(up);
        return Some((Gesture::KeyUp(code), flip(keys, code)));
    }
    let down = clear(want, keys);
    if 0 < down {
        let code = lowest_of(down);
        return Some((Gesture::KeyDown(code), flip(keys, code)));
    }
    None
}
