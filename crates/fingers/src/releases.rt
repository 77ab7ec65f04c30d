// The release of one finger: up, for a touch that the app took; else a swipe, a tap, or nothing, with a note
// for the log of why.
#![tactic(auto, using(panel::proofs::Follow::follow), unfolding(crate::specs::Releases::tap_or_note, crate::specs::Releases::is_swipe, crate::specs::Releases::swipe_or_note, crate::specs::Releases::release_of, crate::specs::Releases::release_by))]

ghost use Rattle.std.specs.Prelude.{◌≡◌, ◌+◌, min};
ghost use Rattle.fingers.specs.Notes.{note_far, note_far_most};
ghost use Rattle.fingers.specs.Releases.{tap_or_note, is_swipe, swipe_or_note, release_by, release_of};

use crate::gestures::{Gesture, Note, Outcome};
use crate::hold;
use crate::notes::{NOTE_FAR, NOTE_FAR_MOST, NOTE_LONG, NOTE_SLANT};
use crate::one::{App, One};
use crate::thresholds::{SWIPE_MAX_MS, SWIPE_MIN, TAP_SLOP};
use panel::Point;

fn tap_or(o: One, p0: Point, note: u8) -> Outcome
    ensures { result ≡ tap_or_note o p0 note }
{
    if o.far <= TAP_SLOP {
        Outcome::Gives(Gesture::Tap(p0))
    } else {
        Outcome::Noted(Note {
            number: note,
            p: o.last,
        })
    }
}

fn is_swipe(held: u64, dx: u16, dy: u16) -> bool
    ensures { result ≡ is_swipe held dx dy }
{
    held <= SWIPE_MAX_MS && (SWIPE_MIN <= dx || SWIPE_MIN <= dy)
}

// A swipe has a dominant axis: the travel along it is more than twice the travel across.
fn swipe(p0: Point, p1: Point, dx: u16, dy: u16) -> Outcome
    ensures { result ≡ swipe_or_note p0 p1 dx dy }
{
    let x = u32::from(dx);
    let y = u32::from(dy);
    if 2 * y < x {
        Outcome::Gives(if p0.x < p1.x {
            Gesture::SwipeRight
        } else {
            Gesture::SwipeLeft
        })
    } else if 2 * x < y {
        Outcome::Gives(if p0.y < p1.y {
            Gesture::SwipeDown
        } else {
            Gesture::SwipeUp
        })
    } else {
        Outcome::Noted(Note {
            number: NOTE_SLANT,
            p: p1,
        })
    }
}

fn note_of(far: u16) -> u8
    ensures { result ≡ note_far + min far note_far_most }
{
    NOTE_FAR + far.min(NOTE_FAR_MOST) as u8
}

// The finger is up that went down at p0, at t0; the two stay apart, as `held_still` says.
pub fn release(o: One, app: App, p0: Point, t0: u64, now: u64) -> Outcome
    ensures { result ≡ release_of o app p0 t0 now }
{
    let p1 = o.last;
    let dx = panel::gap(p0.x, p1.x);
    let dy = panel::gap(p0.y, p1.y);
    if app.captured {
        Outcome::Gives(Gesture::Up(p1))
    } else if o.long_sent {
        // A long press that the app did not take still taps where it did not go far, so that a slow press on a button
        // is not lost.
        tap_or(o, p0, NOTE_LONG)
    } else if is_swipe(hold::elapsed(now, t0), dx, dy) {
        swipe(p0, p1, dx, dy)
    } else {
        tap_or(o, p0, note_of(o.far))
    }
}
