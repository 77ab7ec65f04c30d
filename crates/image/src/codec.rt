// An area of bytes as a tracker, and back. An area is taken exactly if it is the image of a tracker that keeps the
// state rule: its bytes are looked at first, and then the tracker that is read from them.
ghost use Rattle.std.specs.Prelude.{◌≡◌};
ghost use Rattle.gesture.specs.Trackers.{fresh_tracker};
ghost use Rattle.image.specs.Codec.{decode_of, stored, encode_of};
ghost use Rattle.image.specs.code.Finding.{unruled_of, ruled_of};

use crate::settings::{IMAGE_BYTES, Image};
use crate::whole;
use gesture::Tracker;
use panel::Refusal;

// The tracker whose image it is, also one that breaks the state rule.
pub(crate) fn unruled(image: &Image) -> Result<Tracker, Refusal>
    ensures { result ≡ unruled_of image.now }
{
    if whole::is_image(image) {
        Ok(whole::tracker_at(image))
    } else {
        Err(Refusal::State)
    }
}

// A tracker that keeps the state rule. Taken into its callers, and by no `then_some`: as a call of its own it takes some 200
// instructions more, by that some 290, since the tracker goes through memory.
#[tactic(auto, using(panel::proofs::Follow::follow), unfolding(crate::specs::code::Finding::ruled_of))]
#[inline(always)]
fn ruled(t: Tracker) -> Result<Tracker, Refusal>
    ensures { result ≡ ruled_of t }
{
    if !gesture::state_ok(t) {
        return Err(Refusal::State);
    }
    Ok(t)
}

// The tracker whose image the area is.
pub fn decode(area: &[u8]) -> Result<Tracker, Refusal>
    ensures { result ≡ decode_of area.now }
{
    let image = area.as_array::<IMAGE_BYTES>().ok_or(Refusal::State)?;
    ruled(unruled(image)?)
}

// Writes the image of a tracker that keeps the state rule into an area of the image's length. A refused call leaves the
// area as it was.
pub fn encode(t: Tracker, area: &mut [u8]) -> Result<(), Refusal>
    ensures { stored result area.new ≡ encode_of t area.old }
{
    let image = area.as_mut_array::<IMAGE_BYTES>().ok_or(Refusal::State)?;
    whole::put_tracker(image, ruled(t)?);
    Ok(())
}

// The same of the fresh tracker, whose image is all zero.
pub fn encode_fresh(area: &mut [u8]) -> Result<(), Refusal>
    ensures { stored result area.new ≡ encode_of fresh_tracker area.old }
{
    let image = area.as_mut_array::<IMAGE_BYTES>().ok_or(Refusal::State)?;
    whole::blank(image);
    Ok(())
}
