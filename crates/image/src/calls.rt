// A call on the area that holds the tracker: the tracker is looked for in the area, the call is made, and the image of
// the tracker that it leaves is stored. A refused call writes no byte of the area, and zeros for the answer.
//
// Every call comes this one way, so that the compiler has one copy of each step and joins them: the tracker goes from
// the area's bytes into the call and back without a record of it in between. The state rule is looked at once, by the
// call itself.
ghost use Rattle.std.specs.Prelude.{◌≡◌};
ghost use Rattle.gesture.specs.Calls.{call_of};
ghost use Rattle.image.specs.Calls.{left, made_on, grab_on};
ghost use Rattle.image.specs.code.Finding.{left_by};

use crate::c_numbers::ANSWER_NUMBERS;
use crate::settings::IMAGE_BYTES;
use crate::{c_numbers, codec, settings, whole};
use gesture::Call;
use panel::Refusal;

// The numbers of the call's answer; the area then holds the tracker that it leaves.
fn call(area: &mut [u8], c: Call) -> Result<[u64; ANSWER_NUMBERS], Refusal>
    ensures { left_by result area.new ≡ made_on area.old (call_of c) }
{
    let image = area.as_mut_array::<IMAGE_BYTES>().ok_or(Refusal::State)?;
    let t = codec::unruled(image)?;
    let a = gesture::make(t, c);
    let r = a.told?;
    whole::put_tracker(image, a.tracker);
    Ok(c_numbers::numbers_of(r))
}

// Makes a call on the tracker that the area holds.
pub fn make(area: &mut [u8], c: Call, out: &mut [u64; ANSWER_NUMBERS]) -> Result<(), Refusal>
    ensures { left result area.new out.new ≡ made_on area.old (call_of c) }
{
    match call(area, c) {
        Ok(numbers) => {
            *out = numbers;
            Ok(())
        }
        Err(why) => {
            *out = [0; ANSWER_NUMBERS];
            Err(why)
        }
    }
}

// The grab time of the tracker that the area holds. Whether it holds one is told by a call on a copy, one that is refused
// for nothing else: a second way to look for the tracker would cost every call, as above.
pub fn grab_ms(area: &[u8]) -> Result<u16, Refusal>
    ensures { result ≡ grab_on area.now }
{
    let image = area.as_array::<IMAGE_BYTES>().ok_or(Refusal::State)?;
    let mut held = *image;
    let mut told = [0; ANSWER_NUMBERS];
    make(&mut held, Call::Capture, &mut told)?;
    let s = settings::settings_at(image);
    Ok(s.grab_ms)
}
