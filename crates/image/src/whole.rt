// The parts of an image together.
ghost use Rattle.std.specs.Prelude.{◌≡◌, replicate};
ghost use Rattle.image.specs.Image.{image_of};
ghost use Rattle.image.specs.code.Settings.{at_end};
ghost use Rattle.image.specs.code.Whole.{tracker_at, rest_checked, image_checked};

use crate::settings::{IMAGE_BYTES, Image};
use crate::{ended, finger, keys, settings, touches};
use gesture::Tracker;

// All zero, as a fresh tracker's image is.
pub(crate) fn blank(image: &mut Image)
    ensures { image.new ≡ replicate at_end 0 }
{
    *image = [0; IMAGE_BYTES];
}

// Straight into the area: an image on the way would be kept in registers, which it is too large for.
pub(crate) fn put_tracker(image: &mut Image, t: Tracker)
    ensures { image.new ≡ image_of t }
{
    blank(image);
    touches::put_touch(image, t.touch);
    finger::put_finger(image, t.one, t.app);
    ended::put_end(image, t.multi_end);
    keys::put_keys(image, t.keys);
    settings::put_settings(image, t.settings);
}

// The tracker of any area of the image's length. Of an area that is no image it makes some tracker, whose own image differs.
pub(crate) fn tracker_at(image: &Image) -> Tracker
    ensures { result ≡ tracker_at image.now }
{
    Tracker {
        touch: touches::touch_at(image),
        one: finger::one_at(image),
        app: finger::app_at(image),
        multi_end: ended::end_at(image),
        keys: keys::keys_at(image),
        settings: settings::settings_at(image),
    }
}

#[tactic(auto, using(panel::proofs::Follow::follow), unfolding(crate::specs::code::Whole::rest_checked))]
fn rest_checked(image: &Image) -> bool
    ensures { result ≡ rest_checked image.now }
{
    finger::one_checked(image)
        && finger::app_checked(image)
        && ended::end_checked(image)
        && settings::settings_checked(image)
}

// Whether an area of the image's length is an image: a number that has few values has one of them, and a part that is
// absent is zero. Every other number stands for itself. Tests are joined by `&&` here and in the parts: of `&` the
// compiler makes jumps.
#[tactic(auto, using(panel::proofs::Follow::follow), unfolding(crate::specs::code::Whole::image_checked))]
pub(crate) fn is_image(image: &Image) -> bool
    ensures { result ≡ image_checked image.now }
{
    touches::touch_checked(image) && rest_checked(image)
}
