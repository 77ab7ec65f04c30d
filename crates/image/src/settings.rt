// The settings, which stand last: their places, their rows written, read and looked at, and so the length of an image.
ghost use Rattle.std.specs.Prelude.{◌≡◌};
ghost use Rattle.image.specs.Image.{setting_rows};
ghost use Rattle.image.specs.code.Puts.{puts};
ghost use Rattle.image.specs.code.Settings.{at_grab, SettingsRead, settings_checked};

use crate::fields;
use crate::fields::Place;
use crate::keys::KEYS_END;
use fingers::Settings;

const GRAB: Place<2> = Place { at: KEYS_END };

const RAW_NEXT: Place<1> = Place { at: GRAB.at + 2 };

pub const IMAGE_BYTES: usize = RAW_NEXT.at + 1;

// The bytes of an area of the image's length, whether or not they are an image.
pub(crate) type Image = [u8; IMAGE_BYTES];

pub(crate) fn put_settings(image: &mut Image, s: Settings)
    ensures { image.new ≡ puts image.old at_grab (setting_rows s) }
{
    fields::put2(image, GRAB, s.grab_ms);
    fields::put_flag(image, RAW_NEXT, s.raw_next);
}

pub(crate) fn settings_at(image: &Image) -> Settings
    ensures { SettingsRead image.now result }
{
    Settings {
        grab_ms: fields::get2(image, GRAB),
        raw_next: fields::get_flag(image, RAW_NEXT),
    }
}

pub(crate) fn settings_checked(image: &Image) -> bool
    ensures { result ≡ settings_checked image.now }
{
    fields::is_flag(image, RAW_NEXT)
}
