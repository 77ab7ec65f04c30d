// The keys: their places, their rows written and read.
ghost use Rattle.std.specs.Prelude.{◌≡◌};
ghost use Rattle.image.specs.Image.{key_rows};
ghost use Rattle.image.specs.code.Puts.{puts};
ghost use Rattle.image.specs.code.Keys.{at_told, keys_at};

use crate::ended::ENDED_END;
use crate::fields;
use crate::fields::Place;
use crate::settings::Image;
use fingers::Keys;

const TOLD: Place<1> = Place { at: ENDED_END };

const WANTED: Place<1> = Place { at: TOLD.at + 1 };

pub(crate) const KEYS_END: usize = WANTED.at + 1;

pub(crate) fn put_keys(image: &mut Image, k: Keys)
    ensures { image.new ≡ puts image.old at_told (key_rows k) }
{
    fields::put1(image, TOLD, k.told);
    fields::put1(image, WANTED, k.wanted);
}

pub(crate) fn keys_at(image: &Image) -> Keys
    ensures { result ≡ keys_at image.now }
{
    Keys {
        told: fields::get1(image, TOLD),
        wanted: fields::get1(image, WANTED),
    }
}
