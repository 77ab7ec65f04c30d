// Numbers of one, two, four and eight bytes in an image, low byte first, points as two numbers of two, and flags as a
// number of one. Each place is a constant where these are called, so that the bytes of a number are loaded and stored
// at once.
//
// A function for each width, of one line over the generic `put` and `get` but for `put8` and `get1`. Each contract names its width
// (`bytes_of 2 v`, `number_at image.now place.at 2`), and a trait over the number types would be an impl of the same
// line for each of them, with its laws besides: longer, and no plainer.
ghost use Rattle.std.specs.Prelude.{◌≡◌, ◌+◌, ◌≤◌, take, drop};
ghost use Rattle.std.proofs.lemmas.List.Edits.{sets};
ghost use Rattle.panel.specs.Tests.{bit};
ghost use Rattle.image.specs.Rows.{bytes_of};
ghost use Rattle.image.specs.Image.{point_rows};
ghost use Rattle.image.specs.code.Numbers.{number_at, point_at, flag_from, flag_at, is_zero, is_flag};
ghost use Rattle.image.specs.code.Puts.{puts};
ghost use Rattle.image.specs.code.Settings.{at_end};

use crate::settings::Image;
use panel::Point;

// Where N bytes of an image stand.
#[derive(Clone, Copy)]
pub(crate) struct Place<const N: usize> {
    pub(crate) at: usize,
    ghost within: { at + N ≤ at_end },
}

// Stores bytes, as many as there are.
fn put<const N: usize>(image: &mut Image, place: Place<N>, bytes: [u8; N])
    ensures { image.new ≡ sets image.old place.entry.at bytes.entry }
{
    image[place.at..place.at + N].copy_from_slice(&bytes);
}

pub(crate) fn put1(image: &mut Image, place: Place<1>, v: u8)
    ensures { image.new ≡ sets image.old place.at (bytes_of 1 v) }
{
    put(image, place, [v]);
}

pub(crate) fn put2(image: &mut Image, place: Place<2>, v: u16)
    ensures { image.new ≡ sets image.old place.at (bytes_of 2 v) }
{
    put(image, place, v.to_le_bytes());
}

// By shifts and masks, each byte by itself: the library divides a number for its bytes, and none of 64 bits is divided in the
// firmware.
pub(crate) fn put8(image: &mut Image, place: Place<8>, time: u64)
    ensures { image.new ≡ sets image.old place.at (bytes_of 8 time) }
{
    let at = place.at;
    let v1 = time >> 8;
    let v2 = v1 >> 8;
    let v3 = v2 >> 8;
    let v4 = v3 >> 8;
    let v5 = v4 >> 8;
    let v6 = v5 >> 8;
    let v7 = v6 >> 8;
    image[at] = (time & 255) as u8;
    image[at + 1] = (v1 & 255) as u8;
    image[at + 2] = (v2 & 255) as u8;
    image[at + 3] = (v3 & 255) as u8;
    image[at + 4] = (v4 & 255) as u8;
    image[at + 5] = (v5 & 255) as u8;
    image[at + 6] = (v6 & 255) as u8;
    image[at + 7] = (v7 & 255) as u8;
}

pub(crate) fn put_point(image: &mut Image, place: Place<4>, p: Point)
    ensures { image.new ≡ puts image.old place.at (point_rows p) }
{
    put2(image, Place { at: place.at }, p.x);
    put2(image, Place { at: place.at + 2 }, p.y);
}

pub(crate) fn put_flag(image: &mut Image, place: Place<1>, b: bool)
    ensures { image.new ≡ sets image.old place.at (bytes_of 1 (bit b)) }
{
    put1(image, place, panel::bit(b));
}

// The bytes of a number, as many as are asked for.
fn get<const N: usize>(image: &Image, place: Place<N>) -> [u8; N]
    ensures { result ≡ take N (drop place.entry.at image.now) }
{
    let mut bytes = [0; N];
    bytes.copy_from_slice(&image[place.at..place.at + N]);
    bytes
}

pub(crate) fn get1(image: &Image, place: Place<1>) -> u8
    ensures { result ≡ number_at image.now place.at 1 }
{
    image[place.at]
}

pub(crate) fn get2(image: &Image, place: Place<2>) -> u16
    ensures { result ≡ number_at image.now place.at 2 }
{
    u16::from_le_bytes(get(image, place))
}

pub(crate) fn get4(image: &Image, place: Place<4>) -> u32
    ensures { result ≡ number_at image.now place.at 4 }
{
    u32::from_le_bytes(get(image, place))
}

pub(crate) fn get8(image: &Image, place: Place<8>) -> u64
    ensures { result ≡ number_at image.now place.at 8 }
{
    u64::from_le_bytes(get(image, place))
}

pub(crate) fn get_point(image: &Image, place: Place<4>) -> Point
    ensures { result ≡ point_at image.now place.at }
{
    Point {
        x: get2(image, Place { at: place.at }),
        y: get2(image, Place { at: place.at + 2 }),
    }
}

// No TryFrom: the byte may be any number, is_image looks at it (is_flag), and an error of this would never be looked
// at.
fn flag(n: u8) -> bool
    ensures { result ≡ flag_from n }
{
    n != 0
}

pub(crate) fn get_flag(image: &Image, place: Place<1>) -> bool
    ensures { result ≡ flag_at image.now place.at }
{
    flag(get1(image, place))
}

pub(crate) fn is_flag(image: &Image, place: Place<1>) -> bool
    ensures { result ≡ is_flag image.now place.at }
{
    get1(image, place) <= 1
}

pub(crate) fn is_zero8(image: &Image, place: Place<8>) -> bool
    ensures { result ≡ is_zero image.now place.at 8 }
{
    get8(image, place) == 0
}
