// The stored end of several fingers: its places, its rows written, read and looked at.
ghost use Rattle.std.specs.Prelude.{◌≡◌};
ghost use Rattle.image.specs.Image.{end_number, end_time, end_rows};
ghost use Rattle.image.specs.code.Puts.{puts};
ghost use Rattle.image.specs.code.Ended.{at_ended, end_at, end_checked};

use crate::fields;
use crate::fields::Place;
use crate::finger::FINGER_END;
use crate::settings::Image;
use crate::touches::PRESENT;

const ENDED: Place<1> = Place { at: FINGER_END };

const END_TIME: Place<8> = Place { at: ENDED.at + 1 };

pub(crate) const ENDED_END: usize = END_TIME.at + 8;

// The mark alone, without the time, as the definition `end_number` and the layout's row of that name have it: no From
// would be plainer.
fn end_number(end: Option<u64>) -> u8
    ensures { result ≡ end_number end }
{
    match end {
        None => 0,
        Some(_) => PRESENT,
    }
}

fn end_time(end: Option<u64>) -> u64
    ensures { result ≡ end_time end }
{
    end.unwrap_or(0)
}

pub(crate) fn put_end(image: &mut Image, end: Option<u64>)
    ensures { image.new ≡ puts image.old at_ended (end_rows end) }
{
    fields::put1(image, ENDED, end_number(end));
    fields::put8(image, END_TIME, end_time(end));
}

pub(crate) fn end_at(image: &Image) -> Option<u64>
    ensures { result ≡ end_at image.now }
{
    let n = fields::get1(image, ENDED);
    if n == 0 {
        return None;
    }
    Some(fields::get8(image, END_TIME))
}

pub(crate) fn end_checked(image: &Image) -> bool
    ensures { result ≡ end_checked image.now }
{
    let n = fields::get1(image, ENDED);
    if n == 0 {
        return fields::is_zero8(image, END_TIME);
    }
    n == PRESENT
}
