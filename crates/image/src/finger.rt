// What the one finger did and what the app made of its touch, whose rows stand among one another: their places, the rows
// written, read and looked at.
ghost use Rattle.std.specs.Prelude.{◌≡◌};
ghost use Rattle.image.specs.Image.{lock_number, one_rows, taken_rows, finger_rows};
ghost use Rattle.image.specs.code.Puts.{puts};
ghost use Rattle.image.specs.code.Finger.{at_last, at_direct, lock_from, one_at, app_at, one_checked, app_checked};

use crate::fields;
use crate::fields::Place;
use crate::settings::Image;
use crate::touches::TOUCH_END;
use fingers::{App, One};
use panel::Axis;

// The largest number of an axis lock. A number, as docs/IMAGE.md gives it: the byte of an area may be any.
const LOCK_MOST: u8 = 2;

const LAST: Place<4> = Place { at: TOUCH_END };

const MOVED: Place<1> = Place { at: LAST.at + 4 };

const FAR: Place<2> = Place { at: MOVED.at + 1 };

const LONG_SENT: Place<1> = Place { at: FAR.at + 2 };

const AXIS: Place<1> = Place {
    at: LONG_SENT.at + 1,
};

const GRABBED: Place<1> = Place { at: AXIS.at + 1 };

const DIRECT: Place<1> = Place { at: GRABBED.at + 1 };

const EARLY: Place<1> = Place { at: DIRECT.at + 1 };

const CAPTURED: Place<1> = Place { at: EARLY.at + 1 };

const RAW: Place<1> = Place {
    at: CAPTURED.at + 1,
};

pub(crate) const FINGER_END: usize = RAW.at + 1;

// By hand, and no From: the number is the layout's for Option<Axis>, a type of std, and the definition `lock_number`
// has it.
fn lock_number(axis: Option<Axis>) -> u8
    ensures { result ≡ lock_number axis }
{
    match axis {
        None => 0,
        Some(a) => 1 + u8::from(a),
    }
}

fn put_one(image: &mut Image, one: One)
    ensures { image.new ≡ puts image.old at_last (one_rows one) }
{
    fields::put_point(image, LAST, one.last);
    fields::put_flag(image, MOVED, one.moved);
    fields::put2(image, FAR, one.far);
    fields::put_flag(image, LONG_SENT, one.long_sent);
    fields::put1(image, AXIS, lock_number(one.axis));
    fields::put_flag(image, GRABBED, one.grabbed);
}

fn put_taken(image: &mut Image, early: bool, app: App)
    ensures { image.new ≡ puts image.old at_direct (taken_rows early app) }
{
    fields::put_flag(image, DIRECT, app.direct);
    fields::put_flag(image, EARLY, early);
    fields::put_flag(image, CAPTURED, app.captured);
    fields::put_flag(image, RAW, app.raw);
}

pub(crate) fn put_finger(image: &mut Image, one: One, app: App)
    ensures { image.new ≡ puts image.old at_last (finger_rows one app) }
{
    put_one(image, one);
    put_taken(image, one.early, app);
}

// No TryFrom: the byte may be any number, is_image looks at it (one_checked), and an error of this would never be
// looked at.
fn lock_from(n: u8) -> Option<Axis>
    ensures { result ≡ lock_from n }
{
    if n == 0 {
        return None;
    }
    if n == 1 {
        return Some(Axis::H);
    }
    Some(Axis::V)
}

pub(crate) fn one_at(image: &Image) -> One
    ensures { result ≡ one_at image.now }
{
    One {
        last: fields::get_point(image, LAST),
        moved: fields::get_flag(image, MOVED),
        far: fields::get2(image, FAR),
        axis: lock_from(fields::get1(image, AXIS)),
        long_sent: fields::get_flag(image, LONG_SENT),
        grabbed: fields::get_flag(image, GRABBED),
        early: fields::get_flag(image, EARLY),
    }
}

pub(crate) fn app_at(image: &Image) -> App
    ensures { result ≡ app_at image.now }
{
    App {
        captured: fields::get_flag(image, CAPTURED),
        raw: fields::get_flag(image, RAW),
        direct: fields::get_flag(image, DIRECT),
    }
}

#[tactic(auto, using(panel::proofs::Follow::follow), unfolding(crate::specs::code::Finger::one_checked))]
pub(crate) fn one_checked(image: &Image) -> bool
    ensures { result ≡ one_checked image.now }
{
    fields::is_flag(image, MOVED)
        && fields::is_flag(image, LONG_SENT)
        && fields::get1(image, AXIS) <= LOCK_MOST
        && fields::is_flag(image, GRABBED)
        && fields::is_flag(image, EARLY)
}

#[tactic(auto, using(panel::proofs::Follow::follow), unfolding(crate::specs::code::Finger::app_checked))]
pub(crate) fn app_checked(image: &Image) -> bool
    ensures { result ≡ app_checked image.now }
{
    fields::is_flag(image, DIRECT)
        && fields::is_flag(image, CAPTURED)
        && fields::is_flag(image, RAW)
}
