// The touch in an image: its places, its rows written, read and looked at. The area is all zero before it is written: a part
// that is absent stays so.
ghost use Rattle.std.specs.Prelude.{◌≡◌, replicate, None};
ghost use Rattle.panel.specs.declared.points.Point.{Point};
ghost use Rattle.image.specs.Image.{down_rows, multi_rows, pair_rows, pairing_rows, touch_rows};
ghost use Rattle.image.specs.code.Numbers.{number_at};
ghost use Rattle.image.specs.code.Puts.{puts};
ghost use Rattle.image.specs.code.Settings.{at_end};
ghost use Rattle.image.specs.code.Touches.{at_touch, at_start, at_multi_n, at_pairs, at_pair_a, axis_from, pairing_from, multi_at, pair_at, touch_at, no_down, no_multi, no_pair, pairing_checked, single_checked, touch_checked};

use crate::fields;
use crate::fields::Place;
use crate::settings::Image;
use fingers::{Multi, Pair};
use gesture::Touch;
use panel::{Axis, Point};

// Which touch is on, where one is: 0 is none. These, and PRESENT below, are the layout's numbers (docs/IMAGE.md) and
// no enum: an area holds any byte, and is asked for these.
const DOWN: u8 = 1;

const MULTI: u8 = 2;

const RESIDUAL: u8 = 3;

// A part is there.
pub(crate) const PRESENT: u8 = 1;

// Where each row stands: after the rows before it. The definitions have the same names.
const TOUCH: Place<1> = Place { at: 0 };

const START: Place<4> = Place { at: TOUCH.at + 1 };

const SINCE: Place<8> = Place { at: START.at + 4 };

const MULTI_N: Place<1> = Place { at: SINCE.at + 8 };

const MULTI_C0: Place<4> = Place { at: MULTI_N.at + 1 };

const MULTI_T0: Place<8> = Place {
    at: MULTI_C0.at + 4,
};

const MULTI_C1: Place<4> = Place {
    at: MULTI_T0.at + 8,
};

const MULTI_T1: Place<8> = Place {
    at: MULTI_C1.at + 4,
};

const PAIRS: Place<1> = Place {
    at: MULTI_T1.at + 8,
};

const PAIR_A: Place<4> = Place { at: PAIRS.at + 1 };

const PAIR_B: Place<4> = Place { at: PAIR_A.at + 4 };

const PAIR_AXIS: Place<1> = Place { at: PAIR_B.at + 4 };

const SPAN0: Place<2> = Place {
    at: PAIR_AXIS.at + 1,
};

const PAIR_C0: Place<4> = Place { at: SPAN0.at + 2 };

const PAIR_STATE: Place<1> = Place { at: PAIR_C0.at + 4 };

pub(crate) const TOUCH_END: usize = PAIR_STATE.at + 1;

// Several fingers with the mark of a pair, and a pair, as it is looked at whether they are absent: eight bytes at a time.
const MULTI_FIRST: Place<8> = Place { at: MULTI_N.at };

const MULTI_SECOND: Place<8> = Place {
    at: MULTI_FIRST.at + 8,
};

const MULTI_THIRD: Place<8> = Place {
    at: MULTI_SECOND.at + 8,
};

const MULTI_LAST: Place<2> = Place {
    at: MULTI_THIRD.at + 8,
};

const PAIR_FIRST: Place<8> = Place { at: PAIR_A.at };

const PAIR_SECOND: Place<8> = Place {
    at: PAIR_FIRST.at + 8,
};

fn put_down(image: &mut Image, start: Point, since: u64)
    ensures { image.new ≡ puts image.old at_start (down_rows start since) }
{
    fields::put_point(image, START, start);
    fields::put8(image, SINCE, since);
}

fn put_multi(image: &mut Image, m: Multi)
    ensures { image.new ≡ puts image.old at_multi_n (multi_rows m) }
{
    fields::put1(image, MULTI_N, m.n);
    fields::put_point(image, MULTI_C0, m.c0);
    fields::put8(image, MULTI_T0, m.t0);
    fields::put_point(image, MULTI_C1, m.c1);
    fields::put8(image, MULTI_T1, m.t1);
}

fn put_pair(image: &mut Image, r: Pair)
    ensures { image.new ≡ puts image.old at_pair_a (pair_rows r) }
{
    fields::put_point(image, PAIR_A, r.a);
    fields::put_point(image, PAIR_B, r.b);
    fields::put1(image, PAIR_AXIS, u8::from(r.axis));
    fields::put2(image, SPAN0, r.span0);
    fields::put_point(image, PAIR_C0, r.c0);
    fields::put1(image, PAIR_STATE, r.state);
}

fn put_pairing(image: &mut Image, pair: Option<Pair>)
    requires { puts image.old at_pairs (pairing_rows None) ≡ image.old }
    ensures { image.new ≡ puts image.old at_pairs (pairing_rows pair) }
{
    match pair {
        None => {}
        Some(r) => {
            fields::put1(image, PAIRS, PRESENT);
            put_pair(image, r);
        }
    }
}

pub(crate) fn put_touch(image: &mut Image, touch: Touch)
    requires { image.old ≡ replicate at_end 0 }
    ensures { image.new ≡ puts image.old at_touch (touch_rows touch) }
{
    match touch {
        Touch::Idle => {}
        Touch::Down(start, since) => {
            fields::put1(image, TOUCH, DOWN);
            put_down(image, start, since);
        }
        Touch::Multi(m, pair) => {
            fields::put1(image, TOUCH, MULTI);
            put_multi(image, m);
            put_pairing(image, pair);
        }
        Touch::Residual => {
            fields::put1(image, TOUCH, RESIDUAL);
        }
    }
}

// No TryFrom: the byte may be any number, is_image looks at it (pairing_checked), and an error of this would never be
// looked at.
fn axis_from(n: u8) -> Axis
    ensures { result ≡ axis_from n }
{
    if n == 0 { Axis::H } else { Axis::V }
}

fn multi_at(image: &Image) -> Multi
    ensures { result ≡ multi_at image.now }
{
    Multi {
        n: fields::get1(image, MULTI_N),
        c0: fields::get_point(image, MULTI_C0),
        t0: fields::get8(image, MULTI_T0),
        c1: fields::get_point(image, MULTI_C1),
        t1: fields::get8(image, MULTI_T1),
    }
}

fn pair_at(image: &Image) -> Pair
    ensures { result ≡ pair_at image.now }
{
    Pair {
        a: fields::get_point(image, PAIR_A),
        b: fields::get_point(image, PAIR_B),
        axis: axis_from(fields::get1(image, PAIR_AXIS)),
        span0: fields::get2(image, SPAN0),
        c0: fields::get_point(image, PAIR_C0),
        state: fields::get1(image, PAIR_STATE),
    }
}

fn pairing_at(image: &Image) -> Option<Pair>
    ensures { result ≡ pairing_from (number_at image.now at_pairs 1) (pair_at image.now) }
{
    let n = fields::get1(image, PAIRS);
    if n == 0 {
        return None;
    }
    Some(pair_at(image))
}

pub(crate) fn touch_at(image: &Image) -> Touch
    ensures { result ≡ touch_at image.now }
{
    let n = fields::get1(image, TOUCH);
    if n == 0 {
        return Touch::Idle;
    }
    if n == DOWN {
        return Touch::Down(fields::get_point(image, START), fields::get8(image, SINCE));
    }
    if n == MULTI {
        return Touch::Multi(multi_at(image), pairing_at(image));
    }
    Touch::Residual
}

#[tactic(auto, using(panel::proofs::Follow::follow), unfolding(crate::specs::code::Touches::no_down, crate::specs::code::Numbers::is_zero))]
fn no_down(image: &Image) -> bool
    ensures { result ≡ no_down image.now }
{
    fields::get4(image, START) == 0 && fields::is_zero8(image, SINCE)
}

// Not even the mark that there is a pair.
#[tactic(auto, using(panel::proofs::Follow::follow), unfolding(crate::specs::code::Touches::no_multi, crate::specs::code::Numbers::is_zero))]
fn no_multi(image: &Image) -> bool
    ensures { result ≡ no_multi image.now }
{
    fields::is_zero8(image, MULTI_FIRST)
        && fields::is_zero8(image, MULTI_SECOND)
        && fields::is_zero8(image, MULTI_THIRD)
        && fields::get2(image, MULTI_LAST) == 0
}

#[tactic(auto, using(panel::proofs::Follow::follow), unfolding(crate::specs::code::Touches::no_pair))]
fn no_pair(image: &Image) -> bool
    ensures { result ≡ no_pair image.now }
{
    fields::is_zero8(image, PAIR_FIRST) && fields::is_zero8(image, PAIR_SECOND)
}

#[tactic(auto, using(panel::proofs::Follow::follow), unfolding(crate::specs::code::Touches::pairing_checked))]
fn pairing_checked(image: &Image) -> bool
    ensures { result ≡ pairing_checked image.now }
{
    let n = fields::get1(image, PAIRS);
    if n == 0 {
        no_pair(image)
    } else {
        n == PRESENT && fields::is_flag(image, PAIR_AXIS)
    }
}

// No touch of several fingers.
#[tactic(auto, using(panel::proofs::Follow::follow), unfolding(crate::specs::code::Touches::single_checked))]
fn single_checked(image: &Image, n: u8) -> bool
    ensures { result ≡ single_checked image.now n }
{
    no_multi(image) && no_pair(image) && (n == DOWN || no_down(image))
}

#[tactic(auto, using(panel::proofs::Follow::follow), unfolding(crate::specs::code::Touches::touch_checked))]
pub(crate) fn touch_checked(image: &Image) -> bool
    ensures { result ≡ touch_checked image.now }
{
    let n = fields::get1(image, TOUCH);
    if n == MULTI {
        no_down(image) && pairing_checked(image)
    } else {
        n <= RESIDUAL && single_checked(image, n)
    }
}
