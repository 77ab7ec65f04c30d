// The arguments of a call, read one after the other: numbers as in the trace, and what is made of them.
ghost use Rattle.std.specs.Prelude.{◌≤◌, IfOk};

use crate::ended::Ended;
use calmap::{Cal, Q16, Sixteenths, Tap};
use numbers::Stop;
use panel::{Event, MAX_POINTS, Point};
use std::alloc::Global;
use std::num;
use touchcal::Coefs;

#[derive(Drop)]
pub(crate) struct Reader<'a> {
    alloc: Global,
    s: &'a [u8],
    // Where the next number begins.
    at: usize,
}

// What is read as an argument.
pub(crate) trait Argument: Sized {
    fn read(r: &mut Reader<'_>) -> Result<Self, Stop>;
}

impl<'a> Reader<'a> {
    pub(crate) fn new(alloc: Global, s: &'a [u8]) -> Reader<'a> {
        Reader { alloc, s, at: 0 }
    }

    pub(crate) fn at(&self) -> usize {
        self.at
    }

    pub(crate) fn is_at_end(&self) -> bool {
        self.s.len() <= self.at
    }

    // The next number, at most `most`.
    fn number(&mut self, most: u64) -> Result<u64, Stop>
        ensures { IfOk result (λ v. v ≤ most) }
    {
        let (v, next) = numbers::number_at(self.s, self.at, most)?;
        self.at = next;
        Ok(v)
    }

    pub(crate) fn read<T: Argument>(&mut self) -> Result<T, Stop> {
        T::read(self)
    }

    // So many arguments of one type. They are stored as they are read, so that a count alone takes no room.
    fn many<T: Argument + Copy>(&mut self, count: usize) -> Result<Vec<T>, Ended> {
        let mut list = Vec::new(self.alloc);
        for _ in 0..count {
            list.push(self.read::<T>()?)?;
        }
        Ok(list)
    }

    // A count, and so many points or taps.
    pub(crate) fn list<T: Argument + Copy>(&mut self) -> Result<Vec<T>, Ended> {
        let count: u8 = self.read()?;
        self.many(usize::from(count))
    }

    // A count, and so many bytes.
    pub(crate) fn area(&mut self) -> Result<Vec<u8>, Ended> {
        let count: u16 = self.read()?;
        self.many(usize::from(count))
    }
}

// A function for each width: the bound and what the number is made into are the type's own, in one line.

impl Argument for u8 {
    fn read(r: &mut Reader<'_>) -> Result<u8, Stop> {
        Ok(r.number(u64::from(u8::MAX))? as u8)
    }
}

impl Argument for u16 {
    fn read(r: &mut Reader<'_>) -> Result<u16, Stop> {
        Ok(r.number(u64::from(u16::MAX))? as u16)
    }
}

impl Argument for u32 {
    fn read(r: &mut Reader<'_>) -> Result<u32, Stop> {
        Ok(r.number(u64::from(u32::MAX))? as u32)
    }
}

impl Argument for u64 {
    fn read(r: &mut Reader<'_>) -> Result<u64, Stop> {
        r.number(u64::MAX)
    }
}

impl Argument for bool {
    fn read(r: &mut Reader<'_>) -> Result<bool, Stop> {
        Ok(r.number(1)? == 1)
    }
}

// A signed number v is written 2v, or -2v - 1 below zero: the format's own, std has no zigzag. By width, since the
// halves are of the type itself.
impl Argument for i16 {
    fn read(r: &mut Reader<'_>) -> Result<i16, Stop> {
        let v: u16 = r.read()?;
        let half = (v / 2) as i16;
        Ok(if v % 2 == 0 { half } else { !half })
    }
}

impl Argument for i32 {
    fn read(r: &mut Reader<'_>) -> Result<i32, Stop> {
        let v: u32 = r.read()?;
        let half = (v / 2) as i32;
        Ok(if v % 2 == 0 { half } else { !half })
    }
}

// A float is written as its pattern. Of the patterns that are no number, any is the one NaN.
impl Argument for f32 {
    fn read(r: &mut Reader<'_>) -> Result<f32, Stop> {
        Ok(num::f32_from_bits_with_nan(r.read()?))
    }
}

impl Argument for Point {
    fn read(r: &mut Reader<'_>) -> Result<Point, Stop> {
        Ok(Point {
            x: r.read()?,
            y: r.read()?,
        })
    }
}

impl Argument for [Point; MAX_POINTS] {
    fn read(r: &mut Reader<'_>) -> Result<[Point; MAX_POINTS], Stop> {
        Ok([r.read()?, r.read()?, r.read()?, r.read()?, r.read()?])
    }
}

impl Argument for Event {
    fn read(r: &mut Reader<'_>) -> Result<Event, Stop> {
        Ok(Event {
            keys: r.read()?,
            points: r.read()?,
            p: r.read()?,
            pts: r.read()?,
        })
    }
}

impl Argument for Tap {
    fn read(r: &mut Reader<'_>) -> Result<Tap, Stop> {
        Ok(Tap {
            x: r.read()?,
            y: r.read()?,
        })
    }
}

impl Argument for Sixteenths {
    fn read(r: &mut Reader<'_>) -> Result<Sixteenths, Stop> {
        Ok(Sixteenths(r.read()?))
    }
}

impl Argument for Q16 {
    fn read(r: &mut Reader<'_>) -> Result<Q16, Stop> {
        Ok(Q16(r.read()?))
    }
}

impl Argument for Cal {
    fn read(r: &mut Reader<'_>) -> Result<Cal, Stop> {
        Ok(Cal {
            c0: r.read()?,
            c1: r.read()?,
            c2: r.read()?,
            c3: r.read()?,
            c4: r.read()?,
            c5: r.read()?,
        })
    }
}

impl Argument for Coefs {
    fn read(r: &mut Reader<'_>) -> Result<Coefs, Stop> {
        Ok(Coefs {
            a: r.read()?,
            b: r.read()?,
            c: r.read()?,
            d: r.read()?,
            e: r.read()?,
            f: r.read()?,
        })
    }
}
