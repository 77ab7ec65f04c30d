// Values as they are printed, in the words of this program: the probe has others, as Ok for Pass. And a point, as it is
// written in a case.
use calmap::{Cal, Tap, Tenths, Verdict};
use gesture::Gesture;
use panel::{Axis, Point, Refusal};
use std::fmt;
use std::fmt::Display;
use touchcal::Fit;

pub(crate) fn at(x: u16, y: u16) -> Point {
    Point { x, y }
}

// What a call answers: a value, or why it was refused.
#[derive(Clone, Copy)]
pub(crate) struct Told<T>(pub Result<T, Refusal>);

impl<T: Display + Copy> Display for Told<T> {
    fn fmt<W: fmt::Write>(&self, f: &mut fmt::Formatter<W>) -> fmt::Result {
        match self.0 {
            Ok(v) => write!(f, "{v}"),
            Err(why) => {
                let number = u8::from(why);
                write!(f, "refused {number}")
            }
        }
    }
}

// A value.
#[derive(Clone, Copy)]
pub(crate) struct Shown<T>(pub T);

impl Display for Shown<Point> {
    fn fmt<W: fmt::Write>(&self, f: &mut fmt::Formatter<W>) -> fmt::Result {
        let p = self.0;
        write!(f, "{} {}", p.x, p.y)
    }
}

impl Display for Shown<Tap> {
    fn fmt<W: fmt::Write>(&self, f: &mut fmt::Formatter<W>) -> fmt::Result {
        let p = self.0;
        write!(f, "{} {}", p.x, p.y)
    }
}

impl Display for Shown<Axis> {
    fn fmt<W: fmt::Write>(&self, f: &mut fmt::Formatter<W>) -> fmt::Result {
        f.write_str(match self.0 {
            Axis::H => "H",
            Axis::V => "V",
        })
    }
}

impl Display for Shown<Tenths> {
    fn fmt<W: fmt::Write>(&self, f: &mut fmt::Formatter<W>) -> fmt::Result {
        let n = self.0.0;
        write!(f, "{n}")
    }
}

impl Display for Shown<Verdict> {
    fn fmt<W: fmt::Write>(&self, f: &mut fmt::Formatter<W>) -> fmt::Result {
        f.write_str(match self.0 {
            Verdict::Pass => "Pass",
            Verdict::Scale => "Scale",
            Verdict::Shift => "Shift",
            Verdict::Resid => "Resid",
        })
    }
}

impl Display for Shown<Cal> {
    fn fmt<W: fmt::Write>(&self, f: &mut fmt::Formatter<W>) -> fmt::Result {
        let c = self.0;
        write!(
            f,
            "{} {} {} {} {} {}",
            c.c0.0, c.c1.0, c.c2.0, c.c3.0, c.c4.0, c.c5.0
        )
    }
}

impl Display for Shown<Fit> {
    fn fmt<W: fmt::Write>(&self, f: &mut fmt::Formatter<W>) -> fmt::Result {
        let fit = self.0;
        write!(
            f,
            "{} {} {} {} {}",
            Shown(fit.cal),
            fit.mean.0,
            fit.max.0,
            fit.before.0,
            Shown(fit.verdict)
        )
    }
}

// Its words, of which each has a space before it and the first is printed without.
impl Display for Shown<Gesture> {
    fn fmt<W: fmt::Write>(&self, f: &mut fmt::Formatter<W>) -> fmt::Result {
        let words = text::gesture_text(self.0);
        for b in words.bytes[..words.n].iter().skip(1) {
            f.write_char(char::from(*b))?;
        }
        Ok(())
    }
}

// `-` where there is none.
impl<T: Copy> Display for Shown<Option<T>>
where
    Shown<T>: Display,
{
    fn fmt<W: fmt::Write>(&self, f: &mut fmt::Formatter<W>) -> fmt::Result {
        match self.0 {
            None => f.write_str("-"),
            Some(v) => write!(f, "{}", Shown(v)),
        }
    }
}
