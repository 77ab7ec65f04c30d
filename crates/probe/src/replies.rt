// What calls are answered with, and how it is printed behind the number of a call.
use calmap::{Cal, Q16, Spot, Spread, Tenths, Verdict};
use gesture::{Answer, Gesture, Line, Tracker};
use image::IMAGE_BYTES;
use panel::{Axis, Point, Refusal};
use std::fmt;
use std::fmt::{Display, Formatter};
use touchcal::{CoefPlace, Coefs, Fit};

#[derive(Clone, Copy)]
pub(crate) enum Reply {
    Refused(Refusal),
    // The refusal that carries a value: a coefficient is too large, and which.
    Steep(CoefPlace),
    Distance(u32),
    Point(Point),
    Lock(Option<Axis>),
    Spot(Spot),
    Root(u64),
    Tenths(Tenths),
    Spread(Spread),
    Verdict(Verdict),
    Q16(Q16),
    Coefs(Coefs),
    Cal(Cal),
    Fit(Fit),
    // A calibration is pending now.
    Put,
    // None was pending.
    NoCal,
    // What a call on the tracker told, and the tracker after it.
    Tracker(Answer),
    GrabMs(u16, Tracker),
}

impl Display for Reply {
    fn fmt<W: fmt::Write>(&self, f: &mut Formatter<W>) -> fmt::Result {
        match self {
            Reply::Refused(why) => write!(f, "{}", u8::from(*why)),
            Reply::Steep(place) => write!(f, "{} {}", u8::from(Refusal::Steep), place.0),
            Reply::Distance(d) => write!(f, "0 {d}"),
            Reply::Point(p) => write!(f, "0 {} {}", p.x, p.y),
            Reply::Lock(axis) => write!(f, "0 {}", lock_word(*axis)),
            Reply::Spot(spot) => write!(f, "0 {} {}", spot.0.0, spot.1.0),
            Reply::Root(v) => write!(f, "0 {v}"),
            Reply::Tenths(t) => write!(f, "0 {}", t.0),
            Reply::Spread(s) => write!(f, "0 {} {}", s.mean.0, s.max.0),
            Reply::Verdict(v) => write!(f, "0 {}", verdict_word(*v)),
            Reply::Q16(n) => write!(f, "0 {}", n.0),
            Reply::Coefs(v) => write!(f, "0 {}", Patterns(*v)),
            Reply::Cal(c) => write!(f, "0 {}", Steps(*c)),
            Reply::Fit(fit) => write!(f, "0 {}", Fitted(*fit)),
            Reply::Put => write!(f, "0"),
            Reply::NoCal => write!(f, "0 -"),
            Reply::Tracker(a) => write!(f, "{} | {}", Told(*a), Image(a.tracker)),
            Reply::GrabMs(ms, t) => write!(f, "0 {ms} | - | {}", Image(*t)),
        }
    }
}

// The words of the protocol (docs/PROBE.md), as `-` for no axis and Ok for Pass: other programs print others.

fn lock_word(axis: Option<Axis>) -> &'static str {
    match axis {
        None => "-",
        Some(Axis::H) => "H",
        Some(Axis::V) => "V",
    }
}

fn verdict_word(v: Verdict) -> &'static str {
    match v {
        Verdict::Pass => "Ok",
        Verdict::Scale => "Scale",
        Verdict::Shift => "Shift",
        Verdict::Resid => "Resid",
    }
}

// The six numbers of a calibration.
#[derive(Clone, Copy)]
struct Steps(Cal);

impl Display for Steps {
    fn fmt<W: fmt::Write>(&self, f: &mut Formatter<W>) -> fmt::Result {
        let c = self.0;
        write!(
            f,
            "{} {} {} {} {} {}",
            c.c0.0, c.c1.0, c.c2.0, c.c3.0, c.c4.0, c.c5.0
        )
    }
}

// A float as its pattern; what is no number has none here.
#[derive(Clone, Copy)]
struct Pattern(f32);

impl Display for Pattern {
    fn fmt<W: fmt::Write>(&self, f: &mut Formatter<W>) -> fmt::Result {
        let x = self.0;
        if x.is_nan() {
            write!(f, "NaN")
        } else {
            write!(f, "{}", x.to_bits())
        }
    }
}

#[derive(Clone, Copy)]
struct Patterns(Coefs);

impl Display for Patterns {
    fn fmt<W: fmt::Write>(&self, f: &mut Formatter<W>) -> fmt::Result {
        let v = self.0;
        write!(
            f,
            "{} {} {} {} {} {}",
            Pattern(v.a),
            Pattern(v.b),
            Pattern(v.c),
            Pattern(v.d),
            Pattern(v.e),
            Pattern(v.f)
        )
    }
}

#[derive(Clone, Copy)]
struct Fitted(Fit);

impl Display for Fitted {
    fn fmt<W: fmt::Write>(&self, f: &mut Formatter<W>) -> fmt::Result {
        let fit = self.0;
        write!(
            f,
            "{} {} {} {} {}",
            Steps(fit.cal),
            fit.mean.0,
            fit.max.0,
            fit.before.0,
            verdict_word(fit.verdict)
        )
    }
}

// The refusal, the gesture and the log line of a call on the tracker.
#[derive(Clone, Copy)]
struct Told(Answer);

impl Display for Told {
    fn fmt<W: fmt::Write>(&self, f: &mut Formatter<W>) -> fmt::Result {
        match self.0.told {
            Ok(r) => write!(f, "0{} | {}", Given(r.gesture), Logged(r.log)),
            Err(why) => write!(f, "{} - | -", u8::from(why)),
        }
    }
}

// The words of a gesture, a space before each.
#[derive(Clone, Copy)]
struct Given(Option<Gesture>);

impl Display for Given {
    fn fmt<W: fmt::Write>(&self, f: &mut Formatter<W>) -> fmt::Result {
        let Some(g) = self.0 else {
            return write!(f, " -");
        };
        let words = text::gesture_text(g);
        for b in &words.bytes[..words.n] {
            write!(f, "{}", char::from(*b))?;
        }
        Ok(())
    }
}

#[derive(Clone, Copy)]
struct Logged(Option<Line>);

impl Display for Logged {
    fn fmt<W: fmt::Write>(&self, f: &mut Formatter<W>) -> fmt::Result {
        match self.0 {
            None => write!(f, "-"),
            Some(l) => write!(
                f,
                "{} {} {} {} {}",
                char::from(l.letter),
                l.argument,
                l.p.x,
                l.p.y,
                l.time
            ),
        }
    }
}

// The image of a tracker in hexadecimal digits. Every tracker of a run keeps the state rule, so that it has one.
#[derive(Clone, Copy)]
struct Image(Tracker);

// The digits are looked up and handed on at once: a number printed for each byte costs some 250 instructions.
const DIGITS: &[u8; 16] = b"0123456789abcdef";

impl Display for Image {
    fn fmt<W: fmt::Write>(&self, f: &mut Formatter<W>) -> fmt::Result {
        let mut area = [0u8; IMAGE_BYTES];
        image::encode(self.0, &mut area).map_err(|_| fmt::Error)?;
        let mut digits = [0u8; 2 * IMAGE_BYTES];
        for i in 0..IMAGE_BYTES {
            digits[2 * i] = DIGITS[usize::from(area[i] / 16)];
            digits[2 * i + 1] = DIGITS[usize::from(area[i] % 16)];
        }
        f.write_str(str::from_utf8(&digits).map_err(|_| fmt::Error)?)
    }
}
