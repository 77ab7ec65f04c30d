// The tracker: the trace of document 01, both sides of a swipe's time, and the inputs that tell the rules from
// "readings that look right". Each call prints its time and what it gives, `-` for nothing.
use crate::print::{Shown, Told, at};
use gesture::{Answer, Tracker};
use panel::{Event, Point};
use std::io;

// What a call gave. Its tracker goes on.
fn after(rt: &impl Print, a: Answer) -> io::Result<Tracker> {
    println!(rt; " -> {}", Told(a.told.map(|r| Shown(r.gesture))))?;
    Ok(a.tracker)
}

fn report(
    rt: &impl Print,
    t: Tracker,
    now: u64,
    count: u8,
    keys: u8,
    p: Point,
    q: Point,
) -> io::Result<Tracker> {
    print!(rt; "report {now}")?;
    let o = at(0, 0);
    let ev = Event {
        points: count,
        p,
        pts: [p, q, o, o, o],
        keys,
    };
    after(rt, gesture::event(t, ev, now))
}

fn none(rt: &impl Print, t: Tracker, now: u64) -> io::Result<Tracker> {
    report(rt, t, now, 0, 0, at(0, 0), at(0, 0))
}

fn one(rt: &impl Print, t: Tracker, now: u64, x: u16, y: u16) -> io::Result<Tracker> {
    report(rt, t, now, 1, 0, at(x, y), at(0, 0))
}

fn two(rt: &impl Print, t: Tracker, now: u64, p: Point, q: Point) -> io::Result<Tracker> {
    report(rt, t, now, 2, 0, p, q)
}

fn tick(rt: &impl Print, t: Tracker, now: u64) -> io::Result<Tracker> {
    print!(rt; "tick {now}")?;
    after(rt, gesture::tick(t, now))
}

fn capture(rt: &impl Print, t: Tracker) -> io::Result<Tracker> {
    print!(rt; "capture")?;
    after(rt, gesture::capture(t))
}

fn wish(rt: &impl Print, t: Tracker) -> io::Result<Tracker> {
    print!(rt; "raw_next")?;
    after(rt, gesture::raw_next(t, true))
}

// The calls of document 01's trace.
pub(crate) fn trace(rt: &impl Print) -> io::Result<()> {
    println!(rt; "the trace of document 01")?;
    let mut t = one(rt, gesture::fresh(), 0, 100, 50)?;
    t = one(rt, t, 10, 115, 50)?;
    t = one(rt, t, 20, 116, 50)?;
    t = two(rt, t, 30, at(116, 50), at(176, 50))?;
    t = tick(rt, t, 1000)?;
    t = none(rt, t, 1010)?;
    t = one(rt, t, 1309, 100, 50)?;
    t = none(rt, t, 1310)?;
    t = one(rt, t, 1310, 100, 50)?;
    none(rt, t, 1400)?;
    Ok(())
}

fn swipe(rt: &impl Print, up: u64) -> io::Result<()> {
    let mut t = one(rt, gesture::fresh(), 0, 100, 50)?;
    t = one(rt, t, 10, 160, 50)?;
    none(rt, t, up)?;
    Ok(())
}

// "Swipe at 800 ms, none at 801."
pub(crate) fn swipes(rt: &impl Print) -> io::Result<()> {
    println!(rt; "a swipe's time")?;
    swipe(rt, 800)?;
    swipe(rt, 801)
}

// "Straight-line distance for the slop": (12, 12) is 17 away on the straight line, and no move.
pub(crate) fn slop(rt: &impl Print) -> io::Result<()> {
    println!(rt; "no straight line for the slop")?;
    let mut t = one(rt, gesture::fresh(), 0, 100, 50)?;
    t = one(rt, t, 10, 112, 62)?;
    tick(rt, t, 700)?;
    Ok(())
}

// "A captured touch denied LongPress."
pub(crate) fn captured(rt: &impl Print) -> io::Result<()> {
    println!(rt; "a captured touch has its LongPress")?;
    let mut t = one(rt, gesture::fresh(), 0, 100, 50)?;
    t = capture(rt, t)?;
    t = tick(rt, t, 700)?;
    none(rt, t, 800)?;
    Ok(())
}

// "Keeping the raw wish when nothing is touched."
pub(crate) fn wished(rt: &impl Print) -> io::Result<()> {
    println!(rt; "the raw wish is used up where nothing is touched")?;
    let mut t = wish(rt, gesture::fresh())?;
    t = capture(rt, t)?;
    t = one(rt, t, 0, 100, 50)?;
    t = capture(rt, t)?;
    t = one(rt, t, 10, 120, 50)?;
    println!(rt; "and kept for the touch it is meant for")?;
    t = none(rt, t, 20)?;
    t = one(rt, t, 30, 100, 50)?;
    t = wish(rt, t)?;
    t = capture(rt, t)?;
    one(rt, t, 40, 101, 50)?;
    Ok(())
}

// "Reading fingers of a spent report."
pub(crate) fn spent(rt: &impl Print) -> io::Result<()> {
    println!(rt; "a spent report's fingers")?;
    let mut t = one(rt, gesture::fresh(), 0, 100, 50)?;
    t = report(rt, t, 10, 2, 1, at(100, 50), at(200, 50))?;
    report(rt, t, 20, 0, 1, at(0, 0), at(0, 0))?;
    Ok(())
}

// A point off the panel, also where a key changed.
pub(crate) fn refused(rt: &impl Print) -> io::Result<()> {
    println!(rt; "a point off the panel")?;
    let mut t = one(rt, gesture::fresh(), 0, 480, 0)?;
    t = report(rt, t, 10, 1, 1, at(0, 320), at(0, 0))?;
    tick(rt, t, 20)?;
    Ok(())
}
