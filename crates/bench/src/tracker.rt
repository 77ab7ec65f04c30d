// The rows of the tracker. The log line of a call is stored into a ring, as the published log does.
use crate::fold;
use crate::rounds::Held;
use gesture::{Answer, Keys, Line, Touch, Tracker};
use panel::{Event, Point};

// The lines that the ring holds.
const LINES: usize = 160;

#[derive(Clone, Copy)]
struct Ring {
    lines: [Line; LINES],
    stored: u32,
}

impl Ring {
    fn new() -> Ring {
        let none = Line {
            letter: 0,
            argument: 0,
            p: Point { x: 0, y: 0 },
            time: 0,
        };
        Ring {
            lines: [none; LINES],
            stored: 0,
        }
    }

    fn store(&mut self, l: &Line) {
        self.lines[(self.stored % 160) as usize] = *l;
        self.stored = self.stored.wrapping_add(1);
    }

    // The lines in one number.
    fn folded(&self) -> u64 {
        let mut sum = 0;
        for l in &self.lines {
            sum = fold::with(sum, u64::from(l.letter));
            sum = fold::with(sum, u64::from(l.argument));
            sum = fold::with(sum, u64::from(l.p.x));
            sum = fold::with(sum, u64::from(l.p.y));
            sum = fold::with(sum, l.time % 4294967296);
        }
        sum
    }
}

// The call after one of n, and after the last the first. By index, and what is told by reference: by `held.iter().cycle()`
// beside the count of calls, and by value, a tick took 32 instructions, and it takes 23.
fn after(at: usize, n: usize) -> usize {
    let next = at.wrapping_add(1);
    if next < n { next } else { 0 }
}

// A function of its own, which bench/lending.sed and bench/area.sed know by its name.
fn reported(t: Tracker, ev: Event, now: u64) -> Answer {
    gesture::event(t, ev, now)
}

// So many reports, each on the tracker that the last one left. This loop and that of the ticks are two, since a loop
// makes one kind of call (docs/BENCH.md), and the two sed scripts rewrite them line by line.
pub(crate) fn reports(held: &[Held], calls: u64) -> u64 {
    let mut ring = Ring::new();
    let mut t = gesture::fresh();
    let mut sum = 0;
    let mut next = 0;
    for _ in 0..calls {
        let Some(h) = held.get(next) else {
            break;
        };
        next = after(next, held.len());
        let a = reported(t, h.event, h.time);
        t = a.tracker;
        if let Ok(r) = &a.told {
            sum = fold::with(sum, fold::given(&r.gesture));
            if let Some(l) = &r.log {
                ring.store(l);
            }
        }
    }
    fold::with(sum, ring.folded())
}

// The tracker that a touch-down leaves, without a call of event: a second call in the program would keep both from being
// taken into their loops.
fn touched(h: Held) -> Tracker {
    let p = h.event.p;
    Tracker {
        touch: Touch::Down(p, h.time),
        one: fingers::reset(p),
        app: fingers::untaken(),
        multi_end: None,
        keys: Keys { told: 0, wanted: 0 },
        settings: fingers::unset(),
    }
}

// So many ticks, while the finger of the first report is down.
pub(crate) fn ticks(held: &[Held], calls: u64) -> u64 {
    let Some(first) = held.first() else {
        return 0;
    };
    let mut ring = Ring::new();
    let mut t = touched(*first);
    let mut sum = 0;
    let mut next = 0;
    for _ in 0..calls {
        let Some(h) = held.get(next) else {
            break;
        };
        next = after(next, held.len());
        let a = gesture::tick(t, h.time);
        t = a.tracker;
        if let Ok(r) = &a.told {
            sum = fold::with(sum, fold::given(&r.gesture));
            if let Some(l) = &r.log {
                ring.store(l);
            }
        }
    }
    fold::with(sum, ring.folded())
}
