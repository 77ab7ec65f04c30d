// The calls on a tracker that a row makes again and again, read once.
use crate::values;
use gesture::Call;
use panel::{Event, MAX_POINTS, Point};

const PLACES: usize = 16;

// A report, an empty one for a tick, and its time. No Call: the two rows have a loop each, which calls event or tick
// itself (tracker.rt), and by a Call each would ask which of the two it is, with both in one loop (docs/BENCH.md).
#[derive(Clone, Copy)]
pub(crate) struct Held {
    pub event: Event,
    pub time: u64,
}

// Where no finger is, and no key.
fn no_event() -> Event {
    Event {
        points: 0,
        p: Point { x: 0, y: 0 },
        pts: [Point { x: 0, y: 0 }; MAX_POINTS],
        keys: 0,
    }
}

fn timed(c: Call) -> Held {
    let (event, time) = match c {
        Call::Report(event, time) => (event, time),
        Call::Tick(time) => (no_event(), time),
        _ => (no_event(), 0),
    };
    Held { event, time }
}

fn unread() -> Held {
    Held {
        event: no_event(),
        time: 0,
    }
}

// So many of them are in use.
#[derive(Clone, Copy)]
pub(crate) struct Calls {
    places: [Held; PLACES],
    count: usize,
}

impl Calls {
    pub(crate) fn in_use(&self) -> &[Held] {
        values::first(&self.places, self.count)
    }
}

// All calls from a place on. What can't be read ends them, and counts as an empty report; so does it where there is
// nothing to read.
pub(crate) fn calls_at(s: &[u8], at: usize) -> Calls {
    let mut places = [unread(); PLACES];
    let mut count = 1;
    let mut at = at;
    for (i, place) in places.iter_mut().enumerate() {
        if at >= s.len() {
            break;
        }
        count = i + 1;
        let Ok((call, next)) = trace::next_record(s, at) else {
            break;
        };
        *place = timed(call);
        at = next;
    }
    Calls { places, count }
}
