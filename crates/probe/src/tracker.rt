// The calls of the tracker, kinds 30 to 38.
use crate::ended::Ended;
use crate::reader::Reader;
use crate::replies::Reply;
use gesture::{Answer, Call, Response, Tracker};
use panel::Refusal;

// Makes a call on the tracker.
fn made(t: &mut Tracker, c: Call) -> Reply {
    let a = gesture::make(*t, c);
    *t = a.tracker;
    Reply::Tracker(a)
}

// The tracker that a call has made, with neither gesture nor log line.
fn quiet(tracker: Tracker) -> Reply {
    Reply::Tracker(Answer {
        told: Ok(Response {
            gesture: None,
            log: None,
        }),
        tracker,
    })
}

fn refused(why: Refusal, tracker: Tracker) -> Reply {
    Reply::Tracker(Answer {
        told: Err(why),
        tracker,
    })
}

pub(crate) fn new(t: &mut Tracker) -> Reply {
    *t = gesture::fresh();
    quiet(*t)
}

pub(crate) fn event(r: &mut Reader<'_>, t: &mut Tracker) -> Result<Reply, Ended> {
    let now = r.read()?;
    let event = r.read()?;
    Ok(made(t, Call::Report(event, now)))
}

pub(crate) fn tick(r: &mut Reader<'_>, t: &mut Tracker) -> Result<Reply, Ended> {
    let now = r.read()?;
    Ok(made(t, Call::Tick(now)))
}

pub(crate) fn capture(t: &mut Tracker) -> Reply {
    made(t, Call::Capture)
}

pub(crate) fn capture_direct(t: &mut Tracker) -> Reply {
    made(t, Call::CaptureDirect)
}

pub(crate) fn raw_next(r: &mut Reader<'_>, t: &mut Tracker) -> Result<Reply, Ended> {
    let on = r.read()?;
    Ok(made(t, Call::RawNext(on)))
}

pub(crate) fn set_grab_ms(r: &mut Reader<'_>, t: &mut Tracker) -> Result<Reply, Ended> {
    let ms = r.read()?;
    Ok(made(t, Call::SetGrabMs(ms)))
}

pub(crate) fn grab_ms(t: &Tracker) -> Reply {
    match gesture::grab_ms(*t) {
        Ok(ms) => Reply::GrabMs(ms, *t),
        Err(why) => refused(why, *t),
    }
}

// Bytes taken as the tracker's image.
pub(crate) fn load(r: &mut Reader<'_>, t: &mut Tracker) -> Result<Reply, Ended> {
    let area = r.area()?;
    match image::decode(&area) {
        Ok(loaded) => {
            *t = loaded;
            Ok(quiet(loaded))
        }
        Err(why) => Ok(refused(why, *t)),
    }
}
