// The calls by their kinds. The kinds are the protocol's numbers, which docs/PROBE.md lists and no request renumbers.
use crate::ended::Ended;
use crate::reader::Reader;
use crate::replies::Reply;
use crate::{calibration, geometry, tracker};
use gesture::Tracker;
use numbers::Stop;
use panel::Refusal;
use touchcal::Pending;

// What lives through a run.
#[derive(Clone, Copy)]
pub(crate) struct Run {
    tracker: Tracker,
    pending: Pending,
}

impl Run {
    pub(crate) fn new() -> Run {
        Run {
            tracker: gesture::fresh(),
            pending: touchcal::cleared(),
        }
    }

    // Reads the next call, and makes it once it is read to its end.
    pub(crate) fn call(&mut self, r: &mut Reader<'_>) -> Result<Reply, Ended> {
        let at = r.at();
        let kind: u64 = r.read()?;
        match kind {
            1 => geometry::dist(r),
            2 => geometry::dist2(r),
            3 => geometry::centroid(r),
            4 => geometry::lock_axis(r),
            10 => calibration::apply16(r),
            11 => calibration::screen(r),
            12 => calibration::isqrt(r),
            13 => calibration::dist10(r),
            14 => calibration::resid(r),
            15 => calibration::check(r),
            16 => calibration::q16(r),
            17 => calibration::to_f32(r),
            18 => calibration::from_f32(r),
            19 => calibration::fit(r),
            20 => calibration::scpi_put(r, &mut self.pending),
            21 => Ok(calibration::scpi_take(&mut self.pending)),
            30 => Ok(tracker::new(&mut self.tracker)),
            31 => tracker::event(r, &mut self.tracker),
            32 => tracker::tick(r, &mut self.tracker),
            33 => Ok(tracker::capture(&mut self.tracker)),
            34 => Ok(tracker::capture_direct(&mut self.tracker)),
            35 => tracker::raw_next(r, &mut self.tracker),
            36 => tracker::set_grab_ms(r, &mut self.tracker),
            37 => Ok(tracker::grab_ms(&self.tracker)),
            38 => tracker::load(r, &mut self.tracker),
            43 => calibration::old_dist10(r),
            44 => calibration::old_resid(r),
            49 => calibration::old_fit(r),
            _ => Err(Ended::Stopped(Stop {
                why: Refusal::Kind,
                at,
            })),
        }
    }
}
