// Runs the worked cases of documents 01 and 02 on the proved functions and prints a line for each: the call,
// its arguments, and what it answers. The file `stdout` beside src/ has what it must print, worked out
// from the documents and not from a run.
#![tactic(auto)]

mod calibration;
mod geometry;
mod print;
mod tracker;
mod writer;

use std::io;

fn main(rt: HostRuntime) -> io::Result<()> {
    geometry::distances(&rt)?;
    geometry::centroids(&rt)?;
    geometry::axes(&rt)?;
    calibration::checks(&rt)?;
    calibration::distances(&rt)?;
    calibration::fits(&rt)?;
    calibration::unfits(&rt)?;
    calibration::steepest(&rt)?;
    tracker::trace(&rt)?;
    tracker::swipes(&rt)?;
    tracker::slop(&rt)?;
    tracker::captured(&rt)?;
    tracker::wished(&rt)?;
    tracker::spent(&rt)?;
    tracker::refused(&rt)?;
    writer::rooms(&rt)
}
