// The numbers that the trace turns on, as they are in specs/Sizes.antt.
use panel::MAX_POINTS;

// The most that a field holds, by its width.
pub(crate) const MOST_16: u64 = 65_535;

pub(crate) const MOST_8: u64 = 255;

pub(crate) const MOST_1: u64 = 1;

pub(crate) const VERSION: u64 = 1;

pub(crate) const MOST_BYTES: usize = 65_536;

// The six kinds of record.
pub(crate) const REPORT: u64 = 1;

pub(crate) const TICK: u64 = 2;

pub(crate) const CAPTURE: u64 = 3;

pub(crate) const DIRECT: u64 = 4;

pub(crate) const RAW: u64 = 5;

pub(crate) const GRAB: u64 = 6;

// The numbers of a report before its points: kind, time, keys and count.
pub(crate) const REPORT_HEAD: usize = 4;

// The most numbers that a record has: those of a report with all points in use.
pub(crate) const MOST_NUMBERS: usize = REPORT_HEAD + 2 * MAX_POINTS;
