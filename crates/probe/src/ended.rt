// Why a run ends before its input does.
use numbers::Stop;
use std::alloc::AllocFailed;
use std::io;

#[derive(Drop)]
pub(crate) enum Ended {
    // What comes next in the input is no call.
    Stopped(Stop),
    // Memory ran out, or a line was not written.
    Failed(io::Error),
}

impl From<Stop> for Ended {
    fn from(stop: Stop) -> Ended {
        Ended::Stopped(stop)
    }
}

impl From<io::Error> for Ended {
    fn from(e: io::Error) -> Ended {
        Ended::Failed(e)
    }
}

impl<T: Drop> From<AllocFailed<T>> for Ended {
    fn from(e: AllocFailed<T>) -> Ended {
        Ended::Failed(io::Error::from(e))
    }
}
