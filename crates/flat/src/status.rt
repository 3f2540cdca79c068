//! How the program ended.
ghost use Rattle.std.specs.Prelude.{◌≡◌};
ghost use Rattle.flat.specs.Statuses.{flat_code, flat_status};

use run_files::Stop;

/// How the program ended: all was answered, the words are no form, or this ended it.
#[derive(Clone, Copy, PartialEq, Eq, Debug)]
pub enum Status {
    Done,
    Usage,
    Stopped(Stop),
}

impl Status {
    /// How answering the script ended.
    pub fn of_end(end: Result<(), Stop>) -> Status
        ensures { result ≡ flat_status end }
    {
        match end {
            Err(stop) => Status::Stopped(stop),
            Ok(()) => Status::Done,
        }
    }

    /// The exit code.
    pub fn code(&self) -> u8
        ensures { result ≡ flat_code self.now }
    {
        match self {
            Status::Done => 0,
            Status::Stopped(Stop::FeedRefused) => 7,
            Status::Stopped(Stop::WriteFault) => 6,
            Status::Stopped(Stop::ReadFault) => 5,
            Status::Stopped(Stop::NoMemory) => 4,
            Status::Stopped(Stop::PlanRefused) => 3,
            Status::Usage => 2,
        }
    }
}
