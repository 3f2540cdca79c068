//! How a run ended.
ghost use Rattle.std.specs.Prelude.{◌≡◌};
ghost use Rattle.top_call.specs.Recount.{status_of_audit};
ghost use Rattle.top_call.specs.Statuses.{code_of, status_of_end, status_of_image};

use image_run::ImageEnd;
use recount::Audit;
use run_files::Stop;

/// How a run ended. Where several hold at the end, [`Stop`] has the order in which one is answered.
#[derive(Clone, Copy, PartialEq, Eq, Debug)]
pub enum Status {
    Done,
    Usage,
    PlanRefused,
    NoMemory,
    ReadFault,
    WriteFault,
    FeedRefused,
    Differs,
    ImageRefused,
}

impl Status {
    /// How a run ended, by the cause that ends it, if one does.
    pub fn of_end(end: Result<(), Stop>) -> Status
        ensures { result ≡ status_of_end end }
    {
        match end {
            Ok(()) => Status::Done,
            Err(Stop::NoMemory) => Status::NoMemory,
            Err(Stop::PlanRefused) => Status::PlanRefused,
            Err(Stop::ReadFault) => Status::ReadFault,
            Err(Stop::WriteFault) => Status::WriteFault,
            Err(Stop::FeedRefused) => Status::FeedRefused,
        }
    }

    /// How an audit ended.
    pub fn of_audit(end: Result<Audit, Stop>) -> Status
        ensures { result ≡ status_of_audit end }
    {
        match end {
            Ok(Audit::Agrees) => Status::Done,
            Ok(Audit::Differs) => Status::Differs,
            Err(stop) => Status::of_end(Err(stop)),
        }
    }

    /// How saving or loading an image ended.
    pub fn of_image(end: Result<ImageEnd, Stop>) -> Status
        ensures { result ≡ status_of_image end }
    {
        match end {
            Ok(ImageEnd::Done) => Status::Done,
            Ok(ImageEnd::Refused) => Status::ImageRefused,
            Err(stop) => Status::of_end(Err(stop)),
        }
    }

    /// The exit code: 0, 2, 3, 4, 5, 6, 7, 9, 10 in the order written.
    pub fn code(&self) -> u8
        ensures { result ≡ code_of self.now }
    {
        match self {
            Status::Done => 0,
            Status::Usage => 2,
            Status::PlanRefused => 3,
            Status::NoMemory => 4,
            Status::ReadFault => 5,
            Status::WriteFault => 6,
            Status::FeedRefused => 7,
            Status::Differs => 9,
            Status::ImageRefused => 10,
        }
    }
}
