//! How a program of shares ended.
ghost use Rattle.std.specs.Prelude.{◌≡◌};
ghost use Rattle.share_replies.specs.Statuses.{exit_code_of};

use run_files::Stop;

/// How a program of shares ended: all was done, the words are no form, this ended it, or a share was refused.
#[derive(Clone, Copy, PartialEq, Eq, Debug)]
pub enum Status {
    Done,
    Usage,
    Stopped(Stop),
    Refused,
}

impl Status {
    /// The exit code.
    pub fn code(&self) -> u8
        ensures { result ≡ exit_code_of self.now }
    {
        match self {
            Status::Done => 0,
            Status::Usage => 2,
            Status::Stopped(Stop::PlanRefused) => 3,
            Status::Stopped(Stop::NoMemory) => 4,
            Status::Stopped(Stop::ReadFault) => 5,
            Status::Stopped(Stop::WriteFault) => 6,
            Status::Stopped(Stop::FeedRefused) => 7,
            Status::Refused => 9,
        }
    }
}
