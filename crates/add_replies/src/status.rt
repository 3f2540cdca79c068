//! The status of an end.
ghost use Rattle.std.specs.Prelude.{◌≡◌};
ghost use Rattle.add_replies.specs.Statuses.{status_of};

use run_files::Stop;
use share_replies::{Outcome, Status};

/// How the program ends where adding the replies of shares ended so.
pub fn status_of(end: Result<Outcome, Stop>) -> Status
    ensures { result ≡ status_of end }
{
    match end {
        Ok(Outcome::Added) => Status::Done,
        Ok(Outcome::Refused(_)) => Status::Refused,
        Err(stop) => Status::Stopped(stop),
    }
}
