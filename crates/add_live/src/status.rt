//! The status of an end.
ghost use Rattle.std.specs.Prelude.{◌≡◌};
ghost use Rattle.add_live.specs.Statuses.{live_status};

use live_sums::LiveOutcome;
use run_files::Stop;
use share_replies::Status;

/// How the program ends where the sums of live runs ended so.
pub fn live_status(end: Result<LiveOutcome, Stop>) -> Status
    ensures { result ≡ live_status end }
{
    match end {
        Ok(LiveOutcome::Ended) => Status::Done,
        Ok(LiveOutcome::Refused(_)) => Status::Refused,
        Err(stop) => Status::Stopped(stop),
    }
}
