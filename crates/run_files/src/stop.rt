//! Why a run ends.
ghost use Rattle.std.specs.Prelude.{◌≡◌, Err};
ghost use Rattle.run_files.specs.declared.stop.Stop.TheVariants as stop;
ghost use Rattle.run_files.specs.Stops.{earlier, joined_ends, rank_of, read_end, stop_of_cut, stop_of_session, write_end};

use outer_io::{CutFault, IoFault};
use session_core::SessionFault;
use texts::NoMemory;

/// Why a run ends without doing all that it was told. Where several hold, the first in the order written is answered.
#[derive(Clone, Copy, PartialEq, Eq, Debug)]
pub enum Stop {
    /// Memory was wanted and there was none.
    NoMemory,
    /// The plan was read and is none.
    PlanRefused,
    /// A file could not be opened or read.
    ReadFault,
    /// A file could not be created or written, or the output not be put.
    WriteFault,
    /// A feed was refused, or a feed or a script had more bytes than are read.
    FeedRefused,
}

impl From<NoMemory> for Stop {
    ghost from_gives = { λ _ e. e ≡ stop.NoMemory };

    fn from(_wanted: NoMemory) -> Stop {
        Stop::NoMemory
    }
}

// Its place in the order.
fn rank(stop: Stop) -> u8
    ensures { result ≡ rank_of stop }
{
    match stop {
        Stop::NoMemory => 0,
        Stop::PlanRefused => 1,
        Stop::ReadFault => 2,
        Stop::WriteFault => 3,
        Stop::FeedRefused => 4,
    }
}

// The cause of two that is answered.
fn earlier(one: Stop, other: Stop) -> Stop
    ensures { result ≡ earlier one other }
{
    if rank(other) < rank(one) { other } else { one }
}

/// How two things end that were both done: well where both did, else by the trouble that comes first in the order.
pub fn joined_ends(first: Result<(), Stop>, second: Result<(), Stop>) -> Result<(), Stop>
    ensures { result ≡ joined_ends first second }
{
    match (first, second) {
        (Ok(()), end) => end,
        (end, Ok(())) => end,
        (Err(one), Err(other)) => Err(earlier(one, other)),
    }
}

/// How a run ends that was to end so, after what it had was given back.
pub fn ended_after(stop: Stop, given: Result<(), Stop>) -> Stop
    ensures { joined_ends (Err stop) given ≡ Err result }
{
    match given {
        Ok(()) => stop,
        Err(other) => earlier(stop, other),
    }
}

/// What opening or reading a file answered, as a stage of a run answers it.
pub fn read_end<T>(read: Result<T, IoFault>) -> Result<T, Stop>
    ensures { result ≡ read_end read }
{
    match read {
        Ok(given) => Ok(given),
        Err(IoFault::Failed) => Err(Stop::ReadFault),
        Err(IoFault::NoMemory) => Err(Stop::NoMemory),
    }
}

/// What creating a file or giving it back answered, as a stage of a run answers it.
pub fn write_end<T>(written: Result<T, IoFault>) -> Result<T, Stop>
    ensures { result ≡ write_end written }
{
    match written {
        Ok(given) => Ok(given),
        Err(IoFault::Failed) => Err(Stop::WriteFault),
        Err(IoFault::NoMemory) => Err(Stop::NoMemory),
    }
}

/// Why a run ends whose feed was ended by this fault: with too much it is refused.
pub fn stop_of_cut(fault: CutFault) -> Stop
    ensures { result ≡ stop_of_cut fault }
{
    match fault {
        CutFault::Read => Stop::ReadFault,
        CutFault::TooMuch => Stop::FeedRefused,
        CutFault::NoMemory => Stop::NoMemory,
    }
}

/// Why a run ends a session of which was ended by this fault: its script counts as a feed.
pub fn stop_of_session(fault: SessionFault) -> Stop
    ensures { result ≡ stop_of_session fault }
{
    match fault {
        SessionFault::Read => Stop::ReadFault,
        SessionFault::Write => Stop::WriteFault,
        SessionFault::TooMuch => Stop::FeedRefused,
        SessionFault::NoMemory => Stop::NoMemory,
    }
}
