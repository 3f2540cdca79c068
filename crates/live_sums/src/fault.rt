//! Why a session ends.
ghost use Rattle.std.specs.Prelude.{◌≡◌};
ghost use Rattle.live_sums.specs.Wrong.{fault_of_share, fault_of_sum, wrong_share_text};

use run_files::Stop;
use share_replies::{LineFault, WrongReply, why_name};
use texts::NoMemory;

/// What is wrong with a run: it takes no more questions, its reply is missing or is no reply to what was asked, or a
/// sum with it is 2^64 or more, or it is over fewer records than one before.
#[derive(Clone, Copy, PartialEq, Eq, Debug)]
pub enum WrongShare {
    NotAsked,
    Reply(WrongReply),
    Behind,
}

/// Why the reply of one run is not added: the stage that reads it ends, or it is wrong.
#[derive(Clone, Copy, PartialEq, Eq, Debug)]
pub(crate) enum ReplyFault {
    Stopped(Stop),
    Wrong(WrongShare),
}

/// Why a question is not answered: a stage ends, or a run is wrong, by its place from 0.
#[derive(Clone, Copy, PartialEq, Eq, Debug)]
pub(crate) enum TurnFault {
    Stopped(Stop),
    Wrong(usize, WrongShare),
}

/// The name of what is wrong with a run.
pub(crate) fn share_name(why: WrongShare) -> &'static str
    ensures { result.now ≡ wrong_share_text why }
{
    match why {
        WrongShare::NotAsked => "NotAsked",
        WrongShare::Reply(why) => why_name(why),
        WrongShare::Behind => "Behind",
    }
}

/// The fault of a reply that is not added.
pub(crate) fn fault_of_sum(fault: LineFault) -> ReplyFault
    ensures { result ≡ fault_of_sum fault }
{
    match fault {
        LineFault::NoMemory => ReplyFault::Stopped(Stop::NoMemory),
        LineFault::Wrong(why) => ReplyFault::Wrong(WrongShare::Reply(why)),
    }
}

/// The fault of the run of that place.
pub(crate) fn fault_of_share(fault: ReplyFault, share: usize) -> TurnFault
    ensures { result ≡ fault_of_share fault share }
{
    match fault {
        ReplyFault::Stopped(stop) => TurnFault::Stopped(stop),
        ReplyFault::Wrong(why) => TurnFault::Wrong(share, why),
    }
}

impl From<NoMemory> for TurnFault {
    ghost use Rattle.run_files.specs.declared.stop.Stop.TheVariants as stop;
    ghost use Rattle.live_sums.specs.declared.fault.TurnFault.TheVariants as fault;

    ghost from_gives = { λ _ e. e ≡ fault.Stopped stop.NoMemory };

    fn from(_fault: NoMemory) -> TurnFault {
        TurnFault::Stopped(Stop::NoMemory)
    }
}

impl From<Stop> for TurnFault {
    ghost use Rattle.live_sums.specs.declared.fault.TurnFault.TheVariants as fault;

    ghost from_gives = { λ stop e. e ≡ fault.Stopped stop };

    fn from(stop: Stop) -> TurnFault {
        TurnFault::Stopped(stop)
    }
}
