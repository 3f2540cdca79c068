//! Why a share's replies are not added.
ghost use Rattle.std.specs.Prelude.{◌≡◌};

use run_files::Stop;
use texts::NoMemory;

/// What is wrong with a reply of a share: there are fewer lines than replies were asked for, or more, the line is no
/// reply, it is no reply to what was asked or has rows of other keys, or a sum with it is 2^64 or more.
#[derive(Clone, Copy, PartialEq, Eq, Debug)]
pub enum WrongReply {
    TooFew,
    TooMany,
    NotReply,
    OtherRows,
    TooGreat,
}

/// Why a reply, or the one of a line, is not added: memory ran out, or it is wrong.
#[derive(Clone, Copy, PartialEq, Eq, Debug)]
pub enum LineFault {
    NoMemory,
    Wrong(WrongReply),
}

/// Why the replies of a share are not added: memory ran out, or a line is wrong, by its number from 1.
#[derive(Clone, Copy, PartialEq, Eq, Debug)]
pub enum TextFault {
    NoMemory,
    At(u64, WrongReply),
}

/// Why the replies of a file are not added: the stage that reads it ends, or a line is wrong, by its number from 1.
#[derive(Clone, Copy, PartialEq, Eq, Debug)]
pub(crate) enum FileFault {
    Stopped(Stop),
    Wrong(u64, WrongReply),
}

/// Why the replies of shares are not added: a stage that reads them ends, or a line of a share is wrong, by the share's
/// place from 0 and the line's number from 1.
#[derive(Clone, Copy, PartialEq, Eq, Debug)]
pub(crate) enum SharesFault {
    Stopped(Stop),
    Wrong(usize, u64, WrongReply),
}

impl From<NoMemory> for LineFault {
    ghost use Rattle.share_replies.specs.declared.fault.LineFault.TheVariants as fault;

    ghost from_gives = { λ _ e. e ≡ fault.NoMemory };

    fn from(_fault: NoMemory) -> LineFault {
        LineFault::NoMemory
    }
}

impl From<NoMemory> for TextFault {
    ghost use Rattle.share_replies.specs.declared.fault.TextFault.TheVariants as fault;

    ghost from_gives = { λ _ e. e ≡ fault.NoMemory };

    fn from(_fault: NoMemory) -> TextFault {
        TextFault::NoMemory
    }
}
