//! What holds of mailboxes, as a law of the definitions, and that their ends may go to other threads.
ghost use Rattle.mailbox.specs.MailLaws.{HoldsLastPut};

use crate::{MailIn, MailOut};
use side_by_side::{MayGo, may_go};

/// Whatever the threads do, between any two steps of a mailbox what comes out next was put last, and what was taken
/// before is a part of what was put before it, in order. Where the place is empty nothing was put, or the last that was
/// put was taken last.
/// It does nothing when run.
pub fn mail_laws()
    ensures { HoldsLastPut }
{}

/// Both ends of a mailbox may go to other threads.
pub fn mail_ends_may_go() -> MayGo<(MailIn, MailOut)> {
    may_go()
}
