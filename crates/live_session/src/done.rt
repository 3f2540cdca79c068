//! What is given back of a session.

use mailbox::MailOut;
use session_core::SessionFault;

/// A session's source and sink, how many replies it put, the last number of points seen that they print, or 0, its end
/// of the mailbox, and the fault that ended it.
pub struct SessionDone<I, O> {
    pub source: I,
    pub sink: O,
    pub replies: u64,
    pub seen: u64,
    pub mail: MailOut,
    pub fault: Option<SessionFault>,
}
