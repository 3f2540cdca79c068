//! What an audit of files answers.
ghost use Rattle.std.specs.Prelude.{◌≡◌};
ghost use Rattle.recount.specs.Audits.{audit_of};

use crate::Verdict;

/// Whether a journal, a script and the replies to it agree.
#[derive(Clone, Copy, PartialEq, Eq, Debug)]
pub enum Audit {
    /// They agree.
    Agrees,
    /// There is a first line of the journal, or of the replies, at which they do not.
    Differs,
}

/// Whether the verdict is that they agree.
pub(crate) fn audit_of(verdict: Verdict) -> Audit
    ensures { result ≡ audit_of verdict }
{
    match verdict {
        Verdict::Agree { .. } => Audit::Agrees,
        Verdict::Journal(..) | Verdict::Replies(..) => Audit::Differs,
    }
}
