//! What a line asks of the viewer and the mailbox.
ghost use Rattle.std.specs.Prelude.{◌≡◌};
ghost use Rattle.live_session.specs.News.{asks_news, seen_asked};
ghost use Rattle.session_core.specs.Asked.{asks_look};

use query_syntax::{Parsed, Verb};

/// Whether the line asks for a look: it has a table, or asks for the structure's numbers.
pub(crate) fn asks_look(parsed: &Parsed) -> bool
    ensures { result ≡ asks_look parsed.now }
{
    match parsed {
        Parsed::Skip | Parsed::Fault(..) => false,
        Parsed::Ask(query) => !matches!(query.verb, Verb::Told | Verb::Quit),
    }
}

/// Whether the mailbox is asked before the line is answered: where it asks for a look or the told length.
pub(crate) fn asks_news(parsed: &Parsed) -> bool
    ensures { result ≡ asks_news parsed.now }
{
    match parsed {
        Parsed::Skip | Parsed::Fault(..) => false,
        Parsed::Ask(query) => !matches!(query.verb, Verb::Quit),
    }
}

/// The number of points seen that the reply to the line prints, if it prints one.
pub(crate) fn seen_asked(seen: u64, parsed: &Parsed) -> Option<u64>
    ensures { result ≡ seen_asked seen parsed.now }
{
    if asks_look(parsed) { Some(seen) } else { None }
}
