//! The three texts of an audit, read whole.
ghost use Rattle.run_files.specs.Outside.{of_place};
ghost use Rattle.recount.specs.AuditTexts.{ReadsText, ReadsTexts};

use outer_io::Place;
use run_files::{Stop, read_file};
use std::alloc::Global;
use texts::List;

/// The most bytes of a text.
const LONGEST_TEXT: usize = 1 << 30;

/// The names of the four files of an audit.
#[derive(Clone, Copy)]
pub struct RecountNames<'a> {
    pub plan: &'a str,
    pub journal: &'a str,
    pub script: &'a str,
    pub replies: &'a str,
}

/// What the last three files have.
#[derive(Drop)]
pub(crate) struct Texts {
    pub journal: List<u8>,
    pub script: List<u8>,
    pub replies: List<u8>,
}

/// The bytes of the named file, or how the audit ends. More than 2^30 bytes are refused.
fn read_text<P: Place>(alloc: Global, name: &str, place: &mut P) -> Result<List<u8>, Stop>
    ensures { ReadsText (of_place P.Place) place.old place.new name.now result }
{
    let bytes = read_file(alloc, name, LONGEST_TEXT, place)?;
    if bytes.len() > LONGEST_TEXT {
        return Err(Stop::FeedRefused);
    }
    Ok(bytes)
}

/// The bytes of the last three files, which are opened, read and given back in order; or how the audit ends.
pub(crate) fn read_texts<P: Place>(
    alloc: Global,
    names: &RecountNames<'_>,
    place: &mut P,
) -> Result<Texts, Stop>
    ensures { ReadsTexts (of_place P.Place) place.old place.new names.now.journal.now names.now.script.now names.now.replies.now result }
{
    let journal = read_text(alloc, names.journal, place)?;
    let script = read_text(alloc, names.script, place)?;
    let replies = read_text(alloc, names.replies, place)?;
    Ok(Texts {
        journal,
        script,
        replies,
    })
}
