//! The next line of a journal.
ghost use Rattle.std.specs.Prelude.{◌≡◌, ◌++◌, IfSome, IfNone};
ghost use Rattle.feed_queue.specs.Journal.{entry_line, IsEntryOf};
ghost use Rattle.recount.specs.Faults.{BeginsWithEntry};
ghost use Rattle.world_core.specs.declared.entry.Entry.{Entry};

use crate::lines::first_line;
use cube_view::Schema;
use feed_queue::read_entry;
use world_core::Entry;

/// The entry of a line, and what follows the line.
#[derive(Drop)]
pub struct NextEntry<'a> {
    pub entry: Entry,
    pub rest: &'a [u8],
}

/// The entry of the first line of a text, if the text begins with one.
pub fn next_entry<'a>(schema: &Schema, text: &'a [u8]) -> Option<NextEntry<'a>>
    ensures some { IfSome result (λ next. IsEntryOf schema.now next.entry × (text.now ≡ entry_line schema.now next.entry ++ next.rest.now)) }
    ensures none { IfNone result ((e : Entry) → ¬ BeginsWithEntry schema.now text.now e) }
{
    let first = first_line(text)?;
    let entry = read_entry(schema, first.line)?;
    Some(NextEntry {
        entry,
        rest: first.rest,
    })
}
