//! The journal, put a buffer at a time.
ghost use Rattle.std.specs.Prelude.{◌≡◌, ◌<◌, ◌++◌, OnErr, OnOk, length};
ghost use Rattle.feed_queue.specs.Journal.{entry_line, journal_text};
ghost use Rattle.outer_io.specs.Bytes.{GainsPart};
ghost use Rattle.outer_io.specs.Faults.{HasCause};
ghost use Rattle.plan_run.specs.Journals.{Moves, PutsJournal};

use cube_view::Schema;
use feed_queue::print_entry;
use outer_io::{IoFault, Sink};
use std::alloc::Global;
use texts::NoMemory;
use world_core::Entry;

/// How many bytes are put at once, or a few more; fewer only at the end.
const FULL: usize = 32768;

/// The room of the buffer. The line of an entry has fewer than 128 bytes, so it does not grow.
const ROOM: usize = FULL + 128;

/// Appends the line of the entry.
fn push_line(
    alloc: Global,
    buffer: &mut Vec<u8>,
    schema: &Schema,
    entry: &Entry,
) -> Result<(), NoMemory>
    ensures { OnOk result (buffer.new.items ≡ buffer.old.items ++ entry_line schema.now entry.now) }
{
    let line = print_entry(alloc, schema, entry)?;
    if buffer.extend_from_slice(line.as_slice()).is_err() {
        return Err(NoMemory);
    }
    buffer.push(b'\n')?;
    Ok(())
}

/// Puts the buffer's bytes and clears it, where there are so many.
fn put_from<O: Sink>(least: usize, buffer: &mut Vec<u8>, out: &mut O) -> Result<(), IoFault>
    requires { 0 < least }
    ensures moves { OnOk result (Moves O.held O.faults O.name out.old out.new buffer.old.items buffer.new.items) }
    ensures few { OnOk result (length buffer.new.items < least) }
    ensures part { OnErr result (GainsPart (O.held out.old) (O.held out.new) buffer.old.items) }
    ensures cause { HasCause (O.faults out.old) (O.faults out.new) result IoFault.Failed }
    ensures name { O.name out.new ≡ O.name out.old }
{
    if buffer.len() < least {
        return Ok(());
    }
    out.put(buffer.as_slice())?;
    buffer.clear();
    Ok(())
}

/// Puts the journal of the entries, a buffer at a time, so that its memory does not grow with the journal. After a
/// fault it makes no further put. `NoMemory` comes where the buffer, a line or a put found none.
pub(crate) fn write_journal<O: Sink>(
    alloc: Global,
    schema: &Schema,
    entries: &[Entry],
    out: &mut O,
) -> Result<(), IoFault>
    ensures { PutsJournal O.held O.faults O.name out.old out.new (journal_text schema.now entries.now) result }
{
    let Ok(mut buffer) = Vec::with_capacity(alloc, ROOM) else {
        return Err(IoFault::NoMemory);
    };
    for entry in entries {
        if let Err(NoMemory) = push_line(alloc, &mut buffer, schema, entry) {
            return Err(IoFault::NoMemory);
        }
        put_from(FULL, &mut buffer, out)?;
    }
    put_from(1, &mut buffer, out)
}
