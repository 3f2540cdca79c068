//! The journal, line by line.
ghost use Rattle.std.specs.Prelude.{◌≤◌, ◌^◌, List, length, IfOk};
ghost use Rattle.recount.specs.Counting.{AreCounts, TakesNumber};
ghost use Rattle.recount.specs.Reading.{ReadsJournal};
ghost use Rattle.world_core.specs.declared.entry.Entry.{Entry};

use crate::Why;
use crate::entries::next_entry;
use cube_view::{Point, Schema};
use std::alloc::Global;
use texts::NoMemory;
use world_core::Entry;

/// What the journal is read as: the points of its entries, in order, or the first line at which a test holds.
#[derive(Drop)]
pub enum JournalRead {
    Points(Vec<Point>),
    Differs(u64, Why),
}

/// Whether the entry may come after those that are counted. If so it is counted too.
fn take_number(counts: &mut [u64; 8], feeders: u8, entry: &Entry) -> bool
    requires { (1 ≤ entry.now.feeder) × (entry.now.feeder ≤ 8) }
    ensures { (before : List Entry) → AreCounts counts.old before → TakesNumber feeders before entry.now counts.new result }
{
    let place = usize::from(entry.feeder) - 1;
    if entry.feeder > feeders || u64::from(entry.number) != counts[place] {
        return false;
    }
    counts[place] = u64::from(entry.number) + 1;
    true
}

/// The points of the journal's entries, or the first line at which a test holds.
pub fn read_journal(
    alloc: Global,
    schema: &Schema,
    feeders: u8,
    journal: &[u8],
) -> Result<JournalRead, NoMemory>
    requires { length journal.now ≤ 2 ^ 30 }
    ensures { IfOk result (ReadsJournal schema.now feeders journal.now) }
{
    let mut points = Vec::new(alloc);
    let mut counts = [0u64; 8];
    let mut rest = journal;
    'lines: while !rest.is_empty() {
        let line = points.len() as u64 + 1;
        let Some(next) = next_entry(schema, rest) else {
            return Ok(JournalRead::Differs(line, Why::NotEntry));
        };
        if !take_number(&mut counts, feeders, &next.entry) {
            return Ok(JournalRead::Differs(line, Why::WrongNumber));
        }
        points.push(next.entry.point)?;
        rest = next.rest;
    }
    Ok(JournalRead::Points(points))
}
