//! A reply as text, put piece by piece at the end of one buffer.
ghost use Rattle.std.specs.Prelude.{◌≡◌, ◌+◌, ◌≤◌, ◌∷◌, [], ◌++◌, decimal, false, length, map, IfOk, OnOk, IsTrue};
ghost use Rattle.std.specs.List.{All};
ghost use Rattle.json.specs.Print.{escape};
ghost use Rattle.serde_json.specs.View.{items_of};
ghost use Rattle.serde_json.specs.Written.{comma_if, compact_text, items_text};
ghost use Rattle.query_syntax.specs.declared.table.RowOut.{RowOut};
ghost use Rattle.reply_json.specs.declared.reply.Reply.{Reply};
ghost use Rattle.reply_json.specs.Printed.{fault_name, row_items, row_value, reply_value, reply_text};
ghost use Rattle.reply_json.specs.Validity.{is_valid_reply};
ghost use Rattle.reply_json.specs.Types.{IsCount, RowFits, ReplyFits};

use crate::Reply;
use crate::plain::are_plain;
use crate::put::{bytes_before, digits_before, item_before, put_number, put_text};
use cube_view::{Stat, Tile};
use query_syntax::{QueryFault, RowOut, Table};
use std::alloc::Global;
use texts::{List, NoMemory, Text, put, put_byte};

/// The line of the reply that memory ran out, with its line feed.
pub const NO_MEMORY_LINE: &str = "{\"fault\":\"NoMemory\"}\n";

/// [`NO_MEMORY_LINE`], whose text is that of the reply and a line feed.
#[tactic(auto, unfolding(crate::specs::Printed::reply_value, crate::specs::Printed::reply_text, json::specs::Print::escape_byte))]
pub fn no_memory_line() -> &'static str
    ensures { result.now ≡ reply_text Reply.NoMemory ++ 10 ∷ [] }
{
    NO_MEMORY_LINE
}

pub(crate) fn fault_name(fault: QueryFault) -> &'static str
    ensures { result.now ≡ fault_name fault }
{
    match fault {
        QueryFault::NotText => "NotText",
        QueryFault::LongLine => "LongLine",
        QueryFault::BadQuote => "BadQuote",
        QueryFault::UnknownVerb => "UnknownVerb",
        QueryFault::MissingWord => "MissingWord",
        QueryFault::BadNumber => "BadNumber",
        QueryFault::OutOfRange => "OutOfRange",
        QueryFault::BadTile => "BadTile",
        QueryFault::TooDeep => "TooDeep",
        QueryFault::UnknownCategory => "UnknownCategory",
        QueryFault::UnknownValue => "UnknownValue",
        QueryFault::RepeatedFilter => "RepeatedFilter",
        QueryFault::UnknownFilter => "UnknownFilter",
        QueryFault::TimeInSeries => "TimeInSeries",
        QueryFault::InWithWindow => "InWithWindow",
        QueryFault::SameCategory => "SameCategory",
    }
}

// Puts a total and the closing bracket of its row.
fn put_total(out: &mut Vec<u8>, total: u64) -> Result<(), NoMemory>
    ensures text { OnOk result (out.new.items ≡ out.old.items ++ (decimal total ++ 93 ∷ [])) }
    ensures fits { IsCount total }
{
    // The last byte is the closing bracket.
    let mut end = [b']'; 96];
    let at = digits_before(&mut end, 95, total);
    put(out, &end[at..])
}

// Puts the first bin of a row, its total and its closing bracket.
fn put_bin(out: &mut Vec<u8>, start: u64, total: u64) -> Result<(), NoMemory>
    ensures text { OnOk result (out.new.items ≡ out.old.items ++ items_text false (items_of (row_items (RowOut.Bin start total)))) }
    ensures fits { RowFits (RowOut.Bin start total) }
{
    let mut end = [b']'; 96];
    let at = digits_before(&mut end, 95, total);
    let at = item_before(&mut end, at, start);
    put(out, &end[at..])
}

// Puts the tile of a row, its total and its closing bracket.
fn put_area(out: &mut Vec<u8>, tile: Tile, total: u64) -> Result<(), NoMemory>
    ensures text { OnOk result (out.new.items ≡ out.old.items ++ items_text false (items_of (row_items (RowOut.Area tile total)))) }
    ensures fits { RowFits (RowOut.Area tile total) }
{
    let mut end = [b']'; 96];
    let at = digits_before(&mut end, 95, total);
    let at = item_before(&mut end, at, u64::from(tile.y));
    let at = item_before(&mut end, at, u64::from(tile.x));
    let at = item_before(&mut end, at, u64::from(tile.z));
    put(out, &end[at..])
}

// Puts two texts without escapes, a total and the closing bracket of their row, from the last byte to the first.
fn put_short_pair(out: &mut Vec<u8>, first: &str, second: &str, total: u64) -> Result<(), NoMemory>
    requires short { length first.now + length second.now ≤ 64 }
    requires first { escape first.now ≡ first.now }
    requires second { escape second.now ≡ second.now }
    ensures text { OnOk result (out.new.items ≡ out.old.items ++ items_text false (items_of (row_items (RowOut.Pair first.now second.now total)))) }
    ensures fits { RowFits (RowOut.Pair first.now second.now total) }
{
    let mut end = [b']'; 96];
    let at = digits_before(&mut end, 95, total);
    let at = bytes_before(&mut end, at, second.as_bytes());
    let at = bytes_before(&mut end, at, first.as_bytes());
    put(out, &end[at..])
}

// Puts two texts, a total and the closing bracket of their row. Most names of values are so short that it is one put.
fn put_pair(out: &mut Vec<u8>, first: &Text, second: &Text, total: u64) -> Result<(), NoMemory>
    ensures text { OnOk result (out.new.items ≡ out.old.items ++ items_text false (items_of (row_items (RowOut.Pair first.now second.now total)))) }
    ensures fits { OnOk result (RowFits (RowOut.Pair first.now second.now total)) }
{
    let (first, second) = (first.as_str(), second.as_str());
    let is_short = first.len() <= 32 && second.len() <= 32;
    if is_short && are_plain(first.as_bytes()) && are_plain(second.as_bytes()) {
        return put_short_pair(out, first, second, total);
    }
    put_text(out, first)?;
    put_byte(out, b',')?;
    put_text(out, second)?;
    put_byte(out, b',')?;
    put_total(out, total)
}

// Puts what stands in a row, and its closing bracket.
fn put_items(out: &mut Vec<u8>, row: &RowOut) -> Result<(), NoMemory>
    ensures text { OnOk result (out.new.items ≡ out.old.items ++ items_text false (items_of (row_items row.now))) }
    ensures fits { OnOk result (RowFits row.now) }
{
    match row {
        RowOut::One(total) => put_total(out, *total),
        RowOut::Value(text, total) => {
            put_text(out, text.as_str())?;
            put_byte(out, b',')?;
            put_total(out, *total)
        }
        RowOut::Area(tile, total) => put_area(out, *tile, *total),
        RowOut::Bin(start, total) => put_bin(out, *start, *total),
        RowOut::Pair(first, second, total) => put_pair(out, first, second, *total),
    }
}

// Puts a row, after a comma where it is a later one.
fn put_row(out: &mut Vec<u8>, later: bool, row: &RowOut) -> Result<(), NoMemory>
    ensures text { OnOk result (out.new.items ≡ out.old.items ++ (comma_if later ++ compact_text (row_value row.now))) }
    ensures fits { OnOk result (RowFits row.now) }
{
    if later {
        put_byte(out, b',')?;
    }
    put_byte(out, b'[')?;
    put_items(out, row)
}

// Puts all rows and the closing bracket. The buffer grows as they come, by doubling: it is kept from reply to reply,
// and a bound of bytes a row would take far more of it than most rows need.
fn put_rows(out: &mut Vec<u8>, rows: &[RowOut]) -> Result<(), NoMemory>
    ensures text { OnOk result (out.new.items ≡ out.old.items ++ items_text false (items_of (map row_value rows.now))) }
    ensures fits { OnOk result (All RowFits rows.now) }
{
    let mut later = false;
    for row in rows {
        put_row(out, later, row)?;
        later = true;
    }
    put_byte(out, b']')?;
    Ok(())
}

#[tactic(auto, unfolding(crate::specs::Printed::reply_value, crate::specs::Types::ReplyFits, json::specs::Print::escape_byte))]
fn put_table(out: &mut Vec<u8>, table: &Table) -> Result<(), NoMemory>
    ensures text { OnOk result (out.new.items ≡ out.old.items ++ compact_text (reply_value (Reply.Table table.now))) }
    ensures fits { OnOk result (ReplyFits (Reply.Table table.now)) }
{
    put(out, b"{\"rows\":[")?;
    put_rows(out, table.rows.as_slice())?;
    put_number(out, b",\"seen\":", table.seen)?;
    put_byte(out, b'}')
}

#[tactic(auto, unfolding(crate::specs::Printed::reply_value, crate::specs::Types::ReplyFits, json::specs::Print::escape_byte))]
fn put_stat(out: &mut Vec<u8>, stat: &Stat, seen: u64) -> Result<(), NoMemory>
    ensures text { OnOk result (out.new.items ≡ out.old.items ++ compact_text (reply_value (Reply.Stat stat.now seen))) }
    ensures fits { OnOk result (ReplyFits (Reply.Stat stat.now seen)) }
{
    put_number(out, b"{\"nodes\":", stat.nodes)?;
    put_number(out, b",\"proper\":", stat.proper)?;
    put_number(out, b",\"seen\":", seen)?;
    put_number(out, b",\"shared\":", stat.shared)?;
    put_number(out, b",\"tables\":", stat.tables)?;
    put_byte(out, b'}')
}

#[tactic(auto, unfolding(crate::specs::Printed::reply_value, crate::specs::Types::ReplyFits, json::specs::Print::escape_byte))]
fn put_told(out: &mut Vec<u8>, told: u64) -> Result<(), NoMemory>
    ensures text { OnOk result (out.new.items ≡ out.old.items ++ compact_text (reply_value (Reply.Told told))) }
    ensures fits { OnOk result (ReplyFits (Reply.Told told)) }
{
    put_number(out, b"{\"told\":", told)?;
    put_byte(out, b'}')
}

#[tactic(auto, unfolding(crate::specs::Printed::reply_value, crate::specs::Types::ReplyFits, json::specs::Print::escape_byte))]
fn put_fault(out: &mut Vec<u8>, fault: QueryFault, word: u32) -> Result<(), NoMemory>
    ensures text { OnOk result (out.new.items ≡ out.old.items ++ compact_text (reply_value (Reply.Fault fault word))) }
    ensures fits { OnOk result (ReplyFits (Reply.Fault fault word)) }
{
    put_number(out, b"{\"at\":", u64::from(word))?;
    put(out, b",\"fault\":")?;
    put_text(out, fault_name(fault))?;
    put_byte(out, b'}')
}

#[tactic(auto, unfolding(crate::specs::Printed::reply_value, json::specs::Print::escape_byte))]
fn put_no_memory(out: &mut Vec<u8>) -> Result<(), NoMemory>
    ensures { OnOk result (out.new.items ≡ out.old.items ++ compact_text (reply_value Reply.NoMemory)) }
{
    put(out, b"{\"fault\":\"NoMemory\"}")
}

#[tactic(auto, unfolding(crate::specs::Types::ReplyFits))]
fn put_reply(out: &mut Vec<u8>, reply: &Reply) -> Result<(), NoMemory>
    ensures text { OnOk result (out.new.items ≡ out.old.items ++ compact_text (reply_value reply.now)) }
    ensures fits { OnOk result (ReplyFits reply.now) }
{
    match reply {
        Reply::Table(table) => put_table(out, table),
        Reply::Stat(stat, seen) => put_stat(out, stat, *seen),
        Reply::Told(told) => put_told(out, *told),
        Reply::Fault(fault, word) => put_fault(out, *fault, *word),
        Reply::NoMemory => put_no_memory(out),
    }
}

/// The text of a valid reply, without a line feed, in the memory of `room`, whose bytes are let go. A reply that fits
/// there takes none.
#[tactic(auto, unfolding(crate::specs::Printed::reply_text))]
pub fn print_reply_in(room: List<u8>, reply: &Reply) -> Result<List<u8>, NoMemory>
    requires { IsTrue (is_valid_reply reply.now) }
    ensures text { IfOk result (λ bytes. bytes ≡ reply_text reply.now) }
    ensures fits { OnOk result (ReplyFits reply.now) }
{
    let mut bytes = room.into_vec();
    bytes.clear();
    put_reply(&mut bytes, reply)?;
    Ok(List::from_vec(bytes))
}

/// The text of a valid reply, without a line feed, as [`crate::read_reply`] reads it.
pub fn print_reply(alloc: Global, reply: &Reply) -> Result<List<u8>, NoMemory>
    requires { IsTrue (is_valid_reply reply.now) }
    ensures text { IfOk result (λ bytes. bytes ≡ reply_text reply.now) }
    ensures fits { OnOk result (ReplyFits reply.now) }
{
    print_reply_in(List::new(alloc), reply)
}
