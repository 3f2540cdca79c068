//! A reply, compared with what the points give.
ghost use Rattle.std.specs.Prelude.{◌≡◌, ◌≤◌, ◌<◌, ◌^◌, ◌↔◌, All, length, IsTrue, IfOk};
ghost use Rattle.cube_view.specs.Bag.{amount, anywhere, most_points};
ghost use Rattle.cube_view.specs.Validity.{sound};
ghost use Rattle.query_syntax.specs.Meaning.{asks_valid};
ghost use Rattle.query_syntax.specs.Queries.{is_valid_query};
ghost use Rattle.query_syntax.specs.Tables.{has_table, table};
ghost use Rattle.query_syntax.specs.declared.table.Table.{Table};
ghost use Rattle.recount.specs.Agreement.{MayAnswer, IsCubeStat};
ghost use Rattle.recount.specs.Comparing.{asks_stat, asks_told, IsLineOf, IsTableReply};
ghost use Rattle.recount.specs.Faults.{StaysWithin};
ghost use Rattle.reply_json.specs.Types.{ReplyFits};
ghost use Rattle.reply_json.specs.declared.reply.Reply.{Reply};
ghost use Rattle.session_core.specs.Asked.{reply_line};

use crate::replies::NextReply;
use cube_view::{Point, Schema, Stat};
use list_tables::list_rows;
use query_syntax::{Parsed, Query, QueryFault, Table, Verb, has_table};
use reply_json::{Reply, print_reply};
use std::alloc::Global;
use texts::NoMemory;

/// Whether the numbers are those of a cube, in which each slot but the root has one proper link to it.
fn is_cube_stat(stat: &Stat) -> bool
    ensures { IsTrue result ↔ IsCubeStat stat.now }
{
    u128::from(stat.nodes) + u128::from(stat.tables) == u128::from(stat.proper) + 1
}

/// Whether the structure's numbers were asked for.
fn asks_stat(parsed: &Parsed) -> bool
    ensures { result ≡ asks_stat parsed.now }
{
    match parsed {
        Parsed::Ask(query) => query.verb == Verb::Stat,
        Parsed::Skip | Parsed::Fault(..) => false,
    }
}

/// Whether the told length was asked for.
fn asks_told(parsed: &Parsed) -> bool
    ensures { result ≡ asks_told parsed.now }
{
    match parsed {
        Parsed::Ask(query) => query.verb == Verb::Told,
        Parsed::Skip | Parsed::Fault(..) => false,
    }
}

/// Whether the line has this fault, at this word.
fn is_fault_of(parsed: &Parsed, fault: QueryFault, word: u32) -> bool
    ensures { IsTrue result ↔ (parsed.now ≡ Parsed.Fault fault word) }
{
    match parsed {
        Parsed::Fault(other, place) => *other == fault && *place == word,
        Parsed::Skip | Parsed::Ask(_) => false,
    }
}

/// Whether two texts are the same.
fn same_bytes(s: &[u8], t: &[u8]) -> bool
    ensures { IsTrue result ↔ (s.now ≡ t.now) }
{
    s == t
}

/// Whether the line is that of the query's table over the points.
fn is_table(
    alloc: Global,
    schema: &Schema,
    points: &[Point],
    query: &Query,
    line: &[u8],
) -> Result<bool, NoMemory>
    requires valid { IsTrue (is_valid_query schema.now query.now) }
    requires verb { IsTrue (has_table query.now.verb) }
    requires light { amount anywhere points.now < 2 ^ 64 }
    ensures { (t : Table) → IsLineOf t line.now → IfOk result (λ same. IsTrue same ↔ (t ≡ table schema.now query.now points.now)) }
{
    let rows = list_rows(alloc, schema, query, points)?;
    let seen = points.len() as u64;
    let own = Reply::Table(Table { rows, seen });
    let mut text = print_reply(alloc, &own)?;
    text.add(b'\n')?;
    Ok(same_bytes(text.as_slice(), line))
}

/// Whether the line, of a table, is that of what was asked over the points.
fn is_asked_table(
    alloc: Global,
    schema: &Schema,
    points: &[Point],
    parsed: &Parsed,
    line: &[u8],
) -> Result<bool, NoMemory>
    requires valid { IsTrue (asks_valid schema.now parsed.now) }
    requires light { amount anywhere points.now < 2 ^ 64 }
    ensures { (t : Table) → IsLineOf t line.now → IfOk result (λ same. IsTrue same ↔ IsTableReply schema.now points.now parsed.now t) }
{
    let Parsed::Ask(query) = parsed else {
        return Ok(false);
    };
    if !has_table(&query.verb) {
        return Ok(false);
    }
    is_table(alloc, schema, points, query, line)
}

/// Whether the reply of a line is one to what was asked, over the first points, as many as it has seen.
pub fn is_answer(
    alloc: Global,
    schema: &Schema,
    points: &[Point],
    parsed: &Parsed,
    next: &NextReply<'_>,
) -> Result<bool, NoMemory>
    requires within { StaysWithin (length points.now) next.now.reply × (length points.now < most_points) }
    requires sound { All (λ p. IsTrue (sound schema.now p)) points.now }
    requires line { ReplyFits next.now.reply × (next.now.line.now ≡ reply_line next.now.reply) }
    requires valid { IsTrue (asks_valid schema.now parsed.now) }
    ensures { IfOk result (λ is. IsTrue is ↔ MayAnswer schema.now points.now parsed.now next.now.reply) }
{
    match &next.reply {
        Reply::Table(table) => {
            let first = &points[..table.seen as usize];
            is_asked_table(alloc, schema, first, parsed, next.line)
        }
        Reply::Stat(stat, _) => Ok(asks_stat(parsed) && is_cube_stat(stat)),
        Reply::Told(_) => Ok(asks_told(parsed)),
        Reply::Fault(fault, word) => Ok(is_fault_of(parsed, *fault, *word)),
        Reply::NoMemory => Ok(true),
    }
}
