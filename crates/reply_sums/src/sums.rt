//! The sum of two replies to what was asked.
ghost use Rattle.std.specs.Prelude.{◌≡◌, ◌↔◌, true, false, Err, Some, None, IfOk, IsTrue};
ghost use Rattle.reply_json.specs.Validity.{is_valid_reply};
ghost use Rattle.reply_json.specs.declared.reply.Reply.{Reply};
ghost use Rattle.reply_sums.specs.AddingUp.{AddsUp};
ghost use Rattle.reply_sums.specs.Additive.{adds_up};
ghost use Rattle.reply_sums.specs.Numbers.{AreGreat, IsGreat, are_rows_great, is_reply_great};
ghost use Rattle.reply_sums.specs.Sums.{AsksShallow, HaveGreatSum, HaveNoSum, IsMapShallow, IsSum, sum_of_query, sum_of_rows, sum_tables, sum_told};

use crate::SumFault;
use crate::areas::sum_areas;
use crate::rows::sum_rows;
use crate::totals::sum_totals;
use query_syntax::{Parsed, Query, QueryFault, RowOut, Table, Verb};
use reply_json::Reply;
use std::alloc::Global;
use texts::List;

/// Whether the replies to what was asked add up. Those of `best` and `stat` do not.
pub fn adds_up(asked: &Parsed) -> bool
    ensures { result ≡ adds_up asked.now }
{
    match asked {
        Parsed::Skip => false,
        Parsed::Ask(query) => match query.verb {
            Verb::Count | Verb::Hist(_) | Verb::Map(_) | Verb::Series { .. } => true,
            Verb::Window(_) | Verb::Cross(..) | Verb::Told => true,
            Verb::Best { .. } | Verb::Stat | Verb::Quit => false,
        },
        Parsed::Fault(..) => true,
    }
}

/// The rows of two tables of the query, added.
fn sum_of_rows(
    alloc: Global,
    query: &Query,
    rows: &[RowOut],
    others: &[RowOut],
) -> Result<List<RowOut>, SumFault>
    requires shallow { IsMapShallow query.now query.now.verb }
    ensures sum { IfOk result (λ sums. sum_of_rows query.now query.now.verb rows.now others.now ≡ Some sums) }
    ensures fits { IfOk result (λ sums. are_rows_great sums ≡ false) }
    ensures none { result ≡ Err SumFault.OtherRows → sum_of_rows query.now query.now.verb rows.now others.now ≡ None }
    ensures great { result ≡ Err SumFault.TooMuch → AreGreat (sum_of_rows query.now query.now.verb rows.now others.now) }
{
    match query.verb {
        Verb::Count | Verb::Hist(_) | Verb::Series { .. } | Verb::Window(_) | Verb::Cross(..) => {
            sum_rows(alloc, rows, others)
        }
        Verb::Map(down) => sum_areas(alloc, query.region, down, rows, others),
        Verb::Best { .. } | Verb::Stat | Verb::Told | Verb::Quit => Err(SumFault::OtherRows),
    }
}

/// The table of two tables of the query, added.
fn sum_tables(alloc: Global, query: &Query, table: &Table, other: &Table) -> Result<Reply, SumFault>
    requires shallow { IsMapShallow query.now query.now.verb }
    ensures sum { IfOk result (λ sum. sum_tables query.now table.now other.now ≡ Some sum) }
    ensures fits { IfOk result (λ sum. is_reply_great sum ≡ false) }
    ensures none { result ≡ Err SumFault.OtherRows → sum_tables query.now table.now other.now ≡ None }
    ensures great { result ≡ Err SumFault.TooMuch → IsGreat (sum_tables query.now table.now other.now) }
{
    let rows = sum_of_rows(alloc, query, table.rows.as_slice(), other.rows.as_slice())?;
    let seen = sum_totals(table.seen, other.seen)?;
    Ok(Reply::Table(Table { rows, seen }))
}

/// The reply of two told lengths to the query, added.
fn sum_told(query: &Query, told: u64, other: u64) -> Result<Reply, SumFault>
    ensures sum { IfOk result (λ sum. sum_told query.now.verb told other ≡ Some sum) }
    ensures fits { IfOk result (λ sum. is_reply_great sum ≡ false) }
    ensures none { result ≡ Err SumFault.OtherRows → sum_told query.now.verb told other ≡ None }
    ensures great { result ≡ Err SumFault.TooMuch → IsGreat (sum_told query.now.verb told other) }
{
    match query.verb {
        Verb::Told => Ok(Reply::Told(sum_totals(told, other)?)),
        Verb::Count | Verb::Hist(_) | Verb::Map(_) | Verb::Series { .. } => {
            Err(SumFault::OtherRows)
        }
        Verb::Window(_) | Verb::Cross(..) | Verb::Best { .. } | Verb::Stat | Verb::Quit => {
            Err(SumFault::OtherRows)
        }
    }
}

/// The sum of two replies to the query.
fn sum_of_query(
    alloc: Global,
    query: &Query,
    reply: &Reply,
    other: &Reply,
) -> Result<Reply, SumFault>
    requires shallow { IsMapShallow query.now query.now.verb }
    ensures sum { IfOk result (λ sum. sum_of_query query.now reply.now other.now ≡ Some sum) }
    ensures fits { IfOk result (λ sum. is_reply_great sum ≡ false) }
    ensures none { result ≡ Err SumFault.OtherRows → sum_of_query query.now reply.now other.now ≡ None }
    ensures great { result ≡ Err SumFault.TooMuch → IsGreat (sum_of_query query.now reply.now other.now) }
{
    match (reply, other) {
        (Reply::Table(table), Reply::Table(more)) => sum_tables(alloc, query, table, more),
        (Reply::Told(told), Reply::Told(more)) => sum_told(query, *told, *more),
        _ => Err(SumFault::OtherRows),
    }
}

/// Whether the reply is that fault, at that word.
fn is_fault(reply: &Reply, fault: QueryFault, word: u32) -> bool
    ensures { IsTrue result ↔ (reply.now ≡ Reply.Fault fault word) }
{
    match reply {
        Reply::Fault(own, place) => *own == fault && *place == word,
        Reply::Table(_) | Reply::Stat(..) | Reply::Told(_) | Reply::NoMemory => false,
    }
}

/// The sum of two replies to what was asked, whose replies add up: the reply over the points of both.
///
/// Where they are the replies over two lists of points, it is the reply over the lists joined. They have no sum where
/// one is no reply to what was asked, where their rows are not of the same values, starts or pairs, or where a row of a
/// map is of no tile that was asked for, out of path order, or of total 0. Where they have one, but a total of it is
/// 2^64 or more, the answer is `TooMuch`.
#[tactic(auto, unfolding(reply_json::specs::Validity::is_valid_reply))]
pub fn sum_replies(
    alloc: Global,
    asked: &Parsed,
    reply: &Reply,
    other: &Reply,
) -> Result<Reply, SumFault>
    requires adds { adds_up asked.now ≡ true }
    requires shallow { AsksShallow asked.now }
    ensures sum { IfOk result (IsSum asked.now reply.now other.now) }
    ensures fits { IfOk result (λ sum. is_reply_great sum ≡ false) }
    ensures none { result ≡ Err SumFault.OtherRows → HaveNoSum asked.now reply.now other.now }
    ensures great { result ≡ Err SumFault.TooMuch → HaveGreatSum asked.now reply.now other.now }
    ensures valid { IsTrue (is_valid_reply reply.now) → IfOk result (λ sum. IsTrue (is_valid_reply sum)) }
    ensures law { AddsUp asked.now reply.now other.now result }
{
    match asked {
        Parsed::Ask(query) => sum_of_query(alloc, query, reply, other),
        Parsed::Fault(fault, word) => {
            if is_fault(reply, *fault, *word) && is_fault(other, *fault, *word) {
                Ok(Reply::Fault(*fault, *word))
            } else {
                Err(SumFault::OtherRows)
            }
        }
        Parsed::Skip => Err(SumFault::OtherRows),
    }
}
