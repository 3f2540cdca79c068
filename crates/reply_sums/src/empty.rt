//! The reply over no points, to which others are added.
ghost use Rattle.std.specs.Prelude.{◌≡◌, [], true, Some, IfOk, IsTrue};
ghost use Rattle.cube_view.specs.declared.stat.Stat.{Stat};
ghost use Rattle.plain_cube.specs.Kept.{points_of, schema_of};
ghost use Rattle.probe_core.specs.Blanks.{IsBlankOf};
ghost use Rattle.query_syntax.specs.Meaning.{asks_valid};
ghost use Rattle.query_syntax.specs.Queries.{is_valid_query};
ghost use Rattle.query_syntax.specs.Tables.{has_table, table};
ghost use Rattle.reply_sums.specs.Additive.{adds_up, verb_adds_up};
ghost use Rattle.session_core.specs.Asked.{asked_reply};

use cross_table::cross_answer;
use cube_view::Schema;
use plain_cube::PlainCube;
use probe_core::Steps;
use query_syntax::{Parsed, Query, Table, Verb, has_table};
use reply_json::Reply;
use std::alloc::Global;
use std::marker::Brand;
use std::sync::ledger::{Blank, Ledger};
use texts::NoMemory;
use tile_drill::answer;
use window_cover::window_answer;

/// The query's table over the cube's points, its steps counted in the ledger of the blank.
fn table_over<L: Ledger>(
    alloc: Global,
    cube: &PlainCube,
    query: &Query,
    blank: Blank,
) -> Result<Table, NoMemory>
    requires blank { IsBlankOf L.name L.parts blank }
    requires valid { IsTrue (is_valid_query (schema_of cube.now) query.now) }
    requires verb { IsTrue (has_table query.now.verb) }
    requires adds { verb_adds_up query.now.verb ≡ true }
    ensures { IfOk result (λ t. t ≡ table (schema_of cube.now) query.now (points_of cube.now)) }
{
    let mut steps = Steps::<L>::new(blank);
    match query.verb {
        Verb::Count | Verb::Hist(_) | Verb::Map(_) | Verb::Series { .. } => {
            answer(alloc, cube, query, &mut steps)
        }
        Verb::Window(_) => window_answer(alloc, cube, query, &mut steps),
        Verb::Cross(..) => cross_answer(alloc, cube, query, &mut steps),
        Verb::Best { .. } | Verb::Stat | Verb::Told | Verb::Quit => unreachable!(),
    }
}

/// The table of the query over no points.
fn empty_table(alloc: Global, schema: &Schema, query: &Query) -> Result<Table, NoMemory>
    requires valid { IsTrue (is_valid_query schema.now query.now) }
    requires verb { IsTrue (has_table query.now.verb) }
    requires adds { verb_adds_up query.now.verb ≡ true }
    ensures { IfOk result (λ t. t ≡ table schema.now query.now []) }
{
    let cube = PlainCube::new(alloc, schema.copy(alloc)?);
    table_over::<Brand>(alloc, &cube, query, Blank::new(1))
}

/// The reply to what was asked over no points, none of which was told, where the replies to it add up.
pub fn reply_over_none(alloc: Global, schema: &Schema, asked: &Parsed) -> Result<Reply, NoMemory>
    requires valid { IsTrue (asks_valid schema.now asked.now) }
    requires adds { adds_up asked.now ≡ true }
    ensures { (stat : Stat) → IfOk result (λ reply. asked_reply stat schema.now [] 0 asked.now ≡ Some reply) }
{
    match asked {
        Parsed::Ask(query) => {
            if !has_table(&query.verb) {
                return Ok(Reply::Told(0));
            }
            Ok(Reply::Table(empty_table(alloc, schema, query)?))
        }
        Parsed::Fault(fault, word) => Ok(Reply::Fault(*fault, *word)),
        Parsed::Skip => unreachable!(),
    }
}
