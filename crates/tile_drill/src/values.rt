//! The rows of a histogram.
ghost use Rattle.std.specs.Prelude.{◌≡◌, ℕ, ◌<◌, ◌≤◌, IfOk, length, ◌+◌};
ghost use Rattle.query_syntax.specs.Boxes.{box, total as total_of};
ghost use Rattle.query_syntax.specs.Narrowing.{with_value};
ghost use Rattle.query_syntax.specs.Tables.{value_row, rows_of_verb};
ghost use Rattle.query_walk.specs.Costs.{from_region_cost, region_cost};
ghost use Rattle.query_walk.specs.Views.{EachListOf, TakesUpTo};
ghost use Rattle.query_walk.specs.Walks.{HasBox};
ghost use Rattle.tile_drill.specs.Costs.{values_cost};

use cube_view::CubeView;
use probe_core::Steps;
use query_syntax::{Query, RowOut, Verb};
use query_walk::{region_cursor, value_total};
use std::alloc::Global;
use std::sync::ledger::Ledger;
use texts::{List, NoMemory};

/// The rows of a histogram: one for each value of the category.
pub fn value_rows<V: CubeView, L: Ledger>(
    alloc: Global,
    view: &V,
    query: &Query,
    category: u8,
    steps: &mut Steps<L>,
) -> Result<List<RowOut>, NoMemory>
    requires has_box { HasBox (V.schema view.now) query.now }
    requires category { category < length (V.schema view.now).categories }
    ensures rows { IfOk result (λ rows. EachListOf V.CubeView view.now (λ h. rows ≡ rows_of_verb (V.schema view.now) query.now h (Verb.Hist category))) }
    ensures cost { TakesUpTo V.CubeView view.now steps.old steps.new (λ costs schema h. values_cost costs schema h query.now category) }
{
    let mut rows = List::new(alloc);
    let place = usize::from(category);
    let values = &view.schema().categories.get(place).values;
    let region = region_cursor(view, &query.region, steps);
    for value in 0..values.len() {
        let text = values.get(value).copy(alloc)?;
        let total = value_total(view, query, place, value as u8, region, steps);
        rows.add(RowOut::Value(text, total))?;
    }
    Ok(rows)
}
