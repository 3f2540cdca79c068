//! The total of one value of a category.
ghost use Rattle.std.specs.Prelude.{◌≡◌, ℕ, ◌<◌, ◌≤◌, length, ◌+◌};
ghost use Rattle.query_syntax.specs.Boxes.{box, total as total_of};
ghost use Rattle.query_syntax.specs.Parts.{with_one_value};
ghost use Rattle.query_syntax.specs.Narrowing.{with_value};
ghost use Rattle.query_walk.specs.Costs.{from_region_cost};
ghost use Rattle.query_walk.specs.Views.{EachListOf, TakesUpTo};
ghost use Rattle.query_walk.specs.Walks.{HasWalked};

use crate::tile::total_in_region;
use cube_view::CubeView;
use probe_core::Steps;
use query_syntax::Query;
use std::sync::ledger::Ledger;

/// How much the bag has in the query's box, of its set of the category this value alone, where the walk to the region
/// has ended with that cursor, or with none. It takes no memory.
pub fn value_total<V: CubeView, L: Ledger>(
    view: &V,
    query: &Query,
    category: usize,
    value: u8,
    region: Option<V::Cursor>,
    steps: &mut Steps<L>,
) -> u64
    requires walk { HasWalked (V.weight_at view.now) (V.seen view.now) (V.schema view.now) query.now (V.stands view.now) (V.address view.now) region }
    requires category { category < length (V.schema view.now).categories }
    ensures total { EachListOf V.CubeView view.now (λ h. result ≡ total_of (V.schema view.now) (with_value (box query.now) category value) h) }
    ensures cost { TakesUpTo V.CubeView view.now steps.old steps.new (λ costs schema h. from_region_cost costs schema h (with_one_value query.now category value)) }
{
    if !query.sets[category].has(value) {
        return 0;
    }
    let mut alone = *query;
    alone.set_one_value(category, value);
    total_in_region(view, &alone, region, steps)
}
