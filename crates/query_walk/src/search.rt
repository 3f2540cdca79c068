//! The total of a query.
ghost use Rattle.std.specs.Prelude.{◌≡◌, ℕ, ◌+◌, ◌≤◌, IsTrue};
ghost use Rattle.query_syntax.specs.Boxes.{box, total as total_of};
ghost use Rattle.query_syntax.specs.Queries.{is_valid_query};
ghost use Rattle.query_walk.specs.Costs.{search_cost};
ghost use Rattle.query_walk.specs.Views.{EachListOf, TakesUpTo};
ghost use Rattle.query_walk.specs.Walks.{HasBox};

use crate::region::region_cursor;
use crate::tile::total_in_region;
use cube_view::CubeView;
use probe_core::Steps;
use query_syntax::Query;
use std::sync::ledger::Ledger;

/// How much the bag has in the query's region, sets and time. It takes no memory.
pub fn total<V: CubeView, L: Ledger>(view: &V, query: &Query, steps: &mut Steps<L>) -> u64
    requires valid { IsTrue (is_valid_query (V.schema view.now) query.now) }
    ensures total { EachListOf V.CubeView view.now (λ h. result ≡ total_of (V.schema view.now) (box query.now) h) }
    ensures cost { TakesUpTo V.CubeView view.now steps.old steps.new (λ costs schema h. search_cost costs schema h query.now) }
{
    total_in_box(view, query, steps)
}

/// The same, of a query that need not be valid: its span may end past all bins, and a set may be of all values. The
/// rows of a table ask such queries.
pub fn total_in_box<V: CubeView, L: Ledger>(view: &V, query: &Query, steps: &mut Steps<L>) -> u64
    requires has_box { HasBox (V.schema view.now) query.now }
    ensures total { EachListOf V.CubeView view.now (λ h. result ≡ total_of (V.schema view.now) (box query.now) h) }
    ensures cost { TakesUpTo V.CubeView view.now steps.old steps.new (λ costs schema h. search_cost costs schema h query.now) }
{
    let region = region_cursor(view, &query.region, steps);
    total_in_region(view, query, region, steps)
}
