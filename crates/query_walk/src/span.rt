//! The end of a walk: running totals at an address of time.
ghost use Rattle.std.specs.Prelude.{◌≡◌, ℕ, ◌+◌, ◌*◌, ◌≤◌};
ghost use Rattle.cube_view.specs.Bag.{amount};
ghost use Rattle.cube_view.specs.Places.{is_before, time_dim};
ghost use Rattle.query_walk.specs.Views.{EachListOf};
ghost use Rattle.query_walk.specs.Walks.{is_under_in};

use cube_view::CubeView;
use probe_core::Steps;
use query_syntax::Span;
use std::sync::ledger::Ledger;

/// How much the bag has under the cursor in bins less than `end`. Nothing is before the first bin, which no search has
/// to tell.
fn total_before<V: CubeView, L: Ledger>(
    view: &V,
    cursor: V::Cursor,
    end: u64,
    steps: &mut Steps<L>,
) -> u64
    requires stands { V.stands view.now cursor }
    requires time { (V.address view.now cursor).dim ≡ time_dim (V.schema view.now) }
    ensures total { EachListOf V.CubeView view.now (λ h. result ≡ amount (is_before (V.schema view.now) (V.address view.now cursor) end) h) }
    ensures cost { steps.new ≤ steps.old + (V.costs view.now).before_cost (V.address view.now cursor) }
{
    if end == 0 {
        return 0;
    }
    view.before(cursor, end, steps)
}

/// How much the bag has under the cursor in the bins of the span.
pub fn total_in_span<V: CubeView, L: Ledger>(
    view: &V,
    span: &Span,
    cursor: V::Cursor,
    steps: &mut Steps<L>,
) -> u64
    requires stands { V.stands view.now cursor }
    requires time { (V.address view.now cursor).dim ≡ time_dim (V.schema view.now) }
    requires order { span.now.from ≤ span.now.to }
    ensures total { EachListOf V.CubeView view.now (λ h. result ≡ amount (is_under_in (V.schema view.now) (V.address view.now cursor) span.now) h) }
    ensures cost { steps.new ≤ steps.old + 2 * (V.costs view.now).before_cost (V.address view.now cursor) }
{
    let until_end = total_before(view, cursor, span.to, steps);
    let until_start = total_before(view, cursor, span.from, steps);
    until_end - until_start
}
