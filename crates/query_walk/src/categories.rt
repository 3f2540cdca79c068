//! The walk through the categories.
ghost use Rattle.std.specs.Prelude.{◌≡◌, ℕ, ◌+◌, ◌*◌, ◌-◌, ◌<◌, ◌≤◌, IsTrue, length, drop};
ghost use Rattle.cube_view.specs.Bag.{amount};
ghost use Rattle.query_walk.specs.Costs.{left_cost, set_cost, value_cost};
ghost use Rattle.query_walk.specs.Views.{EachListOf, TakesUpTo};
ghost use Rattle.query_walk.specs.Walks.{IsAtCategory, HasChoicesFrom, AsksAtCategory, are_walkable, is_left, is_left_at_value, is_left_in_set};

use crate::span::total_in_span;
use cube_view::CubeView;
use probe_core::Steps;
use query_syntax::{Choice, Query, ValueSet};
use std::sync::ledger::Ledger;

/// How much the bag has under the cursor, as far as the query says from category `k` on, counted from 0. It takes no
/// memory.
#[cycle(walk)]
pub fn total_from<V: CubeView, L: Ledger>(
    view: &V,
    query: &Query,
    cursor: V::Cursor,
    k: usize,
    steps: &mut Steps<L>,
) -> u64
    requires stands { V.stands view.now cursor }
    requires here { IsAtCategory (V.address view.now cursor) k }
    requires choices { HasChoicesFrom (V.schema view.now) query.now k }
    ensures total { EachListOf V.CubeView view.now (λ h. result ≡ amount (is_left (V.schema view.now) query.now (V.address view.now cursor) k) h) }
    ensures cost { TakesUpTo V.CubeView view.now steps.old steps.new (λ costs schema h. left_cost costs schema h query.now k (V.address view.now cursor)) }
{
    if k == view.schema().categories.len() {
        return total_in_span(view, &query.time, cursor, steps);
    }
    match query.sets[k] {
        Choice::All => match view.across(cursor, steps) {
            Some(next) => total_from(view, query, next, k + 1, steps),
            None => 0,
        },
        Choice::Only(set) => total_in_set(view, query, cursor, k, &set, steps),
    }
}

/// The same, where category `k` has this set.
#[cycle(walk)]
fn total_in_set<V: CubeView, L: Ledger>(
    view: &V,
    query: &Query,
    cursor: V::Cursor,
    k: usize,
    set: &ValueSet,
    steps: &mut Steps<L>,
) -> u64
    requires stands { V.stands view.now cursor }
    requires walk { AsksAtCategory (V.schema view.now) query.now (V.address view.now cursor) k }
    requires wide { length set.now ≡ 256 }
    ensures total { EachListOf V.CubeView view.now (λ h. result ≡ amount (is_left_in_set (V.schema view.now) query.now (V.address view.now cursor) k set.now) h) }
    ensures cost { TakesUpTo V.CubeView view.now steps.old steps.new (λ costs schema h. set_cost costs schema h query.now k (V.address view.now cursor) set.now) }
{
    let mut sum = 0;
    for value in 0..set.end() {
        if set.has(value as u8) {
            let at_value = total_at_value(view, query, cursor, k, value as u8, steps);
            sum += at_value;
        }
    }
    sum
}

/// The same, where category `k` has this value.
#[cycle(walk)]
fn total_at_value<V: CubeView, L: Ledger>(
    view: &V,
    query: &Query,
    cursor: V::Cursor,
    k: usize,
    value: u8,
    steps: &mut Steps<L>,
) -> u64
    requires stands { V.stands view.now cursor }
    requires walk { AsksAtCategory (V.schema view.now) query.now (V.address view.now cursor) k }
    ensures total { EachListOf V.CubeView view.now (λ h. result ≡ amount (is_left_at_value (V.schema view.now) query.now (V.address view.now cursor) k value) h) }
    ensures cost { TakesUpTo V.CubeView view.now steps.old steps.new (λ costs schema h. value_cost costs schema h query.now k (V.address view.now cursor) value) }
{
    let Some(deeper) = view.down(cursor, value, steps) else {
        return 0;
    };
    match view.across(deeper, steps) {
        Some(next) => total_from(view, query, next, k + 1, steps),
        None => 0,
    }
}
