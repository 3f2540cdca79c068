//! Whether a size is one that some list of points with the slots' bag has.
ghost use Rattle.std.specs.Prelude.{◌≡◌, ℕ, ◌↔◌, ◌+◌, ◌<◌, ◌^◌, List, None, Some, length, IsTrue};
ghost use Rattle.time_table.specs.Counts.{count_of};
ghost use Rattle.node_arena.specs.Amounts.{Weighted};
ghost use Rattle.node_arena.specs.Slots.{slot_of};
ghost use Rattle.node_arena.specs.Stats.{capped};
ghost use Rattle.shape_test.specs.Levels.{left, no_levels};
ghost use Rattle.shape_test.specs.Wholes.{is_deepest as is_deepest_left, is_whole as is_whole_address, rows_at};
ghost use Rattle.shape_test.specs.Filled.{HasSmallBins};
ghost use Rattle.shape_test.specs.Fits.{IsSizeOf, least_points, slots_bag};
ghost use Rattle.shape_test.specs.Homes.{walk_of, walks_of};
ghost use Rattle.shape_test.specs.Labels.{labels_fit, schema_levels};
ghost use Rattle.shape_test.specs.Places.{place_at};
ghost use Rattle.shape_test.specs.Sizes.{AreSizable, TellsLight, TellsPoints, size_of, table_size};

use crate::home::Move;
use crate::home_list::HomeList;
use crate::homes::most_steps_of;
use crate::place::{Place, deepest, place_of, time_dim};
use crate::rows::first_row;
use cube_view::Schema;
use node_arena::{Arena, SlotId};
use probe_core::Steps;
use std::sync::ledger::Ledger;
use texts::List;
use time_table::TimeTable;

/// The most that a point weighs.
const HEAVIEST: u64 = (1 << 28) - 1;

/// The most points that a cube counts.
const MOST_POINTS: u64 = 1 << 35;

/// What the spots of a bag weigh together, and how many points have it at least, as far as 64 bits count.
#[derive(Clone, Copy)]
pub struct BagSize {
    pub sum: u64,
    pub least: u64,
}

/// The size of no bag.
const NOTHING: BagSize = BagSize { sum: 0, least: 0 };

/// The size of two bags together.
fn both(a: BagSize, b: BagSize) -> BagSize
    ensures sum { result.sum ≡ capped (a.sum + b.sum) }
    ensures least { result.least ≡ capped (a.least + b.least) }
{
    BagSize {
        sum: a.sum.saturating_add(b.sum),
        least: a.least.saturating_add(b.least),
    }
}

/// The size of a spot's bag.
fn row_size(amount: u64) -> BagSize
    ensures sum { result.sum ≡ amount }
    ensures least { result.least ≡ least_points amount }
{
    BagSize {
        sum: amount,
        least: amount.div_ceil(HEAVIEST),
    }
}

/// The size of a time table's rows.
fn rows_size<L: Ledger>(table: &TimeTable, steps: &mut Steps<L>) -> BagSize
    requires { (bin : ℕ) → 0 < count_of table.now bin → bin < 2 ^ 32 }
    ensures { result ≡ table_size table.now }
{
    let mut size = NOTHING;
    let mut from = 0;
    while let Some((bin, amount)) = first_row(table, from, steps) {
        size = both(size, row_size(amount));
        from = u64::from(bin) + 1;
    }
    size
}

/// Whether an address that stands at time goes to the deepest level of each dimension: it has the most steps then.
fn is_whole_at_time(schema: &Schema, home: &[Move]) -> bool
    requires { left (schema_levels schema.now) (walk_of home.now) ≡ Some no_levels }
    ensures { result ≡ is_whole_address (schema_levels schema.now) (walk_of home.now) }
{
    home.len() == most_steps_of(schema)
}

/// Whether an address is at its dimension's deepest level. One past the levels is not.
fn is_deepest(schema: &Schema, home: &[Move]) -> bool
    requires { IsTrue (labels_fit schema.now (walk_of home.now)) }
    ensures { result ≡ is_deepest_left (left (schema_levels schema.now) (walk_of home.now)) }
{
    match place_of(schema, home) {
        Some(place) => place.level >= deepest(schema, place.dim),
        None => false,
    }
}

/// Whether an address goes to the deepest level of each dimension that it has left behind.
fn is_whole(schema: &Schema, home: &[Move]) -> bool
    requires { IsTrue (labels_fit schema.now (walk_of home.now)) }
    ensures { result ≡ is_whole_address (schema_levels schema.now) (walk_of home.now) }
{
    let [step, owner @ ..] = home else {
        return true;
    };
    if !is_whole(schema, owner) {
        return false;
    }
    match step {
        Move::Down(_) => true,
        Move::Across => is_deepest(schema, owner),
    }
}

/// Whether an address goes to the deepest level of each dimension that it has left behind, its place being given.
fn is_whole_at(schema: &Schema, home: &[Move], place: Place) -> bool
    requires place { place_at schema.now (walk_of home.now) ≡ Some place }
    requires labels { IsTrue (labels_fit schema.now (walk_of home.now)) }
    ensures { result ≡ is_whole_address (schema_levels schema.now) (walk_of home.now) }
{
    if place.dim == time_dim(schema) {
        is_whole_at_time(schema, home)
    } else {
        is_whole(schema, home)
    }
}

/// The size of what a slot adds to the bag: its rows, if its home is whole.
fn slot_size<L: Ledger>(
    schema: &Schema,
    arena: &Arena,
    home: &[Move],
    place: Place,
    id: SlotId,
    steps: &mut Steps<L>,
) -> BagSize
    requires in_range { id.0 < length arena.now }
    requires place { place_at schema.now (walk_of home.now) ≡ Some place }
    requires labels { IsTrue (labels_fit schema.now (walk_of home.now)) }
    requires bins { HasSmallBins arena.now }
    ensures { result ≡ size_of (rows_at (schema_levels schema.now) (walk_of home.now) (slot_of arena.now id.0)) }
{
    if !arena.is_table(id) || !is_whole_at(schema, home, place) {
        return NOTHING;
    }
    rows_size(arena.table(id, steps), steps)
}

/// The size of the bag of slots.
fn bag_size<L: Ledger>(
    schema: &Schema,
    arena: &Arena,
    homes: &HomeList,
    places: &List<Place>,
    steps: &mut Steps<L>,
) -> BagSize
    requires { AreSizable schema.now arena.now homes.now places.now }
    ensures { result ≡ size_of (slots_bag schema.now arena.now (walks_of homes.now)) }
{
    let mut size = NOTHING;
    for i in 0..arena.len() {
        let home = homes.get(i);
        let place = *places.get(i);
        let own = slot_size(schema, arena, home, place, SlotId(i as u32), steps);
        size = both(size, own);
    }
    size
}

/// Whether so many points may weigh that much together: without a weight column each weighs 1.
fn may_weigh(schema: &Schema, size: u64, sum: u64) -> bool
    ensures { IsTrue result ↔ (schema.now.weight ≡ None → size ≡ sum) }
{
    match &schema.weight {
        Some(_) => true,
        None => size == sum,
    }
}

/// Whether a number of points is one that some list with a bag of that size has.
fn is_size(schema: &Schema, bag: BagSize, size: u64) -> bool
    ensures { (h : List Weighted) → bag ≡ size_of h → IsTrue result ↔ IsSizeOf schema.now h size }
{
    size <= bag.sum && bag.least <= size && size <= MOST_POINTS && may_weigh(schema, size, bag.sum)
}

/// Whether some list of so many points of the schema has the bag of the slots.
pub fn size_fits<L: Ledger>(
    schema: &Schema,
    arena: &Arena,
    homes: &HomeList,
    places: &List<Place>,
    size: u64,
    steps: &mut Steps<L>,
) -> bool
    requires { AreSizable schema.now arena.now homes.now places.now }
    ensures { IsTrue result ↔ IsSizeOf schema.now (slots_bag schema.now arena.now (walks_of homes.now)) size }
{
    is_size(schema, bag_size(schema, arena, homes, places, steps), size)
}

/// What a size tells, as laws of the definitions: slots that fit with it are a cube of so many points, and no table of
/// them counts more records than one can hold. It does nothing when run.
pub fn size_laws()
    ensures points { TellsPoints }
    ensures light { TellsLight }
{}
