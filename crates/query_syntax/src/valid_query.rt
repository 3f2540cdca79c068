//! Which queries a schema takes, and which verbs ask for a table.
ghost use Rattle.std.specs.Prelude.{◌≡◌, ◌≤◌, ◌<◌, length, true, IsTrue};
ghost use Rattle.std.specs.List.{list_all};
ghost use Rattle.query_syntax.specs.Items.{values_at};
ghost use Rattle.query_syntax.specs.Queries.{are_choices, filters_fit_verb, has_no_filters, is_all, is_all_bins, is_choice, is_span, is_valid_query, is_whole_space, rect_in_range, verb_in_range};
ghost use Rattle.query_syntax.specs.Tables.{has_table, is_drill};
ghost use Rattle.query_syntax.specs.Tiles.{is_tile};

use crate::filters::{has_own_bins, has_own_tiles, may_have_filters};
use crate::item::values_of;
use crate::parsing::is_map_too_deep;
use crate::verb_words::{BINS, DEEPEST_MAP, MOST_BEST_ROWS, MOST_ROWS};
use crate::{Choice, Query, Rect, Span, ValueSet, Verb};
use cube_view::{Schema, Tile};

/// Whether the verb asks for a table.
pub fn has_table(verb: &Verb) -> bool
    ensures { result ≡ has_table verb.now }
{
    !matches!(verb, Verb::Stat | Verb::Told | Verb::Quit)
}

/// Whether the verb asks for a table along one dimension at most, with all its rows: [`crate::table_of`] counts these
/// alone.
pub fn is_drill(verb: &Verb) -> bool
    ensures { result ≡ is_drill verb.now }
{
    matches!(
        verb,
        Verb::Count | Verb::Hist(_) | Verb::Map(_) | Verb::Series { .. }
    )
}

/// Whether the rectangle is in order and has finest tiles alone.
fn is_rect(depth: u8, rect: &Rect) -> bool
    requires { depth ≤ 20 }
    ensures { result ≡ rect_in_range depth rect.now }
{
    let side = 1u32 << depth;
    rect.x0 <= rect.x1 && rect.x1 <= side && (rect.y0 <= rect.y1 && rect.y1 <= side)
}

/// Whether the numbers of the verb are in their ranges, where there are so many levels and so many categories.
fn is_in_range(depth: u8, count: usize, verb: &Verb) -> bool
    requires { depth ≤ 20 }
    ensures { result ≡ verb_in_range depth count verb.now }
{
    match verb {
        Verb::Count | Verb::Stat | Verb::Told | Verb::Quit => true,
        Verb::Hist(k) => usize::from(*k) < count,
        Verb::Map(down) => *down <= DEEPEST_MAP,
        Verb::Series { from, wide, rows } => {
            *from < BINS && 1 <= *wide && *wide <= BINS && 1 <= *rows && *rows <= MOST_ROWS
        }
        Verb::Window(rect) => is_rect(depth, rect),
        Verb::Cross(k, l) => usize::from(*k) < count && usize::from(*l) < count && k != l,
        Verb::Best { depth, rows } => {
            *depth <= DEEPEST_MAP && 1 <= *rows && *rows <= MOST_BEST_ROWS
        }
    }
}

/// Whether there is such a tile down to the depth.
fn is_tile(depth: u8, tile: &Tile) -> bool
    requires { depth ≤ 20 }
    ensures { result ≡ is_tile depth tile.now }
{
    tile.z <= depth && tile.x < 1 << tile.z && tile.y < 1 << tile.z
}

/// How many values the category of that number has, none past the categories.
fn value_count(schema: &Schema, k: usize) -> usize
    ensures count { result ≡ length (values_at schema.now.categories k) }
    ensures few { result ≤ 256 }
{
    if k < schema.categories.len() {
        values_of(schema, k).len()
    } else {
        0
    }
}

/// Whether the set has some of so many values, but not all, and no other.
fn is_part(count: usize, set: &ValueSet) -> bool
    requires { count ≤ 256 }
    ensures { result ≡ is_choice count (Choice.Only set.now) }
{
    if set.has_none_from(0) {
        return false;
    }
    if set.has_all_under(count) {
        return false;
    }
    set.has_none_from(count)
}

/// Whether the choice is one among so many values.
fn is_choice(count: usize, choice: &Choice) -> bool
    requires { count ≤ 256 }
    ensures { result ≡ is_choice count choice.now }
{
    match choice {
        Choice::All => true,
        Choice::Only(set) => is_part(count, set),
    }
}

/// Whether each choice is one of its category's values.
fn are_choices(schema: &Schema, sets: &[Choice; 4]) -> bool
    ensures fit { result ≡ are_choices schema.now.categories sets.now }
    ensures four { length sets.now ≡ 4 }
{
    for k in 0..4 {
        if !is_choice(value_count(schema, k), &sets[k]) {
            return false;
        }
    }
    true
}

/// Whether the span is from a bin to one at or after it.
fn is_span(span: &Span) -> bool
    ensures { result ≡ is_span span.now }
{
    span.from <= span.to && span.to <= BINS
}

/// Whether the tile is all of space.
fn is_whole_space(tile: &Tile) -> bool
    ensures { result ≡ is_whole_space tile.now }
{
    tile.z == 0 && tile.x == 0 && tile.y == 0
}

/// Whether the span has all bins.
fn is_all_bins(span: &Span) -> bool
    ensures { result ≡ is_all_bins span.now }
{
    span.from == 0 && span.to == BINS
}

/// Whether each choice is `All`.
fn are_all(sets: &[Choice; 4]) -> bool
    ensures { result ≡ list_all is_all sets.now }
{
    sets.iter().all(|choice| matches!(choice, Choice::All))
}

/// Whether the query has no filters that its verb doesn't take.
fn fits_verb(query: &Query) -> bool
    ensures { result ≡ filters_fit_verb query.now }
{
    let is_bare = is_whole_space(&query.region) && are_all(&query.sets) && is_all_bins(&query.time);
    (may_have_filters(query.verb) || is_bare)
        && (!has_own_bins(query.verb) || is_all_bins(&query.time))
        && (!has_own_tiles(query.verb) || is_whole_space(&query.region))
}

/// Whether the schema takes the query: its verb's numbers are in range, its region is a tile and its map's or best
/// tiles are not too deep, each set is one of its category's values, its span is in order, and it has no filters that
/// its verb doesn't take.
pub fn is_valid_query(schema: &Schema, query: &Query) -> bool
    ensures { result ≡ is_valid_query schema.now query.now }
{
    if !are_choices(schema, &query.sets) {
        return false;
    }
    if !is_in_range(schema.depth, schema.categories.len(), &query.verb) {
        return false;
    }
    if !is_tile(schema.depth, &query.region) {
        return false;
    }
    if is_map_too_deep(schema.depth, query.region.z, query.verb) {
        return false;
    }
    if !is_span(&query.time) {
        return false;
    }
    fits_verb(query)
}
