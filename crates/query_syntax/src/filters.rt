//! Filters of a query.
ghost use Rattle.std.specs.Prelude.{◌≡◌, ℕ, ◌+◌, ◌<◌, ◌≤◌, ◌^◌, ◌∷◌, None, true, false, length, IfOk, OnOk};
ghost use Rattle.query_syntax.specs.Filters.{no_filters, line_read, names_read, filter_at, filters_at, ReadsOn, AlwaysReadsOn, AddsFilter};
ghost use Rattle.query_syntax.specs.Filters.Wanted.{Name, Region, Item, From};
ghost use Rattle.query_syntax.specs.Meaning.{FiltersFit, KeepsFit};
ghost use Rattle.query_syntax.specs.Reading.{GivesRead};
ghost use Rattle.query_syntax.specs.Verbs.{takes_filters, is_series, is_window};
ghost use Rattle.query_syntax.specs.Words.{words};
ghost use Rattle.query_syntax.specs.declared.query.Verb.{Verb};

use crate::fault::{QueryFault, WordFault};
use crate::filters_read::FiltersRead;
use crate::item::item_of;
use crate::tile_word::tile_of;
use crate::verb_words::{BINS, number_in};
use crate::words::{is_text, next_word};
use crate::{Span, Verb};
use cube_view::Schema;

/// Whether filters may follow the verb.
pub(crate) fn may_have_filters(verb: Verb) -> bool
    ensures { result ≡ takes_filters verb }
{
    !matches!(verb, Verb::Stat | Verb::Told | Verb::Quit)
}

/// Whether the verb has its bins by itself.
pub(crate) fn has_own_bins(verb: Verb) -> bool
    ensures { result ≡ is_series verb }
{
    matches!(verb, Verb::Series { .. })
}

/// Whether the verb has its finest tiles by itself.
pub(crate) fn has_own_tiles(verb: Verb) -> bool
    ensures { result ≡ is_window verb }
{
    matches!(verb, Verb::Window(_))
}

/// Reads the tile after `in`, which is word `number`.
fn region_filter<'a>(
    schema: &Schema,
    filters: &mut FiltersRead,
    number: u32,
    line: &'a [u8],
) -> Result<(u32, &'a [u8]), WordFault>
    requires small { number + 1 < 2 ^ 32 }
    requires fresh { filters.old.region ≡ None }
    ensures reads { AlwaysReadsOn (line_read Region schema.now filters.old number line.now) result (λ x. line_read Name schema.now filters.new x.0 x.1.now) }
    ensures next { IfOk result (λ x. x.0 ≡ number + 1) }
    ensures adds { OnOk result (AddsFilter filters.old filters.new) }
    ensures fits { OnOk result ((verb : Verb) → takes_filters verb ≡ true → is_window verb ≡ false → KeepsFit schema.now filters.old filters.new verb) }
{
    let Some((word, rest)) = next_word(line) else {
        return Err(WordFault::at(QueryFault::MissingWord, number));
    };
    let tile = tile_of(schema.depth, number, word)?;
    filters.set_region(tile);
    Ok((number + 1, rest))
}

/// Reads the item after `with`, which is word `number`.
fn category_filter<'a>(
    schema: &Schema,
    filters: &mut FiltersRead,
    number: u32,
    line: &'a [u8],
) -> Result<(u32, &'a [u8]), WordFault>
    requires { number + 1 < 2 ^ 32 }
    ensures reads { AlwaysReadsOn (line_read Item schema.now filters.old number line.now) result (λ x. line_read Name schema.now filters.new x.0 x.1.now) }
    ensures next { IfOk result (λ x. x.0 ≡ number + 1) }
    ensures adds { OnOk result (AddsFilter filters.old filters.new) }
    ensures fits { OnOk result ((verb : Verb) → takes_filters verb ≡ true → KeepsFit schema.now filters.old filters.new verb) }
{
    let Some((word, rest)) = next_word(line) else {
        return Err(WordFault::at(QueryFault::MissingWord, number));
    };
    let (k, choice) = item_of(schema, filters, number, word)?;
    filters.set_item(k, choice);
    Ok((number + 1, rest))
}

/// Reads the two numbers after `time`, of which the first is word `number`.
fn time_filter<'a>(
    schema: &Schema,
    filters: &mut FiltersRead,
    number: u32,
    line: &'a [u8],
) -> Result<(u32, &'a [u8]), WordFault>
    requires small { number + 2 < 2 ^ 32 }
    requires fresh { filters.old.time ≡ None }
    ensures reads { AlwaysReadsOn (line_read From schema.now filters.old number line.now) result (λ x. line_read Name schema.now filters.new x.0 x.1.now) }
    ensures next { IfOk result (λ x. x.0 ≡ number + 2) }
    ensures adds { OnOk result (AddsFilter filters.old filters.new) }
    ensures fits { OnOk result ((verb : Verb) → takes_filters verb ≡ true → is_series verb ≡ false → KeepsFit schema.now filters.old filters.new verb) }
{
    let Some((word, rest)) = next_word(line) else {
        return Err(WordFault::at(QueryFault::MissingWord, number));
    };
    let from = number_in(0, BINS, number, word)?;
    let Some((word, rest)) = next_word(rest) else {
        return Err(WordFault::at(QueryFault::MissingWord, number + 1));
    };
    let to = number_in(0, BINS, number + 1, word)?;
    if to < from {
        return Err(WordFault::at(QueryFault::OutOfRange, number + 1));
    }
    filters.set_time(Span { from, to });
    Ok((number + 2, rest))
}

/// Reads a filter whose name is the word of that number, in the line that comes after it.
fn filter_of<'a>(
    schema: &Schema,
    verb: Verb,
    filters: &mut FiltersRead,
    number: u32,
    word: &[u8],
    line: &'a [u8],
) -> Result<(u32, &'a [u8]), WordFault>
    requires small { number + 3 < 2 ^ 32 }
    requires fits { FiltersFit schema.now verb filters.old }
    ensures reads { ReadsOn (filter_at schema.now filters.old number word.now line.now verb) result (λ x. names_read schema.now filters.new x.0 x.1.now verb) }
    ensures next { IfOk result (λ x. x.0 ≤ number + 3) }
    ensures adds { OnOk result (AddsFilter filters.old filters.new) }
    ensures fits { OnOk result (FiltersFit schema.now verb filters.new) }
{
    if !may_have_filters(verb) {
        Err(WordFault::at(QueryFault::UnknownFilter, number))
    } else if is_text(word, "in") {
        if has_own_tiles(verb) {
            return Err(WordFault::at(QueryFault::InWithWindow, number));
        }
        if filters.has_region() {
            return Err(WordFault::at(QueryFault::RepeatedFilter, number));
        }
        region_filter(schema, filters, number + 1, line)
    } else if is_text(word, "with") {
        category_filter(schema, filters, number + 1, line)
    } else if is_text(word, "time") {
        if has_own_bins(verb) {
            return Err(WordFault::at(QueryFault::TimeInSeries, number));
        }
        if filters.has_time() {
            return Err(WordFault::at(QueryFault::RepeatedFilter, number));
        }
        time_filter(schema, filters, number + 1, line)
    } else {
        Err(WordFault::at(QueryFault::UnknownFilter, number))
    }
}

/// Reads all filters of a line, the first of which has the word `first` as its name, where there was none before.
#[tactic(auto, unfolding(crate::specs::Filters::filters_at))]
pub fn read_filters(
    schema: &Schema,
    verb: Verb,
    first: u32,
    line: &[u8],
    filters: &mut FiltersRead,
) -> Result<(), WordFault>
    requires first { first ≤ 6 }
    requires none { filters.old ≡ no_filters }
    ensures read { GivesRead (λ _. filters.new) result (filters_at schema.now verb first (words line.now)) }
    ensures fits { OnOk result (FiltersFit schema.now verb filters.new) }
{
    let mut number = first;
    let mut rest = line;
    while let Some((word, after)) = next_word(rest) {
        let (next, left) = filter_of(schema, verb, filters, number, word, after)?;
        number = next;
        rest = left;
    }
    Ok(())
}
