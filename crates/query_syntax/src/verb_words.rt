//! Verbs in words.
ghost use Rattle.std.specs.Prelude.{◌≡◌, ◌∷◌, ◌≤◌, ◌<◌, ◌-◌, length, IfSome, IfOk, IsTrue, ℕ};
ghost use Rattle.std.specs.Str.{bytes_eq};
ghost use Rattle.query_syntax.specs.Items.{category_number};
ghost use Rattle.query_syntax.specs.Reading.{GivesRead, number_at, number_of};
ghost use Rattle.query_syntax.specs.Queries.{verb_in_range};
ghost use Rattle.query_syntax.specs.Verbs.{category_at, verb_at, hist_at, map_at, series_at, window_at, cross_at, best_at};
ghost use Rattle.query_syntax.specs.Words.{words};

use crate::fault::{QueryFault, WordFault};
use crate::words::{is_text, word_of};
use crate::{Rect, Verb};
use cube_view::Schema;
use texts::decimal_of;

/// How many bins there are.
pub const BINS: u64 = 1 << 32;

/// How many levels below the region the tiles of a map are at most.
pub const DEEPEST_MAP: u8 = 10;

/// How many rows a series has at most.
pub const MOST_ROWS: u32 = 10_000;

/// How many best tiles are listed at most.
pub const MOST_BEST_ROWS: u32 = 1_000;

/// The number that the word of that number writes, which is one from low to high.
#[tactic(auto, unfolding(crate::specs::Reading::number_of))]
pub fn number_in(low: u64, high: u64, number: u32, word: &[u8]) -> Result<u64, WordFault>
    ensures read { result ≡ number_of low high number word.now }
    ensures within { IfOk result (λ value. (low ≤ value) × (value ≤ high)) }
{
    match decimal_of(word) {
        None => Err(WordFault::at(QueryFault::BadNumber, number)),
        Some(value) => {
            if low <= value && value <= high {
                Ok(value)
            } else {
                Err(WordFault::at(QueryFault::OutOfRange, number))
            }
        }
    }
}

/// The number that the first word of the line writes, and what comes after it.
#[tactic(auto, unfolding(crate::specs::Reading::number_at))]
pub fn next_number(low: u64, high: u64, number: u32, line: &[u8]) -> Result<(u64, &[u8]), WordFault>
    ensures read { GivesRead (λ x. (x.0, words x.1.now)) result (number_at low high number (words line.now)) }
    ensures within { IfOk result (λ x. (low ≤ x.0) × (x.0 ≤ high)) }
{
    let (word, rest) = word_of(line, number)?;
    let value = number_in(low, high, number, word)?;
    Ok((value, rest))
}

/// The number of the category of that name.
#[tactic(auto, unfolding(crate::specs::Items::category_number))]
pub fn category_named(schema: &Schema, name: &[u8]) -> Option<usize>
    ensures number { result ≡ category_number schema.now.categories name.now }
    ensures below { IfSome result (λ k. k < length schema.now.categories) }
    ensures few { IfSome result (λ k. k < 4) }
{
    schema
        .categories
        .as_slice()
        .iter()
        .position(|category| category.name.as_str().as_bytes() == name)
}

/// The number of the category that the first word of the line names, and what comes after it.
#[tactic(auto, unfolding(crate::specs::Verbs::category_at))]
fn next_category<'a>(
    schema: &Schema,
    number: u32,
    line: &'a [u8],
) -> Result<(usize, &'a [u8]), WordFault>
    ensures read { GivesRead (λ x. (x.0, words x.1.now)) result (category_at schema.now.categories number (words line.now)) }
    ensures known { IfOk result (λ x. (x.0 < length schema.now.categories) × (x.0 < 4)) }
{
    let (name, rest) = word_of(line, number)?;
    match category_named(schema, name) {
        Some(k) => Ok((k, rest)),
        None => Err(WordFault::at(QueryFault::UnknownCategory, number)),
    }
}

#[tactic(auto, unfolding(crate::specs::Verbs::hist_at))]
fn hist_of<'a>(schema: &Schema, line: &'a [u8]) -> Result<(Verb, &'a [u8]), WordFault>
    ensures valid { IfOk result (λ x. (depth : ℕ) → IsTrue (verb_in_range depth (length schema.now.categories) x.0)) }
    ensures read { GivesRead (λ x. (x.0, words x.1.now)) result (hist_at schema.now.categories (words line.now)) }
{
    let (k, rest) = next_category(schema, 2, line)?;
    Ok((Verb::Hist(k as u8), rest))
}

#[tactic(auto, unfolding(crate::specs::Verbs::map_at))]
fn map_of(line: &[u8]) -> Result<(Verb, &[u8]), WordFault>
    ensures valid { IfOk result (λ x. (depth count : ℕ) → IsTrue (verb_in_range depth count x.0)) }
    ensures read { GivesRead (λ x. (x.0, words x.1.now)) result (map_at (words line.now)) }
{
    let (down, rest) = next_number(0, u64::from(DEEPEST_MAP), 2, line)?;
    Ok((Verb::Map(down as u8), rest))
}

#[tactic(auto, unfolding(crate::specs::Verbs::series_at))]
fn series_of(line: &[u8]) -> Result<(Verb, &[u8]), WordFault>
    ensures valid { IfOk result (λ x. (depth count : ℕ) → IsTrue (verb_in_range depth count x.0)) }
    ensures read { GivesRead (λ x. (x.0, words x.1.now)) result (series_at (words line.now)) }
{
    let (from, rest) = next_number(0, BINS - 1, 2, line)?;
    let (wide, rest) = next_number(1, BINS, 3, rest)?;
    let (rows, rest) = next_number(1, u64::from(MOST_ROWS), 4, rest)?;
    Ok((
        Verb::Series {
            from,
            wide,
            rows: rows as u32,
        },
        rest,
    ))
}

#[tactic(auto, unfolding(crate::specs::Verbs::window_at))]
fn window_of<'a>(depth: u8, line: &'a [u8]) -> Result<(Verb, &'a [u8]), WordFault>
    requires { depth ≤ 20 }
    ensures valid { IfOk result (λ x. (count : ℕ) → IsTrue (verb_in_range depth count x.0)) }
    ensures read { GivesRead (λ x. (x.0, words x.1.now)) result (window_at depth (words line.now)) }
{
    let side = 1u64 << depth;
    let (x0, rest) = next_number(0, side, 2, line)?;
    let (y0, rest) = next_number(0, side, 3, rest)?;
    let (x1, rest) = next_number(x0, side, 4, rest)?;
    let (y1, rest) = next_number(y0, side, 5, rest)?;
    let rect = Rect {
        x0: x0 as u32,
        y0: y0 as u32,
        x1: x1 as u32,
        y1: y1 as u32,
    };
    Ok((Verb::Window(rect), rest))
}

#[tactic(auto, unfolding(crate::specs::Verbs::cross_at))]
fn cross_of<'a>(schema: &Schema, line: &'a [u8]) -> Result<(Verb, &'a [u8]), WordFault>
    ensures valid { IfOk result (λ x. (depth : ℕ) → IsTrue (verb_in_range depth (length schema.now.categories) x.0)) }
    ensures read { GivesRead (λ x. (x.0, words x.1.now)) result (cross_at schema.now.categories (words line.now)) }
{
    let (first, rest) = next_category(schema, 2, line)?;
    let (second, rest) = next_category(schema, 3, rest)?;
    if first == second {
        Err(WordFault::at(QueryFault::SameCategory, 3))
    } else {
        Ok((Verb::Cross(first as u8, second as u8), rest))
    }
}

#[tactic(auto, unfolding(crate::specs::Verbs::best_at))]
fn best_of(line: &[u8]) -> Result<(Verb, &[u8]), WordFault>
    ensures valid { IfOk result (λ x. (depth count : ℕ) → IsTrue (verb_in_range depth count x.0)) }
    ensures read { GivesRead (λ x. (x.0, words x.1.now)) result (best_at (words line.now)) }
{
    let (down, rest) = next_number(0, u64::from(DEEPEST_MAP), 2, line)?;
    let (rows, rest) = next_number(1, u64::from(MOST_BEST_ROWS), 3, rest)?;
    Ok((
        Verb::Best {
            depth: down as u8,
            rows: rows as u32,
        },
        rest,
    ))
}

/// The verb that the first word names, with its further words at the front of the line, and what comes after them.
#[tactic(auto, unfolding(crate::specs::Verbs::verb_at))]
pub fn verb_of<'a>(
    schema: &Schema,
    word: &[u8],
    line: &'a [u8],
) -> Result<(Verb, &'a [u8]), WordFault>
    ensures valid { IfOk result (λ x. IsTrue (verb_in_range schema.now.depth (length schema.now.categories) x.0)) }
    ensures read { GivesRead (λ x. (x.0, words x.1.now)) result (verb_at schema.now.depth schema.now.categories (word.now ∷ words line.now)) }
{
    if is_text(word, "count") {
        Ok((Verb::Count, line))
    } else if is_text(word, "hist") {
        hist_of(schema, line)
    } else if is_text(word, "map") {
        map_of(line)
    } else if is_text(word, "series") {
        series_of(line)
    } else if is_text(word, "window") {
        window_of(schema.depth, line)
    } else if is_text(word, "cross") {
        cross_of(schema, line)
    } else if is_text(word, "best") {
        best_of(line)
    } else if is_text(word, "stat") {
        Ok((Verb::Stat, line))
    } else if is_text(word, "told") {
        Ok((Verb::Told, line))
    } else if is_text(word, "quit") {
        Ok((Verb::Quit, line))
    } else {
        Err(WordFault::at(QueryFault::UnknownVerb, 1))
    }
}
