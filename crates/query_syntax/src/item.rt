//! Items: a category and its values that count.
ghost use Rattle.std.specs.Prelude.{◌≡◌, ◌≢◌, ◌⊎◌, ℕ, List, ◌≤◌, ◌<◌, ◌&&◌, ◌==◌, ◌%◌, false, not, length, position, count_by, filter, slice_set, slice_index_or, option_map, IfOk, IfSome, IsTrue};
ghost use Rattle.std.specs.List.{list_all};
ghost use Rattle.std.specs.Str.{bytes_eq};
ghost use Rattle.query_syntax.specs.Items.{is_quote, is_equals_sign, item_parts, has_even_quotes, are_well_quoted, is_well_quoted, bare, in_quotes, no_values, value_number, set_of, choice_of, values_at, has_item, IsSetOf, item_at};
ghost use Rattle.query_syntax.specs.Queries.{is_choice};
ghost use Rattle.query_syntax.specs.Words.{cut_pieces, bar};

use crate::fault::{QueryFault, WordFault};
use crate::filters_read::FiltersRead;
use crate::verb_words::category_named;
use crate::words::next_piece;
use crate::{Choice, ValueSet};
use cube_view::Schema;
use texts::Text;

/// The text between two quotes, or else the piece itself.
fn without_quotes(piece: &[u8]) -> &[u8]
    ensures { (piece.now ≡ in_quotes result.now) ⊎ ((result.now ≡ piece.now) × ((text : List ℕ) → piece.now ≢ in_quotes text)) }
{
    match piece {
        [b'"', text @ .., b'"'] => text,
        _ => piece,
    }
}

/// Whether no byte is a quote.
fn has_no_quote(text: &[u8]) -> bool
    ensures { result ≡ list_all (λ b. not (is_quote b)) text.now }
{
    text.iter().all(|b| *b != b'"')
}

/// Whether the piece has no quote, or is a text without quotes between two.
fn is_piece_well_quoted(piece: &[u8]) -> bool
    ensures { result ≡ is_well_quoted piece.now }
{
    has_no_quote(without_quotes(piece))
}

/// The piece without its quotes.
fn bare_text(piece: &[u8]) -> &[u8]
    requires { IsTrue (is_well_quoted piece.now) }
    ensures { result.now ≡ bare piece.now }
{
    without_quotes(piece)
}

/// Whether the number of quotes is even.
#[tactic(auto, unfolding(crate::specs::Items::has_even_quotes))]
fn is_quote_count_even(item: &[u8]) -> bool
    ensures { result ≡ has_even_quotes item.now }
{
    item.iter().filter(|b| **b == b'"').count() % 2 == 0
}

/// Whether each piece between bars is well quoted. A text without quotes is not cut for that.
#[tactic(auto, unfolding(crate::specs::Items::are_well_quoted))]
fn is_text_well_quoted(text: &[u8]) -> bool
    ensures { result ≡ are_well_quoted text.now }
{
    if has_no_quote(text) {
        return true;
    }
    let mut rest = text;
    loop {
        let (piece, after) = next_piece(rest, b'|');
        if !is_piece_well_quoted(piece) {
            return false;
        }
        match after {
            Some(after) => rest = after,
            None => return true,
        }
    }
}

/// The number of the value that the piece writes, if it writes one.
#[tactic(auto, unfolding(crate::specs::Items::value_number))]
fn value_named(values: &[Text], piece: &[u8]) -> Option<usize>
    requires { IsTrue (is_well_quoted piece.now) }
    ensures number { result ≡ value_number values.now piece.now }
    ensures below { IfSome result (λ v. v < length values.now) }
{
    let text = bare_text(piece);
    values
        .iter()
        .position(|value| value.as_str().as_bytes() == text)
}

/// The set of the values that the pieces between bars write, if each writes one.
#[tactic(auto, using(crate::proofs::Sets::set_with), unfolding(crate::specs::Items::set_of, crate::specs::Items::are_well_quoted))]
fn values_in(values: &[Text], text: &[u8]) -> Option<ValueSet>
    requires few { length values.now ≤ 256 }
    requires quoted { IsTrue (are_well_quoted text.now) }
    ensures read { result ≡ set_of values.now text.now }
    ensures valid { IfSome result (IsSetOf (length values.now)) }
{
    let mut set = ValueSet::none();
    let mut rest = text;
    loop {
        let (piece, after) = next_piece(rest, b'|');
        let value = value_named(values, piece)?;
        set.insert(value as u8);
        match after {
            Some(after) => rest = after,
            None => return Some(set),
        }
    }
}

/// The place of the first equals sign.
fn equals_sign_at(item: &[u8]) -> Option<usize>
    ensures { result ≡ position is_equals_sign item.now }
{
    item.iter().position(|b| *b == b'=')
}

/// What stands before the first equals sign and what stands after it, if there is one.
#[tactic(auto, unfolding(crate::specs::Items::item_parts))]
fn parts_of(item: &[u8]) -> Option<(&[u8], &[u8])>
    ensures { option_map (λ parts. (parts.0.now, parts.1.now)) result ≡ item_parts item.now }
{
    let at = equals_sign_at(item)?;
    Some((&item[..at], &item[at + 1..]))
}

/// The set as a choice among so many values.
#[tactic(auto, using(crate::proofs::Sets::choice_fits))]
fn choice_among(set: ValueSet, count: usize) -> Choice
    requires few { count ≤ 256 }
    requires valid { IsSetOf count set }
    ensures value { result ≡ choice_of count set }
    ensures valid { IsTrue (is_choice count result) }
{
    if set.has_all_under(count) {
        Choice::All
    } else {
        Choice::Only(set)
    }
}

/// The values of the category of that number.
pub fn values_of(schema: &Schema, k: usize) -> &[Text]
    requires { k < length schema.now.categories }
    ensures values { result.now ≡ values_at schema.now.categories k }
    ensures few { length result.now ≤ 256 }
{
    schema.categories.get(k).values.as_slice()
}

/// The category of the item, which is the word of that number, and its values that count. A category has
/// one item at most.
#[tactic(auto, unfolding(crate::specs::Items::item_at))]
pub fn item_of(
    schema: &Schema,
    filters: &FiltersRead,
    number: u32,
    item: &[u8],
) -> Result<(usize, Choice), WordFault>
    ensures read { result ≡ item_at schema.now.categories filters.now.sets number item.now }
    ensures below { IfOk result (λ found. (found.0 < 4) × (found.0 < length filters.now.sets)) }
    ensures known { IfOk result (λ found. found.0 < length schema.now.categories) }
    ensures valid { IfOk result (λ found. IsTrue (is_choice (length (values_at schema.now.categories found.0)) found.1)) }
    ensures fresh { IfOk result (λ found. has_item filters.now.sets found.0 ≡ false) }
{
    if !is_quote_count_even(item) {
        return Err(WordFault::at(QueryFault::BadQuote, number));
    }
    let Some((name, text)) = parts_of(item) else {
        return Err(WordFault::at(QueryFault::UnknownCategory, number));
    };
    if !is_text_well_quoted(text) {
        return Err(WordFault::at(QueryFault::BadQuote, number));
    }
    let Some(k) = category_named(schema, name) else {
        return Err(WordFault::at(QueryFault::UnknownCategory, number));
    };
    if filters.has_item(k) {
        return Err(WordFault::at(QueryFault::RepeatedFilter, number));
    }
    let values = values_of(schema, k);
    let Some(set) = values_in(values, text) else {
        return Err(WordFault::at(QueryFault::UnknownValue, number));
    };
    Ok((k, choice_among(set, values.len())))
}
