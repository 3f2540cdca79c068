//! Queries printed as lines.
ghost use Rattle.std.specs.Prelude.{◌≡◌, ◌<◌, ◌≤◌, ◌++◌, ◌∷◌, [], length, codes, string_bytes, OnOk, IfOk, IsTrue};
ghost use Rattle.std.specs.Fmt.{decimal};
ghost use Rattle.std.specs.List.{list_any, join_with_byte};
ghost use Rattle.query_syntax.specs.Words.{bar};
ghost use Rattle.query_syntax.specs.Meaning.{meaning};
ghost use Rattle.query_syntax.specs.declared.query.Parsed.TheVariants.{Ask};
ghost use Rattle.query_syntax.specs.Queries.{is_valid_query, is_all_bins, verb_in_range};
ghost use Rattle.query_syntax.specs.Spelling.{spaced, value_text, value_texts, needs_quotes, value_listed, item_text, choice_texts, choices_texts, further_texts, verb_name, verb_texts, name_at, tile_text, region_texts, span_texts, query_text};

use crate::verb_words::BINS;
use crate::{Choice, Query, Rect, Span, ValueSet, Verb};
use cube_view::{Category, Schema, Tile};
use std::alloc::{AllocError, Global};
use texts::{List, NoMemory, Text};

/// Appends a space and the word.
fn push_word(text: &mut String, word: &str) -> Result<(), AllocError>
    ensures { OnOk result (string_bytes text.new ≡ string_bytes text.old ++ spaced (word.now ∷ [])) }
{
    text.push(' ')?;
    text.push_str(word)
}

/// Appends a space and the number.
fn push_number(alloc: Global, text: &mut String, n: u64) -> Result<(), AllocError>
    ensures { OnOk result (string_bytes text.new ≡ string_bytes text.old ++ spaced (decimal n ∷ [])) }
{
    let digits = n.to_string(alloc)?;
    push_word(text, digits.as_str())
}

/// The verb's name.
fn name_of_verb(verb: Verb) -> &'static str
    ensures { result.now ≡ verb_name verb }
{
    match verb {
        Verb::Count => "count",
        Verb::Hist(_) => "hist",
        Verb::Map(_) => "map",
        Verb::Series { .. } => "series",
        Verb::Window(_) => "window",
        Verb::Cross(_, _) => "cross",
        Verb::Best { .. } => "best",
        Verb::Stat => "stat",
        Verb::Told => "told",
        Verb::Quit => "quit",
    }
}

/// The name of the category of that number.
fn name_of_category(schema: &Schema, k: usize) -> &str
    requires { k < length schema.now.categories }
    ensures { result.now ≡ name_at schema.now.categories k }
{
    schema.categories.get(k).name.as_str()
}

/// Appends the further words of a series.
fn push_series(
    alloc: Global,
    text: &mut String,
    from: u64,
    wide: u64,
    rows: u32,
) -> Result<(), AllocError>
    ensures { OnOk result (string_bytes text.new ≡ string_bytes text.old ++ spaced (decimal from ∷ decimal wide ∷ decimal rows ∷ [])) }
{
    push_number(alloc, text, from)?;
    push_number(alloc, text, wide)?;
    push_number(alloc, text, u64::from(rows))
}

/// Appends the further words of a window.
fn push_window(alloc: Global, text: &mut String, rect: Rect) -> Result<(), AllocError>
    ensures { OnOk result (string_bytes text.new ≡ string_bytes text.old ++ spaced (decimal rect.x0 ∷ decimal rect.y0 ∷ decimal rect.x1 ∷ decimal rect.y1 ∷ [])) }
{
    push_number(alloc, text, u64::from(rect.x0))?;
    push_number(alloc, text, u64::from(rect.y0))?;
    push_number(alloc, text, u64::from(rect.x1))?;
    push_number(alloc, text, u64::from(rect.y1))
}

/// Appends the names of two categories.
fn push_categories(text: &mut String, schema: &Schema, k: usize, l: usize) -> Result<(), AllocError>
    requires first { k < length schema.now.categories }
    requires second { l < length schema.now.categories }
    ensures { OnOk result (string_bytes text.new ≡ string_bytes text.old ++ spaced (name_at schema.now.categories k ∷ name_at schema.now.categories l ∷ [])) }
{
    push_word(text, name_of_category(schema, k))?;
    push_word(text, name_of_category(schema, l))
}

/// Appends the further words of best tiles.
fn push_best(alloc: Global, text: &mut String, down: u8, rows: u32) -> Result<(), AllocError>
    ensures { OnOk result (string_bytes text.new ≡ string_bytes text.old ++ spaced (decimal down ∷ decimal rows ∷ [])) }
{
    push_number(alloc, text, u64::from(down))?;
    push_number(alloc, text, u64::from(rows))
}

/// Appends the further words of the verb.
fn push_verb(
    alloc: Global,
    text: &mut String,
    schema: &Schema,
    verb: Verb,
) -> Result<(), AllocError>
    requires { IsTrue (verb_in_range schema.now.depth (length schema.now.categories) verb) }
    ensures { OnOk result (string_bytes text.new ≡ string_bytes text.old ++ spaced (verb_texts schema.now.categories verb)) }
{
    match verb {
        Verb::Hist(k) => push_word(text, name_of_category(schema, usize::from(k))),
        Verb::Map(down) => push_number(alloc, text, u64::from(down)),
        Verb::Series { from, wide, rows } => push_series(alloc, text, from, wide, rows),
        Verb::Window(rect) => push_window(alloc, text, rect),
        Verb::Cross(k, l) => push_categories(text, schema, usize::from(k), usize::from(l)),
        Verb::Best { depth, rows } => push_best(alloc, text, depth, rows),
        Verb::Count | Verb::Stat | Verb::Told | Verb::Quit => Ok(()),
    }
}

/// The tile as a word.
fn word_of_tile(alloc: Global, tile: Tile) -> Result<String, AllocError>
    ensures { IfOk result (λ text. string_bytes text ≡ tile_text tile) }
{
    let z = tile.z;
    let x = tile.x;
    let y = tile.y;
    format!(in alloc; "{z}/{x}/{y}")
}

/// Appends the region, where it is not all of space.
fn push_region(alloc: Global, text: &mut String, region: Tile) -> Result<(), AllocError>
    ensures { OnOk result (string_bytes text.new ≡ string_bytes text.old ++ spaced (region_texts region)) }
{
    if region.z == 0 {
        return Ok(());
    }
    let word = word_of_tile(alloc, region)?;
    push_word(text, "in")?;
    push_word(text, word.as_str())
}

/// Whether the value has a space or a bar.
fn has_space_or_bar(value: &[u8]) -> bool
    ensures { result ≡ list_any needs_quotes value.now }
{
    value.iter().any(|b| *b == b' ' || *b == b'|')
}

/// Appends the value, in quotes exactly where it has a space or a bar.
fn push_value(text: &mut String, value: &str) -> Result<(), AllocError>
    ensures { OnOk result (string_bytes text.new ≡ string_bytes text.old ++ value_text value.now) }
{
    if has_space_or_bar(value.as_bytes()) {
        text.push('"')?;
        text.push_str(value)?;
        text.push('"')
    } else {
        text.push_str(value)
    }
}

/// Appends the value, after a bar where it is not the first that is listed.
fn push_listed(text: &mut String, is_first: bool, value: &str) -> Result<(), AllocError>
    ensures { OnOk result (string_bytes text.new ≡ string_bytes text.old ++ value_listed is_first value.now) }
{
    if !is_first {
        text.push('|')?;
    }
    push_value(text, value)
}

/// Appends the values of the set, in the category's order and with bars between them.
fn push_values(text: &mut String, values: &[Text], set: &ValueSet) -> Result<(), AllocError>
    requires { length values.now ≤ 256 }
    ensures { OnOk result (string_bytes text.new ≡ string_bytes text.old ++ join_with_byte bar (value_texts set.now values.now)) }
{
    let mut is_first = true;
    for v in 0..values.len() {
        if set.has(v as u8) {
            push_listed(text, is_first, values[v].as_str())?;
            is_first = false;
        }
    }
    Ok(())
}

/// The item of the category as a word.
fn word_of_item(alloc: Global, category: &Category, set: &ValueSet) -> Result<String, AllocError>
    requires { length category.now.values ≤ 256 }
    ensures { IfOk result (λ text. string_bytes text ≡ item_text category.now set.now) }
{
    let mut text = String::from_str(alloc, category.name.as_str())?;
    text.push('=')?;
    push_values(&mut text, category.values.as_slice(), set)?;
    Ok(text)
}

/// Appends the item of the category, if not all of its values count.
fn push_choice(
    alloc: Global,
    text: &mut String,
    category: &Category,
    choice: &Choice,
) -> Result<(), AllocError>
    requires { length category.now.values ≤ 256 }
    ensures { OnOk result (string_bytes text.new ≡ string_bytes text.old ++ spaced (choice_texts category.now choice.now)) }
{
    match choice {
        Choice::All => Ok(()),
        Choice::Only(set) => {
            let word = word_of_item(alloc, category, set)?;
            push_word(text, "with")?;
            push_word(text, word.as_str())
        }
    }
}

/// Appends the span, where it is not all bins.
fn push_span(alloc: Global, text: &mut String, span: Span) -> Result<(), AllocError>
    ensures { OnOk result (string_bytes text.new ≡ string_bytes text.old ++ spaced (span_texts span)) }
{
    if span.from == 0 && span.to == BINS {
        return Ok(());
    }
    push_word(text, "time")?;
    push_number(alloc, text, span.from)?;
    push_number(alloc, text, span.to)
}

/// Appends the items of the categories, in their order.
fn push_choices(
    alloc: Global,
    text: &mut String,
    schema: &Schema,
    choices: &[Choice; 4],
) -> Result<(), AllocError>
    ensures { OnOk result (string_bytes text.new ≡ string_bytes text.old ++ spaced (choices_texts schema.now.categories choices.now)) }
{
    for k in 0..schema.categories.len() {
        push_choice(alloc, text, schema.categories.get(k), &choices[k])?;
    }
    Ok(())
}

/// Appends the words after the first.
fn push_further(
    alloc: Global,
    text: &mut String,
    schema: &Schema,
    query: &Query,
) -> Result<(), AllocError>
    requires { IsTrue (is_valid_query schema.now query.now) }
    ensures { OnOk result (string_bytes text.new ≡ string_bytes text.old ++ spaced (further_texts schema.now query.now)) }
{
    push_verb(alloc, text, schema, query.verb)?;
    push_region(alloc, text, query.region)?;
    push_choices(alloc, text, schema, &query.sets)?;
    push_span(alloc, text, query.time)
}

/// The query as text.
fn text_of_query(alloc: Global, schema: &Schema, query: &Query) -> Result<String, AllocError>
    requires { IsTrue (is_valid_query schema.now query.now) }
    ensures text { IfOk result (λ text. string_bytes text ≡ query_text schema.now query.now) }
    ensures read_back { IfOk result (λ text. meaning schema.now (string_bytes text) ≡ Ask query.now) }
{
    let mut text = String::from_str(alloc, name_of_verb(query.verb))?;
    push_further(alloc, &mut text, schema, query)?;
    Ok(text)
}

/// The query as a line: its words, with one space between two. The line is read back as the query.
pub fn print(alloc: Global, schema: &Schema, query: &Query) -> Result<List<u8>, NoMemory>
    requires { IsTrue (is_valid_query schema.now query.now) }
    ensures text { IfOk result (λ text. text ≡ query_text schema.now query.now) }
    ensures read_back { IfOk result (λ text. meaning schema.now text ≡ Ask query.now) }
{
    let text = text_of_query(alloc, schema, query)?;
    Ok(List::from_vec(text.into_bytes()))
}
