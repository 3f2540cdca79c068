//! Lines of the journal, printed.
ghost use Rattle.std.specs.Prelude.{◌≡◌, ◌++◌, ◌∷◌, string_bytes, OnOk, IfOk};
ghost use Rattle.std.specs.Fmt.{decimal};
ghost use Rattle.std.specs.List.{flat_map};
ghost use Rattle.feed_queue.specs.Journal.{entry_text, told_weight};
ghost use Rattle.feed_queue.specs.NumberReading.{spaced_number};

use cube_view::{Point, Schema};
use std::alloc::{AllocError, Global};
use texts::{List, NoMemory};
use world_core::Entry;

/// Appends a space and the number.
fn push_number(alloc: Global, text: &mut String, number: u32) -> Result<(), AllocError>
    ensures { OnOk result (string_bytes text.new ≡ string_bytes text.old ++ spaced_number number) }
{
    let digits = number.to_string(alloc)?;
    text.push(' ')?;
    text.push_str(digits.as_str())
}

/// Appends these values, each with a space before it.
fn push_values(alloc: Global, text: &mut String, values: &[u8]) -> Result<(), AllocError>
    ensures { OnOk result (string_bytes text.new ≡ string_bytes text.old ++ flat_map spaced_number values.now) }
{
    for &value in values {
        push_number(alloc, text, u32::from(value))?;
    }
    Ok(())
}

/// Appends the weight, where the schema has a weight column.
fn push_weight(
    alloc: Global,
    text: &mut String,
    schema: &Schema,
    point: &Point,
) -> Result<(), AllocError>
    ensures { OnOk result (string_bytes text.new ≡ string_bytes text.old ++ flat_map spaced_number (told_weight schema.now.weight point.now)) }
{
    match schema.weight {
        Some(_) => push_number(alloc, text, point.weight),
        None => Ok(()),
    }
}

/// The line of the entry, as a string.
#[tactic(auto, using(cube_view::proofs::SchemaBounds::few_categories))]
fn line_of(alloc: Global, schema: &Schema, entry: &Entry) -> Result<String, AllocError>
    ensures { IfOk result (λ text. string_bytes text ≡ entry_text schema.now entry.now) }
{
    let spot = &entry.point.spot;
    let mut text = entry.feeder.to_string(alloc)?;
    push_number(alloc, &mut text, entry.number)?;
    push_number(alloc, &mut text, spot.x)?;
    push_number(alloc, &mut text, spot.y)?;
    push_values(alloc, &mut text, &spot.values[..schema.categories.len()])?;
    push_number(alloc, &mut text, spot.bin)?;
    push_weight(alloc, &mut text, schema, &entry.point)?;
    Ok(text)
}

/// The line of the entry in the journal, without its line feed.
pub fn print_entry(alloc: Global, schema: &Schema, entry: &Entry) -> Result<List<u8>, NoMemory>
    ensures { IfOk result (λ text. text ≡ entry_text schema.now entry.now) }
{
    let text = line_of(alloc, schema, entry)?;
    Ok(List::from_vec(text.into_bytes()))
}
