//! Lines of the journal, read.
ghost use Rattle.std.specs.Prelude.{◌≡◌, ◌≤◌, ◌<◌, ◌+◌, ◌-◌, ◌^◌, ℕ, List, Option, Some, None, All, length, IfSome, IfNone, slice_index_or};
ghost use Rattle.feed_queue.specs.Journal.{entry_numbers, entry_text, valid_entry, EntryFits, IsEntryOf};
ghost use Rattle.feed_queue.specs.NumberReading.{after_digit, after_byte, line_numbers, four_of, entry_of_numbers, HasNumbersOf};
ghost use Rattle.world_core.specs.declared.entry.Entry.{Entry};

use arrayvec::ArrayVec;
use cube_view::{Point, Schema, Spot, is_valid};
use world_core::Entry;

/// The number that the byte makes of the one before it, if it is a digit that may follow.
fn digit_after(number: Option<u32>, byte: u8) -> Option<u32>
    ensures { result ≡ after_digit number byte }
{
    if !byte.is_ascii_digit() {
        return None;
    }
    let digit = u32::from(byte - b'0');
    match number {
        None => Some(digit),
        Some(0) => None,
        Some(n) => n.checked_mul(10)?.checked_add(digit),
    }
}

/// Takes the next byte: a space ends the number before it, a digit goes on it.
fn take_byte(numbers: &mut ArrayVec<u32, 10>, number: Option<u32>, byte: u8) -> Option<Option<u32>>
    ensures taken { IfSome result (λ next. after_byte numbers.old.items number byte ≡ Some (numbers.new.items, next)) }
    ensures refused { IfNone result ((more : List ℕ) (next : Option ℕ) → after_byte numbers.old.items number byte ≡ Some (more, next) → 10 < length more) }
{
    if byte == b' ' {
        numbers.try_push(number?).ok()?;
        return Some(None);
    }
    Some(Some(digit_after(number, byte)?))
}

/// The numbers of the line, if it is one of numbers, of which it has at most ten.
fn numbers_of(line: &[u8]) -> Option<ArrayVec<u32, 10>>
    ensures read { IfSome result (λ numbers. line_numbers line.now ≡ Some numbers.items) }
    ensures refused { IfNone result ((numbers : List ℕ) → line_numbers line.now ≡ Some numbers → 10 < length numbers) }
{
    let mut numbers = ArrayVec::new();
    let mut number = None;
    for &byte in line {
        number = take_byte(&mut numbers, number, byte)?;
    }
    numbers.try_push(number?).ok()?;
    Some(numbers)
}

/// The value in that place, or 0 past the last.
fn value_at(values: &[u32], i: usize) -> Option<u8>
    ensures some { IfSome result (λ value. value ≡ slice_index_or values.now i 0) }
    ensures none { IfNone result (256 ≤ slice_index_or values.now i 0) }
{
    if i < values.len() {
        u8::try_from(values[i]).ok()
    } else {
        Some(0)
    }
}

/// Four values, of which those past the last are 0.
fn values_of(values: &[u32]) -> Option<[u8; 4]>
    ensures some { IfSome result (λ four. four ≡ four_of values.now) }
    ensures none { IfNone result (All (λ n. n < 256) (four_of values.now) → ⊥) }
{
    let first = value_at(values, 0)?;
    let second = value_at(values, 1)?;
    let third = value_at(values, 2)?;
    let fourth = value_at(values, 3)?;
    Some([first, second, third, fourth])
}

/// The entry that has these numbers, if there are as many as the schema asks for.
fn entry_with(schema: &Schema, numbers: &[u32]) -> Option<Entry>
    ensures some { IfSome result (λ e. HasNumbersOf schema.now numbers.now e) }
    ensures fits { IfSome result EntryFits }
    ensures none { IfNone result ((e : Entry) → IsEntryOf schema.now e → entry_numbers schema.now e ≡ numbers.now → ⊥) }
{
    let categories = schema.categories.len();
    let is_weighed = schema.weight.is_some();
    if numbers.len() != 5 + categories + usize::from(is_weighed) {
        return None;
    }
    let feeder = u8::try_from(numbers[0]).ok()?;
    let values = values_of(&numbers[4..4 + categories])?;
    let spot = Spot {
        x: numbers[2],
        y: numbers[3],
        values,
        bin: numbers[4 + categories],
    };
    let weight = if is_weighed {
        numbers[5 + categories]
    } else {
        1
    };
    Some(Entry {
        feeder,
        number: numbers[1],
        point: Point { spot, weight },
    })
}

/// Whether the entry is of feeder 1 to 8 and has a point of the schema.
fn is_valid_entry(schema: &Schema, entry: &Entry) -> bool
    ensures { result ≡ valid_entry schema.now entry.now }
{
    1 <= entry.feeder && entry.feeder <= 8 && is_valid(schema, &entry.point)
}

/// The entry whose line, without its line feed, these bytes are: `None` exactly where they are that of no valid entry.
/// It takes no memory.
pub fn read_entry(schema: &Schema, line: &[u8]) -> Option<Entry>
    ensures read { (e : Entry) → IsEntryOf schema.now e → line.now ≡ entry_text schema.now e → result ≡ Some e }
    ensures only { IfSome result (λ e. IsEntryOf schema.now e × (line.now ≡ entry_text schema.now e)) }
{
    let numbers = numbers_of(line)?;
    let entry = entry_with(schema, numbers.as_slice())?;
    if is_valid_entry(schema, &entry) {
        Some(entry)
    } else {
        None
    }
}
