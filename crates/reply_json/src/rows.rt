//! Rows taken out of JSON values.
ghost use Rattle.std.specs.Prelude.{◌≡◌, ◌^◌, IfOk, option_and_then};
ghost use Rattle.serde_json.specs.Find.{as_array};
ghost use Rattle.serde_json.specs.View.{view, items_view};
ghost use Rattle.reply_json.specs.Reading.{number_in, number_under, area_of, pair_of, value_or_bin, row_in, rows_in};

use cube_view::Tile;
use query_syntax::RowOut;
use serde_json::Value;
use std::alloc::Global;
use texts::{List, NoMemory, Text};

// The number at a place of an array.
fn number_in(value: &Value, place: usize) -> Option<u64>
    ensures { result ≡ number_in (view value.now) place }
{
    value.get(place).and_then(Value::as_u64)
}

/// The number, if it is one of 8 bits.
pub(crate) fn u8_of(number: u64) -> Option<u8>
    ensures { result ≡ number_under (2 ^ 8) number }
{
    if number < 1 << 8 {
        Some(number as u8)
    } else {
        None
    }
}

/// The number, if it is one of 32 bits.
pub(crate) fn u32_of(number: u64) -> Option<u32>
    ensures { result ≡ number_under (2 ^ 32) number }
{
    if number < 1 << 32 {
        Some(number as u32)
    } else {
        None
    }
}

fn area_of(value: &Value, total: u64) -> Option<RowOut>
    ensures { result ≡ area_of (view value.now) total }
{
    let z = u8_of(number_in(value, 0)?)?;
    let x = u32_of(number_in(value, 1)?)?;
    let y = u32_of(number_in(value, 2)?)?;
    Some(RowOut::Area(Tile { z, x, y }, total))
}

fn pair_of(alloc: Global, value: &Value, total: u64) -> Result<Option<RowOut>, NoMemory>
    ensures { IfOk result (λ found. found ≡ pair_of (view value.now) total) }
{
    let Some(first) = value.get(0usize).and_then(Value::as_str) else {
        return Ok(None);
    };
    let Some(second) = value.get(1usize).and_then(Value::as_str) else {
        return Ok(None);
    };
    let first = Text::copy_of(alloc, first)?;
    let second = Text::copy_of(alloc, second)?;
    Ok(Some(RowOut::Pair(first, second, total)))
}

fn value_or_bin(alloc: Global, value: &Value, total: u64) -> Result<Option<RowOut>, NoMemory>
    ensures { IfOk result (λ found. found ≡ value_or_bin (view value.now) total) }
{
    if let Some(text) = value.get(0usize).and_then(Value::as_str) {
        return Ok(Some(RowOut::Value(Text::copy_of(alloc, text)?, total)));
    }
    match number_in(value, 0) {
        Some(start) => Ok(Some(RowOut::Bin(start, total))),
        None => Ok(None),
    }
}

fn row_in(alloc: Global, value: &Value) -> Result<Option<RowOut>, NoMemory>
    ensures { IfOk result (λ found. found ≡ row_in (view value.now)) }
{
    if let Some(total) = number_in(value, 3) {
        return Ok(area_of(value, total));
    }
    if let Some(total) = number_in(value, 2) {
        return pair_of(alloc, value, total);
    }
    if let Some(total) = number_in(value, 1) {
        return value_or_bin(alloc, value, total);
    }
    match number_in(value, 0) {
        Some(total) => Ok(Some(RowOut::One(total))),
        None => Ok(None),
    }
}

fn rows_of_items(alloc: Global, items: &[Value]) -> Result<Option<List<RowOut>>, NoMemory>
    ensures { IfOk result (λ found. found ≡ rows_in (items_view items.now)) }
{
    let mut rows = List::new(alloc);
    for item in items {
        let Some(row) = row_in(alloc, item)? else {
            return Ok(None);
        };
        rows.add(row)?;
    }
    Ok(Some(rows))
}

/// The rows of an array, or `None` where the value is no array of rows.
pub(crate) fn rows_in(alloc: Global, value: &Value) -> Result<Option<List<RowOut>>, NoMemory>
    ensures { IfOk result (λ found. found ≡ option_and_then rows_in (as_array (view value.now))) }
{
    match value.as_array() {
        Some(items) => rows_of_items(alloc, items),
        None => Ok(None),
    }
}
