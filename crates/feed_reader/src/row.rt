//! What a line after the header is.
ghost use Rattle.std.specs.Prelude.{IfSome, ◌≡◌, ◌<◌, ◌≤◌, ◌-◌, ◌/◌, ◌^◌, Some, None, is_some, IsTrue, nat_le, nat_lt, not, map, length, get_or, option_map, [], ◌∷◌, false, true};
ghost use Rattle.cube_view.specs.Limits.{has_text, category_in_range, categories_in_range};
ghost use Rattle.feed_reader.specs.Columns.{needed_count, weight_item, category_items};
ghost use Rattle.texts.specs.Decimals.{is_decimal};
ghost use Rattle.cube_view.specs.Validity.{is_weight};
ghost use Rattle.feed_reader.specs.Headers.{place_in};
ghost use Rattle.feed_reader.specs.Rows.{AnswersUnless, fault_if, number, unknown_value, values_of, is_weight_unread, weight_in, MeansParts, is_short, text_at, texts_at, row_of_record, IsValidRow};

use crate::Column;
use crate::fields::Fields;
use cube_view::{Category, Point, Schema, Spot, is_same_text};
use texts::{List, decimal_of};

/// Why a line is no point. A category goes by its number, from 0.
#[derive(Clone, Copy, PartialEq, Eq, Debug)]
pub enum RowFault {
    BadRow,
    ShortRow,
    BadNumber(Column),
    BadTile(Column),
    UnknownValue(u8),
    EarlyTime,
    LateTime,
    LongLine,
    BadWeight,
}

/// A line after the header: one without bytes, a point, or one that is refused.
#[derive(Clone, Copy, PartialEq, Eq, Debug)]
pub enum Row {
    Blank,
    Point(Point),
    Refused(RowFault),
}

// The number in a column's field.
#[tactic(auto, unfolding(texts::specs::Decimals::decimal_value))]
fn number(field: &[u8], column: Column) -> Result<u64, RowFault>
    ensures { AnswersUnless (fault_if (not (is_decimal field.now)) (RowFault.BadNumber column)) (number field.now) result }
{
    match decimal_of(field) {
        Some(number) => Ok(number),
        None => Err(RowFault::BadNumber(column)),
    }
}

// What a record weighs: the number in the field at the place, if there is a place, else 1.
fn weight_number(fields: &Fields<'_>, place: Option<usize>) -> Result<u64, RowFault>
    requires { IfSome place (λ place. place < length fields.now) }
    ensures { let text = text_at fields.now place in
        AnswersUnless (fault_if (is_weight_unread text) (RowFault.BadNumber Column.Weight)) (weight_in text) result }
{
    match place {
        Some(place) => number(fields.field(place), Column::Weight),
        None => Ok(1),
    }
}

// The number, where it is that of a tile of the finest level.
fn tile(number: u64, depth: u8, column: Column) -> Result<u32, RowFault>
    requires { depth ≤ 20 }
    ensures { AnswersUnless (fault_if (nat_le (2 ^ depth) number) (RowFault.BadTile column)) number result }
{
    if number < 2u64.pow(u32::from(depth)) {
        Ok(number as u32)
    } else {
        Err(RowFault::BadTile(column))
    }
}

// The number of a value of the category, from 0.
fn value(category: &Category, field: &[u8]) -> Option<u8>
    requires { IsTrue (category_in_range category.now) }
    ensures known { IfSome result (λ n. n ≡ place_in category.now.values field.now) }
    ensures unknown { has_text category.now.values field.now ≡ is_some result }
{
    for (n, text) in category.values.as_slice().iter().enumerate() {
        if is_same_text(field, text.as_str().as_bytes()) {
            return Some(n as u8);
        }
    }
    None
}

// The values of the categories, whose fields stand at the places.
fn values(
    categories: &List<Category>,
    places: &[usize],
    fields: &Fields<'_>,
) -> Result<[u8; 4], RowFault>
    requires in_range { IsTrue (categories_in_range categories.now) }
    requires each { length places.now ≡ length categories.now }
    requires within { is_short places.now fields.now ≡ false }
    ensures { AnswersUnless (unknown_value categories.now (texts_at fields.now places.now)) (values_of categories.now (texts_at fields.now places.now)) result }
{
    let mut values = [0; 4];
    for (k, place) in places.iter().enumerate() {
        match value(categories.get(k), fields.field(*place)) {
            Some(n) => values[k] = n,
            None => return Err(RowFault::UnknownValue(k as u8)),
        }
    }
    Ok(values)
}

// How long after the start a time is.
fn since_start(schema: &Schema, time: u64) -> Result<u64, RowFault>
    ensures { AnswersUnless (fault_if (nat_lt time schema.now.start) RowFault.EarlyTime) (time - schema.now.start) result }
{
    match time.checked_sub(schema.start) {
        Some(since) => Ok(since),
        None => Err(RowFault::EarlyTime),
    }
}

// The bin of a time so long after the start.
fn bin(schema: &Schema, since: u64) -> Result<u32, RowFault>
    ensures { AnswersUnless (fault_if (nat_le (2 ^ 32) (since / schema.now.width)) RowFault.LateTime) (since / schema.now.width) result }
{
    match u32::try_from(since / schema.width) {
        Ok(bin) => Ok(bin),
        Err(_) => Err(RowFault::LateTime),
    }
}

// The number, where it is a weight of a point.
fn weight(number: u64) -> Result<u32, RowFault>
    ensures { AnswersUnless (fault_if (not (is_weight number)) RowFault.BadWeight) number result }
{
    if number > 0 && number < 1 << 28 {
        Ok(number as u32)
    } else {
        Err(RowFault::BadWeight)
    }
}

// The point of a record, or its first fault. The fields of its categories stand at the places.
fn point(
    schema: &Schema,
    fields: &Fields<'_>,
    x: &[u8],
    y: &[u8],
    time: &[u8],
    weight_place: Option<usize>,
    places: &[usize],
) -> Result<Point, RowFault>
    requires each { length places.now ≡ length schema.now.categories }
    requires within { is_short places.now fields.now ≡ false }
    requires weight { IfSome weight_place (λ place. place < length fields.now) }
    ensures { MeansParts schema.now x.now y.now time.now (text_at fields.now weight_place) (texts_at fields.now places.now) result }
{
    let x = number(x, Column::X)?;
    let y = number(y, Column::Y)?;
    let time = number(time, Column::Time)?;
    let number = weight_number(fields, weight_place)?;
    let x = tile(x, schema.depth, Column::X)?;
    let y = tile(y, schema.depth, Column::Y)?;
    let values = values(&schema.categories, places, fields)?;
    let bin = bin(schema, since_start(schema, time)?)?;
    let weight = weight(number)?;
    let spot = Spot { x, y, values, bin };
    Ok(Point { spot, weight })
}

// The place of the weight's column, where the schema has one, and those of the categories, of the places after time.
fn further_places<'a>(schema: &Schema, places: &'a [usize]) -> (Option<usize>, &'a [usize])
    ensures weight { result.0 ≡ weight_item schema.now.weight places.now }
    ensures categories { result.1.now ≡ category_items schema.now.weight places.now }
{
    match (&schema.weight, places) {
        (Some(_), [weight, categories @ ..]) => (Some(*weight), categories),
        (Some(_), []) => (None, places),
        (None, _) => (None, places),
    }
}

/// What a record is whose needed columns stand at the places.
pub(crate) fn row_of_record(schema: &Schema, places: &[usize], fields: &Fields<'_>) -> Row
    requires { length places.now ≡ needed_count schema.now }
    ensures { result ≡ row_of_record schema.now places.now (Some fields.now) }
{
    if fields.is_short(places) {
        return Row::Refused(RowFault::ShortRow);
    }
    match places {
        [x, y, time, further @ ..] => {
            let x = fields.field(*x);
            let y = fields.field(*y);
            let time = fields.field(*time);
            let (weight, categories) = further_places(schema, further);
            match point(schema, fields, x, y, time, weight, categories) {
                Ok(point) => Row::Point(point),
                Err(fault) => Row::Refused(fault),
            }
        }
        _ => unreachable!(),
    }
}
