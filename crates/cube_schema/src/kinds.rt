//! The members of a plan's text, each read as its kind.
ghost use Rattle.std.specs.Prelude.{◌≡◌, Some, codes, IfOk, length, option_map, option_and_then};
ghost use Rattle.serde_json.specs.Find.{as_str, as_array, get};
ghost use Rattle.serde_json.specs.View.{view, items_view};
ghost use Rattle.cube_schema.specs.Versions.{as_whole_number};
ghost use Rattle.cube_schema.specs.Kinds.{texts, items_as, category_of, categories, member_as, weight_as, members_of};
ghost use Rattle.cube_schema.specs.Meaning.{ReadsAs};
ghost use Rattle.cube_schema.specs.Members.{names_of};

use crate::draft::Draft;
use crate::versions::is_weighted;
use crate::{Member, PlanFault};
use cube_view::Category;
use serde_json::Value;
use std::alloc::Global;
use texts::{List, NoMemory, Text};

// The texts of the items, or `None` where one of them is no text.
fn texts_of(alloc: Global, items: &[Value]) -> Result<Option<List<Text>>, NoMemory>
    ensures { IfOk result (λ found. found ≡ items_as as_str (items_view items.now)) }
{
    let mut texts = List::new(alloc);
    for item in items {
        let Some(text) = item.as_str() else {
            return Ok(None);
        };
        texts.add(Text::copy_of(alloc, text)?)?;
    }
    Ok(Some(texts))
}

// The texts of an array, or `None` where the value is no array of texts.
fn texts(alloc: Global, value: &Value) -> Result<Option<List<Text>>, NoMemory>
    ensures { IfOk result (λ found. found ≡ texts (view value.now)) }
{
    match value.as_array() {
        Some(items) => texts_of(alloc, items),
        None => Ok(None),
    }
}

// How many members the value has: none where it is no object.
fn member_count(value: &Value) -> usize
    ensures { result ≡ length (names_of (view value.now)) }
{
    match value.as_object() {
        Some(members) => members.len(),
        None => 0,
    }
}

// The category that the value is, or `None` where it is none.
fn category_of(alloc: Global, value: &Value) -> Result<Option<Category>, NoMemory>
    ensures { IfOk result (λ found. found ≡ category_of (view value.now)) }
{
    let Some(name) = value.get("name").and_then(Value::as_str) else {
        return Ok(None);
    };
    let Some(values) = value.get("values") else {
        return Ok(None);
    };
    let Some(values) = texts(alloc, values)? else {
        return Ok(None);
    };
    if member_count(value) != 2 {
        return Ok(None);
    }
    let name = Text::copy_of(alloc, name)?;
    Ok(Some(Category { name, values }))
}

// The categories that the items are, or `None` where one of them is none.
fn categories_of(alloc: Global, items: &[Value]) -> Result<Option<List<Category>>, NoMemory>
    ensures { IfOk result (λ found. found ≡ items_as category_of (items_view items.now)) }
{
    let mut categories = List::new(alloc);
    for item in items {
        let Some(category) = category_of(alloc, item)? else {
            return Ok(None);
        };
        categories.add(category)?;
    }
    Ok(Some(categories))
}

fn number_at(value: &Value, member: Member) -> Result<u64, PlanFault>
    ensures { result ≡ member_as as_whole_number (view value.now) member }
{
    match value.get(member.name()).and_then(Value::as_u64) {
        Some(number) => Ok(number),
        None => Err(PlanFault::BadKind(member)),
    }
}

fn text_at(alloc: Global, value: &Value, member: Member) -> Result<Text, PlanFault>
    ensures { ReadsAs (λ text. text) result (member_as as_str (view value.now) member) }
{
    match value.get(member.name()).and_then(Value::as_str) {
        Some(text) => Ok(Text::copy_of(alloc, text)?),
        None => Err(PlanFault::BadKind(member)),
    }
}

fn texts_at(alloc: Global, value: &Value, member: Member) -> Result<List<Text>, PlanFault>
    ensures { ReadsAs (λ texts. texts) result (member_as texts (view value.now) member) }
{
    let Some(value) = value.get(member.name()) else {
        return Err(PlanFault::BadKind(member));
    };
    match texts(alloc, value)? {
        Some(texts) => Ok(texts),
        None => Err(PlanFault::BadKind(member)),
    }
}

fn categories_at(alloc: Global, value: &Value, member: Member) -> Result<List<Category>, PlanFault>
    ensures { ReadsAs (λ categories. categories) result (member_as categories (view value.now) member) }
{
    let Some(items) = value.get(member.name()).and_then(Value::as_array) else {
        return Err(PlanFault::BadKind(member));
    };
    match categories_of(alloc, items)? {
        Some(categories) => Ok(categories),
        None => Err(PlanFault::BadKind(member)),
    }
}

// The name of the weight column, which a weighted plan has.
fn weight_at(alloc: Global, value: &Value) -> Result<Option<Text>, PlanFault>
    ensures { ReadsAs (λ weight. weight) result (weight_as (view value.now)) }
{
    if is_weighted(value) {
        Ok(Some(text_at(alloc, value, Member::Weight)?))
    } else {
        Ok(None)
    }
}

/// The members of a plan, each read as its kind.
#[tactic(auto, unfolding(crate::specs::Kinds::members_of))]
pub(crate) fn members_of(alloc: Global, value: &Value) -> Result<Draft, PlanFault>
    ensures { ReadsAs (λ draft. draft) result (members_of (view value.now)) }
{
    let asks = texts_at(alloc, value, Member::Asks)?;
    let batch = number_at(value, Member::Batch)?;
    let categories = categories_at(alloc, value, Member::Categories)?;
    let depth = number_at(value, Member::Depth)?;
    let feeds = texts_at(alloc, value, Member::Feeds)?;
    let finals = texts_at(alloc, value, Member::Finals)?;
    let journal = text_at(alloc, value, Member::Journal)?;
    let start = number_at(value, Member::Start)?;
    let version = number_at(value, Member::Version)?;
    let weight = weight_at(alloc, value)?;
    let width = number_at(value, Member::Width)?;
    Ok(Draft {
        asks,
        batch,
        categories,
        depth,
        feeds,
        finals,
        journal,
        start,
        version,
        weight,
        width,
    })
}
