//! A plan as text.
ghost use Rattle.std.specs.Prelude.{◌≡◌, ◌<◌, ◌^◌, Ok, None, IfOk, OnOk, codes};
ghost use Rattle.serde_json.specs.Data.{Data, Members, object, string, put};
ghost use Rattle.serde_json.specs.View.{view};
ghost use Rattle.cube_schema.specs.Drafts.{draft_of};
ghost use Rattle.cube_schema.specs.Meaning.{plan_meaning, IsPrintable};
ghost use Rattle.cube_schema.specs.Printed.{texts_value, category_value, categories_value, draft_value, plan_text};

use crate::Plan;
use crate::versions::version_of;
use cube_view::Category;
use serde_json::{Value, json};
use std::alloc::{AllocError, Global};
use texts::{List, NoMemory, Text};

fn texts_value(alloc: Global, texts: &[Text]) -> Result<Value, AllocError>
    ensures { IfOk result (λ value. view value ≡ texts_value texts.now) }
{
    let mut items = Vec::new(alloc);
    for text in texts {
        items.push(Value::try_from_str(alloc, text.as_str())?)?;
    }
    Ok(Value::Array(items))
}

fn category_value(alloc: Global, category: &Category) -> Result<Value, AllocError>
    ensures { IfOk result (λ value. view value ≡ category_value category.now) }
{
    let values = texts_value(alloc, category.values.as_slice())?;
    json!(in alloc; {"name": category.name.as_str(), "values": values})
}

fn categories_value(alloc: Global, categories: &[Category]) -> Result<Value, AllocError>
    ensures { IfOk result (λ value. view value ≡ categories_value categories.now) }
{
    let mut items = Vec::new(alloc);
    for category in categories {
        items.push(category_value(alloc, category)?)?;
    }
    Ok(Value::Array(items))
}

// The object with the name of the weight column among its members.
fn with_weight_member(alloc: Global, value: Value, name: &str) -> Result<Value, AllocError>
    ensures { IfOk result (λ made. (ms : Members) → view value ≡ object ms → view made ≡ object (put (codes "weight") (string name.now) ms)) }
{
    match value {
        Value::Object(mut members) => {
            let text = Value::try_from_str(alloc, name)?;
            let key = String::from_str(alloc, "weight")?;
            members.insert(key, text)?;
            Ok(Value::Object(members))
        }
        other => Ok(other),
    }
}

// The object of the plan's members but for the weight column.
#[tactic(auto, unfolding(crate::specs::Printed::draft_value))]
fn unweighted_value(alloc: Global, plan: &Plan) -> Result<Value, AllocError>
    ensures value { IfOk result (λ value. view value ≡ draft_value (record (draft_of plan.now) { weight = None })) }
    ensures small { OnOk result ((plan.now.schema.start < 2 ^ 64) × (plan.now.schema.width < 2 ^ 64)) }
{
    let asks = texts_value(alloc, plan.asks.as_slice())?;
    let categories = categories_value(alloc, plan.schema.categories.as_slice())?;
    let feeds = texts_value(alloc, plan.feeds.as_slice())?;
    let finals = texts_value(alloc, plan.finals.as_slice())?;
    json!(in alloc; {
        "asks": asks,
        "batch": plan.schema.batch,
        "categories": categories,
        "depth": plan.schema.depth,
        "feeds": feeds,
        "finals": finals,
        "journal": plan.journal.as_str(),
        "start": plan.schema.start,
        "version": version_of(&plan.schema.weight),
        "width": plan.schema.width
    })
}

fn plan_value(alloc: Global, plan: &Plan) -> Result<Value, AllocError>
    ensures value { IfOk result (λ value. view value ≡ draft_value (draft_of plan.now)) }
    ensures small { OnOk result ((plan.now.schema.start < 2 ^ 64) × (plan.now.schema.width < 2 ^ 64)) }
{
    let value = unweighted_value(alloc, plan)?;
    match &plan.schema.weight {
        Some(name) => with_weight_member(alloc, value, name.as_str()),
        None => Ok(value),
    }
}

/// The text of a plan, as [`crate::read_plan`] reads it.
pub fn print_plan(alloc: Global, plan: &Plan) -> Result<List<u8>, NoMemory>
    requires { IsPrintable plan.now }
    ensures text { IfOk result (λ bytes. bytes ≡ plan_text plan.now) }
    ensures read_back { IfOk result (λ bytes. plan_meaning bytes ≡ Ok (draft_of plan.now)) }
{
    let value = plan_value(alloc, plan)?;
    let bytes = value.to_vec(alloc)?;
    Ok(List::from_vec(bytes))
}
