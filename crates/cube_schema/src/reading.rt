//! The bytes of a plan, read.
ghost use Rattle.std.specs.Prelude.{◌≡◌, ◌≢◌, Ok, Err, None, IfOk, IfErr};
ghost use Rattle.serde_json.specs.View.{view};
ghost use Rattle.cube_schema.specs.declared.plan.Plan.{Plan};
ghost use Rattle.cube_schema.specs.Drafts.{draft_of};
ghost use Rattle.cube_schema.specs.Files.{NamesFiles};
ghost use Rattle.cube_schema.specs.Kinds.{found_or};
ghost use Rattle.cube_schema.specs.Meaning.{ReadsAs, json_value, object_meaning, value_meaning, tested, plan_meaning, IsPrintable};
ghost use Rattle.cube_schema.specs.Ranges.{first_out_of_range};
ghost use Rattle.cube_schema.specs.Repeats.{first_repeated};

use crate::draft::Draft;
use crate::kinds::members_of;
use crate::names::{first_missing, least_unknown};
use crate::ranges::first_out_of_range;
use crate::repeats::first_repeated;
use crate::{Plan, PlanFault};
use cube_view::Schema;
use serde_json::Value;
use std::alloc::Global;
use texts::Text;

const LONGEST_PLAN: usize = 1_048_576;

#[tactic(auto, unfolding(crate::specs::Meaning::json_value))]
fn json_value(alloc: Global, bytes: &[u8]) -> Result<Value, PlanFault>
    ensures { ReadsAs view result (found_or PlanFault.NotJson (json_value bytes.now)) }
{
    match Value::from_slice(alloc, bytes) {
        Ok(value) => Ok(value),
        Err(error) if error.is_memory() => Err(PlanFault::NoMemory),
        Err(_) => Err(PlanFault::NotJson),
    }
}

// The draft, if it is within its ranges and no text is repeated in it.
fn tested(alloc: Global, draft: Draft) -> Result<Draft, PlanFault>
    ensures { ReadsAs (λ draft. draft) result (tested draft) }
{
    if let Some(member) = first_out_of_range(&draft) {
        return Err(PlanFault::OutOfRange(member));
    }
    match first_repeated(alloc, &draft)? {
        Some(text) => Err(PlanFault::Repeated(text)),
        None => Ok(draft),
    }
}

fn object_meaning(alloc: Global, value: &Value) -> Result<Draft, PlanFault>
    ensures { ReadsAs (λ draft. draft) result (object_meaning (view value.now)) }
{
    if let Some(member) = first_missing(value) {
        return Err(PlanFault::Missing(member));
    }
    if let Some(name) = least_unknown(value) {
        return Err(PlanFault::Unknown(Text::copy_of(alloc, name)?));
    }
    let draft = members_of(alloc, value)?;
    tested(alloc, draft)
}

#[tactic(auto, unfolding(crate::specs::Meaning::value_meaning))]
fn value_meaning(alloc: Global, value: &Value) -> Result<Draft, PlanFault>
    ensures { ReadsAs (λ draft. draft) result (value_meaning (view value.now)) }
{
    if value.is_object() {
        object_meaning(alloc, value)
    } else {
        Err(PlanFault::NotObject)
    }
}

// The plan of a draft that passed the tests.
fn plan_of(draft: Draft) -> Plan
    requires in_range { first_out_of_range draft ≡ None }
    requires distinct { first_repeated draft ≡ None }
    ensures { draft_of result ≡ draft }
{
    let Draft {
        asks,
        batch,
        categories,
        depth,
        feeds,
        finals,
        journal,
        start,
        version: _,
        weight,
        width,
    } = draft;
    Plan {
        schema: Schema::new(depth as u8, categories, start, width, batch as u32, weight),
        feeds,
        journal,
        asks,
        finals,
    }
}

#[tactic(auto, unfolding(crate::specs::Meaning::plan_meaning))]
fn plan_meaning(alloc: Global, bytes: &[u8]) -> Result<Draft, PlanFault>
    ensures { ReadsAs (λ draft. draft) result (plan_meaning bytes.now) }
{
    if bytes.len() > LONGEST_PLAN {
        return Err(PlanFault::TooLong);
    }
    let value = json_value(alloc, bytes)?;
    value_meaning(alloc, &value)
}

/// The plan that the bytes are, or the first fault. What is read can be printed, and names 1 to 8 feeds, at most 8 asks
/// and 8 finals, and no file twice, the outputs of its scripts included.
pub fn read_plan(alloc: Global, bytes: &[u8]) -> Result<Plan, PlanFault>
    ensures read { IfOk result (λ plan. plan_meaning bytes.now ≡ Ok (draft_of plan)) }
    ensures only { IfOk result (λ plan. (other : Plan) → plan_meaning bytes.now ≡ Ok (draft_of other) → plan ≡ other) }
    ensures refused { IfErr result (λ fault. fault ≢ PlanFault.NoMemory → plan_meaning bytes.now ≡ Err fault) }
    ensures printable { IfOk result IsPrintable }
    ensures files { IfOk result NamesFiles }
{
    let draft = plan_meaning(alloc, bytes)?;
    Ok(plan_of(draft))
}
