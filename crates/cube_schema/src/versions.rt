//! The two versions of a plan: one of version 2 names the column of the weights.
ghost use Rattle.std.specs.Prelude.{◌≡◌};
ghost use Rattle.serde_json.specs.View.{view};
ghost use Rattle.cube_schema.specs.Versions.{version_of, is_weighted, has_member};

use crate::Member;
use serde_json::Value;
use texts::Text;

/// The version of a plan whose weight column has this name, or that has none.
pub(crate) fn version_of(weight: &Option<Text>) -> u64
    ensures { result ≡ version_of weight.now }
{
    match weight {
        None => 1,
        Some(_) => 2,
    }
}

/// Whether the object's version is the number 2, so that the plan names a weight column.
pub(crate) fn is_weighted(value: &Value) -> bool
    ensures { result ≡ is_weighted (view value.now) }
{
    match value.get("version").and_then(Value::as_u64) {
        Some(number) => number == 2,
        None => false,
    }
}

/// Whether the plan has this member: the weight only where it is weighted, and every other one.
pub(crate) fn has_member(weighted: bool, member: Member) -> bool
    ensures { result ≡ has_member weighted member }
{
    match member {
        Member::Weight => weighted,
        _ => true,
    }
}
