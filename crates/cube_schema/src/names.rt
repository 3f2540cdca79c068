//! Which members an object has.
ghost use Rattle.std.specs.Prelude.{◌≡◌, option_map};
ghost use Rattle.serde_json.specs.View.{view};
ghost use Rattle.cube_schema.specs.Members.{is_plan_name, first_missing, least_unknown};

use crate::Member;
use crate::member::MEMBERS;
use crate::versions::{has_member, is_weighted};
use cube_view::is_same_text;
use serde_json::Value;

/// The first member that the plan has and the object lacks.
pub(crate) fn first_missing(value: &Value) -> Option<Member>
    ensures { result ≡ first_missing (view value.now) }
{
    let weighted = is_weighted(value);
    MEMBERS.iter().copied().find(|member| {
        has_member(weighted, *member) && value.get(member.name()).is_none()
    })
}

fn is_plan_name(weighted: bool, text: &str) -> bool
    ensures { result ≡ is_plan_name weighted text.now }
{
    MEMBERS.iter().any(|member| {
        has_member(weighted, *member) && is_same_text(member.name().as_bytes(), text.as_bytes())
    })
}

/// The least name of a member of the object that the plan does not have.
pub(crate) fn least_unknown(value: &Value) -> Option<&str>
    ensures { option_map (λ name. name.now) result ≡ least_unknown (view value.now) }
{
    let weighted = is_weighted(value);
    let members = value.as_object()?;
    for name in members.keys() {
        if !is_plan_name(weighted, name.as_str()) {
            return Some(name.as_str());
        }
    }
    None
}
