//! The plan that is built in.
ghost use Rattle.std.specs.Prelude.{◌≡◌, IfOk, [], ◌∷◌, codes};
ghost use Rattle.top_call.specs.BuiltIn.{built_in, kind};

use cube_view::{Category, Schema};
use std::alloc::Global;
use texts::{List, NoMemory, Text};

/// A list of two items.
fn pair(alloc: Global, first: Text, second: Text) -> Result<List<Text>, NoMemory>
    ensures { IfOk result (λ items. items ≡ first ∷ second ∷ []) }
{
    let mut items = List::new(alloc);
    items.add(first)?;
    items.add(second)?;
    Ok(items)
}

/// The category `kind` with the values `a` and `b`.
fn kind_category(alloc: Global) -> Result<Category, NoMemory>
    ensures { IfOk result (λ category. category ≡ kind) }
{
    let name = Text::copy_of(alloc, "kind")?;
    let first = Text::copy_of(alloc, "a")?;
    let second = Text::copy_of(alloc, "b")?;
    let values = pair(alloc, first, second)?;
    Ok(Category { name, values })
}

/// Depth 3, the category `kind` with `a` and `b`, time from 0 in bins of 10, batch 1.
pub(crate) fn built_in_schema(alloc: Global) -> Result<Schema, NoMemory>
    ensures { IfOk result (λ schema. schema ≡ built_in) }
{
    let kind = kind_category(alloc)?;
    let mut categories = List::new(alloc);
    categories.add(kind)?;
    Ok(Schema::new(3, categories, 0, 10, 1, None))
}
