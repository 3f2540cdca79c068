//! Schemas of one value, and of values with spaces and bars.
ghost use Rattle.std.specs.Prelude.{◌≡◌, ◌∷◌, [], IfOk, codes};

use cube_view::{Category, Schema};
use std::alloc::Global;
use texts::{List, NoMemory, Text};

/// The category of that name and of three values.
fn category(
    alloc: Global,
    name: &str,
    first: &str,
    second: &str,
    third: &str,
) -> Result<Category, NoMemory>
    ensures name { IfOk result (λ category. category.name ≡ name.now) }
    ensures values { IfOk result (λ category. category.values ≡ first.now ∷ second.now ∷ third.now ∷ []) }
{
    let name = Text::copy_of(alloc, name)?;
    let mut values = List::new(alloc);
    values.add(Text::copy_of(alloc, first)?)?;
    values.add(Text::copy_of(alloc, second)?)?;
    values.add(Text::copy_of(alloc, third)?)?;
    Ok(Category { name, values })
}

/// The categories `k` and `m`, whose values have spaces and a bar.
pub(crate) fn spaced_schema(alloc: Global) -> Result<Schema, NoMemory> {
    let mut categories = List::new(alloc);
    categories.add(category(alloc, "k", "a b", "c|d", "e")?)?;
    categories.add(category(alloc, "m", "c d", "e", "f")?)?;
    Ok(Schema::new(3, categories, 0, 10, 1, None))
}

/// The category of one value.
fn single(alloc: Global) -> Result<Category, NoMemory>
    ensures name { IfOk result (λ category. category.name ≡ codes "only") }
    ensures values { IfOk result (λ category. category.values ≡ codes "a" ∷ []) }
{
    let name = Text::copy_of(alloc, "only")?;
    let mut values = List::new(alloc);
    values.add(Text::copy_of(alloc, "a")?)?;
    Ok(Category { name, values })
}

/// Depth 1, and the category `only` of the value a.
pub(crate) fn schema_of_one_value(alloc: Global) -> Result<Schema, NoMemory> {
    let mut categories = List::new(alloc);
    categories.add(single(alloc)?)?;
    Ok(Schema::new(1, categories, 0, 1, 1, None))
}
