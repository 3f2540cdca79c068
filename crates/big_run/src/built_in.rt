//! The plan that is built in.
ghost use Rattle.std.specs.Prelude.{◌≡◌, IfOk, [], ◌∷◌, codes};
ghost use Rattle.big_run.specs.BuiltIn.{big_schema, letter_kind};
ghost use Rattle.cube_view.specs.Bag.{Counts};

use cube_store::Cube;
use cube_view::{Category, CubeView, Schema};
use std::alloc::Global;
use texts::{List, NoMemory, Text};

/// The values of the category.
fn letters(alloc: Global) -> Result<List<Text>, NoMemory>
    ensures { IfOk result (λ items. items ≡ codes "a" ∷ codes "b" ∷ codes "c" ∷ codes "d" ∷ []) }
{
    let mut items = List::new(alloc);
    items.add(Text::copy_of(alloc, "a")?)?;
    items.add(Text::copy_of(alloc, "b")?)?;
    items.add(Text::copy_of(alloc, "c")?)?;
    items.add(Text::copy_of(alloc, "d")?)?;
    Ok(items)
}

/// The category `kind` with the values `a`, `b`, `c` and `d`.
fn kind_category(alloc: Global) -> Result<Category, NoMemory>
    ensures { IfOk result (λ category. category ≡ letter_kind) }
{
    let name = Text::copy_of(alloc, "kind")?;
    let values = letters(alloc)?;
    Ok(Category { name, values })
}

/// Depth 10, the category `kind`, time from 0 in bins of 1, batch 64.
pub(crate) fn big_schema(alloc: Global) -> Result<Schema, NoMemory>
    ensures { IfOk result (λ schema. schema ≡ big_schema) }
{
    let kind = kind_category(alloc)?;
    let mut categories = List::new(alloc);
    categories.add(kind)?;
    Ok(Schema::new(10, categories, 0, 1, 64, None))
}

/// A cube of no points of that schema.
pub(crate) fn empty_cube(alloc: Global) -> Result<Cube, NoMemory>
    ensures schema { IfOk result (λ cube. ⟦<Cube as CubeView>⟧.schema cube ≡ big_schema) }
    ensures empty { IfOk result (λ cube. Counts (⟦<Cube as CubeView>⟧.weight_at cube) (⟦<Cube as CubeView>⟧.seen cube) []) }
{
    let schema = big_schema(alloc)?;
    Cube::new(alloc, schema)
}
