//! Tests. Schemas, points and tiles that the tests of several crates share.
//!
//! The crate stands on `cube_view` and `outer_io`. Nothing but tests uses it.
//!
//! ```text
//! let schema = schema_of_kinds(rt.alloc())?;   // depth 3, `kind` of a and b, bins of 10 from 0 on
//! let corner = point(7, 7, 1, 0);              // of value b, in bin 0, of weight 1
//! ```
#![tactic(auto)]

ghost use Rattle.std.specs.Prelude.{◌≡◌, IfOk, ◌∷◌, []};
ghost use Rattle.cube_view.specs.Points.{point_at};
ghost use Rattle.example_schemas.specs.Examples.{named_category, kinds, two_categories};

use cube_view::{Category, Point, Schema, Spot, Tile};
use std::alloc::Global;
use texts::{List, NoMemory, Text};

/// The category of that name and of two values.
fn category(alloc: Global, name: &str, first: &str, second: &str) -> Result<Category, NoMemory>
    ensures { IfOk result (λ category. category ≡ named_category name.now first.now second.now) }
{
    let name = Text::copy_of(alloc, name)?;
    let mut values = List::new(alloc);
    values.add(Text::copy_of(alloc, first)?)?;
    values.add(Text::copy_of(alloc, second)?)?;
    Ok(Category { name, values })
}

/// Depth 3, the category `kind` of a and b, and bins of 10 from 0 on.
pub fn schema_of_kinds(alloc: Global) -> Result<Schema, NoMemory>
    ensures { IfOk result (λ schema. schema ≡ kinds) }
{
    let mut categories = List::new(alloc);
    categories.add(category(alloc, "kind", "a", "b")?)?;
    Ok(Schema::new(3, categories, 0, 10, 1, None))
}

/// Depth 1, the categories `k` of a and b and `m` of c and d, and bins of 1 from 0 on.
pub fn schema_of_two_categories(alloc: Global) -> Result<Schema, NoMemory>
    ensures { IfOk result (λ schema. schema ≡ two_categories) }
{
    let mut categories = List::new(alloc);
    categories.add(category(alloc, "k", "a", "b")?)?;
    categories.add(category(alloc, "m", "c", "d")?)?;
    Ok(Schema::new(1, categories, 0, 1, 1, None))
}

/// The point of weight 1 there, of that value of the first category and of value 0 of any other.
pub fn point(x: u32, y: u32, value: u8, bin: u32) -> Point
    ensures { result ≡ point_at (record { x = x; y = y; values = value ∷ 0 ∷ 0 ∷ 0 ∷ []; bin = bin }) }
{
    let spot = Spot {
        x,
        y,
        values: [value, 0, 0, 0],
        bin,
    };
    Point { spot, weight: 1 }
}

/// The tile of that level, column and row.
pub fn tile(z: u8, x: u32, y: u32) -> Tile
    ensures { result ≡ record { z = z; x = x; y = y } }
{
    Tile { z, x, y }
}
