//! The two cubes of a run.
ghost use Rattle.std.specs.Prelude.{◌≡◌, [], IfOk};
ghost use Rattle.cube_crew.specs.Begins.{AreEmptyViews};

use cube_store::Cube;
use cube_view::{CubeView, Schema};
use std::alloc::Global;
use texts::NoMemory;

/// Two cubes of no points under the schema.
pub(crate) fn empty_cubes(alloc: Global, schema: &Schema) -> Result<(Cube, Cube), NoMemory>
    ensures schema { IfOk result (λ cubes. ⟦<Cube as CubeView>⟧.schema cubes.0 ≡ schema.now) }
    ensures empty { IfOk result (λ cubes. AreEmptyViews ⟦<Cube as CubeView>⟧.weight_at ⟦<Cube as CubeView>⟧.seen ⟦<Cube as CubeView>⟧.schema cubes.0 cubes.1) }
{
    let first = Cube::new(alloc, schema.copy(alloc)?)?;
    let again = Cube::new(alloc, schema.copy(alloc)?)?;
    Ok((first, again))
}
