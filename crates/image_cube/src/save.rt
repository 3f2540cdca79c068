//! The image of a cube.
ghost use Rattle.std.specs.Prelude.{◌≡◌, ◌<◌, ◌≤◌, ◌^◌, List, length, IfOk, Err};
ghost use Rattle.cube_view.specs.Points.{Point};
ghost use Rattle.time_table.specs.Counts.{AllCounted};
ghost use Rattle.node_arena.specs.Slots.{counts_of, slot_of};
ghost use Rattle.probe_core.specs.Blanks.{IsBlankOf};
ghost use Rattle.cube_image.specs.Image.{IsWritten};
ghost use Rattle.cube_store.specs.Holding.{CubeCounts, IsLeastCubeOf};
ghost use Rattle.shape_test.specs.Laws.{AllTablesCounted};
ghost use Rattle.image_cube.specs.CubeImages.{HasLongCubeImage, IsSavedCube};
ghost use Rattle.image_cube.specs.LeastImages.{IsLeastImage};

use cube_image::{SaveFault, image_laws, write_image};
use cube_store::Cube;
use least_image::least_image_law;
use node_arena::{Arena, SlotId};
use probe_core::Steps;
use std::alloc::Global;
use std::marker::Brand;
use std::sync::ledger::{Blank, Ledger};
use texts::List;

/// The image of a cube. Where the points that the cube counts are records of its schema, it is the image of a cube of
/// them, and what is read of it has the numbers of the cube's slots and links. Where the cube is the least one of its
/// points, it is the image of every least cube of them, in whatever order they came. `TooLong` comes exactly where it
/// has more than 2^30 bytes, unless memory was wanted before.
pub fn save_cube(alloc: Global, cube: &Cube) -> Result<List<u8>, SaveFault>
    ensures written { IfOk result (IsWritten cube.now.arena cube.now.size) }
    ensures image { IfOk result (IsSavedCube cube.now) }
    ensures least { IfOk result (λ bytes. (h : List Point) → IsLeastCubeOf cube.now h → IsLeastImage cube.now.schema bytes h) }
    ensures too_long { result ≡ Err SaveFault.TooLong → (h : List Point) → CubeCounts cube.now h → HasLongCubeImage cube.now.schema h }
{
    image_laws();
    least_image_law();
    tell_tables::<Brand>(&cube.arena, Blank::new(1));
    write_image(alloc, &cube.arena, cube.root, cube.size)
}

/// Contracts learn that no table has a row without a record, unless there are more slots than 32 bits name.
fn tell_tables<L: Ledger>(arena: &Arena, blank: Blank)
    requires blank { IsBlankOf L.name L.parts blank }
    ensures { length arena.now ≤ 2 ^ 32 → AllTablesCounted arena.now }
{
    let mut steps = Steps::<L>::new(blank);
    for i in 0..arena.len() {
        if i < 1 << 32 {
            tell_table(arena, SlotId(i as u32), &mut steps);
        }
    }
}

/// Contracts learn it of one slot.
fn tell_table<L: Ledger>(arena: &Arena, id: SlotId, steps: &mut Steps<L>)
    requires { id.0 < length arena.now }
    ensures { AllCounted (counts_of (slot_of arena.now id.0)) }
{
    if arena.is_table(id) {
        let _ = arena.table(id, steps).is_empty();
    }
}
