//! The cube of an image.
ghost use Rattle.image_cube.specs.CubeImages.{LoadsCube};

use crate::fault::ImageFault;
use crate::read::read_list;
use cube_store::Cube;
use cube_view::Schema;
use image_parse::image_parse_laws;
use shape_test::size_laws;
use std::alloc::Global;
use texts::List;

/// The cube of the schema of which the bytes are the image. They are let go before their slots are tested. It counts
/// exactly the lists of points of whose cubes they are the image. `TooLong`, `NotImage` and `NotShape` come exactly
/// where they hold, in this order, unless memory was wanted.
pub fn load_cube(alloc: Global, schema: Schema, bytes: List<u8>) -> Result<Cube, ImageFault>
    ensures { LoadsCube schema bytes result }
{
    image_parse_laws();
    size_laws();
    match read_list(alloc, &schema, bytes) {
        Ok((arena, root, size)) => Ok(Cube::of_slots(alloc, schema, arena, root, size)),
        Err(fault) => Err(fault),
    }
}
