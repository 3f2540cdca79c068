//! An image taken as a cube, or refused.
ghost use Rattle.image_run.specs.Lines.{image_line};
ghost use Rattle.image_run.specs.Taking.{TakesImage};
ghost use Rattle.run_files.specs.Outside.{of_sink};
ghost use Rattle.run_files.specs.Saying.{SaysText};

use crate::lines::image_refused;
use cube_store::Cube;
use cube_view::Schema;
use image_cube::{ImageFault, load_cube};
use outer_io::Sink;
use run_files::{Stop, put_text};
use std::alloc::Global;
use texts::List;

/// Puts the line of an image that is refused, and says how the run ends where that fails.
pub fn refuse_image<O: Sink>(alloc: Global, fault: ImageFault, out: &mut O) -> Result<(), Stop>
    ensures { SaysText (of_sink O.Sink) out.old out.new (image_line fault) result }
{
    let line = image_refused(alloc, fault)?;
    put_text(line.as_slice(), out)
}

/// The cube of the bytes, or none where they are refused, of which one line is put.
pub(crate) fn take_image<O: Sink>(
    alloc: Global,
    schema: Schema,
    bytes: List<u8>,
    out: &mut O,
) -> Result<Option<Cube>, Stop>
    ensures { TakesImage (of_sink O.Sink) out.old out.new schema bytes result }
{
    match load_cube(alloc, schema, bytes) {
        Ok(cube) => Ok(Some(cube)),
        Err(ImageFault::NoMemory) => Err(Stop::NoMemory),
        Err(fault) => {
            refuse_image(alloc, fault, out)?;
            Ok(None)
        }
    }
}
