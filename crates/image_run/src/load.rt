//! A script answered over the cube of an image, from files.
ghost use Rattle.run_files.specs.Outside.{at, of_place, of_sink};
ghost use Rattle.image_run.specs.Ends.{LoadEnds};
ghost use Rattle.image_run.specs.Names.{image_names};

use crate::ImageEnd;
use crate::taking::take_image;
use cube_image::MOST_BYTES;
use outer_io::{Place, Sink};
use run_files::{Stop, answer_file, load_plan, read_file};
use std::alloc::Global;

/// The names of the three files of a load.
#[derive(Clone, Copy)]
pub struct LoadNames<'a> {
    pub plan: &'a str,
    pub image: &'a str,
    pub script: &'a str,
}

/// Answers the script over the cube of the image. The plan is read first, and then the image, of which at most 2^30
/// bytes are an image; nothing is created. An image that is refused has its line, and the script is not opened. The
/// first trouble ends the run: a plan that is refused has its line, and a script of more than 2^30 bytes counts as a
/// feed that is refused.
pub fn load_files<P: Place, O: Sink>(
    alloc: Global,
    names: &LoadNames<'_>,
    place: &mut P,
    out: &mut O,
) -> Result<ImageEnd, Stop>
    ensures { LoadEnds (of_place P.Place) (of_sink O.Sink) (at place.old out.old) (at place.new out.new) (image_names names.now) result }
{
    let plan = load_plan(alloc, names.plan, place, out)?;
    let bytes = read_file(alloc, names.image, MOST_BYTES as usize, place)?;
    match take_image(alloc, plan.schema, bytes, out)? {
        Some(cube) => {
            answer_file(alloc, &cube, names.script, place, out)?;
            Ok(ImageEnd::Done)
        }
        None => Ok(ImageEnd::Refused),
    }
}
