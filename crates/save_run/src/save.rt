//! A plan's feeds saved as an image.
ghost use Rattle.run_files.specs.Outside.{at, of_place, of_sink};
ghost use Rattle.save_run.specs.Ends.{SaveEnds};
ghost use Rattle.save_run.specs.Names.{saving};
ghost use Rattle.save_run.specs.Writing.{SavesCube};

use crate::reading::read_feeds;
use crate::saying::say_saved;
use crate::writing::write_file;
use cube_image::SaveFault;
use cube_schema::Plan;
use cube_store::Cube;
use feed_reader::{FeedCounts, accepted_laws};
use image_cube::{ImageFault, save_cube};
use image_run::{ImageEnd, refuse_image};
use outer_io::{Place, Sink};
use run_files::{Stop, load_plan, open_feeds};
use std::alloc::Global;
use std::mem;

/// Writes the image of the cube, and says its length and what was counted of the feeds; or says that it is too long.
fn save_read<P: Place, O: Sink>(
    alloc: Global,
    plan: &Plan,
    cube: &Cube,
    counts: &[FeedCounts],
    image: &str,
    place: &mut P,
    out: &mut O,
) -> Result<ImageEnd, Stop>
    ensures { SavesCube (of_place P.Place) (of_sink O.Sink) (at place.old out.old) (at place.new out.new) plan.now (cube.now, counts.now) image.now result }
{
    match save_cube(alloc, cube) {
        Ok(bytes) => {
            write_file(image, bytes.as_slice(), place)?;
            say_saved(alloc, plan, counts, bytes.len(), out)?;
            Ok(ImageEnd::Done)
        }
        Err(SaveFault::TooLong) => {
            refuse_image(alloc, ImageFault::TooLong, out)?;
            Ok(ImageEnd::Refused)
        }
        Err(SaveFault::NoMemory) => Err(Stop::NoMemory),
    }
}

/// Saves the cube of the plan's feeds under the name of the image. The plan is read first, then the header of each
/// feed, and then all feeds in the plan's order; nothing is created before, nor where the image has more than 2^30
/// bytes, which has its line. The first trouble ends the run: a plan or a feed that is refused has its line, and a feed
/// of more than 2^30 bytes is refused without one.
pub fn save_files<P: Place, O: Sink>(
    alloc: Global,
    plan: &str,
    image: &str,
    place: &mut P,
    out: &mut O,
) -> Result<ImageEnd, Stop>
    ensures { SaveEnds (of_place P.Place) (of_sink O.Sink) (at place.old out.old) (at place.new out.new) (saving plan.now image.now) result }
{
    accepted_laws();
    let plan = load_plan(alloc, plan, place, out)?;
    let feeds = open_feeds(alloc, &plan.schema, plan.feeds.as_slice(), place, out)?;
    let (cube, counts) = read_feeds(alloc, &plan.schema, feeds, place)?;
    let saved = save_read(alloc, &plan, &cube, counts.as_slice(), image, place, out);
    // The system takes the cube's memory back as the program ends, at once and not slot by slot.
    mem::forget(cube);
    saved
}
