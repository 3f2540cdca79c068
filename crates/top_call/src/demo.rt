//! The form `demo FEED SCRIPT`.
ghost use Rattle.std.specs.Prelude.{◌≡◌, [], IfOk};
ghost use Rattle.cube_view.specs.Bag.{Counts};
ghost use Rattle.run_files.specs.Outside.{of_place, of_sink};
ghost use Rattle.top_call.specs.BuiltIn.{built_in};
ghost use Rattle.top_call.specs.Demo.{demo_of, DemoEnds};

mod loading;

use crate::built_in::built_in_schema;
use crate::demo::loading::load;
use cube_store::Cube;
use cube_view::CubeView;
use outer_io::{Place, Sink};
use run_files::{Stop, answer_file};
use std::alloc::Global;
use texts::NoMemory;

/// A cube of no points under the plan that is built in.
fn empty_cube(alloc: Global) -> Result<Cube, NoMemory>
    ensures schema { IfOk result (λ cube. ⟦<Cube as CubeView>⟧.schema cube ≡ built_in) }
    ensures empty { IfOk result (λ cube. Counts (⟦<Cube as CubeView>⟧.weight_at cube) (⟦<Cube as CubeView>⟧.seen cube) []) }
{
    let schema = built_in_schema(alloc)?;
    Cube::new(alloc, schema)
}

/// Loads the feed and then answers the script over its points. The first trouble ends the run.
pub(crate) fn run_demo<P: Place, O: Sink>(
    alloc: Global,
    feed: &str,
    script: &str,
    place: &mut P,
    out: &mut O,
) -> Result<(), Stop>
    ensures { DemoEnds (of_place P.Place) (of_sink O.Sink) place.old place.new out.old out.new (demo_of feed.now script.now) result }
{
    let Ok(mut cube) = empty_cube(alloc) else {
        return Err(Stop::NoMemory);
    };
    match load(alloc, feed, place, &mut cube) {
        Ok(()) => answer_file(alloc, &cube, script, place, out),
        Err(stop) => Err(stop),
    }
}
