//! A file, written.
ghost use Rattle.run_files.specs.Outside.{of_place};
ghost use Rattle.save_run.specs.Writing.{WritesFile};

use outer_io::{Place, Sink};
use run_files::{Stop, create_file, joined_ends, write_end};

/// Creates the named file and writes the bytes to it in one put. Its sink is given back in every case.
pub(crate) fn write_file<P: Place>(name: &str, bytes: &[u8], place: &mut P) -> Result<(), Stop>
    ensures { WritesFile (of_place P.Place) place.old place.new name.now bytes.now result }
{
    let mut sink = create_file(name, place)?;
    let put = sink.put(bytes);
    let kept = place.give_back_out(sink);
    joined_ends(write_end(put), write_end(kept))
}
