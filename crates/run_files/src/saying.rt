//! A text put in one put.
ghost use Rattle.run_files.specs.Outside.{of_sink};
ghost use Rattle.run_files.specs.Saying.{SaysText};

use crate::Stop;
use outer_io::{IoFault, Sink};

/// Puts the text in one put, and says how the run ends where that fails.
pub fn put_text<O: Sink>(text: &[u8], out: &mut O) -> Result<(), Stop>
    ensures { SaysText (of_sink O.Sink) out.old out.new text.now result }
{
    match out.put(text) {
        Ok(()) => Ok(()),
        Err(IoFault::Failed) => Err(Stop::WriteFault),
        Err(IoFault::NoMemory) => Err(Stop::NoMemory),
    }
}
