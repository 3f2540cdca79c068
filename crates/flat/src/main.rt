//! Program. The program `flat PLAN SCRIPT`: the replies to a script over the records of a plan's feeds, without a cube.
//!
//! [`program::flat`] does what the words of the command line say over a place and a sink, and `main` makes both for the
//! real files and standard output, and ends with the status that the call gives. What is answered stands in `flat_run`.
//!
//! ```text
//! ./flat plan.json q.txt > q.txt.out
//! ```
#![tactic(auto)]

mod program;
mod status;

use crate::program::flat;
use crate::status::Status;
use outer_io::{FilePlace, StdSink};
use program_words::words;
use run_files::Stop;
use std::process::ExitCode;

fn main(rt: HostRuntime) -> ExitCode {
    let Ok(words) = words(&rt) else {
        return ExitCode::from(Status::Stopped(Stop::NoMemory).code());
    };
    let mut feeds = FilePlace::new(rt.alloc(), &rt);
    let mut replies = StdSink::new(&rt);
    let status = flat(&rt, rt.alloc(), words.as_slice(), &mut feeds, &mut replies);
    ExitCode::from(status.code())
}
