//! Shares. The program `add_replies PLAN SCRIPT REPLIES REPLIES ..`: the replies to one script from 1 to 1,024 shares,
//! added up.
//!
//! [`program::add_replies`] does what the words of the command line say over a place and a sink, and `main` makes both
//! for the real files and standard output, and ends with the status that the call gives. What a share is, and the law
//! of the sums, stands in `share_replies`.
//!
//! ```text
//! ./add_replies plan.json q.txt share1/q.txt.out share2/q.txt.out > q.txt.out
//! ```
#![tactic(auto)]

mod program;
mod status;

use crate::program::add_replies;
use outer_io::{FilePlace, StdSink};
use program_words::words;
use run_files::Stop;
use share_replies::Status;
use std::process::ExitCode;

fn main(rt: HostRuntime) -> ExitCode {
    let Ok(words) = words(&rt) else {
        return ExitCode::from(Status::Stopped(Stop::NoMemory).code());
    };
    let mut place = FilePlace::new(rt.alloc(), &rt);
    let mut out = StdSink::new(&rt);
    let status = add_replies(rt.alloc(), words.as_slice(), &mut place, &mut out);
    ExitCode::from(status.code())
}
