//! Shares. The program `add_live PLAN QUESTIONS ASK REPLIES ASK REPLIES ..`: questions answered by the sums of the
//! replies of 1 to 500 live runs.
//!
//! [`program::add_live`] does what the words of the command line say over a place and a sink, and `main` makes both for
//! the real files and standard output, and ends with the status that the call gives. What a run's ask and replies are
//! stands in `live_sums`.
//!
//! ```text
//! ./add_live plan.json /dev/stdin 1/one.txt 1/one.txt.out 2/one.txt 2/one.txt.out
//! ```
#![tactic(auto)]

mod program;
mod status;

use crate::program::add_live;
use outer_io::{FilePlace, StdSink};
use program_words::words;
use run_files::Stop;
use share_replies::Status;
use std::process::ExitCode;
use texts::NoMemory;

fn main(rt: HostRuntime) -> ExitCode {
    let status = match words(&rt) {
        Ok(words) => {
            let mut files = FilePlace::new(rt.alloc(), &rt);
            let mut put = StdSink::new(&rt);
            add_live(rt.alloc(), words.as_slice(), &mut files, &mut put)
        }
        Err(NoMemory) => Status::Stopped(Stop::NoMemory),
    };
    ExitCode::from(status.code())
}
