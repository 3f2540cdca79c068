//! Program. It calls [`top_call::nanocube`] over the real files and standard output.
//!
//! `main` makes both, and ends with the status that the call gives. It prints nothing by itself.
//!
//! ```text
//! $ cube_main demo a.csv q.txt
//! {"rows":[[3]],"seen":3}
//! ```
#![tactic(auto)]

use outer_io::{FilePlace, StdSink};
use program_words::words;
use std::process::ExitCode;
use texts::NoMemory;
use top_call::{Status, nanocube};

fn main(rt: HostRuntime) -> ExitCode {
    let status = match words(&rt) {
        Ok(words) => {
            let mut place = FilePlace::new(rt.alloc(), &rt);
            let mut out = StdSink::new(&rt);
            nanocube(&rt, words.as_slice(), &mut place, &mut out)
        }
        Err(NoMemory) => Status::NoMemory,
    };
    ExitCode::from(status.code())
}
