//! Program. Runs the cases of files, one after another: the top call over files in memory, and what it leaves.
//!
//! The words of the command line name the files. A case puts files into a place, says which calls on them fail, runs
//! the top call on words, and names the files to show. What is printed is compared with a stored text, so a case costs
//! no proof. `line` has the language of the files, `case` does what its lines say.
//!
//! ```text
//! case A feed of three records is counted
//! file a.csv in 16
//! |x,y,kind,time
//! |0,0,a,5
//! file q.txt
//! |count
//! run demo a.csv q.txt
//! show a.csv
//! ```
#![tactic(auto)]

mod bytes;
mod case;
mod draft;
mod files;
mod line;

use crate::case::Case;
use crate::line::line_of;
use anyhow::{Context, Result};
use std::io::Write;
use std::rt::{Env, Files};
use std::sync::Wait;
use std::thread::Threads;
use std::{env, fs};

/// The report of the cases that the text has.
fn report_of<R: AllocGlobal + Threads + Wait + Sync>(rt: &R, text: &str) -> Result<Vec<u8>> {
    let mut case = Case::new(rt.alloc());
    for (i, line) in text.lines().enumerate() {
        let line = line_of(line);
        case.take(rt, line).context(format_args!("line {}", i + 1))?;
    }
    Ok(case.into_report())
}

fn main(rt: HostRuntime) -> Result<()> {
    for name in env::args(&rt)?.skip(1) {
        let text = fs::read_to_string(&rt, name.as_str())?;
        let report = report_of(&rt, text.as_str())?;
        rt.stdout().write_all(report.as_slice())?;
    }
    Ok(())
}
