//! Program. The words that a program is called with.
//!
//! [`words`] takes them from the environment; each program crate calls it once. Which words are a form is left to the
//! programs. It stands on `texts` for want of memory.
//!
//! ```text
//! let words = words(&rt)?;    // of `nanocube run plan.json`: "run", "plan.json"
//! ```
#![tactic(auto)]

use std::env;
use std::io::ErrorKind;
use std::rt::Env;
use texts::NoMemory;

/// The words after the program's name. A word that is not UTF-8 leaves a line of no words, which is no form.
pub fn words<R: Env + AllocGlobal>(rt: &R) -> Result<Vec<String>, NoMemory> {
    match env::args(rt) {
        Ok(args) => args.skip(1).collect(rt.alloc()).map_err(|_| NoMemory),
        Err(fault) if fault.kind() == ErrorKind::OutOfMemory => Err(NoMemory),
        Err(_) => Ok(Vec::new(rt.alloc())),
    }
}
