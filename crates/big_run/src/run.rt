//! A large run.
ghost use Rattle.std.specs.Prelude.{◌≡◌, ◌≤◌, IfOk};
ghost use Rattle.big_run.specs.Ends.{BigEnds};
ghost use Rattle.big_run.specs.Text.{big_text};
ghost use Rattle.run_files.specs.Outside.{of_sink};

use crate::built_in::empty_cube;
use crate::jobs::{jobs_of, let_go};
use crate::printing::print_run;
use cube_crew::run_crew;
use outer_io::Sink;
use run_files::{Stop, put_text};
use std::alloc::Global;
use std::sync::Wait;
use std::thread::Threads;
use texts::{List, NoMemory};
use world_core::interleaving_laws;

/// What a run with feeds of so many rows prints.
fn big_text<R: Threads + Wait + Sync>(
    rt: &R,
    alloc: Global,
    rows: u32,
) -> Result<List<u8>, NoMemory>
    requires { rows ≤ 100000 }
    ensures { IfOk result (λ text. text ≡ big_text rows) }
{
    interleaving_laws();
    let first = empty_cube(alloc)?;
    let again = empty_cube(alloc)?;
    let jobs = jobs_of(alloc, rows)?;
    match run_crew(rt, alloc, first, again, jobs) {
        Ok(crewed) => print_run(alloc, crewed),
        Err(jobs) => {
            let_go(jobs);
            Err(NoMemory)
        }
    }
}

/// Runs two generated feeds of `rows` rows each, with a session beside them, and puts the report's line of each feed
/// and the replies of a session after them in one put. Where anything finds no memory, nothing is put.
pub fn run_big<R: Threads + Wait + Sync, O: Sink>(
    rt: &R,
    alloc: Global,
    rows: u32,
    out: &mut O,
) -> Result<(), Stop>
    requires { rows ≤ 100000 }
    ensures { BigEnds (of_sink O.Sink) out.old out.new rows result }
{
    let text = big_text(rt, alloc, rows)?;
    put_text(text.as_slice(), out)
}
