//! Program. The run of a plan: its feeds are loaded by threads into a cube while its scripts are answered.
//!
//! [`run_plan`] opens what the plan names, runs feeders, builder and sessions over two empty cubes, and closes the run.
//! What it leaves is one record, `RunEnds` of `specs/Ends.antt`. Its heart is `IsCompleted` of `specs/Completed.antt`,
//! which speaks of files alone: the journal's entries, which its text determines, are an interleaving of the accepted
//! records of the feeds, each output is a transcript over them, and the report counts what those files hold. No
//! definition that it cites knows a queue, a copy or a node.
//!
//! The run has three stages. `open_run` reads the plan, opens the feeds and reads their headers, opens the scripts and
//! creates the outputs, each in order; the first trouble ends the run, with all parts given back. Room for the sessions
//! is taken before the first feed is opened. What it leaves of the place is `OpensRun` of `specs/Opening.antt`; what
//! the parts are is `AreReady`, over the bytes of the files where these are told, and `AreFit`, which is what the
//! threads ask of them.
//! Then the threads run the parts. `close_run` writes the journal, gives all parts back in the order in which they were
//! made, and puts the report in one put; a failure stops none of the later steps. What it leaves is `ClosesRun` of
//! `specs/Closing.antt`: the end that is answered is the first, in the order of `run_files`, of the faults that ended
//! feeds and sessions and of what writing, giving back and reporting answered.
//!
//! The crate stands on `run_files` for files and the report, on `cube_crew` for the threads, on `feed_queue` for the
//! journal's lines, and on `crew_feeder` and `live_session` for what feeders and sessions leave. Which words ask for a
//! run, and which exit code an end has, is left to the program.
//!
//! ```text
//! let end = run_plan(&rt, alloc, "plan.json", &mut place, &mut out);   // Ok, or the first cause in the order of `Stop`
//! ```
#![tactic(auto)]

mod closing;
mod counts;
mod cubes;
mod ends;
mod journal;
mod opening;
mod parts;
mod returning;
mod rooms;
mod run;
mod saying;
mod seating;
mod unrun;

pub use run::run_plan;
