//! Program. A session's transcript audited without the tree: a journal, a script and the replies to it, compared by
//! plain filters.
//!
//! [`check`] needs nothing of the run that made the texts. When they agree is defined in `specs/Agreement.antt`, by the
//! journal's text (`feed_queue`), interleavings (`world_core`) and transcripts (`session_core`), which are what a run
//! claims of its files; and what is found where they do not in `specs/Faults.antt`. The journal is read line by line;
//! then each table is compared with the one that `list_tables` counts over as many of the first points as the reply has
//! seen, in one pass.
//!
//! [`recount_files`] is the form `recount PLAN JOURNAL SCRIPT REPLIES` of the program. It reads the plan as a run does,
//! opens the other three files in order and reads them whole, decides by [`check`] whether they agree, and puts one
//! line that says so: `specs/VerdictLines.antt`. It creates nothing, and how it ends is the record `RecountEnds` of
//! `specs/Ends.antt`. The first trouble ends it. It stands on `run_files` for the plan and for reading files. Which
//! words ask for it, and which exit code an end has, is left to the crates above.
//!
//! ```
//! let journal = b"1 0 0 0 0 0\n1 1 7 7 1 1\n";
//! let verdict = check(alloc, &schema, 1, journal, b"count\n", b"{\"rows\":[[2]],\"seen\":2}\n")?;
//! assert_eq!(verdict, Verdict::Agree { replies: 1, without: 0 });
//! ```
#![tactic(auto)]

mod asked;
mod audit;
mod checking;
mod comparing;
mod entries;
mod journal;
mod lines;
mod recounting;
mod replies;
mod saying;
mod testing;
mod text_reading;
mod verdict;
mod verdict_lines;

pub use asked::asked_of;
pub use audit::Audit;
pub use checking::check;
pub use recounting::recount_files;
pub use replies::{NextReply, next_reply};
pub use testing::{Marks, may_come, seen_in, told_in};
pub use text_reading::RecountNames;
pub use verdict::{Verdict, Why};
