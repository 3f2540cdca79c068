//! Program. The files of a run of a plan, before its threads start and after they ended, and what a run prints.
//!
//! [`load_plan`] reads the plan, [`open_feeds`] opens the feeds and reads their headers, which makes jobs of them, and
//! [`open_scripts`] opens the scripts and creates the files for their replies and the journal. The first trouble ends
//! the run: a stage that meets one gives back all that it made, and says by a [`Stop`] how the run ends. Afterwards the
//! parts go back to their place by [`give_back_feeds`], [`give_back_cutters`], [`give_back_sources`] and
//! [`give_back_sinks`], where a failure stops none of the later ones. [`answer_file`] answers the script of a file over
//! a view that no thread changes. What each stage leaves of the place is one record, `LeavesPlace` of
//! `specs/Leaving.antt`, which two stages after each other meet together by the laws of `proofs/Stages.antt`.
//! [`put_text`] puts what a run says: what that leaves of a sink, and how it ends a run, is `SaysText` of
//! `specs/Saying.antt`.
//!
//! [`report`] makes the text that a run prints of its plan, of what its feeds and scripts counted and of the journal,
//! [`feeds_report`] the lines of its feeds alone, and [`plan_refused`] and [`header_refused`] the lines of a run that
//! ends before. The lines are the definitions of `specs/Lines.antt`, and faults are printed as `specs/Faults.antt`
//! says.
//!
//! It stands on `outer_io` for places and their parts, `cube_schema` for plans, and `feed_reader` for headers and what
//! is counted of feeds. What runs between opening and giving back, who counts, what is written to the sinks, and which
//! exit code an end has is left to others.
//!
//! ```text
//! let plan = load_plan(alloc, "plan.json", &mut place, &mut out)?;             // or one line, `plan: FAULT`
//! let feeds = open_feeds(alloc, &plan.schema, plan.feeds.as_slice(), &mut place, &mut out)?;
//! let parts = open_scripts(alloc, &plan, &mut place)?;                         // after Err, give_back_feeds
//! ```
#![tactic(auto)]

mod answering;
mod counts;
mod faults;
mod feeds;
mod giving_back;
mod json_text;
mod lines;
mod loading;
mod reporting;
mod saying;
mod scripts;
mod stop;

pub use answering::answer_file;
pub use counts::ScriptCounts;
pub use feeds::open_feeds;
pub use giving_back::{give_back_cutters, give_back_feeds, give_back_sinks, give_back_sources};
pub use lines::push_counts;
pub use loading::{load_plan, read_file};
pub use reporting::{feeds_report, header_refused, plan_refused, report};
pub use saying::put_text;
pub use scripts::{ScriptParts, create_file, open_scripts};
pub use stop::{Stop, ended_after, joined_ends, read_end, stop_of_cut, stop_of_session, write_end};
