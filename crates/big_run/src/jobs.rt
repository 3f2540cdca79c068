//! What a run is given.
ghost use Rattle.std.specs.Prelude.{◌≡◌, ◌≤◌, [], ◌∷◌, IfOk};
ghost use Rattle.big_run.specs.BuiltIn.{ask_script, final_script};
ghost use Rattle.big_run.specs.Parts.{HasJobs, script_session};

use crate::built_in::big_schema;
use crate::feeds::{feeds_of, let_go_feeds};
use crate::sessions::{let_go_sessions, one_session};
use crate::source::RunSource;
use cube_crew::Jobs;
use live_session::Session;
use outer_io::StillSink;
use std::alloc::Global;
use texts::{List, NoMemory};

/// The script of the session beside the feeds.
const ASK: &[u8] = b"count\ntold\ncount\n";

/// The script of the session after them.
const FINAL: &[u8] = b"count\nhist kind\nmap 1\nseries 0 256 4\n";

/// The session beside the feeds, and the one after them.
fn sessions_of(
    alloc: Global,
) -> Result<
    (
        List<Session<RunSource, StillSink>>,
        List<Session<RunSource, StillSink>>,
    ),
    NoMemory,
>
    ensures asks { IfOk result (λ sessions. sessions.0 ≡ script_session ask_script ∷ []) }
    ensures finals { IfOk result (λ sessions. sessions.1 ≡ script_session final_script ∷ []) }
{
    let asks = one_session(alloc, ASK)?;
    match one_session(alloc, FINAL) {
        Ok(finals) => Ok((asks, finals)),
        Err(NoMemory) => {
            let_go_sessions(asks.into_vec());
            Err(NoMemory)
        }
    }
}

/// The jobs of a run with feeds of so many rows.
pub(crate) fn jobs_of(alloc: Global, rows: u32) -> Result<Jobs<RunSource, StillSink>, NoMemory>
    requires { rows ≤ 100000 }
    ensures { IfOk result (HasJobs rows) }
{
    let schema = big_schema(alloc)?;
    let feeds = feeds_of(alloc, &schema, rows)?;
    match sessions_of(alloc) {
        Ok((asks, finals)) => Ok(Jobs {
            feeds,
            asks,
            finals,
        }),
        Err(NoMemory) => {
            let_go_feeds(feeds.into_vec());
            Err(NoMemory)
        }
    }
}

/// Takes the jobs apart.
pub(crate) fn let_go(jobs: Jobs<RunSource, StillSink>) {
    let Jobs {
        feeds,
        asks,
        finals,
    } = jobs;
    let_go_feeds(feeds.into_vec());
    let_go_sessions(asks.into_vec());
    let_go_sessions(finals.into_vec())
}
