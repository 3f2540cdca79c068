//! The sessions of a run, each over a script that is built in.
ghost use Rattle.std.specs.Prelude.{◌≡◌, [], ◌∷◌, IfOk};
ghost use Rattle.big_run.specs.Parts.{script_session};

use crate::source::RunSource;
use live_session::Session;
use outer_io::{LineCutter, StillSink, StillSource};
use std::alloc::Global;
use texts::{List, NoMemory};

/// How many bytes of a script are given at a time.
const PIECE: usize = 4096;

/// A session over the script that has answered nothing.
fn session_of(alloc: Global, script: &[u8]) -> Result<Session<RunSource, StillSink>, NoMemory>
    ensures { IfOk result (λ session. session ≡ script_session script.now) }
{
    let bytes = Vec::from_slice(alloc, script)?;
    let source = RunSource::Held(StillSource::new(List::from_vec(bytes), PIECE));
    match LineCutter::new(alloc, source) {
        Ok(cutter) => Ok(Session::new(alloc, cutter, StillSink::new(alloc))),
        Err(_source) => Err(NoMemory),
    }
}

/// That session alone in a list.
pub(crate) fn one_session(
    alloc: Global,
    script: &[u8],
) -> Result<List<Session<RunSource, StillSink>>, NoMemory>
    ensures { IfOk result (λ sessions. sessions ≡ script_session script.now ∷ []) }
{
    let mut sessions = Vec::with_capacity(alloc, 1)?;
    match session_of(alloc, script) {
        Ok(session) => {
            sessions.push_reserved(session);
            Ok(List::from_vec(sessions))
        }
        Err(NoMemory) => {
            sessions.destroy_empty();
            Err(NoMemory)
        }
    }
}

/// Takes the sessions apart.
pub(crate) fn let_go_sessions(mut sessions: Vec<Session<RunSource, StillSink>>) {
    let Some(session) = sessions.pop() else {
        sessions.destroy_empty();
        return;
    };
    let (_source, _sink) = session.into_parts();
    let_go_sessions(sessions)
}
