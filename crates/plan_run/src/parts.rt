//! What a run has before its threads start.

use cube_crew::Jobs;
use outer_io::{Sink, Source};

/// The jobs of the threads, the journal's sink, and room for the sinks of all sessions, in which they are given back.
pub(crate) struct RunParts<I: Source, O: Sink> {
    pub jobs: Jobs<I, O>,
    pub journal: O,
    pub room: Vec<O>,
}
