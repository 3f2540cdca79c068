//! What holds of transcripts and of how often the mailbox is asked, as laws of the definitions, and that sessions and
//! their works may go to other threads.
ghost use Rattle.live_session.specs.Takes.{AsksForNumbers};
ghost use Rattle.live_session.specs.TranscriptLaws.{StaysTranscript, TextTellsReplies};

use crate::session::Session;
use crate::work::SessionWork;
use cube_view::{CubeView, Grow};
use outer_io::{Sink, Source};
use side_by_side::{MayGo, may_go};

/// For any view's test of the structure's numbers: a transcript stays one as the list grows, and its text determines
/// its replies. It does nothing when run.
pub fn transcript_laws<V: CubeView>()
    ensures stays { StaysTranscript V.is_stat }
    ensures tells { TextTellsReplies V.is_stat }
{}

/// For any view's test of the structure's numbers: the mailbox is asked at least once for each reply of a session that
/// prints a number of points seen or told. It does nothing when run.
pub fn session_work_laws<V: CubeView>()
    ensures { AsksForNumbers V.is_stat }
{}

/// A session over a source and a sink that may go to another thread may go there, and so may its work over a view that
/// threads may share.
pub fn sessions_may_go<V: Grow + Send + Sync, I: Source + Send, O: Sink + Send>() -> MayGo<
    (Session<I, O>, SessionWork<V, I, O>),
> {
    may_go()
}
