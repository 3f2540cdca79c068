//! What holds of the items that a builder takes, as a law of the definitions, and where a builder and its work may go.
ghost use Rattle.builder_core.specs.Numbering.{EntriesAreFew};

use crate::builder::Builder;
use crate::work::BuilderWork;
use cube_view::Grow;
use side_by_side::{MayGo, may_go};

/// At most eight feeders, each of whose entries has a number of 32 bits that counts the earlier ones, send no more
/// entries than a bag may have points. It does nothing when run.
pub fn builder_laws()
    ensures { EntriesAreFew }
{}

/// The builder of a pair of any view that threads may share may go to another thread, and so may its work.
pub fn builder_may_go<V: Grow + Send + Sync>() -> MayGo<(Builder<V>, BuilderWork<V>)> {
    may_go()
}
