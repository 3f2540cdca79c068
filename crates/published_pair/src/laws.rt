//! What the steps of a pair are to the loading machine, as laws of the definitions.
ghost use Rattle.published_pair.specs.PairLaws.{RuleIsPairFact, LookingIsLook};

use crate::publisher::Publisher;
use crate::rested::Rested;
use crate::told::{Closed, GivenUp, Last, Told};
use crate::viewer::{Shown, Viewer};
use cube_view::Grow;
use side_by_side::{MayGo, may_go};

/// What every end saw is a prefix of what is shown, and a look at a copy that counts what is journaled is an event of
/// the loading machine. It does nothing when run.
pub fn pair_laws()
    ensures rule { RuleIsPairFact }
    ensures look { LookingIsLook }
{}

/// What the answer names may go to other threads: the ends of a pair of any view that threads may share, its looks, and
/// what becomes of its ends.
pub fn pair_ends_may_go<V: Grow + Send + Sync>() -> MayGo<
    (
        Publisher<V>,
        Viewer<V>,
        Shown<V>,
        Told,
        Rested<V>,
        Last,
        Closed,
        GivenUp,
    ),
> {
    may_go()
}
