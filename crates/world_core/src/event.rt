//! What happens to a world.

use query_syntax::Query;

/// A feeder pushes its next point, the builder pops an entry or publishes those that it popped, and a
/// session is told how much is published or looks at it with a query. Feeders are numbered from 1 and
/// sessions from 0.
#[derive(Clone, Copy, PartialEq, Eq, Debug)]
pub enum Event {
    Push(u8),
    Pop,
    Publish,
    Tell(u32),
    Look(u32, Query),
}
