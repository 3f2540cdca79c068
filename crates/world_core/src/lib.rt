//! Threads. The loading machine: what feeders, their queue, the builder and the sessions do together, as one small
//! program.
//!
//! Five kinds of event happen to a [`World`], one at a time: a push, a pop, a publication, a tell and a look.
//! `specs/Machine.antt` defines what each does and when it is possible. [`run`] gives the world that a list of events
//! makes. `specs/Worlds.antt` says what holds of that world whatever the events, and `specs/Interleaving.antt` what
//! an interleaving of the feeders' lists is; their laws are clauses of [`world_laws`] and [`interleaving_laws`].
//! Schemas and points come from `cube_view`, queries and their tables from `query_syntax`. Threads, the text of
//! entries and a cube that is faster than a list are left to the crates above.
//!
//! ```
//! let events = [Event::Push(1), Event::Pop, Event::Look(1, count), Event::Tell(0)];
//! let world = run(alloc, &schema, &feeds, 2, 2, &events)?;
//! assert_eq!(world.pending.as_slice(), [Entry { feeder: 1, number: 0, point }]);
//! assert_eq!(world.shots.get(0).table.seen, 0); // what is pending isn't seen
//! ```
#![tactic(auto)]

mod entry;
mod event;
mod laws;
mod machine;
mod runs;
mod world;

pub use entry::Entry;
pub use event::Event;
pub use laws::{interleaving_laws, world_laws};
pub use runs::run;
pub use world::{Shot, World};
