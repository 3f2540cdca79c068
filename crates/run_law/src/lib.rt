//! Threads. The law of whole runs: what the ends of a run do, step by step, is what the loading machine does, event by
//! event.
//!
//! A run is seen as its ends show it at one moment (`specs/Views.antt`): what each feeder has sent, what is queued and
//! drawn, the builder, and what each session was shown and told. `specs/Moves.antt` says what each step changes, by the
//! relations that the calls of `feed_queue`, `builder_core`, `published_pair` and `mailbox` ensure, and
//! `specs/Steps.antt` which event of the machine it is, or that it is none. [`run_laws`] has the law as its contract:
//! the world that these events make stands where the run does (`specs/Standing.antt`). [`send_step`] and nine more are
//! a call of each end, whose contract is that it is one of these steps (`specs/Calls.antt`); the rules of mailbox and
//! pair tell what an end cannot see. Which steps a step of the builder's work is stands in `specs/Works.antt`, and
//! which a turn of a session is in `specs/Turns.antt`. The crate stands on those crates, on `live_session` and on
//! `world_core`. Which steps a run takes, and in which order, is left to the threads.
//!
//! ```text
//! [SendEntry(1), DrawEntry, Publish, Tell(0), Look(0, count)]  // the builder's batch is 1
//! [Push(1), Pop, Publish, Tell(0), Look(0, count)]             // the events of these steps
//! ```
#![tactic(auto)]

mod calls;
mod laws;
mod step;

pub use calls::{
    ask_step, draw_step, end_step, learn_end_step, learn_step, look_step, put_step, send_step,
    take_step, tell_step,
};
pub use laws::run_laws;
pub use step::Step;
