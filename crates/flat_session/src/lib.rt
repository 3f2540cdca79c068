//! Sessions. Scripts answered line by line over points in path order, without a cube.
//!
//! [`answer_flat`] answers the lines of a script up to its first `quit`, in a sink: each by the line that
//! `session_core` defines over all points, of which each was told. `stat` alone has a line of its own, which says that
//! there is no cube.
//! What is answered to a line is defined in `specs/Answers.antt`, and what a script puts in `specs/Putting.antt`.
//!
//! The crate stands on `flat_view` and `flat_tables` for the points and the tables over them, and on `session_core` for
//! what a line means and for every reply that is no table. Which script is opened, and what its end means to a program,
//! is left to the crates above.
//!
//! ```text
//! let (source, answered) = answer_flat(&rt, alloc, &view, source, &mut sink);
//! // of the script "told\nstat\n", over three points: {"told":3} and {"fault":"NoCube"}
//! ```
#![tactic(auto)]

mod answering;
mod serving;

pub use answering::answer_flat;
