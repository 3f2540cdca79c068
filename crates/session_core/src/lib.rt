//! Sessions. Scripts answered line by line over a cube view.
//!
//! [`next_asked`] says what the next line means, [`serve`] answers it, [`serve_unseen`] where it asks for no look at
//! the view, and [`answer_lines`] and [`answer_script`] answer the lines of a script up to its first `quit`, in a sink.
//! What a script asks is defined in `specs/Asked.antt`, and what is answered to it, its transcript, in
//! `specs/Transcript.antt`. Lines are cut by `outer_io` and read by `query_syntax`, tables are counted by `tile_drill`,
//! `window_cover` and `cross_table`, and replies printed by `reply_json`. Which script is opened, what its end means to
//! a program, and sessions over a view that grows are left to the crates above.
//!
//! ```
//! let (source, answered) = answer_script(alloc, &cube, cube.seen(), source, &mut sink);
//! assert!(answered.end == Ok(()) && !answered.lacked);
//! // of the script "told\nquit\n", over a cube of three points:
//! assert_eq!(sink.bytes(), b"{\"told\":3}\n");
//! ```
#![tactic(auto)]

mod answering;
mod asking;
mod fault;
mod serving;

pub use answering::{ScriptEnd, answer_lines, answer_script};
pub use asking::next_asked;
pub use fault::SessionFault;
pub use serving::{Served, serve, serve_unseen};
