//! Text. Replies: what is answered to a query, as one line of compact JSON, printed and read.
//!
//! [`print_reply_in`] writes the text of a reply, which `specs/Printed.antt` defines, and [`read_reply`] reads exactly
//! these texts. Tables and faults come from `query_syntax`, digits from the kit's `itoa`, the escapes of a text from
//! its `json`, and what is read from its `serde_json`. Which reply a line gets is for `session_core`.
//!
//! ```
//! let reply = read_reply(alloc, br#"{"told":7}"#)?;
//! assert!(matches!(reply, Reply::Told(7)));
//! assert_eq!(print_reply(alloc, &reply)?.as_slice(), br#"{"told":7}"#);
//! ```
#![tactic(auto)]

mod plain;
mod printing;
mod put;
mod reading;
mod reply;
mod rows;
mod validity;

pub use printing::{NO_MEMORY_LINE, no_memory_line, print_reply, print_reply_in};
pub use reading::read_reply;
pub use reply::{Reply, ReplyFault};
pub use validity::is_valid_reply;
