//! Replies.
use cube_view::Stat;
use query_syntax::{QueryFault, Table};

/// What is answered to a query: a table, the structure's numbers and how many records it has seen, how
/// many records were told, a fault and the number of its word from 1, or that memory ran out.
#[derive(Drop)]
pub enum Reply {
    Table(Table),
    Stat(Stat, u64),
    Told(u64),
    Fault(QueryFault, u32),
    NoMemory,
}

/// Why bytes are not read as a reply: they are the text of none, or memory ran out.
#[derive(Clone, Copy, PartialEq, Eq, Debug)]
pub enum ReplyFault {
    NotReply,
    NoMemory,
}
