//! The next line of the replies.
ghost use Rattle.std.specs.Prelude.{IfOk, IfSome, IfNone};
ghost use Rattle.recount.specs.Comparing.{ReadsReply};
ghost use Rattle.recount.specs.Faults.{BeginsWithReply};
ghost use Rattle.reply_json.specs.declared.reply.Reply.{Reply};

use crate::lines::first_line;
use reply_json::{Reply, ReplyFault, read_reply};
use std::alloc::Global;
use texts::NoMemory;

/// The reply of a line, the line with its line feed, and what follows it.
#[derive(Drop)]
pub struct NextReply<'a> {
    pub reply: Reply,
    pub line: &'a [u8],
    pub rest: &'a [u8],
}

/// The reply of the first line of a text, if the text begins with one.
pub fn next_reply(alloc: Global, text: &[u8]) -> Result<Option<NextReply<'_>>, NoMemory>
    ensures some { IfOk result (λ next. IfSome next (λ n. ReadsReply text.now n.reply n.line.now n.rest.now)) }
    ensures none { IfOk result (λ next. IfNone next ((reply : Reply) → ¬ BeginsWithReply text.now reply)) }
{
    match first_line(text) {
        None => Ok(None),
        Some(first) => match read_reply(alloc, first.line) {
            Ok(reply) => Ok(Some(NextReply {
                reply,
                line: first.whole,
                rest: first.rest,
            })),
            Err(ReplyFault::NotReply) => Ok(None),
            Err(ReplyFault::NoMemory) => Err(NoMemory),
        },
    }
}
