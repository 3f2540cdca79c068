//! A sum of replies.
ghost use Rattle.std.specs.Prelude.{IsTrue};
ghost use Rattle.reply_json.specs.Validity.{is_valid_reply};

use reply_json::Reply;

/// The sum of the replies of shares to one question, which can be printed.
#[derive(Drop)]
pub struct Summed {
    pub(crate) reply: Reply,
    ghost printable: { IsTrue (is_valid_reply reply) },
}
