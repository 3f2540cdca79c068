//! The sums before any share.
ghost use Rattle.std.specs.Prelude.{◌≡◌, All, IfOk, IsTrue, length};
ghost use Rattle.query_syntax.specs.Meaning.{asks_valid};
ghost use Rattle.share_replies.specs.Shares.{nothing};
ghost use Rattle.share_replies.specs.Sums.{IsSumOver, SumsOver};

use crate::summed::Summed;
use cube_view::Schema;
use query_syntax::Parsed;
use reply_sums::{adds_up, reply_over_none};
use std::alloc::Global;
use texts::{List, NoMemory};

/// The sum of no replies to what was asked; none where replies do not add up.
pub fn first_sum(alloc: Global, schema: &Schema, asked: &Parsed) -> Result<Option<Summed>, NoMemory>
    requires valid { IsTrue (asks_valid schema.now asked.now) }
    ensures sum { IfOk result (IsSumOver schema.now nothing asked.now) }
{
    if !adds_up(asked) {
        return Ok(None);
    }
    let reply = reply_over_none(alloc, schema, asked)?;
    Ok(Some(Summed { reply }))
}

/// The sums of no replies, one for each that was asked.
pub fn first_sums(
    alloc: Global,
    schema: &Schema,
    asked: &[Parsed],
) -> Result<List<Option<Summed>>, NoMemory>
    requires valid { All (λ p. IsTrue (asks_valid schema.now p)) asked.now }
    ensures sums { IfOk result (SumsOver schema.now nothing asked.now) }
    ensures size { IfOk result (λ sums. length sums ≡ length asked.now) }
{
    let mut sums = List::new(alloc);
    for i in 0..asked.len() {
        let sum = first_sum(alloc, schema, &asked[i])?;
        sums.add(sum)?;
    }
    Ok(sums)
}
