//! The audit of three texts.
ghost use Rattle.std.specs.Prelude.{◌≡◌, ◌≤◌, ◌<◌, ◌^◌, ◌↔◌, All, length, IsTrue, IfOk};
ghost use Rattle.cube_view.specs.Bag.{most_points};
ghost use Rattle.cube_view.specs.Validity.{sound};
ghost use Rattle.query_syntax.specs.Meaning.{asks_valid};
ghost use Rattle.recount.specs.Agreement.{IsAgreement};
ghost use Rattle.recount.specs.Verdicts.{HasReplyVerdict, HasVerdict, IsAgree};
ghost use Rattle.recount.specs.declared.verdict.Verdict.{Verdict};

use crate::asked::asked_of;
use crate::journal::{JournalRead, read_journal};
use crate::testing::{Marks, Tested, test_next};
use crate::{Verdict, Why};
use cube_view::{Point, Schema};
use feed_queue::journal_laws;
use query_syntax::Parsed;
use std::alloc::Global;
use texts::NoMemory;

/// The verdict on the replies, which should answer what was asked over the points of a journal.
fn check_replies(
    alloc: Global,
    schema: &Schema,
    points: &[Point],
    asked: &[Parsed],
    replies: &[u8],
) -> Result<Verdict, NoMemory>
    requires few { length points.now < most_points }
    requires sound { All (λ p. IsTrue (sound schema.now p)) points.now }
    requires valid { All (λ p. IsTrue (asks_valid schema.now p)) asked.now }
    ensures { IfOk result (HasReplyVerdict schema.now points.now asked.now replies.now) }
{
    let mut marks = Marks { seen: 0, told: 0 };
    let mut without = 0u64;
    let mut rest = replies;
    'replies: for (i, parsed) in asked.iter().enumerate() {
        let place = i as u64 + 1;
        if rest.is_empty() {
            return Ok(Verdict::Replies(place, Why::TooFew));
        }
        match test_next(alloc, schema, points, &mut marks, parsed, rest)? {
            Tested::Agrees(more, lacks) => {
                rest = more;
                without += lacks;
            }
            Tested::Fails(why) => return Ok(Verdict::Replies(place, why)),
        }
    }
    let number = asked.len() as u64;
    if rest.is_empty() {
        Ok(Verdict::Agree {
            replies: number,
            without,
        })
    } else {
        Ok(Verdict::Replies(number + 1, Why::TooMany))
    }
}

/// The verdict on three texts, of which the journal is of so many feeders: `Agree` exactly where they agree, and each
/// other verdict exactly where its test is the first that holds, the journal first. It takes a scan of the points that
/// each table has seen, and room for the points of the journal, for what the script asks and for a table. Each text has
/// at most 2^30 bytes, and there are 1 to 8 feeders.
pub fn check(
    alloc: Global,
    schema: &Schema,
    feeders: u8,
    journal: &[u8],
    script: &[u8],
    replies: &[u8],
) -> Result<Verdict, NoMemory>
    requires { (length journal.now ≤ 2 ^ 30) × (length script.now ≤ 2 ^ 30) }
    ensures decided { IfOk result (HasVerdict schema.now feeders journal.now script.now replies.now) }
    ensures only { IfOk result (λ v. (w : Verdict) → HasVerdict schema.now feeders journal.now script.now replies.now w → w ≡ v) }
    ensures agrees { IfOk result (λ v. IsAgree v ↔ IsAgreement schema.now feeders journal.now script.now replies.now) }
{
    journal_laws();
    match read_journal(alloc, schema, feeders, journal)? {
        JournalRead::Differs(line, why) => Ok(Verdict::Journal(line, why)),
        JournalRead::Points(points) => {
            let asked = asked_of(alloc, schema, script)?;
            check_replies(alloc, schema, points.as_slice(), asked.as_slice(), replies)
        }
    }
}
