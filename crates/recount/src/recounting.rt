//! The audit of a session's transcript, from files.
ghost use Rattle.std.specs.Prelude.{◌≤◌, length};
ghost use Rattle.run_files.specs.Outside.{of_place, of_sink};
ghost use Rattle.recount.specs.Ends.{RecountEnds};
ghost use Rattle.recount.specs.Names.{audit_names};
ghost use Rattle.recount.specs.AuditTexts.{AreShort};
ghost use Rattle.recount.specs.Said.{AuditsTexts};

use crate::audit::audit_of;
use crate::checking::check;
use crate::saying::say_verdict;
use crate::text_reading::{Texts, read_texts};
use crate::{Audit, RecountNames};
use cube_schema::Plan;
use outer_io::{Place, Sink};
use run_files::{Stop, load_plan};
use std::alloc::Global;
use texts::NoMemory;

/// Decides whether the texts agree, for as many feeders as the plan has feeds, and says so.
fn audit_texts<O: Sink>(
    alloc: Global,
    plan: &Plan,
    texts: &Texts,
    out: &mut O,
) -> Result<Audit, Stop>
    requires feeds { length plan.now.feeds ≤ 8 }
    requires short { AreShort texts.now.journal texts.now.script texts.now.replies }
    ensures { AuditsTexts (of_sink O.Sink) out.old out.new plan.now texts.now result }
{
    let feeders = plan.feeds.len() as u8;
    let (journal, script) = (texts.journal.as_slice(), texts.script.as_slice());
    match check(
        alloc,
        &plan.schema,
        feeders,
        journal,
        script,
        texts.replies.as_slice(),
    ) {
        Ok(verdict) => {
            say_verdict(alloc, verdict, out)?;
            Ok(audit_of(verdict))
        }
        Err(NoMemory) => Err(Stop::NoMemory),
    }
}

/// Audits one session's transcript. The plan is read first, and then the journal, the script and the replies are read
/// whole, in order; nothing is created. One line is put, which says whether they agree. The first trouble ends the
/// audit: a plan that is refused has its line, and a text of more than 2^30 bytes counts as a feed that is refused.
pub fn recount_files<P: Place, O: Sink>(
    alloc: Global,
    names: &RecountNames<'_>,
    place: &mut P,
    out: &mut O,
) -> Result<Audit, Stop>
    ensures { RecountEnds (of_place P.Place) (of_sink O.Sink) place.old place.new out.old out.new (audit_names names.now) result }
{
    let plan = load_plan(alloc, names.plan, place, out)?;
    let texts = read_texts(alloc, names, place)?;
    audit_texts(alloc, &plan, &texts, out)
}
