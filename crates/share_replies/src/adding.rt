//! The replies of shares added, from files.
ghost use Rattle.std.specs.Prelude.{◌≡◌, ℕ, ◌<◌, ◌++◌, [], ◌∷◌, Err, List, IfOk, OnOk, length, map, string_bytes};
ghost use Rattle.cube_view.specs.declared.schema.Schema.{Schema};
ghost use Rattle.query_syntax.specs.declared.query.Parsed.{Parsed};
ghost use Rattle.run_files.specs.Outside.{of_place, of_sink};
ghost use Rattle.run_files.specs.Saying.{SaysText};
ghost use Rattle.share_replies.specs.Causes.{EndsByFiles, LeavesSink, OpensShares, ReadsReplies};
ghost use Rattle.share_replies.specs.Ends.{AddsUpFiles, AreSumsOver, OutcomeOver, SaysWrong, SaysShares, SaysSums, SumsOfFiles, given_names};
ghost use Rattle.share_replies.specs.Refusals.{DecidesScript};
ghost use Rattle.share_replies.specs.Shares.{Share};
ghost use Rattle.share_replies.specs.Sums.{IsInnocentShares};
ghost use Rattle.share_replies.specs.declared.fault.SharesFault.{SharesFault};
ghost use Rattle.share_replies.specs.declared.fault.WrongReply.{WrongReply};
ghost use Rattle.share_replies.specs.Texts.{share_line, wrong_line, wrong_reply_text};

use crate::fault::{SharesFault, WrongReply};
use crate::files::{add_files, read_text};
use crate::first::first_sums;
use crate::put::put_sums;
use crate::summed::Summed;
use cube_view::Schema;
use outer_io::{Place, Sink};
use recount::asked_of;
use run_files::{Stop, load_plan, put_text};
use std::alloc::{AllocError, Global};
use texts::List;

/// The names of the plan, the script, and the replies of each share.
#[derive(Clone, Copy)]
pub struct ShareNames<'a> {
    pub plan: &'a str,
    pub script: &'a str,
    pub replies: &'a [String],
}

/// Whether the replies of shares were added, or a line of a share was refused.
#[derive(Clone, Copy, PartialEq, Eq, Debug)]
pub enum Outcome {
    Added,
    Refused(WrongReply),
}

/// The name of what is wrong with a reply.
pub fn why_name(why: WrongReply) -> &'static str
    ensures { result.now ≡ wrong_reply_text why }
{
    match why {
        WrongReply::TooFew => "TooFew",
        WrongReply::TooMany => "TooMany",
        WrongReply::NotReply => "NotReply",
        WrongReply::OtherRows => "OtherRows",
        WrongReply::TooGreat => "TooGreat",
    }
}

// Appends the line that says which reply of a share is wrong.
#[tactic(auto, unfolding(crate::specs::Texts::share_line))]
fn push_share_line(text: &mut String, name: &str, line: u64, why: &str) -> Result<(), AllocError>
    ensures { OnOk result (string_bytes text.new ≡ string_bytes text.old ++ share_line name.now line why.now) }
{
    write!(text, "share {name}: reply {line}: {why}\n")
}

/// The line that says which reply of a share is wrong, by the share's name, the line's number from 1 and a name of why.
pub fn share_line(alloc: Global, name: &str, line: u64, why: &str) -> Result<String, AllocError>
    ensures { IfOk result (λ text. string_bytes text ≡ share_line name.now line why.now) }
{
    let mut text = String::new(alloc);
    push_share_line(&mut text, name, line, why)?;
    Ok(text)
}

// Says so.
fn refuse<O: Sink>(
    alloc: Global,
    name: &str,
    line: u64,
    why: WrongReply,
    out: &mut O,
) -> Result<Outcome, Stop>
    ensures outcome { IfOk result (λ outcome. outcome ≡ Outcome.Refused why) }
    ensures says { SaysText (of_sink O.Sink) out.old out.new (wrong_line name.now line why) result }
{
    let Ok(text) = share_line(alloc, name, line, why_name(why)) else {
        return Err(Stop::NoMemory);
    };
    put_text(text.as_str().as_bytes(), out)?;
    Ok(Outcome::Refused(why))
}

// The sums of the replies of all shares to what the script asks.
fn sums_of<P: Place>(
    alloc: Global,
    schema: &Schema,
    names: &ShareNames<'_>,
    place: &mut P,
) -> Result<List<Option<Summed>>, SharesFault>
    ensures law { SumsOfFiles schema.now (P.files place.old) (given_names names.now) result }
    ensures decides { DecidesScript schema.now (P.files place.old) names.now.script.now (map string_bytes names.now.replies.now) result }
    ensures share { (k line : ℕ) (why : WrongReply) → result ≡ Err (SharesFault.Wrong k line why) → k < length names.now.replies.now }
    ensures stage { ReadsReplies (of_place P.Place) place.old place.new (names.now.script.now ∷ []) (map string_bytes names.now.replies.now) result }
    ensures files { P.files place.new ≡ P.files place.old }
{
    let script = match read_text(alloc, names.script, place) {
        Ok(script) => script,
        Err(stop) => return Err(SharesFault::Stopped(stop)),
    };
    let Ok(asked) = asked_of(alloc, schema, script.as_slice()) else {
        return Err(SharesFault::Stopped(Stop::NoMemory));
    };
    let Ok(first) = first_sums(alloc, schema, asked.as_slice()) else {
        return Err(SharesFault::Stopped(Stop::NoMemory));
    };
    add_files(alloc, asked.as_slice(), first, names.replies, place)
}

// Says what is wrong with a share, if a share is.
fn say_fault<O: Sink>(
    alloc: Global,
    replies: &[String],
    fault: SharesFault,
    out: &mut O,
) -> Result<Outcome, Stop>
    requires share { (k line : ℕ) (why : WrongReply) → fault ≡ SharesFault.Wrong k line why → k < length replies.now }
    ensures says { SaysWrong (of_sink O.Sink) out.old out.new (map string_bytes replies.now) fault result }
    ensures law { (z : Schema) (s : Share) (ps : List Parsed) → IsInnocentShares fault → IfOk result (OutcomeOver z ps s (O.held out.old) (O.held out.new)) }
{
    match fault {
        SharesFault::Stopped(stop) => Err(stop),
        SharesFault::Wrong(share, line, why) => {
            refuse(alloc, replies[share].as_str(), line, why, out)
        }
    }
}

// Puts the lines of the sums, or says what is wrong with a share.
fn put_outcome<O: Sink>(
    alloc: Global,
    replies: &[String],
    sums: Result<List<Option<Summed>>, SharesFault>,
    out: &mut O,
) -> Result<Outcome, Stop>
    requires share { (k line : ℕ) (why : WrongReply) → sums ≡ Err (SharesFault.Wrong k line why) → k < length replies.now }
    ensures says { SaysSums (of_sink O.Sink) out.old out.new (map string_bytes replies.now) sums result }
    ensures law { (z : Schema) (s : Share) (ps : List Parsed) → AreSumsOver z s ps sums → IfOk result (OutcomeOver z ps s (O.held out.old) (O.held out.new)) }
{
    let sums = match sums {
        Ok(sums) => sums,
        Err(fault) => return say_fault(alloc, replies, fault, out),
    };
    put_sums(alloc, sums.as_slice(), out)?;
    Ok(Outcome::Added)
}

/// Adds the replies to one script of shares, and puts the replies over all of them.
///
/// The plan is read first, then the script, and then the replies of each share, whole, one file after another; one that
/// could not be read is the last that is opened, and nothing is put before all were added. Where each file of replies
/// is the final transcript of the script over a list of points, what is put is the final transcript over the lists
/// joined, with a line of its own for what does not add up. The first line of a share that is wrong is named on `out`,
/// and nothing else is put. A script or replies of more than 2^30 bytes are refused as a feed is. Where a put fails, or
/// memory runs out after all were added, a part of this was put, from the front.
pub fn add_shares<P: Place, O: Sink>(
    alloc: Global,
    names: &ShareNames<'_>,
    place: &mut P,
    out: &mut O,
) -> Result<Outcome, Stop>
    ensures law { AddsUpFiles (P.files place.old) (given_names names.now) (O.held out.old) (O.held out.new) result }
    ensures shares { IfOk result (SaysShares (of_sink O.Sink) out.old out.new (P.files place.old) (given_names names.now)) }
    ensures causes { EndsByFiles (P.files place.old) (given_names names.now) result }
    ensures opens { OpensShares (of_place P.Place) place.old place.new (given_names names.now) result }
    ensures sink { LeavesSink (of_sink O.Sink) out.old out.new (P.files place.old) (given_names names.now) result }
    ensures files { P.files place.new ≡ P.files place.old }
{
    let plan = load_plan(alloc, names.plan, place, out)?;
    let sums = sums_of(alloc, &plan.schema, names, place);
    put_outcome(alloc, names.replies, sums, out)
}
