//! The feeds of a run: opened in order, and the header of each one read before the next is opened.
ghost use Rattle.std.specs.Prelude.{◌≡◌, ◌≢◌, ◌+◌, ◌≤◌, [], ◌∷◌, Err, All, IfOk, IfErr, OnOk, length, vec_len, vec_capacity};
ghost use Rattle.std.specs.Result.{result_err};
ghost use Rattle.outer_io.specs.Faults.{Rose};
ghost use Rattle.run_files.specs.Lines.{head_line};
ghost use Rattle.run_files.specs.Headed.{AreHeaded, IsHeaded, MeetsHeadFault, OpensFeeds, ReadsHead, SaysHeadFault};
ghost use Rattle.run_files.specs.Outside.{at, FailsToPut, file_of, of_place, of_sink, Puts, Silent};
ghost use Rattle.run_files.specs.Saying.{SaysText};

use crate::giving_back::give_back_feeds;
use crate::saying::put_text;
use crate::{Stop, header_refused};
use cube_view::Schema;
use feed_reader::{FeedJob, HeadFault, NoHeader, read_header};
use outer_io::{IoFault, LineCutter, Place, Sink, Source};
use std::alloc::Global;
use texts::{List, Text};

// A cutter over the source, and the header in its first line. With a fault the source comes back.
fn read_head<S: Source>(
    alloc: Global,
    schema: &Schema,
    source: S,
) -> Result<FeedJob<S>, (S, NoHeader)>
    ensures head { IfOk result (ReadsHead S.left S.faults schema.now source) }
    ensures quiet { IfOk result (λ feed. S.faults feed.cutter.source ≡ S.faults source) }
    ensures of_line { IfErr result (λ e. e.1 ≢ NoHeader.Refused HeadFault.NoMemory) }
    ensures refused { IfErr result (λ e. (fault : HeadFault) → e.1 ≡ NoHeader.Refused fault → MeetsHeadFault schema.now (S.left source) fault) }
    ensures read { IfErr result (λ e. e.1 ≡ NoHeader.Read → Rose (S.faults source) (S.faults e.0)) }
    ensures else_quiet { IfErr result (λ e. e.1 ≢ NoHeader.Read → S.faults e.0 ≡ S.faults source) }
{
    let mut cutter = match LineCutter::new(alloc, source) {
        Ok(cutter) => cutter,
        Err(source) => return Err((source, NoHeader::NoMemory)),
    };
    match read_header(alloc, schema, &mut cutter) {
        Ok(header) => Ok(FeedJob { cutter, header }),
        Err(fault) => Err((cutter.into_source(), fault)),
    }
}

// Puts the line of a feed that is refused, and says how the run ends where that fails.
fn say_header<O: Sink>(
    alloc: Global,
    schema: &Schema,
    name: &str,
    fault: HeadFault,
    out: &mut O,
) -> Result<(), Stop>
    ensures { SaysText (of_sink O.Sink) out.old out.new (head_line schema.now name.now fault) result }
{
    let Ok(line) = header_refused(alloc, schema, name, fault) else {
        return Err(Stop::NoMemory);
    };
    put_text(line.as_slice(), out)
}

// How the run ends where the feed of that name has no header, which is said where it is refused.
fn end_of_head<O: Sink>(
    alloc: Global,
    schema: &Schema,
    name: &str,
    fault: NoHeader,
    out: &mut O,
) -> Stop
    ensures refused { result ≡ Stop.FeedRefused → SaysHeadFault schema.now name.now fault (Puts (of_sink O.Sink) out.old out.new) }
    ensures unsaid { result ≡ Stop.WriteFault → SaysHeadFault schema.now name.now fault (FailsToPut (of_sink O.Sink) out.old out.new) }
    ensures read { (result ≡ Stop.ReadFault → fault ≡ NoHeader.Read) × (fault ≡ NoHeader.Read → result ≡ Stop.ReadFault) }
    ensures silent { result ≢ Stop.FeedRefused → result ≢ Stop.WriteFault → Silent (of_sink O.Sink) out.old out.new }
    ensures ends { result ≢ Stop.PlanRefused }
{
    match fault {
        NoHeader::Refused(fault) => match say_header(alloc, schema, name, fault, out) {
            Ok(()) => Stop::FeedRefused,
            Err(stop) => stop,
        },
        NoHeader::Read => Stop::ReadFault,
        NoHeader::NoMemory => Stop::NoMemory,
    }
}

// The feed of that name with its header read, or how the run ends, its source given back.
fn open_feed<P: Place, O: Sink>(
    alloc: Global,
    schema: &Schema,
    name: &str,
    place: &mut P,
    out: &mut O,
) -> Result<FeedJob<P::In>, Stop>
    ensures opens { OpensFeeds (of_place P.Place) (of_sink O.Sink) schema.now (at place.old out.old) (at place.new out.new) (name.now ∷ []) (result_err result) }
    ensures feed { IfOk result (IsHeaded P.In.left P.In.faults schema.now (file_of (P.files place.old) name.now)) }
    ensures quiet { IfOk result (λ feed. P.In.faults feed.cutter.source ≡ 0) }
{
    match place.open(name) {
        Ok(source) => match read_head(alloc, schema, source) {
            Ok(feed) => Ok(feed),
            Err((source, fault)) => {
                place.give_back_in(source);
                Err(end_of_head(alloc, schema, name, fault, out))
            }
        },
        Err(IoFault::Failed) => Err(Stop::ReadFault),
        Err(IoFault::NoMemory) => Err(Stop::NoMemory),
    }
}

// Opens the feeds of those names, each with its header read, into a list that has room for them.
fn open_each<P: Place, O: Sink>(
    alloc: Global,
    schema: &Schema,
    names: &[Text],
    place: &mut P,
    out: &mut O,
    feeds: &mut Vec<FeedJob<P::In>>,
) -> Result<(), Stop>
    requires empty { (feeds.old.items ≡ []) × (vec_len feeds.old ≡ 0) }
    requires room { length names.now ≤ vec_capacity feeds.old }
    ensures opens { OpensFeeds (of_place P.Place) (of_sink O.Sink) schema.now (at place.old out.old) (at place.new out.new) names.now (result_err result) }
    ensures feeds { OnOk result (AreHeaded P.In.left P.In.faults schema.now (P.files place.old) names.now feeds.new.items) }
    ensures quiet { All (λ feed. P.In.faults feed.cutter.source ≡ 0) feeds.new.items }
{
    for name in names {
        let feed = open_feed(alloc, schema, name.as_str(), place, out)?;
        feeds.push_reserved(feed);
    }
    Ok(())
}

/// The feeds of those names, opened in order, the header of each one read before the next is opened; or how the run
/// ends, by the first trouble, with all that was opened given back. Of a feed that is refused one line is put, `feed
/// NAME: FAULT`.
pub fn open_feeds<P: Place, O: Sink>(
    alloc: Global,
    schema: &Schema,
    names: &[Text],
    place: &mut P,
    out: &mut O,
) -> Result<List<FeedJob<P::In>>, Stop>
    ensures opens { OpensFeeds (of_place P.Place) (of_sink O.Sink) schema.now (at place.old out.old) (at place.new out.new) names.now (result_err result) }
    ensures feeds { IfOk result (AreHeaded P.In.left P.In.faults schema.now (P.files place.old) names.now) }
    ensures quiet { IfOk result (All (λ feed. P.In.faults feed.cutter.source ≡ 0)) }
{
    let Ok(mut feeds) = Vec::with_capacity(alloc, names.len()) else {
        return Err(Stop::NoMemory);
    };
    match open_each(alloc, schema, names, place, out, &mut feeds) {
        Ok(()) => Ok(List::from_vec(feeds)),
        Err(stop) => {
            give_back_feeds(place, feeds);
            Err(stop)
        }
    }
}
