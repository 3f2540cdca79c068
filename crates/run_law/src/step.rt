//! What happens in a run, one step at a time. No value of a step is ever made.

use query_syntax::Query;

/// A step of a run. Feeders are numbered from 1 and sessions from 0. A feeder sends an entry or its End, and an entry
/// or an End is drawn. The builder takes an item, and keeps it or publishes. A session is told of the published list;
/// that is put into its mailbox, which the session empties, and learns what was there. It looks, with the query of its
/// line. The publisher ends, with what is pending published or with nothing pending, and a session learns of the end. A
/// step `Rest` changes nothing that the ends show.
pub enum Step {
    SendEntry(u8),
    SendEnd(u8),
    DrawEntry,
    DrawEnd,
    Keep,
    Publish,
    Tell(u32),
    PutMail(u32),
    TakeMail(u32),
    Learn(u32),
    Look(u32, Query),
    EndPublishing,
    End,
    LearnEnd(u32),
    Rest,
}
