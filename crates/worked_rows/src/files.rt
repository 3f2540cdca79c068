//! The files of a case, and the top call over them.
ghost use Rattle.std.specs.Prelude.{◌≢◌};

use crate::draft::Draft;
use anyhow::{Result, bail};
use outer_io::{MemPlace, MemSink, StillPlace, StillSink};
use std::alloc::Global;
use std::sync::Wait;
use std::thread::Threads;
use texts::{List, NoMemory};
use top_call::{Status, nanocube};

/// The files of a case: those of which calls may fail, or those of which none does.
#[derive(Drop)]
pub(crate) enum Files {
    Failing(MemPlace),
    Still(StillPlace),
}

/// What a call without memory gives as an error of the program.
pub(crate) fn stored<T: Drop>(outcome: Result<T, NoMemory>) -> Result<T> {
    match outcome {
        Ok(value) => Ok(value),
        Err(NoMemory) => bail!("out of memory"),
    }
}

/// The status of the words over files and an output of which calls may fail. It promises nothing, so that what calls it
/// is not proved with the whole claim in view.
fn failing_status<R: AllocGlobal + Threads + Wait + Sync>(
    rt: &R,
    words: &[String],
    place: &mut MemPlace,
    out: &mut MemSink,
) -> Status {
    nanocube(rt, words, place, out)
}

/// The status of the words over files and an output that cannot fail: no fault of the outside.
fn still_status<R: AllocGlobal + Threads + Wait + Sync>(
    rt: &R,
    words: &[String],
    place: &mut StillPlace,
    out: &mut StillSink,
) -> Status
    ensures read { result ≢ Status.ReadFault }
    ensures write { result ≢ Status.WriteFault }
{
    nanocube(rt, words, place, out)
}

/// The status of the words over the files, and what they put to an output of which the puts of these numbers fail.
pub(crate) fn run<R: AllocGlobal + Threads + Wait + Sync>(
    rt: &R,
    files: &mut Files,
    words: &[String],
    fails: List<u32>,
) -> Result<(Status, Vec<u8>)> {
    match files {
        Files::Failing(place) => {
            let mut out = MemSink::new(rt.alloc(), fails);
            let status = failing_status(rt, words, place, &mut out);
            Ok((status, Vec::from_slice(rt.alloc(), out.bytes())?))
        }
        Files::Still(place) => {
            let mut out = StillSink::new(rt.alloc());
            let status = still_status(rt, words, place, &mut out);
            Ok((status, Vec::from_slice(rt.alloc(), out.bytes())?))
        }
    }
}

impl Files {
    /// Puts the file in.
    pub(crate) fn put(&mut self, draft: Draft) -> Result<()> {
        let Draft {
            name,
            bytes,
            piece,
            fails,
        } = draft;
        let bytes = List::from_vec(bytes);
        stored(match self {
            Files::Failing(place) => place.put_file(name.as_str(), bytes, piece, fails),
            Files::Still(place) => place.put_file(name.as_str(), bytes, piece),
        })
    }

    /// The bytes of the named file, if it is there.
    pub(crate) fn file(&self, name: &str) -> Option<&[u8]> {
        match self {
            Files::Failing(place) => place.file(name),
            Files::Still(place) => place.file(name),
        }
    }

    /// The next such call on the name fails.
    pub(crate) fn fail(&mut self, call: &str, name: &str) -> Result<()> {
        let Files::Failing(place) = self else {
            bail!("no call on these files fails");
        };
        stored(match call {
            "open" => place.fail_open(name),
            "create" => place.fail_create(name),
            "give_back" => place.fail_give_back(name),
            _ => bail!("{call:?} is no call"),
        })
    }

    /// The puts of these numbers into the named file fail.
    pub(crate) fn fail_puts(&mut self, name: &str, fails: List<u32>) -> Result<()> {
        let Files::Failing(place) = self else {
            bail!("no call on these files fails");
        };
        stored(place.set_out_fails(name, fails))
    }

    /// No files, of which calls may fail.
    pub(crate) fn failing(alloc: Global) -> Files {
        Files::Failing(MemPlace::new(alloc))
    }

    /// No files, of which no call fails.
    pub(crate) fn still(alloc: Global) -> Files {
        Files::Still(StillPlace::new(alloc))
    }
}
