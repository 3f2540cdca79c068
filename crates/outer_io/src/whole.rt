//! A source read whole, up to a limit.
ghost use Rattle.std.specs.Prelude.{◌≡◌, ◌+◌, ◌<◌, ◌≤◌, length, take, IfOk, OnErr};
ghost use Rattle.outer_io.specs.Bytes.{Adds, IsAtEnd, Takes, TakesSome};
ghost use Rattle.outer_io.specs.Faults.{HasCause};
ghost use Rattle.outer_io.specs.Told.{Told};

use crate::{IoFault, Source};
use std::alloc::Global;
use texts::{List, put};

/// The most bytes that are asked for at once.
const CHUNK_LEN: usize = 4096;

/// Adds what one read gives, at most `room` bytes, at the end, and says how many there were.
fn read_more<S: Source>(source: &mut S, bytes: &mut Vec<u8>, room: usize) -> Result<usize, IoFault>
    requires room { 0 < room }
    requires chunk { room ≤ 4096 }
    ensures more { IfOk result (Adds (S.left source.old) (S.left source.new) bytes.old.items bytes.new.items) }
    ensures end { IfOk result (λ n. n ≡ 0 → IsAtEnd (S.left source.old)) }
    ensures within { IfOk result (λ n. n ≤ room) }
    ensures cause { HasCause (S.faults source.old) (S.faults source.new) result IoFault.Failed }
    ensures part { OnErr result (TakesSome (S.left source.old) (S.left source.new)) }
{
    let mut chunk = [0u8; CHUNK_LEN];
    let buf = &mut chunk[..room];
    let Ok(n) = source.read(buf) else {
        return Err(IoFault::Failed);
    };
    put(bytes, &buf[..n])?;
    Ok(n)
}

/// All bytes that are left, or the first `most + 1` of them where there are more. After a fault some of them were
/// taken.
pub fn read_up_to<S: Source>(
    alloc: Global,
    source: &mut S,
    most: usize,
) -> Result<List<u8>, IoFault>
    ensures read { IfOk result (λ bytes. Told (S.left source.old) (λ all. bytes ≡ take (most + 1) all)) }
    ensures taken { IfOk result (Takes (S.left source.old) (S.left source.new)) }
    ensures size { IfOk result (λ bytes. length bytes ≤ most + 1) }
    ensures cause { HasCause (S.faults source.old) (S.faults source.new) result IoFault.Failed }
    ensures part { OnErr result (TakesSome (S.left source.old) (S.left source.new)) }
{
    let mut bytes = Vec::new(alloc);
    'reads: loop {
        if bytes.len() > most {
            return Ok(List::from_vec(bytes));
        }
        let room = (most - bytes.len()).min(CHUNK_LEN - 1) + 1;
        let n = read_more(source, &mut bytes, room)?;
        if n == 0 {
            return Ok(List::from_vec(bytes));
        }
    }
}
