//! What lists, sources and sinks in memory give.
use crate::shared::{bytes, number};
use outer_io::{
    Failed, IoFault, MemSink, MemSource, Sink, Source, StillSink, StillSource, read_up_to,
};
use std::alloc::{AllocError, Global};
use texts::List;

/// What comes off a list of 1 and 2 in three times; none where they had no room.
fn three_off(alloc: Global) -> Option<[Option<u8>; 3]> {
    let mut list = List::new(alloc);
    if list.reserve(2).is_ok() && list.push(1).is_ok() && list.push(2).is_ok() {
        Some([list.pop(), list.pop(), list.pop()])
    } else {
        None
    }
}

#[test]
fn items_come_off_from_the_last_on(rt: HostRuntime) {
    assert_eq!(rt; three_off(rt.alloc()), Some([Some(2), Some(1), None]));
}

/// A source of six bytes, in pieces, whose reads of those numbers fail. The number 0 is no call's.
fn six_bytes(alloc: Global, piece: usize, fails: &[u32]) -> Result<MemSource, AllocError> {
    let fails = List::from_vec(fails.to_vec(alloc)?);
    Ok(MemSource::new(bytes(alloc, b"abcdef")?, piece, fails))
}

/// What a read into room for four gives.
fn read_four(source: &mut MemSource) -> Option<usize> {
    let mut buf = [0u8; 4];
    source.read(&mut buf).ok()
}

/// A piece, the numbers of the reads that fail, and what four reads of the six bytes give, each into room for four.
type FourReads = (usize, [u32; 2], [Option<usize>; 4]);

const FOUR_READS: [FourReads; 4] = [
    (2, [0, 0], [Some(2), Some(2), Some(2), Some(0)]),
    (0, [0, 0], [Some(1), Some(1), Some(1), Some(1)]),
    (9, [0, 0], [Some(4), Some(2), Some(0), Some(0)]),
    (5, [1, 3], [None, Some(4), None, Some(2)]),
];

/// Whether four reads give what they are to.
fn gives_four(alloc: Global, case: &FourReads) -> bool {
    let Ok(mut source) = six_bytes(alloc, case.0, &case.1) else {
        return false;
    };
    for wanted in &case.2 {
        if read_four(&mut source) != *wanted {
            return false;
        }
    }
    true
}

/// The place of the first case whose reads do not give what they are to.
fn first_missed_reads(alloc: Global) -> Option<usize> {
    for (at, case) in FOUR_READS.iter().enumerate() {
        if !gives_four(alloc, case) {
            return Some(at);
        }
    }
    None
}

#[test]
fn a_source_gives_pieces_and_fails_at_its_numbers(rt: HostRuntime) {
    assert_eq!(rt; first_missed_reads(rt.alloc()), None);
}

/// What a read gives, and what is in its room for three then.
type ReadThree = (Result<usize, Failed>, [u8; 3]);

/// What two reads of three bytes give in pieces of two.
fn two_reads(alloc: Global) -> Result<[ReadThree; 2], AllocError> {
    let mut source = StillSource::new(bytes(alloc, b"abc")?, 2);
    let mut buf = [b'-'; 3];
    let first = (source.read(&mut buf), buf);
    let second = (source.read(&mut buf), buf);
    Ok([first, second])
}

#[test]
fn a_source_without_failing_calls_gives_its_bytes_in_order(rt: HostRuntime) {
    let wanted = [(Ok(2), *b"ab-"), (Ok(1), *b"cb-")];
    assert_eq!(rt; two_reads(rt.alloc()), Ok(wanted));
}

/// A text that is put into a sink whose second put fails, what the put answers, and what the sink holds then.
type Put = (&'static [u8], Result<(), IoFault>, &'static [u8]);

const PUTS: [Put; 3] = [
    (b"ab", Ok(()), b"ab"),
    (b"cde", Err(IoFault::Failed), b"abc"),
    (b"f", Ok(()), b"abcf"),
];

/// Whether the put answers what it is to, and the sink holds then what it is to.
fn puts(sink: &mut MemSink, put: &Put) -> bool {
    let answer = sink.put(put.0);
    answer == put.1 && holds(sink, put.2)
}

/// Whether the sink holds these bytes.
fn holds(sink: &MemSink, wanted: &[u8]) -> bool {
    sink.bytes() == wanted
}

/// The place of the first put that is not as it is to be.
fn first_missed_put(sink: &mut MemSink) -> Option<usize> {
    for (at, put) in PUTS.iter().enumerate() {
        if !puts(sink, put) {
            return Some(at);
        }
    }
    None
}

#[test]
fn a_failing_put_keeps_the_first_half_rounded_down(rt: HostRuntime) -> Result<(), AllocError> {
    let mut sink = MemSink::new(rt.alloc(), number(rt.alloc(), 2)?);
    let missed = first_missed_put(&mut sink);
    assert_eq!(rt; missed, None);
    Ok(())
}

/// Whether a sink without failing calls has both of two texts that are put.
fn keeps_both(alloc: Global) -> bool {
    let mut sink = StillSink::new(alloc);
    sink.put(b"ab").is_ok() && sink.put(b"c").is_ok() && sink.bytes() == b"abc".as_slice()
}

#[test]
fn a_sink_without_failing_calls_keeps_all(rt: HostRuntime) {
    assert!(rt; keeps_both(rt.alloc()));
}

/// The most that is read of six bytes, a piece, the number of the read that fails, and what is read; none where that
/// read is reached.
type WholeRead = (usize, usize, u32, Option<&'static [u8]>);

const WHOLE_READS: [WholeRead; 8] = [
    (6, 1, 0, Some(b"abcdef")),
    (5, 1, 0, Some(b"abcdef")),
    (4, 1, 0, Some(b"abcde")),
    (0, 1, 0, Some(b"a")),
    (6, 4, 0, Some(b"abcdef")),
    (usize::MAX, 9, 0, Some(b"abcdef")),
    (6, 1, 4, None),
    (2, 1, 4, Some(b"abc")),
];

/// Whether what is read is what is to be.
fn reads_whole(alloc: Global, case: &WholeRead) -> bool {
    let (most, piece, fails, wanted) = *case;
    let Ok(mut source) = six_bytes(alloc, piece, &[fails]) else {
        return false;
    };
    match read_up_to(alloc, &mut source, most) {
        Ok(read) => wanted == Some(read.as_slice()),
        Err(IoFault::Failed) => wanted.is_none(),
        Err(IoFault::NoMemory) => false,
    }
}

/// The place of the first case that does not give what it is to.
fn first_missed_whole_read(alloc: Global) -> Option<usize> {
    for (at, case) in WHOLE_READS.iter().enumerate() {
        if !reads_whole(alloc, case) {
            return Some(at);
        }
    }
    None
}

#[test]
fn a_source_is_read_whole_or_one_byte_past_the_limit(rt: HostRuntime) {
    assert_eq!(rt; first_missed_whole_read(rt.alloc()), None);
}
