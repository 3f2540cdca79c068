//! What the edge to the system does with files of the system and with a standard output.
use crate::shared::{first_read, write_file};
use outer_io::{Failed, FilePlace, FileSource, IoFault, Place, Sink, Source, StdSink, read_up_to};
use std::alloc::Global;
use std::io::{self, Read};

/// Files, and what opening and the first read give. A directory is opened, and its read fails.
const READS: [(&str, Result<Result<usize, Failed>, IoFault>); 4] = [
    ("/dev/zero", Ok(Ok(4))),
    ("/dev/null", Ok(Ok(0))),
    ("/", Ok(Err(Failed))),
    ("/no/such/file", Err(IoFault::Failed)),
];

/// The place of the first of these files that gives something else, over any place.
fn first_missed_read<P: Place>(place: &mut P) -> Option<usize> {
    for (at, (name, wanted)) in READS.iter().enumerate() {
        if first_read(place, name) != *wanted {
            return Some(at);
        }
    }
    None
}

#[test]
fn a_file_is_read_and_a_fault_is_an_answer(rt: HostRuntime) {
    let mut place = FilePlace::new(rt.alloc(), &rt);
    let missed = first_missed_read(&mut place);
    assert_eq!(rt; missed, None);
}

/// A standard output whose reader has gone.
struct ClosedPipe;

impl Print for ClosedPipe {
    fn print<D: std::fmt::Display + Drop>(&self, _value: D) -> io::Result<()> {
        Err(io::Error::from(io::ErrorKind::BrokenPipe))
    }

    fn println<D: std::fmt::Display + Drop>(&self, _value: D) -> io::Result<()> {
        Err(io::Error::from(io::ErrorKind::BrokenPipe))
    }

    fn write_all(&self, _bytes: &[u8]) -> io::Result<()> {
        Err(io::Error::from(io::ErrorKind::BrokenPipe))
    }
}

/// What a put into standard output answers.
fn put_out<P: Print>(print: &P, text: &[u8]) -> Result<(), IoFault> {
    let mut sink = StdSink::new(print);
    sink.put(text)
}

#[test]
fn standard_output_takes_bytes_and_a_closed_pipe_is_an_answer(rt: HostRuntime) {
    let pipe = ClosedPipe;
    let lost = put_out(&pipe, b"lost\n");
    let ClosedPipe = pipe;
    assert_eq!(rt;
        (put_out(&rt, b"put to standard output\n"), lost),
        (Ok(()), Err(IoFault::Failed))
    );
}

/// Whether the file of that name has these bytes, at most a hundred, over any place.
fn has<P: Place>(alloc: Global, place: &mut P, name: &str, wanted: &[u8]) -> bool {
    let Ok(mut part) = place.open(name) else {
        return false;
    };
    let read = read_up_to(alloc, &mut part, 100);
    place.give_back_in(part);
    match read {
        Ok(bytes) => bytes.as_slice() == wanted,
        Err(..) => false,
    }
}

/// Whether a file into which the texts `a `, this and a line feed are put has the bytes that are wanted, over any
/// place.
fn reads_again<P: Place>(alloc: Global, place: &mut P, text: &[u8], wanted: &[u8]) -> bool {
    let name = "written.txt";
    let written = write_file(place, name, [b"a ", text, b"\n"]);
    written == Ok([false; 3]) && has(alloc, place, name, wanted)
}

#[test]
fn a_file_that_is_written_and_given_back_is_read_again(rt: HostRuntime) {
    let alloc = rt.alloc();
    let mut place = FilePlace::new(alloc, &rt);
    let longer = reads_again(alloc, &mut place, b"longer text", b"a longer text\n");
    let shorter = reads_again(alloc, &mut place, b"text", b"a text\n");
    assert_eq!(rt; (longer, shorter), (true, true));
}

/// Files, and which of the puts of `ab`, of nothing and of `c` fail.
const WRITES: [(&str, Result<[bool; 3], IoFault>); 3] = [
    ("/", Err(IoFault::Failed)),
    ("/no/such/folder/file", Err(IoFault::Failed)),
    ("/dev/full", Ok([true, false, true])),
];

/// The place of the first of these files that answers something else, over any place.
fn first_missed_write<P: Place>(place: &mut P) -> Option<usize> {
    for (at, (name, wanted)) in WRITES.iter().enumerate() {
        if write_file(place, name, [b"ab", b"", b"c"]) != *wanted {
            return Some(at);
        }
    }
    None
}

#[test]
fn a_folder_is_not_made_and_a_full_device_fails_the_put(rt: HostRuntime) {
    let mut place = FilePlace::new(rt.alloc(), &rt);
    let missed = first_missed_write(&mut place);
    assert_eq!(rt; missed, None);
}

/// A reader whose first reads are interrupted by a signal.
#[derive(Drop)]
struct Interrupted {
    times: u32,
}

impl Read for Interrupted {
    fn read(&mut self, buf: &mut [u8]) -> io::Result<usize> {
        let _ = buf;
        if self.times == 0 {
            return Ok(0);
        }
        self.times -= 1;
        Err(io::Error::from(io::ErrorKind::Interrupted))
    }
}

/// What a read gives whose first so many tries are interrupted.
fn read_interrupted(times: u32) -> Result<usize, Failed> {
    let mut source = FileSource::new(Interrupted { times });
    let mut buf = [0u8; 4];
    source.read(&mut buf)
}

#[test]
fn a_read_is_tried_again_where_a_signal_interrupts(rt: HostRuntime) {
    let reads = [
        read_interrupted(0),
        read_interrupted(3),
        read_interrupted(1000),
    ];
    assert_eq!(rt; reads, [Ok(0), Ok(0), Err(Failed)]);
}
