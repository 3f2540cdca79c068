//! What a cutter gives of bytes in memory.
ghost use Rattle.std.specs.Prelude.{ℕ, List, Option, None, ◌≤◌, vec_len};

use Wanted::{End, Line, Long, Xs};
use outer_io::{Cut, CutFault, Failed, LineCutter, Source};
use std::alloc::{AllocError, Global};

/// Bytes in memory, given in pieces. It notes whether it was ever asked with another buffer than one of 4,096 bytes.
#[derive(Drop)]
struct Given {
    bytes: Vec<u8>,
    at: usize,
    piece: usize,
    other_buffer: bool,
    ghost within: { at ≤ vec_len bytes },
}

impl Source for Given {
    ghost left = { λ _. None };

    ghost faults = { λ _. 0 };

    fn read(&mut self, buf: &mut [u8]) -> Result<usize, Failed> {
        if buf.len() != 4096 {
            self.other_buffer = true;
        }
        let n = buf.len().min(self.piece).min(self.bytes.len() - self.at);
        buf[..n].copy_from_slice(&self.bytes[self.at..self.at + n]);
        self.at += n;
        Ok(n)
    }
}

/// The byte `x` without end.
#[derive(Drop)]
struct Endless;

impl Source for Endless {
    ghost left = { λ _. None };

    ghost faults = { λ _. 0 };

    fn read(&mut self, buf: &mut [u8]) -> Result<usize, Failed> {
        buf.fill(b'x');
        Ok(buf.len())
    }
}

/// What an answer is to be; the lines' numbers count from 1.
#[derive(Clone, Copy)]
enum Wanted {
    Line(&'static [u8]),
    /// A line of so many `x`.
    Xs(usize),
    Long,
    End,
}

/// Whether an answer is the one that is wanted, as the line of that number.
fn is_wanted(answer: &Result<Cut, CutFault>, wanted: Wanted, number: u64) -> bool {
    match (answer, wanted) {
        (Ok(Cut::Line(line, n)), Wanted::Line(text)) => *n == number && line.as_slice() == text,
        (Ok(Cut::Line(line, n)), Wanted::Xs(size)) => {
            *n == number && line.len() == size && line.as_slice().iter().all(|byte| *byte == b'x')
        }
        (Ok(Cut::Long(n)), Wanted::Long) => *n == number,
        (Ok(Cut::End), Wanted::End) => true,
        _ => false,
    }
}

/// Whether a cutter of the bytes gives those four answers, asking with its own buffer alone.
fn gives(alloc: Global, bytes: Vec<u8>, piece: usize, wanted: &[Wanted; 4]) -> bool {
    let given = Given {
        bytes,
        at: 0,
        piece,
        other_buffer: false,
    };
    let Ok(mut cutter) = LineCutter::new(alloc, given) else {
        return false;
    };
    let all = answers_all(&mut cutter, wanted);
    let given = cutter.into_source();
    all && !given.other_buffer
}

/// Whether a new cutter gives those four answers.
fn answers_all(cutter: &mut LineCutter<Given>, wanted: &[Wanted; 4]) -> bool {
    for (at, want) in wanted.iter().enumerate() {
        if !is_wanted(&cutter.next(), *want, at as u64 + 1) {
            return false;
        }
    }
    true
}

/// What is given: a text, so many `x`, and another text; and the first four answers.
type Case = (&'static [u8], usize, &'static [u8], [Wanted; 4]);

const CASES: [Case; 14] = [
    (b"", 0, b"", [End; 4]),
    (b"\xEF\xBB\xBF", 0, b"", [Line(b""), End, End, End]),
    (b"\r", 0, b"", [Line(b""), End, End, End]),
    (b"\xEF\xBB\xBF", 4093, b"\n", [Xs(4093), End, End, End]),
    (b"\xEF\xBB\xBF", 4094, b"\n", [Long, End, End, End]),
    (b"", 4096, b"\n", [Xs(4096), End, End, End]),
    (b"", 4096, b"\r\n", [Long, End, End, End]),
    (b"", 4097, b"", [Long, End, End, End]),
    (
        b"\xEF\xBB\xBF\xEF\xBB\xBF",
        1,
        b"",
        [Line(b"\xEF\xBB\xBFx"), End, End, End],
    ),
    (b"a\r\r\n", 0, b"", [Line(b"a\r"), End, End, End]),
    (b"a\nb", 0, b"", [Line(b"a"), Line(b"b"), End, End]),
    (
        b"a\n\xEF\xBB\xBF\n",
        0,
        b"",
        [Line(b"a"), Line(b"\xEF\xBB\xBF"), End, End],
    ),
    (b"\n\r\n\n", 0, b"", [Line(b""), Line(b""), Line(b""), End]),
    (b"a\n", 9000, b"\nb", [Line(b"a"), Long, Line(b"b"), End]),
];

/// The bytes that are given.
fn bytes_of(alloc: Global, case: &Case) -> Result<Vec<u8>, AllocError> {
    let mut bytes = case.0.to_vec(alloc)?;
    bytes.resize(bytes.len().saturating_add(case.1), b'x')?;
    bytes.extend_from_slice(case.2)?;
    Ok(bytes)
}

/// Whether the answers of a case come, where its bytes are given in pieces of so many.
fn holds(alloc: Global, case: &Case, piece: usize) -> bool {
    match bytes_of(alloc, case) {
        Ok(bytes) => gives(alloc, bytes, piece, &case.3),
        Err(AllocError) => false,
    }
}

/// The place of the first case whose answers do not come in pieces of so many bytes.
fn first_missed(alloc: Global, piece: usize) -> Option<usize> {
    for (at, case) in CASES.iter().enumerate() {
        if !holds(alloc, case, piece) {
            return Some(at);
        }
    }
    None
}

#[test]
fn cuts_lines(rt: HostRuntime) {
    let alloc = rt.alloc();
    let missed = [
        first_missed(alloc, 1),
        first_missed(alloc, 3),
        first_missed(alloc, 4096),
    ];
    assert_eq!(rt; missed, [None; 3]);
}

/// Whether both of two answers to an input without end are that it is too much.
fn is_too_much_twice(alloc: Global) -> bool {
    let Ok(mut cutter) = LineCutter::new(alloc, Endless) else {
        return false;
    };
    let first = matches!(cutter.next(), Err(CutFault::TooMuch));
    let second = matches!(cutter.next(), Err(CutFault::TooMuch));
    let Endless = cutter.into_source();
    first && second
}

#[test]
fn stops_at_the_limit_of_the_input(rt: HostRuntime) {
    assert!(rt; is_too_much_twice(rt.alloc()));
}
