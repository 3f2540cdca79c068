//! What places in memory do.
use crate::shared::{bytes, first_read, write_file};
use crate::steps::{Step, first_missed};
use Step::{
    Creates, FailsAtCreate, FailsAtGivingBack, FailsAtOpen, FailsAtPuts, File, Has, IsAbsent,
    Reads, Writes, WritesTwo,
};
use outer_io::{Cut, IoFault, LineCutter, MemPlace, Place, StillPlace};
use std::alloc::{AllocError, Global};

/// Whether the first line of the file of that name is this, with the number 1.
fn begins_with(alloc: Global, place: &mut MemPlace, name: &str, wanted: &[u8]) -> bool {
    let Ok(source) = place.open(name) else {
        return false;
    };
    let Ok(mut cutter) = LineCutter::new(alloc, source) else {
        return false;
    };
    let first = cutter.next();
    place.give_back_in(cutter.into_source());
    match first {
        Ok(Cut::Line(line, number)) => line.as_slice() == wanted && number == 1,
        _ => false,
    }
}

/// Whether a file of two lines can be written and its first line be read.
fn line_comes_back(alloc: Global) -> bool {
    let mut place = MemPlace::new(alloc);
    let written = write_file(&mut place, "notes.txt", [b"first\n", b"second\n", b""]);
    written == Ok([false; 3]) && begins_with(alloc, &mut place, "notes.txt", b"first")
}

#[test]
fn the_example_of_the_page(rt: HostRuntime) {
    assert!(rt; line_comes_back(rt.alloc()));
}

const FAULTS_OF_OPENING: [Step; 8] = [
    Reads("a", Err(IoFault::Failed)),
    File("a", b"old", 0),
    File("a", b"abc", 2),
    Has("a", b"abc"),
    IsAbsent("b"),
    FailsAtOpen("a"),
    Reads("a", Err(IoFault::Failed)),
    Reads("a", Ok(Ok(2))),
];

#[test]
fn a_place_fails_at_an_absent_file_and_once_where_it_was_to(rt: HostRuntime) {
    assert_eq!(rt; first_missed(rt.alloc(), &FAULTS_OF_OPENING), None);
}

/// The numbers of the puts that are to fail, whether giving back is to fail, how the three puts are answered, and what
/// the file has then.
type Writing = ([u32; 2], Step, Result<[bool; 3], IoFault>, &'static [u8]);

/// Nothing, since there is no such file.
const NOT_AT_END: Step = IsAbsent("b");

const WRITINGS: [Writing; 5] = [
    ([0, 0], NOT_AT_END, Ok([false, false, false]), b"abcdef"),
    ([2, 0], NOT_AT_END, Ok([false, true, false]), b"abcf"),
    ([1, 3], NOT_AT_END, Ok([true, false, true]), b"acde"),
    ([0, 0], FailsAtGivingBack("a"), Err(IoFault::Failed), b"abc"),
    ([2, 0], FailsAtGivingBack("a"), Err(IoFault::Failed), b"ab"),
];

/// Whether a file that is written so has then what it is to.
fn has_what_was_put(alloc: Global, case: &Writing) -> bool {
    let (fails, at_end, written, held) = *case;
    let steps = [
        File("a", b"old", 0),
        FailsAtPuts("a", fails),
        at_end,
        Writes("a", written),
        Has("a", held),
        IsAbsent("b"),
    ];
    first_missed(alloc, &steps).is_none()
}

/// The place of the first case whose file has something else.
fn first_missed_writing(alloc: Global) -> Option<usize> {
    for (at, case) in WRITINGS.iter().enumerate() {
        if !has_what_was_put(alloc, case) {
            return Some(at);
        }
    }
    None
}

#[test]
fn a_file_has_what_its_sink_held(rt: HostRuntime) {
    assert_eq!(rt; first_missed_writing(rt.alloc()), None);
}

/// Two sinks at once, which are given back in their order and turned.
const SINKS_AT_ONCE: [[Step; 3]; 2] = [
    [
        WritesTwo("one", "two", false),
        Has("one", b"one"),
        Has("two", b"two"),
    ],
    [
        WritesTwo("one", "two", true),
        Has("one", b"one"),
        Has("two", b"two"),
    ],
];

#[test]
fn two_sinks_at_once_go_each_into_its_own_file(rt: HostRuntime) {
    let [in_order, turned] = &SINKS_AT_ONCE;
    let missed = [
        first_missed(rt.alloc(), in_order),
        first_missed(rt.alloc(), turned),
    ];
    assert_eq!(rt; missed, [None; 2]);
}

/// Creating the file that is there, or an absent one, fails, and then does not.
fn creations(name: &'static str) -> [Step; 7] {
    [
        File("there", b"old", 0),
        FailsAtCreate(name),
        Creates(name, Some(IoFault::Failed)),
        Has("there", b"old"),
        IsAbsent("absent"),
        Creates(name, None),
        Has(name, b""),
    ]
}

#[test]
fn a_created_file_is_empty_and_one_that_was_to_fail_is_as_before(rt: HostRuntime) {
    let missed = [
        first_missed(rt.alloc(), &creations("there")),
        first_missed(rt.alloc(), &creations("absent")),
    ];
    assert_eq!(rt; missed, [None; 2]);
}

/// Puts the file `a`, given in pieces of two bytes.
fn put_still_file(alloc: Global, place: &mut StillPlace, text: &[u8]) -> Result<(), AllocError> {
    let text = bytes(alloc, text)?;
    place.put_file("a", text, 2).map_err(|_| AllocError)
}

/// Whether an absent file is opened as empty, one that is put gives its first piece, and each has its bytes.
fn opens_absent_and_put(alloc: Global, place: &mut StillPlace) -> [bool; 5] {
    [
        first_read(place, "a") == Ok(Ok(0)),
        put_still_file(alloc, place, b"abc").is_ok(),
        first_read(place, "a") == Ok(Ok(2)),
        place.file("a") == Some(b"abc"),
        place.file("b").is_none(),
    ]
}

#[test]
fn a_place_without_failing_calls_opens_an_absent_file_as_empty(rt: HostRuntime) {
    let mut place = StillPlace::new(rt.alloc());
    let holds = opens_absent_and_put(rt.alloc(), &mut place);
    assert_eq!(rt; holds, [true; 5]);
}

/// Whether three texts can be put into a file, what it gives first is all of them, and it has them.
fn takes_three_texts(place: &mut StillPlace) -> [bool; 3] {
    [
        write_file(place, "a", [b"ab", b"", b"c"]) == Ok([false; 3]),
        first_read(place, "a") == Ok(Ok(3)),
        place.file("a") == Some(b"abc"),
    ]
}

#[test]
fn a_place_without_failing_calls_takes_what_was_put(rt: HostRuntime) {
    let mut place = StillPlace::new(rt.alloc());
    let holds = takes_three_texts(&mut place);
    assert_eq!(rt; holds, [true; 3]);
}
