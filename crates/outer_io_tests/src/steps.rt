//! Steps on one place in memory, each with what it is to answer.
use crate::shared::{bytes, first_read, number, write_file};
use outer_io::{Failed, IoFault, MemPlace, MemSink, Place, Sink};
use std::alloc::{AllocError, Global};
use texts::List;

/// A call on a place, and its answer.
#[derive(Clone, Copy)]
pub(crate) enum Step {
    /// Puts the file of that name, given in pieces of two bytes, whose read of that number fails.
    File(&'static str, &'static [u8], u32),
    FailsAtOpen(&'static str),
    FailsAtCreate(&'static str),
    FailsAtGivingBack(&'static str),
    /// The puts of two numbers of that name's next sink fail.
    FailsAtPuts(&'static str, [u32; 2]),
    /// What opening and the first read give.
    Reads(&'static str, Result<Result<usize, Failed>, IoFault>),
    /// Which of the puts of `ab`, `cde` and `f` fail, or how creating or giving back does.
    Writes(&'static str, Result<[bool; 3], IoFault>),
    /// The fault of creating, if any.
    Creates(&'static str, Option<IoFault>),
    /// Both names get what was put into their own sink, given back in this order or turned.
    WritesTwo(&'static str, &'static str, bool),
    /// The bytes of the file of that name.
    Has(&'static str, &'static [u8]),
    IsAbsent(&'static str),
}

/// Puts a file that is given in pieces of two bytes, whose read of that number fails.
fn put_file(
    place: &mut MemPlace,
    alloc: Global,
    name: &str,
    text: &[u8],
    fails: u32,
) -> Result<(), AllocError> {
    let text = bytes(alloc, text)?;
    let fails = number(alloc, fails)?;
    place.put_file(name, text, 2, fails).map_err(|_| AllocError)
}

/// Lets two puts of the next sink of that name fail.
fn set_fails(
    place: &mut MemPlace,
    alloc: Global,
    name: &str,
    fails: [u32; 2],
) -> Result<(), AllocError> {
    let fails = List::from_vec(fails.to_vec(alloc)?);
    place.set_out_fails(name, fails).map_err(|_| AllocError)
}

/// A sink of a new file of that name, which took its name.
fn begun(place: &mut MemPlace, name: &str) -> Result<MemSink, IoFault> {
    let mut sink = place.create(name)?;
    sink.put(name.as_bytes())?;
    Ok(sink)
}

/// Writes its own name into two files at once.
fn write_two(place: &mut MemPlace, one: &str, other: &str, turned: bool) -> Result<(), IoFault> {
    let first = begun(place, one)?;
    let second = begun(place, other)?;
    if turned {
        give_back_two(place, second, first)
    } else {
        give_back_two(place, first, second)
    }
}

/// Gives both sinks back in this order.
fn give_back_two(place: &mut MemPlace, first: MemSink, second: MemSink) -> Result<(), IoFault> {
    place.give_back_out(first)?;
    place.give_back_out(second)
}

/// Whether a step answers what it is to.
fn holds(place: &mut MemPlace, alloc: Global, step: Step) -> bool {
    match step {
        Step::File(name, text, fails) => put_file(place, alloc, name, text, fails).is_ok(),
        Step::FailsAtOpen(name) => place.fail_open(name).is_ok(),
        Step::FailsAtCreate(name) => place.fail_create(name).is_ok(),
        Step::FailsAtGivingBack(name) => place.fail_give_back(name).is_ok(),
        Step::FailsAtPuts(name, fails) => set_fails(place, alloc, name, fails).is_ok(),
        Step::Reads(name, wanted) => first_read(place, name) == wanted,
        Step::Writes(name, wanted) => write_file(place, name, [b"ab", b"cde", b"f"]) == wanted,
        Step::Creates(name, wanted) => place.create(name).err() == wanted,
        Step::WritesTwo(one, other, turned) => write_two(place, one, other, turned).is_ok(),
        Step::Has(name, text) => place.file(name) == Some(text),
        Step::IsAbsent(name) => place.file(name).is_none(),
    }
}

/// The place of the first step that does not answer what it is to, of steps on this place.
fn first_missed_at(place: &mut MemPlace, alloc: Global, steps: &[Step]) -> Option<usize> {
    for (at, step) in steps.iter().enumerate() {
        if !holds(place, alloc, *step) {
            return Some(at);
        }
    }
    None
}

/// The place of the first step that does not answer what it is to, of steps on a new place.
pub(crate) fn first_missed(alloc: Global, steps: &[Step]) -> Option<usize> {
    let mut place = MemPlace::new(alloc);
    first_missed_at(&mut place, alloc, steps)
}
