//! The first fault of a line, and the number of its word.
use QueryFault::{
    BadNumber, BadQuote, BadTile, InWithWindow, MissingWord, NotText, OutOfRange, RepeatedFilter,
    SameCategory, TimeInSeries, TooDeep, UnknownCategory, UnknownFilter, UnknownValue, UnknownVerb,
};
use cube_view::Schema;
use example_schemas::schema_of_kinds;
use query_syntax::{Parsed, QueryFault, parse};
use std::alloc::Global;
use texts::NoMemory;

/// A line, its fault and the number of the word.
type Faulty = (&'static [u8], QueryFault, u32);

/// Whether that is the first fault of a line, at the word of that number.
fn is_first_fault(
    alloc: Global,
    schema: &Schema,
    line: &[u8],
    fault: QueryFault,
    word: u32,
) -> bool {
    match parse(alloc, schema, line) {
        Ok(Parsed::Fault(found, at)) => found == fault && at == word,
        _ => false,
    }
}

/// The place of the first line that does not have its fault.
fn first_misread(alloc: Global, cases: &[Faulty]) -> Result<Option<usize>, NoMemory> {
    let schema = schema_of_kinds(alloc)?;
    for (at, (line, fault, word)) in cases.iter().enumerate() {
        if !is_first_fault(alloc, &schema, line, *fault, *word) {
            return Ok(Some(at));
        }
    }
    Ok(None)
}

const FAULTS: [Faulty; 26] = [
    (b"\xff", NotText, 1),
    (b"counts", UnknownVerb, 1),
    (b"hist", MissingWord, 2),
    (b"hist color", UnknownCategory, 2),
    (b"map x", BadNumber, 2),
    (b"map 11", OutOfRange, 2),
    (b"map 1 in 3/0/0", TooDeep, 2),
    (b"map 4 in 1/2/0", BadTile, 4),
    (b"series 4294967296 1 1", OutOfRange, 2),
    (b"series 0 0 1", OutOfRange, 3),
    (b"series 0 1 10001", OutOfRange, 4),
    (b"series 0 1", MissingWord, 4),
    (b"series 0 1 3 time 0 1", TimeInSeries, 5),
    (b"count in 1/2/0", BadTile, 3),
    (b"count in 4/0/0", BadTile, 3),
    (b"count in 0/0/0 in 0/0/0", RepeatedFilter, 4),
    (b"count time 1 0", OutOfRange, 4),
    (b"count time 0", MissingWord, 4),
    (b"count time 0 1 time 0 1", RepeatedFilter, 5),
    (br#"count with kind="a"#, BadQuote, 3),
    (br#"count with kind=a"b""#, BadQuote, 3),
    (b"count with kind", UnknownCategory, 3),
    (b"count with kind=c", UnknownValue, 3),
    (b"count with kind=a with kind=b", RepeatedFilter, 5),
    (b"stat in 0/0/0", UnknownFilter, 2),
    (b"count by kind", UnknownFilter, 2),
];

#[test]
fn names_the_first_fault_and_its_word(rt: HostRuntime) {
    assert_eq!(rt; first_misread(rt.alloc(), &FAULTS), Ok(None));
}

const FAULTS_OF_LATER_VERBS: [Faulty; 19] = [
    (b"window", MissingWord, 2),
    (b"window 0 0 8", MissingWord, 5),
    (b"window 9 0 9 1", OutOfRange, 2),
    (b"window 0 x 1 1", BadNumber, 3),
    (b"window 0 0 9 1", OutOfRange, 4),
    (b"window 3 0 1 1", OutOfRange, 4),
    (b"window 0 5 8 4", OutOfRange, 5),
    (b"window 0 0 8 8 in 0/0/0", InWithWindow, 6),
    (b"window 0 0 8 8 time 1 2 in x", InWithWindow, 9),
    (b"cross color", UnknownCategory, 2),
    (b"cross kind", MissingWord, 3),
    (b"cross kind color", UnknownCategory, 3),
    (b"cross kind kind", SameCategory, 3),
    (b"best 11 1", OutOfRange, 2),
    (b"best 1", MissingWord, 3),
    (b"best 1 0", OutOfRange, 3),
    (b"best 1 1001", OutOfRange, 3),
    (b"best 4 1", TooDeep, 2),
    (b"best 1 1 in 3/0/0", TooDeep, 2),
];

#[test]
fn names_the_first_fault_of_windows_crosses_and_best_tiles(rt: HostRuntime) {
    assert_eq!(rt; first_misread(rt.alloc(), &FAULTS_OF_LATER_VERBS), Ok(None));
}
