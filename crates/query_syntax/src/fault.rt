//! What can be wrong with a query.
ghost use Rattle.std.specs.Prelude.{◌≡◌};

/// The first fault of a line. `LongLine` is that of a line whose bytes were not kept, at word 1.
#[derive(Clone, Copy, PartialEq, Eq, Debug)]
pub enum QueryFault {
    NotText,
    LongLine,
    BadQuote,
    UnknownVerb,
    MissingWord,
    BadNumber,
    OutOfRange,
    BadTile,
    TooDeep,
    UnknownCategory,
    UnknownValue,
    RepeatedFilter,
    UnknownFilter,
    TimeInSeries,
    InWithWindow,
    SameCategory,
}

/// A fault and the number of its word, from 1.
#[derive(Clone, Copy, PartialEq, Eq, Debug)]
pub struct WordFault {
    pub fault: QueryFault,
    pub word: u32,
}

impl WordFault {
    /// The fault, at the word of that number.
    pub fn at(fault: QueryFault, word: u32) -> WordFault
        ensures { result ≡ record { fault = fault; word = word } }
    {
        WordFault { fault, word }
    }
}
