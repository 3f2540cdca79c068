//! Which values a query counts, as a mark for each: a look takes no branch.
ghost use Rattle.list_tables.specs.Marks.{AreMarks, MarkSets};

use query_syntax::Choice;

/// The sets of a query, and of each category a mark for each number under 256: whether the set has it.
#[derive(Clone, Copy)]
pub struct ValueMarks {
    sets: [Choice; 4],
    first: [bool; 256],
    second: [bool; 256],
    third: [bool; 256],
    fourth: [bool; 256],
    ghost marked: { MarkSets sets first second third fourth },
}

/// The marks of the values that the choice has.
fn marks_of(choice: &Choice) -> [bool; 256]
    ensures { AreMarks choice.now result }
{
    let mut marks = [false; 256];
    for value in 0..256usize {
        marks[value] = choice.has(value as u8);
    }
    marks
}

impl ValueMarks {
    ghost use Rattle.std.specs.Prelude.{◌≡◌, map};
    ghost use Rattle.query_syntax.specs.Boxes.{are_in_sets, chosen};
    ghost use Rattle.list_tables.specs.Marked.{marked_sets};

    /// The marks of the sets.
    pub fn new(sets: &[Choice; 4]) -> ValueMarks
        ensures { marked_sets result ≡ sets.now }
    {
        ValueMarks {
            sets: [sets[0], sets[1], sets[2], sets[3]],
            first: marks_of(&sets[0]),
            second: marks_of(&sets[1]),
            third: marks_of(&sets[2]),
            fourth: marks_of(&sets[3]),
        }
    }

    /// Whether each value is in its set. All four marks are looked at, since which of them fails is not foreseen.
    pub(crate) fn have(&self, values: &[u8; 4]) -> bool
        ensures { result ≡ are_in_sets (map chosen (marked_sets self.now)) values.now }
    {
        self.first[usize::from(values[0])]
            & self.second[usize::from(values[1])]
            & self.third[usize::from(values[2])]
            & self.fourth[usize::from(values[3])]
    }
}
