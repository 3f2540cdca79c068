//! The search of rows that stand in rising order.
ghost use Rattle.std.specs.Prelude.{◌≡◌, ℕ, ◌+◌, ◌≤◌, length, slice_get};
ghost use Rattle.probe_core.specs.Bits.{bits};
ghost use Rattle.probe_core.specs.Blanks.{IsBlankOf};
ghost use Rattle.probe_core.specs.Places.{RisesBy, IsPlace, item_before};

use crate::{Rows, Steps};
use std::sync::ledger::Ledger;

/// An item with a number, its key, by which rows are ordered and searched.
pub trait Keyed {
    ghost key: { Self → ℕ };

    /// The key.
    fn key(&self) -> u64
        ensures { result ≡ key self.now };
}

/// A pair is ordered by its first part.
impl<T> Keyed for (u8, T) {
    ghost key = { λ pair. pair.0 };

    fn key(&self) -> u64 {
        u64::from(self.0)
    }
}

/// A place among rows, with the items that stand around it.
#[derive(Clone, Copy)]
pub struct Place<T> {
    /// The place, from 0 to the number of rows.
    pub index: usize,
    /// The item just before the place.
    pub before: Option<T>,
    /// The item on the place.
    pub first: Option<T>,
}

impl<T: Copy + Keyed> Rows<T> {
    /// The first place whose key is `from` or more, by one binary search. The items around it are
    /// among those that the search read.
    pub fn first_from<L: Ledger>(&self, from: u64, steps: &mut Steps<L>) -> Place<T>
        requires { RisesBy T.key self.now.items }
        ensures place { IsPlace T.key from self.now.items result.index }
        ensures before { result.before ≡ item_before self.now.items result.index }
        ensures first { result.first ≡ slice_get self.now.items result.index }
        ensures cost { steps.new ≤ steps.old + bits (length self.now.items) }
        ensures not_less { steps.old ≤ steps.new }
    {
        let mut low = 0;
        let mut high = self.len();
        let mut before = None;
        let mut first = None;
        while low < high {
            let middle = low + (high - low) / 2;
            let item = self.at(middle, steps);
            if item.key() < from {
                low = middle + 1;
                before = Some(item);
            } else {
                high = middle;
                first = Some(item);
            }
        }
        Place {
            index: low,
            before,
            first,
        }
    }
}

#[cfg(test)]
mod tests {
    use super::*;
    use std::marker::Brand;
    use std::process::Abort;
    use std::sync::ledger::Blank;

    #[derive(Clone, Copy)]
    struct Year(u32);

    impl Keyed for Year {
        ghost key = { λ year. year.0 };

        fn key(&self) -> u64 {
            u64::from(self.0)
        }
    }

    fn number_of(year: Option<Year>) -> u32 {
        match year {
            Some(Year(number)) => number,
            None => 0,
        }
    }

    fn expect_places<L: Ledger>(
        rt: &impl Abort,
        blank: Blank,
        rows: &Rows<Year>,
        cases: &[(u64, usize, u32, u32)],
    )
        requires blank { IsBlankOf L.name L.parts blank }
        requires rises { RisesBy (λ year. year.0) rows.now.items }
    {
        let mut steps = Steps::<L>::new(blank);
        for &(from, index, before, first) in cases {
            let place = rows.first_from(from, &mut steps);
            assert_eq!(rt; place.index, index, "from {from}");
            assert_eq!(rt; number_of(place.before), before, "before {from}");
            assert_eq!(rt; number_of(place.first), first, "from {from}");
        }
    }

    #[test]
    fn finds_the_first_of_a_key_and_its_neighbours(rt: HostRuntime) {
        let mut rows = Rows::new(rt.alloc());
        rows.insert(0, Year(5)).expect(&rt, "room");
        rows.insert(0, Year(3)).expect(&rt, "room");
        rows.insert(0, Year(1)).expect(&rt, "room");
        let cases = [
            (0, 0, 0, 1),
            (1, 0, 0, 1),
            (2, 1, 1, 3),
            (4, 2, 3, 5),
            (5, 2, 3, 5),
            (6, 3, 5, 0),
        ];
        expect_places::<Brand>(&rt, Blank::new(1), &rows, &cases);
    }
}
