//! Rows that are refused.
ghost use Rattle.std.specs.Prelude.{◌≡◌, [], IfOk};
ghost use Rattle.feed_reader.specs.RowCounts.{having_kept};

use crate::RowFault;
use std::alloc::Global;
use std::marker::Model;
use texts::{List, NoMemory};

/// How many refusals of a feed are kept.
const KEPT: usize = 5;

/// A refused row: the number of its line in the feed, from 1, and its fault.
#[derive(Clone, Copy, PartialEq, Eq, Debug)]
pub struct Refusal {
    pub line: u64,
    pub fault: RowFault,
}

/// The first refusals of a feed, in order, five at most. Their room is taken when it is made, so that none is lost for
/// want of memory. Contracts see them as a list.
#[derive(Drop)]
pub struct FirstRefusals {
    items: Vec<Refusal>,
}

impl Model for FirstRefusals {
    ghost use Rattle.std.specs.Prelude.{List, ◌≤◌, vec_len, vec_capacity};
    ghost use Rattle.feed_reader.specs.declared.refusal.Refusal.{Refusal};

    ghost Value = { List Refusal };

    ghost view = { λ first. first.items.items };

    ghost invariant = { λ first. (vec_len first.items ≤ 5) × (5 ≤ vec_capacity first.items) };
}

impl FirstRefusals {
    /// None yet, with room for five.
    pub fn new(alloc: Global) -> Result<FirstRefusals, NoMemory>
        ensures { IfOk result (λ first. first ≡ []) }
    {
        let items = Vec::with_capacity(alloc, KEPT)?;
        Ok(FirstRefusals { items })
    }

    /// Keeps one more, unless there are five. It takes no memory.
    pub fn keep(&mut self, refusal: Refusal)
        ensures { self.new ≡ having_kept self.old refusal }
    {
        if self.items.len() < KEPT {
            self.items.push_reserved(refusal);
        }
    }

    /// The refusals in order. It takes no memory.
    pub fn into_list(self) -> List<Refusal>
        ensures { result ≡ self }
    {
        let FirstRefusals { items } = self;
        List::from_vec(items)
    }
}
