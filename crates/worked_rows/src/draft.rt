//! A file of a case before it is put into its place.
use crate::bytes::{add_bytes, number_of, numbers_of};
use anyhow::{Result, bail};
use std::alloc::Global;
use texts::List;

/// How many bytes a read gives at most, where a case says nothing else.
const PIECE: usize = 64;

/// A file of a case: its name, its bytes so far, how many of them a read gives at most, and which reads fail.
#[derive(Drop)]
pub(crate) struct Draft {
    pub(crate) name: String,
    pub(crate) bytes: Vec<u8>,
    pub(crate) piece: usize,
    pub(crate) fails: List<u32>,
}

impl Draft {
    /// The file that `NAME [in PIECE] [fails K,L]` begins.
    pub(crate) fn begin(alloc: Global, text: &str) -> Result<Draft> {
        let mut words = text.split_whitespace();
        let name = words.next().unwrap_or("");
        let mut draft = Draft {
            name: String::from_str(alloc, name)?,
            bytes: Vec::new(alloc),
            piece: PIECE,
            fails: List::new(alloc),
        };
        while let Some(word) = words.next() {
            draft.set(alloc, word, words.next().unwrap_or(""))?;
        }
        Ok(draft)
    }

    /// Sets what the word names to the value.
    fn set(&mut self, alloc: Global, word: &str, value: &str) -> Result<()> {
        match word {
            "in" => self.piece = number_of(value)? as usize,
            "fails" => self.fails = numbers_of(alloc, value)?,
            _ => bail!("{word:?} is nothing of a file"),
        }
        Ok(())
    }

    /// Adds the text.
    pub(crate) fn add(&mut self, text: &str) -> Result<()> {
        add_bytes(&mut self.bytes, text)
    }

    /// Adds the text so often, for `N TEXT`.
    pub(crate) fn add_repeated(&mut self, text: &str) -> Result<()> {
        let Some((times, text)) = text.split_once(' ') else {
            bail!("a number and a text are wanted");
        };
        for _ in 0..number_of(times)? {
            self.add(text)?;
        }
        Ok(())
    }
}
