//! Sets of values of one category.
ghost use Rattle.std.specs.Prelude.{length, ◌≡◌, ◌<◌, ◌≤◌, ◌^◌, not, true, false, drop, slice_set, slice_index_or, replicate};
ghost use Rattle.std.specs.List.{list_any};
ghost use Rattle.query_syntax.specs.Items.{HasNoneFrom, is_full};
ghost use Rattle.query_syntax.specs.SetBits.{members_in_words};

use std::marker::Model;

/// A set of numbers under 256, a bit for each, seen as a list that says of each whether it is in the set.
#[derive(Clone, Copy, PartialEq, Eq, Debug)]
pub struct ValueSet {
    bits: [u64; 4],
}

impl Model for ValueSet {
    ghost use Rattle.std.specs.Prelude.{List, Bool};
    ghost use Rattle.query_syntax.specs.SetBits.{members_in_words, words_of, AreWords};
    ghost use Rattle.query_syntax.specs.WordsBack.{words_back};

    ghost Value = { List Bool };

    ghost view = { λ s. members_in_words s.bits };

    ghost invariant = { λ s. AreWords s.bits };

    ghost inverse = { λ members. record { bits = words_of 4 members } };

    ghost inverse_ok = { λ s h i. record { bits = words_back s.bits h i } };
}

impl ValueSet {
    /// The set that has no value.
    pub fn none() -> ValueSet
        ensures { result ≡ replicate 256 false }
    {
        ValueSet { bits: [0; 4] }
    }

    /// The set that has this value alone.
    pub fn one(value: u8) -> ValueSet
        ensures { result ≡ slice_set (replicate 256 false) value true }
    {
        let mut set = ValueSet::none();
        set.insert(value);
        set
    }

    /// Whether the value is in the set.
    pub fn has(&self, value: u8) -> bool
        ensures { result ≡ slice_index_or self.now value false }
    {
        is_member(&self.bits, value)
    }

    /// Whether each number under the count is in the set.
    pub fn has_all_under(&self, count: usize) -> bool
        requires { count ≤ 256 }
        ensures { result ≡ is_full count self.now }
    {
        are_members_under(&self.bits, count)
    }

    /// Whether no number from the count on is in the set.
    pub fn has_none_from(&self, count: usize) -> bool
        requires { count ≤ 256 }
        ensures none { result ≡ not (list_any (λ b. b) (drop count self.now)) }
        ensures size { length self.now ≡ 256 }
    {
        is_no_member_from(&self.bits, count)
    }

    /// An end behind all numbers of the set: one more than the largest of them, or 0.
    pub fn end(&self) -> u16
        ensures within { result ≤ 256 }
        ensures none { HasNoneFrom self.now result }
    {
        end_of(&self.bits)
    }

    /// Puts the value into the set.
    pub fn insert(&mut self, value: u8)
        ensures { self.new ≡ slice_set self.old value true }
    {
        self.bits[usize::from(value / 64)] |= 1 << (value % 64);
    }
}

/// Whether the bit of the value is 1.
fn is_member(bits: &[u64; 4], value: u8) -> bool
    ensures { result ≡ slice_index_or (members_in_words bits.now) value false }
{
    bits[usize::from(value / 64)] >> (value % 64) & 1 == 1
}

/// Whether the bit of each number under the count is 1.
fn are_members_under(bits: &[u64; 4], count: usize) -> bool
    requires { count ≤ 256 }
    ensures { result ≡ is_full count (members_in_words bits.now) }
{
    for value in 0..count {
        if !is_member(bits, value as u8) {
            return false;
        }
    }
    true
}

/// Whether the bit of each number from the count on is 0.
fn is_no_member_from(bits: &[u64; 4], count: usize) -> bool
    requires { count ≤ 256 }
    ensures { result ≡ not (list_any (λ b. b) (drop count (members_in_words bits.now))) }
{
    for value in count..256 {
        if is_member(bits, value as u8) {
            return false;
        }
    }
    true
}

/// How many bits a word takes.
fn bit_length(word: u64) -> u16
    ensures few { result ≤ 64 }
    ensures small { word < 2 ^ result }
{
    (64 - word.leading_zeros()) as u16
}

/// One more than the largest number whose bit is 1, or 0 where there is none.
fn end_of(bits: &[u64; 4]) -> u16
    ensures within { result ≤ 256 }
    ensures none { HasNoneFrom (members_in_words bits.now) result }
{
    let mut end = 0;
    for word in 0..4u16 {
        let length = bit_length(bits[usize::from(word)]);
        if length > 0 {
            end = 64 * word + length;
        }
    }
    end
}
