//! A cube as its readers see it.
ghost use Rattle.std.specs.Prelude.{◌≡◌, ℕ, ◌+◌, ◌*◌, ◌^◌, ◌<◌, ◌≤◌, ◌≢◌, [], ◌∷◌, ◌++◌, length, All, IsTrue, IfSome, OnOk, OnErr};
ghost use Rattle.cube_view.specs.Bag.{amount, anywhere, most_points, Counts, EachCounted, GrowsBy, GrowsOnOk, IsBag};
ghost use Rattle.cube_view.specs.Costs.{ViewCosts};
ghost use Rattle.cube_view.specs.Found.{SomeIfAny, SomeIfBelow, AreTotals, IsNextLabel};
ghost use Rattle.cube_view.specs.Places.{time_dim, deepest, is_before, top_address, longer, next_dim};
ghost use Rattle.cube_view.specs.Validity.{sound};
ghost use Rattle.cube_view.specs.declared.address.Address.{Address};
ghost use Rattle.cube_view.specs.declared.schema.Schema.{Schema};
ghost use Rattle.cube_view.specs.declared.spot.Spot.{Spot};
ghost use Rattle.cube_view.specs.declared.stat.Stat.{Stat};

use crate::{Point, Schema, Stat};
use probe_core::Steps;
use std::sync::ledger::Ledger;
use texts::NoMemory;

/// A bag of spots that is read by cursors. Each clause on amounts speaks of any list `h` of points that the bag counts.
pub trait CubeView: Drop {
    /// Where a walk stands. Every call with a cursor asks that it stands in this view.
    type Cursor: Copy + Send + Sync;

    /// What the bag gives each spot.
    ghost weight_at: { Self → Spot → ℕ };

    /// How many points the bag is of.
    ghost seen: { Self → ℕ };

    /// The schema of the points.
    ghost schema: { Self → Schema };

    /// Whether a cursor stands in the view.
    ghost stands: { Self → Self.Cursor → Type 0 };

    /// The address at which a cursor stands.
    ghost address: { Self → Self.Cursor → Address };

    /// At most how many steps the calls take at an address.
    ghost costs: { Self → ViewCosts };

    /// The structure's numbers.
    ghost numbers: { Self → Stat };

    /// The test that the numbers meet.
    ghost is_stat: { Stat → Type 0 };

    /// The schema.
    fn schema(&self) -> &Schema
        ensures { result.now ≡ schema self.now };

    /// How many points the bag is of.
    fn seen(&self) -> u64
        ensures { result ≡ seen self.now };

    /// A cursor at all of space.
    fn top(&self) -> Self::Cursor
        ensures stands { stands self.now result }
        ensures place { address self.now result ≡ top_address };

    /// The structure's numbers.
    fn stat(&self) -> Stat
        ensures { result ≡ numbers self.now };

    /// To the address that is longer by the label, if the bag has a spot under it.
    fn down<L: Ledger>(
        &self,
        cursor: Self::Cursor,
        label: u8,
        steps: &mut Steps<L>,
    ) -> Option<Self::Cursor>
        requires stands { stands self.now cursor }
        requires above { (address self.now cursor).level < deepest (schema self.now) (address self.now cursor).dim }
        ensures found { EachCounted (weight_at self.now) (seen self.now) (SomeIfBelow (schema self.now) (address self.now cursor) label result) }
        ensures place { IfSome result (λ d. stands self.now d × (address self.now d ≡ longer (address self.now cursor) label)) }
        ensures cost { steps.new ≤ steps.old + (costs self.now).down_cost (address self.now cursor) };

    /// The least label from `from` on under which the bag has a spot, if there is one.
    fn next_label<L: Ledger>(
        &self,
        cursor: Self::Cursor,
        from: u8,
        steps: &mut Steps<L>,
    ) -> Option<u8>
        requires stands { stands self.now cursor }
        requires above { (address self.now cursor).level < deepest (schema self.now) (address self.now cursor).dim }
        ensures found { EachCounted (weight_at self.now) (seen self.now) (IsNextLabel (schema self.now) (address self.now cursor) from result) }
        ensures cost { steps.new ≤ steps.old + (costs self.now).down_cost (address self.now cursor) };

    /// To level 0 of the next dimension, if the bag is not empty.
    fn across<L: Ledger>(&self, cursor: Self::Cursor, steps: &mut Steps<L>) -> Option<Self::Cursor>
        requires stands { stands self.now cursor }
        requires before_time { (address self.now cursor).dim ≢ time_dim (schema self.now) }
        ensures found { EachCounted (weight_at self.now) (seen self.now) (λ h. SomeIfAny result (amount anywhere h)) }
        ensures place { IfSome result (λ d. stands self.now d × (address self.now d ≡ next_dim (address self.now cursor))) }
        ensures cost { steps.new ≤ steps.old + 1 };

    /// How much the bag has under the address in bins less than `bin_end`.
    fn before<L: Ledger>(&self, cursor: Self::Cursor, bin_end: u64, steps: &mut Steps<L>) -> u64
        requires stands { stands self.now cursor }
        requires time { (address self.now cursor).dim ≡ time_dim (schema self.now) }
        ensures total { EachCounted (weight_at self.now) (seen self.now) (λ h. result ≡ amount (is_before (schema self.now) (address self.now cursor) bin_end) h) }
        ensures cost { steps.new ≤ steps.old + (costs self.now).before_cost (address self.now cursor) };

    /// How much the bag has under the address in bins less than each of the ends `from`, `from + wide` and so on.
    fn before_each<L: Ledger>(
        &self,
        cursor: Self::Cursor,
        from: u64,
        wide: u64,
        totals: &mut [u64],
        steps: &mut Steps<L>,
    )
        requires stands { stands self.now cursor }
        requires time { (address self.now cursor).dim ≡ time_dim (schema self.now) }
        requires small { from + wide * length totals.old < 2 ^ 64 }
        ensures totals { EachCounted (weight_at self.now) (seen self.now) (AreTotals (schema self.now) (address self.now cursor) from wide totals.old totals.new) }
        ensures cost { steps.new ≤ steps.old + (costs self.now).before_each_cost (address self.now cursor) (length totals.old) };

    /// The bag counts some list, it is of few points, and each weighs something and not much.
    ghost bag: { (v : Self) → IsBag (weight_at v) (seen v) };

    /// The structure's numbers meet the test.
    ghost structure: { (v : Self) → is_stat (numbers v) };
}

/// A view that takes points.
pub trait Grow: CubeView {
    /// Adds a sound point to a bag of fewer points than a bag may have. For want of memory the bag is as before.
    fn insert(&mut self, point: Point) -> Result<(), NoMemory>
        requires sound { IsTrue (sound (Self.schema self.old) point) }
        requires room { Self.seen self.old < most_points }
        ensures counted { GrowsOnOk result (Self.weight_at self.old) (Self.seen self.old) (Self.weight_at self.new) (Self.seen self.new) point }
        ensures unchanged { EachCounted (Self.weight_at self.old) (Self.seen self.old) (λ h. OnErr result (Counts (Self.weight_at self.new) (Self.seen self.new) h)) }
        ensures schema { Self.schema self.new ≡ Self.schema self.old };

    /// Adds sound points, all or none, where a bag may have so many more. For want of memory the bag is as before.
    fn insert_all(&mut self, points: &[Point]) -> Result<(), NoMemory>
        requires sound { All (λ p. IsTrue (sound (Self.schema self.old) p)) points.now }
        requires room { Self.seen self.old + length points.now ≤ most_points }
        ensures counted { OnOk result (GrowsBy (Self.weight_at self.old) (Self.seen self.old) (Self.weight_at self.new) (Self.seen self.new) points.now) }
        ensures unchanged { EachCounted (Self.weight_at self.old) (Self.seen self.old) (λ h. OnErr result (Counts (Self.weight_at self.new) (Self.seen self.new) h)) }
        ensures schema { Self.schema self.new ≡ Self.schema self.old };
}
