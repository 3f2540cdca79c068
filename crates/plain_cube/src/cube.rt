//! The cube, and what it is as a view.
ghost use Rattle.std.specs.Prelude.{◌≡◌, ℕ, ◌+◌, ◌*◌, ◌^◌, ◌<◌, ◌≤◌, [], ◌∷◌, ◌++◌, length, All, IsTrue, OnOk, OnErr, refl};
ghost use Rattle.cube_view.specs.Bag.{most_points};
ghost use Rattle.cube_view.specs.Places.{IsAddress};
ghost use Rattle.cube_view.specs.Validity.{sound};

use crate::scans::{any_below, count_before, count_before_each, least_below};
use cube_view::{Address, CubeView, Grow, Point, Schema, Stat};
use probe_core::Steps;
use std::alloc::Global;
use std::sync::ledger::Ledger;
use texts::NoMemory;

/// A schema and a list of at most 2^35 points that are sound for it.
#[derive(Drop)]
pub struct PlainCube {
    schema: Schema,
    points: Vec<Point>,
    ghost sound: { All (λ p. IsTrue (sound schema p)) points.items },
    ghost few: { length points.items ≤ most_points },
}

impl PlainCube {
    ghost use Rattle.cube_view.specs.Bag.{Counts};
    ghost use Rattle.plain_cube.specs.Kept.{points_of, schema_of};

    /// A cube of no points.
    pub fn new(alloc: Global, schema: Schema) -> PlainCube
        ensures schema { schema_of result ≡ schema }
        ensures points { points_of result ≡ [] }
        ensures counted { Counts (⟦<PlainCube as CubeView>⟧.weight_at result) (⟦<PlainCube as CubeView>⟧.seen result) (points_of result) }
    {
        PlainCube {
            schema,
            points: Vec::new(alloc),
        }
    }

    /// Adds the point once more. After a want of memory the cube is as before.
    pub fn insert(&mut self, point: Point) -> Result<(), NoMemory>
        requires sound { IsTrue (sound (schema_of self.old) point) }
        requires room { length (points_of self.old) < most_points }
        ensures inserted { OnOk result (points_of self.new ≡ points_of self.old ++ point ∷ []) }
        ensures unchanged { OnErr result (points_of self.new ≡ points_of self.old) }
        ensures counted { Counts (⟦<PlainCube as CubeView>⟧.weight_at self.new) (⟦<PlainCube as CubeView>⟧.seen self.new) (points_of self.new) }
        ensures schema { schema_of self.new ≡ schema_of self.old }
    {
        self.points.push(point)?;
        Ok(())
    }

    /// Adds points behind those that are there, all or none. After a want of memory the cube is as before.
    pub fn insert_all(&mut self, points: &[Point]) -> Result<(), NoMemory>
        requires sound { All (λ p. IsTrue (sound (schema_of self.old) p)) points.now }
        requires room { length (points_of self.old) + length points.now ≤ most_points }
        ensures inserted { OnOk result (points_of self.new ≡ points_of self.old ++ points.now) }
        ensures unchanged { OnErr result (points_of self.new ≡ points_of self.old) }
        ensures counted { Counts (⟦<PlainCube as CubeView>⟧.weight_at self.new) (⟦<PlainCube as CubeView>⟧.seen self.new) (points_of self.new) }
        ensures schema { schema_of self.new ≡ schema_of self.old }
    {
        self.points.extend_from_slice(points)?;
        Ok(())
    }
}

impl CubeView for PlainCube {
    ghost use Rattle.plain_cube.specs.Owned.{IsBag-own};
    ghost use Rattle.plain_cube.specs.Listed.{bag_of, scan_costs, no_structure};

    type Cursor = Address;

    ghost weight_at = { λ c. bag_of c.points.items };

    ghost seen = { λ c. length c.points.items };

    ghost schema = { λ c. c.schema };

    ghost stands = { λ c a. IsAddress c.schema a };

    ghost address = { λ c a. a };

    ghost costs = { λ c. scan_costs c.points.items };

    ghost numbers = { λ c. no_structure };

    ghost is_stat = { λ s. s ≡ no_structure };

    ghost bag = { λ c. IsBag-own c.schema c.points.items c.sound c.few };

    ghost structure = { λ c. refl };

    fn schema(&self) -> &Schema {
        &self.schema
    }

    fn seen(&self) -> u64 {
        self.points.len() as u64
    }

    fn top(&self) -> Address {
        Address::top()
    }

    fn stat(&self) -> Stat {
        Stat {
            nodes: 0,
            tables: 0,
            proper: 0,
            shared: 0,
        }
    }

    fn down<L: Ledger>(&self, cursor: Address, label: u8, steps: &mut Steps<L>) -> Option<Address> {
        if any_below(&self.schema, self.points.as_slice(), &cursor, label, steps) {
            Some(cursor.longer(&self.schema, label))
        } else {
            None
        }
    }

    fn next_label<L: Ledger>(&self, cursor: Address, from: u8, steps: &mut Steps<L>) -> Option<u8> {
        least_below(&self.schema, self.points.as_slice(), &cursor, from, steps)
    }

    fn across<L: Ledger>(&self, cursor: Address, _steps: &mut Steps<L>) -> Option<Address> {
        if self.points.is_empty() {
            return None;
        }
        Some(cursor.next_dim(&self.schema))
    }

    fn before<L: Ledger>(&self, cursor: Address, bin_end: u64, steps: &mut Steps<L>) -> u64 {
        count_before(
            &self.schema,
            self.points.as_slice(),
            &cursor,
            bin_end,
            steps,
        )
    }

    fn before_each<L: Ledger>(
        &self,
        cursor: Address,
        from: u64,
        wide: u64,
        totals: &mut [u64],
        steps: &mut Steps<L>,
    ) {
        count_before_each(
            &self.schema,
            self.points.as_slice(),
            &cursor,
            from,
            wide,
            totals,
            steps,
        );
    }
}

impl Grow for PlainCube {
    fn insert(&mut self, point: Point) -> Result<(), NoMemory> {
        PlainCube::insert(self, point)
    }

    fn insert_all(&mut self, points: &[Point]) -> Result<(), NoMemory> {
        PlainCube::insert_all(self, points)
    }
}
