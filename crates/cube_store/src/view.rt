//! The cube as its readers see it: cursors go along the links of the arena.
use crate::cube::Cube;
use cube_view::{Address, CubeView, Grow, Point, Schema, Stat};
use node_arena::SlotId;
use probe_core::Steps;
use std::sync::ledger::Ledger;
use texts::NoMemory;

/// Where a walk stands in a cube: at a slot, and at an address, since a shared slot has many.
#[derive(Clone, Copy)]
pub struct CubeCursor {
    slot: SlotId,
    address: Address,
}

impl CubeView for Cube {
    ghost use Rattle.cube_store.specs.Numbers.{cube_numbers, OwnsAllButRoot};
    ghost use Rattle.cube_store.specs.Reading.{StandsAt, spot_weight, cube_costs};

    type Cursor = CubeCursor;

    ghost weight_at = { λ c. spot_weight c.schema c.arena };

    ghost seen = { λ c. c.size };

    ghost schema = { λ c. c.schema };

    ghost stands = { λ c d. StandsAt c.schema c.arena d.slot.0 d.address };

    ghost address = { λ c d. d.address };

    ghost costs = { λ c. cube_costs c.arena };

    ghost numbers = { λ c. cube_numbers c.arena };

    ghost is_stat = { OwnsAllButRoot };

    ghost bag = { λ c. c.bag };

    ghost structure = { λ c. c.owned };

    fn schema(&self) -> &Schema {
        &self.schema
    }

    fn seen(&self) -> u64 {
        self.size
    }

    fn top(&self) -> CubeCursor {
        CubeCursor {
            slot: self.root,
            address: Address::top(),
        }
    }

    fn stat(&self) -> Stat {
        // The number of slots is one of 64 bits: contracts learn it where they are counted.
        let _slots = self.arena.len();
        self.arena.stat()
    }

    fn down<L: Ledger>(
        &self,
        cursor: CubeCursor,
        label: u8,
        steps: &mut Steps<L>,
    ) -> Option<CubeCursor> {
        let link = self.arena.child(cursor.slot, label, steps)?;
        Some(CubeCursor {
            slot: link.to,
            address: cursor.address.longer(&self.schema, label),
        })
    }

    fn next_label<L: Ledger>(
        &self,
        cursor: CubeCursor,
        from: u8,
        steps: &mut Steps<L>,
    ) -> Option<u8> {
        let (label, _) = self.arena.next_child(cursor.slot, from, steps)?;
        Some(label)
    }

    fn across<L: Ledger>(&self, cursor: CubeCursor, steps: &mut Steps<L>) -> Option<CubeCursor> {
        let link = self.arena.content(cursor.slot, steps)?;
        Some(CubeCursor {
            slot: link.to,
            address: cursor.address.next_dim(&self.schema),
        })
    }

    fn before<L: Ledger>(&self, cursor: CubeCursor, bin_end: u64, steps: &mut Steps<L>) -> u64 {
        let table = self.arena.table(cursor.slot, steps);
        table.before(bin_end, steps)
    }

    fn before_each<L: Ledger>(
        &self,
        cursor: CubeCursor,
        from: u64,
        wide: u64,
        totals: &mut [u64],
        steps: &mut Steps<L>,
    ) {
        let table = self.arena.table(cursor.slot, steps);
        table.before_each(from, wide, totals, steps);
    }
}

impl Grow for Cube {
    fn insert(&mut self, point: Point) -> Result<(), NoMemory> {
        Cube::insert(self, point)
    }

    fn insert_all(&mut self, points: &[Point]) -> Result<(), NoMemory> {
        Cube::insert_all(self, points)
    }
}
