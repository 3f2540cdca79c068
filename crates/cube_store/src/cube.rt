//! The cube, and how it takes a point.
ghost use Rattle.std.specs.Prelude.{◌≡◌, ◌+◌, ◌*◌, ◌<◌, ◌≤◌, [], ◌∷◌, ◌++◌, List, length, All, IsTrue, IfOk, IfErr, OnOk, OnErr};
ghost use Rattle.cube_view.specs.Bag.{most_points, CountsMore, IsBag};
ghost use Rattle.cube_view.specs.Places.{time_dim};
ghost use Rattle.cube_view.specs.Points.{Point as Counted};
ghost use Rattle.cube_view.specs.Validity.{sound};
ghost use Rattle.arena_undo.specs.Worked.{Worked};
ghost use Rattle.point_insert.specs.Room.{visits};
ghost use Rattle.proper_path.specs.Paths.{point_path};
ghost use Rattle.cube_store.specs.Counted.{CountsPoints, HasPoints};
ghost use Rattle.cube_store.specs.Inserting.{CanInsert, Inserts};
ghost use Rattle.cube_store.specs.Numbers.{cube_numbers, OwnsAllButRoot};
ghost use Rattle.cube_store.specs.Reading.{spot_weight};

use crate::batch::{in_order, insert_group};
use arena_undo::Work;
use cube_view::{CubeView, Point, Schema};
use node_arena::{Arena, SlotId};
use point_insert::{Updated, add, insert_room};
use std::alloc::Global;
use std::mem::replace;
use texts::NoMemory;

/// Points of a schema, at most 2^35, as an arena of nodes and time tables that counts them. What they weigh together is
/// at least their number and at most so many of the heaviest, and each slot but the root has one proper link to it.
#[derive(Drop)]
pub struct Cube {
    pub schema: Schema,
    pub arena: Arena,
    pub root: SlotId,
    pub size: u64,
    alloc: Global,
    ghost counted: { HasPoints schema arena root.0 size },
    ghost bag: { IsBag (spot_weight schema arena) size },
    ghost owned: { OwnsAllButRoot (cube_numbers arena) },
}

impl Cube {
    ghost use Rattle.cube_view.specs.Bag.{Counts};
    ghost use Rattle.cube_store.specs.Counted.{GoAsGroup};
    ghost use Rattle.cube_store.specs.Holding.{CubeCounts, IsLeastCubeOf};

    /// A cube of no points: one root.
    pub fn new(alloc: Global, schema: Schema) -> Result<Cube, NoMemory>
        ensures schema { IfOk result (λ cube. cube.schema ≡ schema) }
        ensures empty { IfOk result (λ cube. CubeCounts cube []) }
        ensures least { IfOk result (λ cube. IsLeastCubeOf cube []) }
        ensures counted { IfOk result (λ cube. Counts (⟦<Cube as CubeView>⟧.weight_at cube) (⟦<Cube as CubeView>⟧.seen cube) []) }
    {
        let mut arena = Arena::new(alloc);
        let root = arena.add_node()?;
        Ok(Cube {
            schema,
            arena,
            root,
            size: 0,
            alloc,
        })
    }

    /// The cube of an arena's slots, of which some list of so many points of the schema is counted.
    pub fn of_slots(alloc: Global, schema: Schema, arena: Arena, root: SlotId, size: u64) -> Cube
        requires counted { HasPoints schema arena root.0 size }
        requires few { size ≤ most_points }
        ensures schema { result.schema ≡ schema }
        ensures slots { (result.arena ≡ arena) × (result.root ≡ root) × (result.size ≡ size) }
        ensures counted { (h : List Counted) → CountsPoints schema arena root.0 size h → CubeCounts result h }
    {
        Cube {
            schema,
            arena,
            root,
            size,
            alloc,
        }
    }

    /// Adds a sound point. After want of memory the arena, the root and the size are as before.
    pub fn insert(&mut self, point: Point) -> Result<(), NoMemory>
        requires sound { IsTrue (sound self.old.schema point) }
        requires room { self.old.size < most_points }
        ensures counted { (h : List Counted) → CubeCounts self.old h → OnOk result (CubeCounts self.new (h ++ point ∷ [])) }
        ensures unchanged { OnErr result ((self.new.arena ≡ self.old.arena) × (self.new.root ≡ self.old.root) × (self.new.size ≡ self.old.size)) }
        ensures schema { self.new.schema ≡ self.old.schema }
    {
        tell_length(&point.spot.values);
        // `Work` owns the arena while it changes, and gives it back either way.
        let arena = replace(&mut self.arena, Arena::new(self.alloc));
        match insert_into(self.alloc, arena, &self.schema, &point, self.root) {
            Ok(arena) => {
                self.arena = arena;
                self.size += 1;
                Ok(())
            }
            Err(arena) => {
                self.arena = arena;
                Err(NoMemory)
            }
        }
    }

    /// Adds sound points, all or none. After want of memory the arena, the root and the size are as before. A single
    /// point goes by the five cases where a batch of the schema has one. Else the points are a group, and keep a least
    /// cube least.
    pub fn insert_all(&mut self, points: &[Point]) -> Result<(), NoMemory>
        requires sound { All (λ p. IsTrue (sound self.old.schema p)) points.now }
        requires room { self.old.size + length points.now ≤ most_points }
        ensures counted { OnOk result (CountsMore (CubeCounts self.old) (CubeCounts self.new) points.now) }
        ensures least { OnOk result (GoAsGroup self.old.schema points.now → CountsMore (IsLeastCubeOf self.old) (IsLeastCubeOf self.new) points.now) }
        ensures unchanged { OnErr result ((self.new.arena ≡ self.old.arena) × (self.new.root ≡ self.old.root) × (self.new.size ≡ self.old.size)) }
        ensures schema { self.new.schema ≡ self.old.schema }
    {
        // One point is inserted by the five cases where each batch has one: these cubes have the numbers of
        // docs/CUBE.md.
        if let [point] = points {
            if self.schema.batch == 1 {
                return self.insert(*point);
            }
        }
        let sorted = in_order(self.alloc, points)?;
        let arena = replace(&mut self.arena, Arena::new(self.alloc));
        match insert_group(
            self.alloc,
            arena,
            &self.schema,
            &sorted,
            self.root,
            self.size,
        ) {
            Ok(arena) => {
                self.arena = arena;
                self.size += points.len() as u64;
                Ok(())
            }
            Err(arena) => {
                self.arena = arena;
                Err(NoMemory)
            }
        }
    }
}

/// Contracts learn that a spot has four values. It does nothing when run.
pub(crate) fn tell_length(values: &[u8; 4])
    ensures { length values.now ≡ 4 }
{}

/// The arena with the point, or the arena as it was where memory is wanted.
fn insert_into(
    alloc: Global,
    arena: Arena,
    schema: &Schema,
    point: &Point,
    root: SlotId,
) -> Result<Arena, Arena>
    requires sound { IsTrue (sound schema.now point.now) }
    requires root { root.0 ≡ 0 }
    requires known { ∥ CanInsert (time_dim schema.now) (point_path schema.now point.now) arena ∥₁ }
    ensures inserted { IfOk result (λ again. Inserts (time_dim schema.now) (point_path schema.now point.now) arena again) }
    ensures back { IfErr result (λ again. again ≡ arena) }
{
    let mut work = Work::begin(alloc, arena, insert_room(schema))?;
    match add_at_root(alloc, &mut work, schema, point, root) {
        Ok(()) => Ok(work.keep()),
        Err(_) => Err(work.undo()),
    }
}

/// Adds the point to the first dimension at the root, with an updated set of its own.
fn add_at_root(
    alloc: Global,
    work: &mut Work,
    schema: &Schema,
    point: &Point,
    root: SlotId,
) -> Result<(), NoMemory>
    requires sound { IsTrue (sound schema.now point.now) }
    requires root { root.0 ≡ 0 }
    requires known { ∥ CanInsert (time_dim schema.now) (point_path schema.now point.now) work.old.slots ∥₁ }
    requires room { work.old.made + 5 * visits schema.now ≤ work.old.room }
    ensures inserted { OnOk result (Inserts (time_dim schema.now) (point_path schema.now point.now) work.old.slots work.new.slots) }
    ensures start { work.new.start ≡ work.old.start }
{
    // 64 is a first room and no bound: the set grows where an insertion updates more contents.
    let mut updated = Updated::with_room(alloc, 64)?;
    add(alloc, work, schema, point, 1, root, &mut updated)
}
