//! A cube that takes points in groups.
ghost use Rattle.std.specs.Prelude.{◌≡◌, ◌+◌, ◌<◌, ◌≤◌, [], ◌∷◌, List, All, IfOk, IsTrue, OnOk, length};
ghost use Rattle.cube_view.specs.Bag.{most_points};
ghost use Rattle.cube_view.specs.Points.{Point as Counted};
ghost use Rattle.cube_view.specs.Validity.{sound};

use cube_store::Cube;
use cube_view::{Point, Schema};
use std::alloc::Global;
use texts::NoMemory;

/// A cube, and the points that follow those that it counts. They are inserted as one group: where there are as many as
/// the schema's batch and one more comes, and at the end. With a batch of several points the cube is a least one.
#[derive(Drop)]
pub(crate) struct GroupedCube {
    cube: Cube,
    gathered: Vec<Point>,
    ghost sound: { All (λ p. IsTrue (sound cube.schema p)) gathered.items },
    ghost few: { length gathered.items ≤ cube.schema.batch },
}

impl GroupedCube {
    ghost use Rattle.save_run.specs.Grouping.{GroupsCount, GroupsLeast, GroupsTake, grouped_size};
    ghost use Rattle.cube_store.specs.Holding.{CubeCounts, IsLeastCubeOf};

    /// A cube of no points, with a schema of its own.
    pub(crate) fn new(alloc: Global, schema: &Schema) -> Result<GroupedCube, NoMemory>
        ensures schema { IfOk result (λ grouped. grouped.cube.schema ≡ schema.now) }
        ensures empty { IfOk result (λ grouped. GroupsCount grouped []) }
        ensures least { IfOk result (λ grouped. GroupsLeast grouped []) }
    {
        let cube = Cube::new(alloc, schema.copy(alloc)?)?;
        Ok(GroupedCube {
            cube,
            gathered: Vec::new(alloc),
        })
    }

    /// Takes a sound point behind the others. After want of memory it is not known whether the point was taken.
    pub(crate) fn take(&mut self, point: Point) -> Result<(), NoMemory>
        requires sound { IsTrue (sound self.old.cube.schema point) }
        requires room { grouped_size self.old < most_points }
        ensures taken { OnOk result (GroupsTake self.old self.new (point ∷ [])) }
        ensures schema { self.new.cube.schema ≡ self.old.cube.schema }
        ensures size { OnOk result (grouped_size self.new ≡ grouped_size self.old + 1) }
    {
        self.make_room()?;
        self.gathered.push(point)?;
        Ok(())
    }

    /// Inserts the points that were gathered, where they fill a batch.
    fn make_room(&mut self) -> Result<(), NoMemory>
        requires room { grouped_size self.old ≤ most_points }
        ensures taken { OnOk result (GroupsTake self.old self.new []) }
        ensures schema { self.new.cube.schema ≡ self.old.cube.schema }
        ensures size { OnOk result (grouped_size self.new ≡ grouped_size self.old) }
        ensures short { OnOk result (length self.new.gathered.items < self.new.cube.schema.batch) }
    {
        if self.gathered.len() < self.cube.schema.batch as usize {
            return Ok(());
        }
        self.insert_gathered()
    }

    /// Inserts the points that were gathered as one group, if there are any.
    fn insert_gathered(&mut self) -> Result<(), NoMemory>
        requires room { grouped_size self.old ≤ most_points }
        ensures taken { OnOk result (GroupsTake self.old self.new []) }
        ensures schema { self.new.cube.schema ≡ self.old.cube.schema }
        ensures size { OnOk result (grouped_size self.new ≡ grouped_size self.old) }
        ensures none { OnOk result (self.new.gathered.items ≡ []) }
    {
        if self.gathered.is_empty() {
            return Ok(());
        }
        self.cube.insert_all(self.gathered.as_slice())?;
        self.gathered.clear();
        Ok(())
    }

    /// The cube of all points. It inserts those that are gathered still.
    pub(crate) fn into_cube(mut self) -> Result<Cube, NoMemory>
        requires room { grouped_size self ≤ most_points }
        ensures schema { IfOk result (λ cube. cube.schema ≡ self.cube.schema) }
        ensures counted { IfOk result (λ cube. (h : List Counted) → GroupsCount self h → CubeCounts cube h) }
        ensures least { IfOk result (λ cube. 1 < self.cube.schema.batch → (h : List Counted) → GroupsLeast self h → IsLeastCubeOf cube h) }
    {
        self.insert_gathered()?;
        let GroupedCube { cube, gathered: _ } = self;
        Ok(cube)
    }
}
