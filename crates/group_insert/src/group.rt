//! The insertion of a group of points.
ghost use Rattle.std.specs.Prelude.{◌≡◌, OnOk};
ghost use Rattle.cube_view.specs.Places.{time_dim};
ghost use Rattle.probe_core.specs.Blanks.{IsBlankOf};
ghost use Rattle.proper_path.specs.Paths.{paths_of};
ghost use Rattle.group_insert.specs.InsertingAll.{TakesGroup, InsertsAll};
ghost use Rattle.group_insert.specs.Visiting.{root_of};

use crate::put_off::PutOffLink;
use crate::visits::{Part, Place, visit};
use crate::way::Way;
use arena_undo::Work;
use cube_view::{Point, Schema};
use node_arena::SlotId;
use probe_core::Steps;
use std::alloc::Global;
use std::marker::Brand;
use std::sync::ledger::{Blank, Ledger};
use texts::NoMemory;

/// Adds sound points to a cube's arena, each address that holds some of them visited once. For want of memory the arena
/// holds the changes that were recorded.
pub fn add_group(
    alloc: Global,
    work: &mut Work,
    schema: &Schema,
    points: &[Point],
    root: SlotId,
) -> Result<(), NoMemory>
    requires { TakesGroup schema.now points.now work.old.slots root.0 }
    ensures inserted { OnOk result (InsertsAll (time_dim schema.now) (paths_of schema.now points.now) work.old.slots work.new.slots) }
    ensures start { work.new.start ≡ work.old.start }
{
    add_counted::<Brand>(alloc, work, schema, points, root, Blank::new(1))
}

/// The root, where a visit begins.
fn root_place(root: SlotId, end: usize) -> Place
    ensures { result ≡ root_of root end }
{
    Place {
        dim: 1,
        level: 0,
        at: root,
        part: Part { at: 0, end },
        way: Way {
            values: [None; 6],
            roots: [root; 6],
            level: 0,
        },
    }
}

/// The same, read in a ledger of its own. The points are copied, and the parts of the visits stand behind them.
fn add_counted<L: Ledger>(
    alloc: Global,
    work: &mut Work,
    schema: &Schema,
    points: &[Point],
    root: SlotId,
    blank: Blank,
) -> Result<(), NoMemory>
    requires blank { IsBlankOf L.name L.parts blank }
    requires group { TakesGroup schema.now points.now work.old.slots root.0 }
    ensures inserted { OnOk result (InsertsAll (time_dim schema.now) (paths_of schema.now points.now) work.old.slots work.new.slots) }
    ensures start { work.new.start ≡ work.old.start }
{
    // The points of a label are put behind these, and taken off when its child has been visited.
    let mut pile = Vec::from_slice(alloc, points)?;
    let mut put_off = Vec::<PutOffLink>::new(alloc);
    let place = root_place(root, points.len());
    let mut steps = Steps::<L>::new(blank);
    visit(work, schema, &mut pile, &mut put_off, &place, &mut steps)
}
