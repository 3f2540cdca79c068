//! One record more in a table of an arena and one less, and one more in a work that is undone.
ghost use Rattle.std.specs.Prelude.{◌≡◌, [], ◌∷◌, IfOk};
ghost use Rattle.arena_undo.specs.Worked.{begun};
ghost use Rattle.node_arena.specs.Slots.{table};
ghost use Rattle.probe_core.specs.Blanks.{IsBlankOf};
ghost use Rattle.std.specs.FinMap.{empty};

use arena_undo::Work;
use node_arena::{Arena, SlotId};
use probe_core::Steps;
use std::alloc::Global;
use std::marker::Brand;
use std::sync::ledger::{Blank, Ledger};
use std::test::Fail;
use texts::NoMemory;

/// An arena of one empty table.
fn arena_of_one_table(alloc: Global) -> Result<Arena, NoMemory>
    ensures { IfOk result (λ arena. arena ≡ table empty ∷ []) }
{
    let mut arena = Arena::new(alloc);
    arena.add_table()?;
    Ok(arena)
}

/// Work on such an arena, with room for two changes.
fn work_on_one_table(alloc: Global) -> Result<Work, NoMemory>
    ensures { IfOk result (λ work. work ≡ begun (table empty ∷ []) 2) }
{
    let arena = arena_of_one_table(alloc)?;
    match Work::begin(alloc, arena, 2) {
        Ok(work) => Ok(work),
        Err(_) => Err(NoMemory),
    }
}

/// How many records there are in the bin once two were added, and once one of them was taken.
fn added_and_taken<L: Ledger>(alloc: Global, blank: Blank) -> Result<(u64, u64), NoMemory>
    requires { IsBlankOf L.name L.parts blank }
{
    let mut steps = Steps::<L>::new(blank);
    let mut arena = arena_of_one_table(alloc)?;
    arena.table_add(SlotId(0), 5)?;
    arena.table_add(SlotId(0), 5)?;
    let added = arena.table(SlotId(0), &mut steps).before(6, &mut steps);
    arena.table_take(SlotId(0), 5);
    let taken = arena.table(SlotId(0), &mut steps).before(6, &mut steps);
    Ok((added, taken))
}

/// How many records there are in the bin once two were added to a work, and once all of it was undone.
fn added_and_undone<L: Ledger>(alloc: Global, blank: Blank) -> Result<(u64, u64), NoMemory>
    requires { IsBlankOf L.name L.parts blank }
{
    let mut steps = Steps::<L>::new(blank);
    let mut work = work_on_one_table(alloc)?;
    work.table_add(SlotId(0), 5)?;
    work.table_add(SlotId(0), 5)?;
    let added = work.table(SlotId(0), &mut steps).before(6, &mut steps);
    let arena = work.undo();
    let undone = arena.table(SlotId(0), &mut steps).before(6, &mut steps);
    Ok((added, undone))
}

#[test]
fn counts_one_record_more_and_one_less_in_an_arena(rt: HostRuntime) -> Result<(), Fail> {
    let counts = added_and_taken::<Brand>(rt.alloc(), Blank::new(1))?;
    assert!(rt; counts == (2, 1));
    Ok(())
}

#[test]
fn undoes_records_that_were_added_one_by_one(rt: HostRuntime) -> Result<(), Fail> {
    let counts = added_and_undone::<Brand>(rt.alloc(), Blank::new(1))?;
    assert!(rt; counts == (2, 0));
    Ok(())
}
