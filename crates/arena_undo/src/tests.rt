//! Changes that are made and undone.
ghost use Rattle.std.specs.Prelude.{◌≡◌, [], ◌∷◌, IfOk};
ghost use Rattle.node_arena.specs.Slots.{empty_node};
ghost use Rattle.arena_undo.specs.Worked.{begun};

use crate::Work;
use cube_view::Stat;
use node_arena::{Arena, Link, SlotId};
use std::alloc::Global;
use std::test::Fail;
use texts::NoMemory;

/// Work on an arena of one node.
fn work_on_one_node(alloc: Global) -> Result<Work, NoMemory>
    ensures { IfOk result (λ work. work ≡ begun (empty_node ∷ []) 7) }
{
    let mut arena = Arena::new(alloc);
    arena.add_node()?;
    match Work::begin(alloc, arena, 7) {
        Ok(work) => Ok(work),
        Err(_) => Err(NoMemory),
    }
}

/// One change of each kind, of the node that is there where it can be.
#[tactic(none)]
fn change_by_each_call(work: &mut Work) -> Result<(), NoMemory>
    requires { work.old ≡ begun (empty_node ∷ []) 7 }
{
    let (root, node, table) = (SlotId(0), SlotId(1), SlotId(2));
    work.add_node()?;
    work.add_table()?;
    work.copy_slot(root)?;
    work.put_child(root, 2, Link::proper(node))?;
    work.set_child(root, 2, Link::proper(table));
    work.set_content(root, Some(Link::proper(node)));
    work.table_add_many(table, 5, 5)
}

#[test]
fn undoes_a_change_of_each_kind(rt: HostRuntime) -> Result<(), Fail> {
    let mut work = work_on_one_node(rt.alloc())?;
    change_by_each_call(&mut work)?;
    assert_eq!(rt; work.len(), 4);
    let arena = work.undo();
    let one_node = Stat {
        nodes: 1,
        tables: 0,
        proper: 0,
        shared: 0,
    };
    assert_eq!(rt; arena.stat(), one_node);
    Ok(())
}

#[test]
fn makes_room_for_what_comes(rt: HostRuntime) -> Result<(), Fail> {
    let mut arena = Arena::new(rt.alloc());
    arena.add_node()?;
    let Ok(mut work) = Work::begin(rt.alloc(), arena, 0) else {
        return Ok(());
    };
    work.reserve(1)?;
    work.add_node()?;
    assert_eq!(rt; work.undo().len(), 1);
    Ok(())
}
