//! An arena's image.
ghost use Rattle.std.specs.Prelude.{◌≡◌, ◌++◌, IfOk, OnOk, Err};
ghost use Rattle.probe_core.specs.Blanks.{IsBlankOf};
ghost use Rattle.node_arena.specs.Stats.{AllRising};
ghost use Rattle.cube_image.specs.Bytes.{head_bytes};
ghost use Rattle.cube_image.specs.Conditions.{HasSomeHomes};
ghost use Rattle.cube_image.specs.Image.{IsWritten, HasLongImage};

use crate::bytes::put_number;
use crate::fault::SaveFault;
use crate::order::order_of;
use crate::print::put_slots;
use node_arena::{Arena, SlotId};
use probe_core::Steps;
use std::alloc::Global;
use std::marker::Brand;
use std::sync::ledger::{Blank, Ledger};
use texts::{List, NoMemory, put};

/// The image of the slots of a cube with a size. `TooLong` comes exactly where it has more than 2^30 bytes, unless
/// memory was wanted before. Contracts learn too that the labels of each node rise.
pub fn write_image(
    alloc: Global,
    arena: &Arena,
    root: SlotId,
    size: u64,
) -> Result<List<u8>, SaveFault>
    requires root { root.0 ≡ 0 }
    requires homes { ∥ HasSomeHomes arena.now ∥₁ }
    ensures written { IfOk result (IsWritten arena.now size) }
    ensures too_long { result ≡ Err SaveFault.TooLong → HasLongImage arena.now size }
    ensures rising { AllRising arena.now }
{
    arena.tell_order();
    write_in::<Brand>(alloc, arena, root, size, Blank::new(1))
}

/// The image, in a ledger of its own.
fn write_in<L: Ledger>(
    alloc: Global,
    arena: &Arena,
    root: SlotId,
    size: u64,
    blank: Blank,
) -> Result<List<u8>, SaveFault>
    requires blank { IsBlankOf L.name L.parts blank }
    requires root { root.0 ≡ 0 }
    requires homes { ∥ HasSomeHomes arena.now ∥₁ }
    requires rising { AllRising arena.now }
    ensures written { IfOk result (IsWritten arena.now size) }
    ensures too_long { result ≡ Err SaveFault.TooLong → HasLongImage arena.now size }
{
    let mut steps = Steps::<L>::new(blank);
    let order = order_of(alloc, arena, root, &mut steps)?;
    let mut out = Vec::new(alloc);
    put_head(&mut out, size, order.places.len() as u64)?;
    put_slots(alloc, &mut out, arena, &order, &mut steps)?;
    Ok(List::from_vec(out))
}

/// Puts what stands before the slots: the name of the form, the size, and how many slots there are.
fn put_head(out: &mut Vec<u8>, size: u64, slots: u64) -> Result<(), NoMemory>
    ensures { OnOk result (out.new.items ≡ out.old.items ++ head_bytes size slots) }
{
    put(out, b"NANOCUB1")?;
    put_number(out, size)?;
    put_number(out, slots)
}
