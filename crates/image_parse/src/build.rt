//! Slots put into an arena.
ghost use Rattle.std.specs.Prelude.{◌≡◌, ◌<◌, ◌≤◌, ◌^◌, ◌↔◌, take, IsTrue, OnOk, IfOk, MatchBool};
ghost use Rattle.time_table.specs.Rows.{AreRows, row_total};
ghost use Rattle.image_parse.specs.Views.{KeepsOneMore, IsLightTable, IsParsed, kept_if, slot_parsed};

use crate::slots::{ParsedSlot, Room};
use node_arena::Arena;
use texts::NoMemory;

/// The most records that a table holds.
const MOST_RECORDS: u64 = 1 << 63;

/// Adds a slot at the end of an arena, if it is one of light slots. It says whether all of them are with this one: no
/// comes exactly where they weren't before, or the slot is a table that counts more records than one can hold.
pub fn add_slot(
    arena: &mut Arena,
    are_light: bool,
    room: &Room,
    slot: ParsedSlot,
) -> Result<bool, NoMemory>
    requires { IsParsed room.now slot }
    ensures { IfOk result (λ now_light. KeepsOneMore (kept_if are_light arena.old) (kept_if now_light arena.new) (slot_parsed room.now slot)) }
{
    if !are_light {
        return Ok(false);
    }
    match slot {
        ParsedSlot::Node(content) => {
            arena.put_node(room.children.as_slice(), content)?;
            Ok(true)
        }
        ParsedSlot::Table => add_table(arena, room.rows.as_slice()),
    }
}

/// Adds a table of rows at the end of an arena, if one can hold them. It says whether it did.
fn add_table(arena: &mut Arena, rows: &[(u32, u64)]) -> Result<bool, NoMemory>
    requires { AreRows 0 rows.now }
    ensures { IfOk result (λ added. MatchBool added (IsLightTable arena.old arena.new rows.now) (¬ (row_total rows.now ≤ 2 ^ 63))) }
{
    if !is_light(rows) {
        return Ok(false);
    }
    arena.put_table(rows)?;
    Ok(true)
}

/// Whether a table can hold rows.
fn is_light(rows: &[(u32, u64)]) -> bool
    ensures { IsTrue result ↔ (row_total rows.now ≤ 2 ^ 63) }
{
    let mut total = 0;
    for row in rows {
        if row.1 > MOST_RECORDS - total {
            return false;
        }
        total += row.1;
    }
    true
}
