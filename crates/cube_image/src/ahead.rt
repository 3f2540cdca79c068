//! Slots that are looked at before they are needed. Slots that follow each other in an image's order lie far apart in
//! the arena, so each is waited for: a loop that asks each of the next 32 two things, and does nothing else by the
//! answer, waits for many of them at once, and they are at hand when their turn comes.
ghost use Rattle.std.specs.Prelude.{◌≡◌, ◌<◌, ◌≤◌, length, All};

use node_arena::{Arena, SlotId};
use texts::{List, NoMemory};

/// How many slots are looked at in one loop.
const AHEAD: usize = 32;

/// What the slots are that were looked at.
#[derive(Drop)]
struct Ahead {
    tables: usize,
    contents: usize,
}

/// Looks before each 32nd slot of an order at the next 32, and makes room for about as many bytes as they take: 14 for
/// a node with one child, and 8 more for a content, and for a table 9 and then 12 a row.
pub fn make_room(
    out: &mut Vec<u8>,
    arena: &Arena,
    places: &[u32],
    at: usize,
) -> Result<(), NoMemory>
    requires { All (λ i. i < length arena.now) places.now }
    ensures { out.new.items ≡ out.old.items }
{
    if at % AHEAD != 0 {
        return Ok(());
    }
    let ahead = look_ahead(arena, places, at);
    out.try_reserve(14 * AHEAD + 8 * ahead.contents + 12 * ahead.tables)?;
    Ok(())
}

/// Looks before each 32nd slot of an order that is being made at the next 32, as far as they are known, and makes room
/// for about as many slots as they own: a node one child and perhaps a content, and a table none.
pub fn make_place(places: &mut List<u32>, arena: &Arena, at: usize) -> Result<(), NoMemory>
    requires { All (λ i. i < length arena.now) places.old }
    ensures { places.new ≡ places.old }
{
    if at % AHEAD != 0 {
        return Ok(());
    }
    let ahead = look_ahead(arena, places.as_slice(), at);
    places.reserve(AHEAD - ahead.tables + ahead.contents)
}

/// How many of the next slots of an order are tables, and how many have a content. A slot often lies over two lines of
/// the cache, and its content in the second one.
// Not part of its callers, whose loops it would make longer for each slot.
#[inline(never)]
fn look_ahead(arena: &Arena, places: &[u32], at: usize) -> Ahead
    requires { All (λ i. i < length arena.now) places.now }
    ensures { (result.tables ≤ 32) × (result.contents ≤ 32) }
{
    let mut tables = 0;
    let mut contents = 0;
    for i in at..at.saturating_add(AHEAD) {
        if i >= places.len() {
            return Ahead { tables, contents };
        }
        let id = SlotId(places[i]);
        tables += usize::from(arena.is_table(id));
        contents += usize::from(arena.has_content(id));
    }
    Ahead { tables, contents }
}
