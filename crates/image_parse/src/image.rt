//! Whole images.
ghost use Rattle.std.specs.Prelude.{◌≡◌, ◌+◌, ◌≤◌, Some, Err, MatchOption, IfOk, MatchResult};
ghost use Rattle.image_parse.specs.Images.{IsLightImage, IsHeavyImage, IsNoImage};
ghost use Rattle.image_parse.specs.Reading.{form_name_at, head_at, slots_at, all_at, image_at};
ghost use Rattle.image_parse.specs.Views.{Gives, Fails, HasSlots, HasImage};

use crate::build::add_slot;
use crate::fault::ImageParseFault;
use crate::numbers::take_u64;
use crate::slots::{Room, take_slot};
use node_arena::Arena;
use std::alloc::Global;

/// The name of the form.
const NAME: &[u8] = b"NANOCUB1";

/// The slots of an image in an arena, and its size.
#[derive(Drop)]
pub struct ParsedImage {
    pub arena: Arena,
    pub size: u64,
}

/// The bytes after the name of the form.
#[tactic(auto, unfolding(crate::specs::Reading::form_name_at))]
fn take_name(bytes: &[u8]) -> Result<&[u8], ImageParseFault>
    ensures { Gives (λ x. x.now) result (form_name_at bytes.now) }
{
    if !bytes.starts_with(NAME) {
        return Err(ImageParseFault::NotImage);
    }
    Ok(&bytes[8..])
}

/// The size and the number of slots.
#[tactic(auto, unfolding(crate::specs::Reading::head_at))]
fn take_head(bytes: &[u8]) -> Result<((u64, u64), &[u8]), ImageParseFault>
    ensures { Gives (λ x. (x.0, x.1.now)) result (head_at bytes.now) }
{
    let rest = take_name(bytes)?;
    let (size, rest) = take_u64(rest)?;
    let (slots, rest) = take_u64(rest)?;
    Ok(((size, slots), rest))
}

/// All slots, in an arena, or in none if a table counts more records than one can hold.
fn take_slots<'a>(
    alloc: Global,
    bytes: &'a [u8],
    slots: u32,
    next: &mut u32,
) -> Result<(Option<Arena>, &'a [u8]), ImageParseFault>
    ensures { let read = slots_at slots slots next.old bytes.now in MatchResult result (λ x. HasSlots read x.0 next.new x.1.now) (λ fault. Fails fault read) }
{
    let mut arena = Arena::new(alloc);
    let mut room = Room {
        children: Vec::new(alloc),
        rows: Vec::new(alloc),
    };
    let mut are_light = true;
    let mut rest = bytes;
    for _ in 0..slots {
        let (slot, after) = take_slot(&mut room, rest, slots, next)?;
        are_light = add_slot(&mut arena, are_light, &room, slot)?;
        rest = after;
    }
    if are_light {
        Ok((Some(arena), rest))
    } else {
        Ok((None, rest))
    }
}

/// The slots behind the head of an image, up to its end.
fn take_all(
    alloc: Global,
    bytes: &[u8],
    size: u64,
    slots: u32,
) -> Result<Option<ParsedImage>, ImageParseFault>
    ensures { MatchResult result (HasImage (all_at slots size bytes.now)) (λ fault. Fails fault (all_at slots size bytes.now)) }
{
    let mut next = 1;
    let (kept, rest) = take_slots(alloc, bytes, slots, &mut next)?;
    if next != slots {
        return Err(ImageParseFault::NotImage);
    }
    if !rest.is_empty() {
        return Err(ImageParseFault::NotImage);
    }
    match kept {
        Some(arena) => Ok(Some(ParsedImage { arena, size })),
        None => Ok(None),
    }
}

/// An image: its slots and its size, or None where a table is too heavy.
#[tactic(auto, unfolding(crate::specs::Reading::image_at))]
fn take_image(alloc: Global, bytes: &[u8]) -> Result<Option<ParsedImage>, ImageParseFault>
    ensures { MatchResult result (HasImage (image_at bytes.now)) (λ fault. Fails fault (image_at bytes.now)) }
{
    let ((size, slots), rest) = take_head(bytes)?;
    if (rest.len() as u64) < slots {
        return Err(ImageParseFault::NotImage);
    }
    let Ok(slots) = u32::try_from(slots) else {
        return Err(ImageParseFault::NoMemory);
    };
    take_all(alloc, rest, size, slots)
}

/// The slots and the size of an image, or None if it has a table that counts more than 2^63 records, which is what one
/// can hold. `NotImage` comes exactly where the bytes are no image, unless memory was wanted before. An image of 2^32
/// slots or more wants more memory than there is.
pub fn parse_image(alloc: Global, bytes: &[u8]) -> Result<Option<ParsedImage>, ImageParseFault>
    ensures image { IfOk result (λ image. MatchOption image (IsHeavyImage bytes.now) (λ found. IsLightImage bytes.now found.size found.arena)) }
    ensures none { result ≡ Err ImageParseFault.NotImage → IsNoImage bytes.now }
{
    take_image(alloc, bytes)
}
