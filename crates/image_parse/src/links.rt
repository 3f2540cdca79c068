//! Links, contents and children at the front of bytes.
ghost use Rattle.std.specs.Prelude.{◌≡◌, ◌<◌, ◌≤◌};
ghost use Rattle.image_parse.specs.Reading.{link_to, link_at, content_at, child_at};
ghost use Rattle.image_parse.specs.Views.{Gives};

use crate::fault::ImageParseFault;
use crate::numbers::{take_byte, take_u64};
use node_arena::{Link, SlotId};

/// The link of a kind to one of some slots. A proper one leads to the next slot that has no link yet, and then the slot
/// after it is the next one.
#[tactic(auto, unfolding(crate::specs::Reading::link_to))]
fn link_to(slots: u32, next: &mut u32, kind: u8, to: u64) -> Result<Link, ImageParseFault>
    ensures { Gives (λ l. (l, next.new)) result (link_to slots next.old kind to) }
{
    if to >= u64::from(slots) {
        return Err(ImageParseFault::NotImage);
    }
    let id = SlotId(to as u32);
    match kind {
        1 if id.0 == *next => {
            *next += 1;
            Ok(Link::proper(id))
        }
        2 => Ok(Link::proper(id).shared()),
        _ => Err(ImageParseFault::NotImage),
    }
}

/// The link whose kind was taken.
#[tactic(auto, unfolding(crate::specs::Reading::link_at))]
fn take_link<'a>(
    bytes: &'a [u8],
    slots: u32,
    next: &mut u32,
    kind: u8,
) -> Result<(Link, &'a [u8]), ImageParseFault>
    ensures { Gives (λ x. (x.0, next.new, x.1.now)) result (link_at slots next.old kind bytes.now) }
{
    let (to, rest) = take_u64(bytes)?;
    let link = link_to(slots, next, kind, to)?;
    Ok((link, rest))
}

/// The content of a node, or none.
#[tactic(auto, unfolding(crate::specs::Reading::content_at))]
pub fn take_content<'a>(
    bytes: &'a [u8],
    slots: u32,
    next: &mut u32,
) -> Result<(Option<Link>, &'a [u8]), ImageParseFault>
    ensures { Gives (λ x. (x.0, next.new, x.1.now)) result (content_at slots next.old bytes.now) }
{
    let (kind, rest) = take_byte(bytes)?;
    if kind == 0 {
        return Ok((None, rest));
    }
    let (link, rest) = take_link(rest, slots, next, kind)?;
    Ok((Some(link), rest))
}

/// A child whose label is `from` or later.
#[tactic(auto, unfolding(crate::specs::Reading::child_at))]
pub fn take_child<'a>(
    bytes: &'a [u8],
    slots: u32,
    next: &mut u32,
    from: u16,
) -> Result<((u8, Link), &'a [u8]), ImageParseFault>
    ensures { Gives (λ x. (x.0, next.new, x.1.now)) result (child_at slots from next.old bytes.now) }
{
    let (label, rest) = take_byte(bytes)?;
    let (kind, rest) = take_byte(rest)?;
    let (link, rest) = take_link(rest, slots, next, kind)?;
    if u16::from(label) < from {
        return Err(ImageParseFault::NotImage);
    }
    Ok(((label, link), rest))
}
