//! The slots and the size of an image.
ghost use Rattle.std.specs.Prelude.{◌≤◌, length, IfOk, IfErr};
ghost use Rattle.cube_image.specs.Image.{most_bytes};
ghost use Rattle.image_parse.specs.Images.{IsLightImage};
ghost use Rattle.probe_core.specs.Blanks.{IsBlankOf};
ghost use Rattle.shape_test.specs.Testable.{AreTestable};
ghost use Rattle.image_cube.specs.Read.{FitsSlots, ReadsImage, Refuses};

use crate::fault::ImageFault;
use cube_image::MOST_BYTES;
use cube_view::Schema;
use image_parse::{ImageParseFault, ParsedImage, image_parse_laws, parse_image};
use node_arena::{Arena, SlotId};
use probe_core::Steps;
use shape_test::{fits, size_laws};
use std::alloc::Global;
use std::marker::Brand;
use std::sync::ledger::{Blank, Ledger};
use texts::List;

/// The slots of an image, the root and the size, if they fit the schema, by steps of a ledger of its own.
fn fit_image<L: Ledger>(
    alloc: Global,
    schema: &Schema,
    image: ParsedImage,
    blank: Blank,
) -> Result<(Arena, SlotId, u64), ImageFault>
    requires blank { IsBlankOf L.name L.parts blank }
    requires testable { AreTestable image.arena }
    ensures { FitsSlots schema.now image.arena image.size result }
{
    let mut steps = Steps::<L>::new(blank);
    let ParsedImage { arena, size } = image;
    if fits(alloc, schema, &arena, size, &mut steps)? {
        Ok((arena, SlotId(0), size))
    } else {
        Err(ImageFault::NotShape)
    }
}

/// The slots and the size of which the bytes are the image, if there are at most 2^30 of them. Slots of which a table
/// counts more than one can hold fit no schema.
fn parse_short(alloc: Global, bytes: &[u8]) -> Result<ParsedImage, ImageFault>
    ensures image { IfOk result (λ image. (length bytes.now ≤ most_bytes) × IsLightImage bytes.now image.size image.arena) }
    ensures refused { IfErr result (λ fault. (schema : Schema) → Refuses schema bytes.now fault) }
{
    image_parse_laws();
    size_laws();
    if bytes.len() as u64 > MOST_BYTES {
        return Err(ImageFault::TooLong);
    }
    match parse_image(alloc, bytes) {
        Ok(Some(image)) => Ok(image),
        Ok(None) => Err(ImageFault::NotShape),
        Err(ImageParseFault::NotImage) => Err(ImageFault::NotImage),
        Err(ImageParseFault::NoMemory) => Err(ImageFault::NoMemory),
    }
}

/// The same of bytes that are let go.
fn parse_list(alloc: Global, bytes: List<u8>) -> Result<ParsedImage, ImageFault>
    ensures image { IfOk result (λ image. (length bytes ≤ most_bytes) × IsLightImage bytes image.size image.arena) }
    ensures refused { IfErr result (λ fault. (schema : Schema) → Refuses schema bytes fault) }
{
    parse_short(alloc, bytes.as_slice())
}

/// The slots, the root and the size of which the bytes are the image, for a schema that they fit. `TooLong` comes
/// exactly where there are more than 2^30 bytes; with no more `NotImage` exactly where they are no image, and
/// `NotShape` exactly where they are one that doesn't fit the schema, unless memory was wanted before.
pub fn read_image(
    alloc: Global,
    schema: &Schema,
    bytes: &[u8],
) -> Result<(Arena, SlotId, u64), ImageFault>
    ensures { ReadsImage schema.now bytes.now result }
{
    image_parse_laws();
    match parse_short(alloc, bytes) {
        Ok(image) => fit_image::<Brand>(alloc, schema, image, Blank::new(1)),
        Err(fault) => Err(fault),
    }
}

/// The same of bytes that are let go before the slots are tested, which takes memory too.
pub(crate) fn read_list(
    alloc: Global,
    schema: &Schema,
    bytes: List<u8>,
) -> Result<(Arena, SlotId, u64), ImageFault>
    ensures { ReadsImage schema.now bytes result }
{
    image_parse_laws();
    match parse_list(alloc, bytes) {
        Ok(image) => fit_image::<Brand>(alloc, schema, image, Blank::new(1)),
        Err(fault) => Err(fault),
    }
}
