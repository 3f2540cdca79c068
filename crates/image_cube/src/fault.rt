//! Why an image isn't read.
use texts::NoMemory;

/// Why no arena was made of bytes. They are tested in this order.
#[derive(Clone, Copy, PartialEq, Eq, Debug)]
pub enum ImageFault {
    /// There are more than 2^30 bytes.
    TooLong,
    /// They are no image.
    NotImage,
    /// They are the image of slots that don't fit the schema with its size.
    NotShape,
    /// Memory was wanted and there was none.
    NoMemory,
}

impl From<NoMemory> for ImageFault {
    ghost use Rattle.std.specs.Prelude.{◌≡◌};
    ghost use Rattle.image_cube.specs.declared.fault.ImageFault.TheVariants.{NoMemory as Starved};

    ghost from_gives = { λ _ fault. fault ≡ Starved };

    fn from(_: NoMemory) -> ImageFault {
        ImageFault::NoMemory
    }
}
