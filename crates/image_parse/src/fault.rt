//! Why bytes aren't parsed.
use std::alloc::{AllocError, AllocFailed};
use texts::NoMemory;

/// Why no arena was made of bytes.
#[derive(Clone, Copy, PartialEq, Eq, Debug)]
pub enum ImageParseFault {
    /// The bytes are no image.
    NotImage,
    /// Memory was wanted and there was none, or the image has 2^32 slots or more.
    NoMemory,
}

impl From<NoMemory> for ImageParseFault {
    ghost use Rattle.std.specs.Prelude.{◌≡◌};
    ghost use Rattle.image_parse.specs.declared.fault.ImageParseFault.TheVariants.{NoMemory as Starved};

    ghost from_gives = { λ _ fault. fault ≡ Starved };

    fn from(_: NoMemory) -> ImageParseFault {
        ImageParseFault::NoMemory
    }
}

impl<T: Drop> From<AllocFailed<T>> for ImageParseFault {
    ghost use Rattle.std.specs.Prelude.{◌≡◌};
    ghost use Rattle.image_parse.specs.declared.fault.ImageParseFault.TheVariants.{NoMemory as Starved};

    ghost from_gives = { λ _ fault. fault ≡ Starved };

    fn from(_: AllocFailed<T>) -> ImageParseFault {
        ImageParseFault::NoMemory
    }
}
