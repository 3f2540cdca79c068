//! Why an image isn't written.
use texts::NoMemory;

/// Why no image was made.
#[derive(Clone, Copy, PartialEq, Eq, Debug)]
pub enum SaveFault {
    /// It has more than 2^30 bytes.
    TooLong,
    /// Memory was wanted and there was none.
    NoMemory,
}

impl From<NoMemory> for SaveFault {
    ghost use Rattle.std.specs.Prelude.{◌≡◌};
    ghost use Rattle.cube_image.specs.declared.fault.SaveFault.TheVariants.{NoMemory as Starved};

    ghost from_gives = { λ _ fault. fault ≡ Starved };

    fn from(_: NoMemory) -> SaveFault {
        SaveFault::NoMemory
    }
}
