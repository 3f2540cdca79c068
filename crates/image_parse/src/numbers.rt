//! A byte or a number at the front of bytes, and the bytes after it.
ghost use Rattle.std.specs.Prelude.{◌≡◌};
ghost use Rattle.std.specs.Int.{w16, w32, w64};
ghost use Rattle.image_parse.specs.Reading.{byte_at, width_number_at};
ghost use Rattle.image_parse.specs.Views.{Gives};

use crate::fault::ImageParseFault;

/// The byte at the front.
pub fn take_byte(bytes: &[u8]) -> Result<(u8, &[u8]), ImageParseFault>
    ensures { Gives (λ x. (x.0, x.1.now)) result (byte_at bytes.now) }
{
    match bytes {
        [] => Err(ImageParseFault::NotImage),
        [byte, rest @ ..] => Ok((*byte, rest)),
    }
}

/// The number in the 2 bytes at the front, the most significant one first.
pub fn take_u16(bytes: &[u8]) -> Result<(u16, &[u8]), ImageParseFault>
    ensures { Gives (λ x. (x.0, x.1.now)) result (width_number_at w16 bytes.now) }
{
    let Some((front, rest)) = bytes.split_first_chunk::<2>() else {
        return Err(ImageParseFault::NotImage);
    };
    Ok((u16::from_be_bytes(*front), rest))
}

/// The number in the 4 bytes at the front.
pub fn take_u32(bytes: &[u8]) -> Result<(u32, &[u8]), ImageParseFault>
    ensures { Gives (λ x. (x.0, x.1.now)) result (width_number_at w32 bytes.now) }
{
    let Some((front, rest)) = bytes.split_first_chunk::<4>() else {
        return Err(ImageParseFault::NotImage);
    };
    Ok((u32::from_be_bytes(*front), rest))
}

/// The number in the 8 bytes at the front.
pub fn take_u64(bytes: &[u8]) -> Result<(u64, &[u8]), ImageParseFault>
    ensures { Gives (λ x. (x.0, x.1.now)) result (width_number_at w64 bytes.now) }
{
    let Some((front, rest)) = bytes.split_first_chunk::<8>() else {
        return Err(ImageParseFault::NotImage);
    };
    Ok((u64::from_be_bytes(*front), rest))
}
