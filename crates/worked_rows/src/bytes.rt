//! Texts of cases as bytes.
use anyhow::{Result, bail};
use std::alloc::Global;
use texts::List;

/// The number that the text writes.
pub(crate) fn number_of(text: &str) -> Result<u32> {
    match text.parse::<u32>() {
        Ok(number) => Ok(number),
        Err(_) => bail!("{text:?} is no number"),
    }
}

/// The numbers that the text writes, with commas between them.
pub(crate) fn numbers_of(alloc: Global, text: &str) -> Result<List<u32>> {
    let mut numbers = Vec::new(alloc);
    for word in text.split(',') {
        let number = number_of(word)?;
        numbers.push(number)?;
    }
    Ok(List::from_vec(numbers))
}

/// Adds the bytes that the text writes: its own, but for `\xHH`, which is the byte of that hexadecimal number.
pub(crate) fn add_bytes(bytes: &mut Vec<u8>, text: &str) -> Result<()> {
    for (i, part) in text.split("\\x").enumerate() {
        let written = if i == 0 { part } else { add_byte(bytes, part)? };
        bytes.extend_from_slice(written.as_bytes())?;
    }
    Ok(())
}

/// Adds the byte whose two hexadecimal digits the text begins with, and gives what follows them.
fn add_byte<'a>(bytes: &mut Vec<u8>, text: &'a str) -> Result<&'a str> {
    let Some((digits, rest)) = text.split_at_checked(2) else {
        bail!("{text:?} has no two digits");
    };
    match u8::from_str_radix(digits, 16) {
        Ok(byte) => bytes.push(byte)?,
        Err(_) => bail!("{digits:?} is no byte"),
    }
    Ok(rest)
}
