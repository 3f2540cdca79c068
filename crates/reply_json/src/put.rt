//! Numbers and texts that are put at the end of bytes.
ghost use Rattle.std.specs.Prelude.{◌≡◌, ◌+◌, ◌≤◌, [], ◌∷◌, ◌++◌, decimal, drop, length, OnOk, IsTrue};
ghost use Rattle.json.specs.Print.{quoted};
ghost use Rattle.reply_json.specs.Types.{IsCount};

use crate::plain::are_plain;
use json::Writer;
use std::mem::replace;
use texts::{NoMemory, put, put_byte};

/// Puts bytes, and a number in decimal.
pub fn put_number(out: &mut Vec<u8>, front: &[u8], number: u64) -> Result<(), NoMemory>
    ensures text { OnOk result (out.new.items ≡ out.old.items ++ (front.now ++ decimal number)) }
    ensures fits { IsCount number }
{
    let mut buffer = itoa::Buffer::new();
    put(out, front)?;
    put(out, buffer.format(number).as_bytes())
}

/// Puts a text in quotes.
pub fn put_text(out: &mut Vec<u8>, text: &str) -> Result<(), NoMemory>
    ensures { OnOk result (out.new.items ≡ out.old.items ++ quoted text.now) }
{
    if !are_plain(text.as_bytes()) {
        return put_escaped(out, text);
    }
    put_byte(out, b'"')?;
    put(out, text.as_bytes())?;
    put_byte(out, b'"')?;
    Ok(())
}

/// Puts a text in quotes, with an escape for each byte that has one.
fn put_escaped(out: &mut Vec<u8>, text: &str) -> Result<(), NoMemory>
    ensures { OnOk result (out.new.items ≡ out.old.items ++ quoted text.now) }
{
    let alloc = *out.allocator();
    let mut writer = Writer::new(replace(out, Vec::new(alloc)));
    let done = writer.string(text);
    *out = writer.into_inner();
    done?;
    Ok(())
}

/// Writes the digits of a number before a place of a buffer, and gives the place of the first one.
pub fn digits_before(buffer: &mut [u8; 96], place: usize, number: u64) -> usize
    requires within { place ≤ 96 }
    requires room { 20 ≤ place }
    ensures near { place ≤ result + 20 }
    ensures within { result ≤ 96 }
    ensures written { drop result buffer.new ≡ decimal number ++ drop place buffer.old }
    ensures fits { IsCount number }
{
    itoa::write_digits(number, buffer, place)
}

/// The same with a comma after the number.
pub fn item_before(buffer: &mut [u8; 96], place: usize, number: u64) -> usize
    requires within { place ≤ 96 }
    requires room { 21 ≤ place }
    ensures near { place ≤ result + 21 }
    ensures within { result ≤ 96 }
    ensures written { drop result buffer.new ≡ decimal number ++ 44 ∷ drop place buffer.old }
    ensures fits { IsCount number }
{
    buffer[place - 1] = b',';
    digits_before(buffer, place - 1, number)
}

/// The same of bytes in quotes with a comma after them.
pub fn bytes_before(buffer: &mut [u8; 96], place: usize, bytes: &[u8]) -> usize
    requires within { place ≤ 96 }
    requires room { length bytes.now + 3 ≤ place }
    ensures near { place ≡ result + (length bytes.now + 3) }
    ensures written { drop result buffer.new ≡ 34 ∷ bytes.now ++ 34 ∷ 44 ∷ drop place buffer.old }
{
    let end = place - 2;
    let start = end - bytes.len();
    buffer[place - 1] = b',';
    buffer[end] = b'"';
    buffer[start..end].copy_from_slice(bytes);
    buffer[start - 1] = b'"';
    start - 1
}
