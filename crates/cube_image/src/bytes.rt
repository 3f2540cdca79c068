//! Numbers that are put at the end of bytes. What stands together is put by one write, since each asks whether there is
//! room.
ghost use Rattle.std.specs.Prelude.{◌≡◌, ◌∷◌, ◌++◌, OnOk};
ghost use Rattle.std.specs.Int.{to_be_bytes, w16, w32, w64};

use texts::{NoMemory, put};

/// Puts a number in 8 bytes, the most significant one first.
pub fn put_number(out: &mut Vec<u8>, number: u64) -> Result<(), NoMemory>
    ensures { OnOk result (out.new.items ≡ out.old.items ++ to_be_bytes w64 number) }
{
    put(out, &number.to_be_bytes())
}

/// Puts a byte, and a number in 2 bytes.
pub fn put_short(out: &mut Vec<u8>, mark: u8, number: u16) -> Result<(), NoMemory>
    ensures { OnOk result (out.new.items ≡ out.old.items ++ (mark ∷ to_be_bytes w16 number)) }
{
    let mut bytes = [0u8; 3];
    bytes[0] = mark;
    bytes[1..].copy_from_slice(&number.to_be_bytes());
    put(out, &bytes)
}

/// Puts a byte, and a number in 8 bytes.
pub fn put_marked(out: &mut Vec<u8>, mark: u8, number: u64) -> Result<(), NoMemory>
    ensures { OnOk result (out.new.items ≡ out.old.items ++ (mark ∷ to_be_bytes w64 number)) }
{
    let mut bytes = [0u8; 9];
    bytes[0] = mark;
    bytes[1..].copy_from_slice(&number.to_be_bytes());
    put(out, &bytes)
}

/// Puts two bytes, and a number in 8 bytes.
pub fn put_labelled(out: &mut Vec<u8>, label: u8, mark: u8, number: u64) -> Result<(), NoMemory>
    ensures { OnOk result (out.new.items ≡ out.old.items ++ (label ∷ mark ∷ to_be_bytes w64 number)) }
{
    let mut bytes = [0u8; 10];
    bytes[0] = label;
    bytes[1] = mark;
    bytes[2..].copy_from_slice(&number.to_be_bytes());
    put(out, &bytes)
}

/// Puts a number in 4 bytes, and one in 8 bytes.
pub fn put_pair(out: &mut Vec<u8>, first: u32, second: u64) -> Result<(), NoMemory>
    ensures { OnOk result (out.new.items ≡ out.old.items ++ (to_be_bytes w32 first ++ to_be_bytes w64 second)) }
{
    let mut bytes = [0u8; 12];
    bytes[..4].copy_from_slice(&first.to_be_bytes());
    bytes[4..].copy_from_slice(&second.to_be_bytes());
    put(out, &bytes)
}
