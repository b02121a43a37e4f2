//! The line that tells of a seal.
ghost use Rattle.std.specs.Prelude.{◌≡◌, ◌++◌, OnOk};
ghost use Rattle.hex.specs.Hex.{encode_lower};
ghost use Rattle.aid_seals.specs.Seals.{sealed_line};

use crate::seal::Seal;
use itoa::Buffer;
use std::alloc::AllocError;

/// Appends the line of the seal of a list that has so many entries. An `Err` is want of memory.
pub fn put_sealed_line(count: usize, seal: &Seal, out: &mut Vec<u8>) -> Result<(), AllocError>
    ensures { OnOk result (out.new.items ≡ out.old.items ++ sealed_line count seal.now.bytes) }
{
    let mut digits = Buffer::new();
    let text = digits_of(seal);
    out.extend_from_slice(b"sealed ")?;
    out.extend_from_slice(digits.format(count).as_bytes())?;
    out.push(b' ')?;
    out.extend_from_slice(&text)?;
    out.push(b'\n')?;
    Ok(())
}

// The 64 digits of a seal.
fn digits_of(seal: &Seal) -> [u8; 64]
    ensures { result ≡ encode_lower seal.now.bytes }
{
    let mut text = [0; 64];
    let Ok(()) = hex::encode_to_slice(seal.bytes, &mut text) else {
        unreachable!();
    };
    text
}
