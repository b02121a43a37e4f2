//! The lines of an export, read.
ghost use Rattle.std.specs.Prelude.{◌≡◌, ◌≢◌, ◌<◌, ◌≤◌, ◌∷◌, ◌++◌, ℕ, List, [], true, length, take, Ok, None, IfNone, IfOk, IfSome, MatchOption};
ghost use Rattle.aid_filings.specs.declared.filing.Filing.{Filing as AnyFiling};
ghost use Rattle.aid_stamps.specs.Stamps.{IsStamp, stamp_bytes};
ghost use Rattle.aid_stamps.specs.declared.stamp.Stamp.{Stamp as AnyStamp};
ghost use Rattle.format_bytes.specs.Spelling.{spelling};
ghost use Rattle.format_bytes.specs.Numbers.{IsFiling};
ghost use Rattle.hex.specs.Hex.{IsBytes, encode_lower};
ghost use Rattle.office_export.specs.Exports.{lines_of};
ghost use Rattle.office_export.specs.Forms.{are_digits as are_digits_of};

use crate::words::are_digits;
use aid_filings::Filing;
use aid_stamps::Stamp;
use format_bytes::{TakeError, take, take_stamped};
use io_traits::CAPACITY;
use std::alloc::{AllocError, Global};

/// The first line of a text with its line feed, and what stands behind it. Bytes without a line feed are a line too; an empty
/// text has none.
pub fn first_line(text: &[u8]) -> Option<(&[u8], &[u8])>
    ensures line { MatchOption result (text.now ≡ []) (λ r. lines_of text.now ≡ r.0.now ∷ lines_of r.1.now) }
    ensures whole { IfSome result (λ r. text.now ≡ r.0.now ++ r.1.now) }
    ensures shorter { IfSome result (λ r. length r.1.now < length text.now) }
{
    for (at, byte) in text.iter().enumerate() {
        if *byte == b'\n' {
            return Some((&text[..at + 1], &text[at + 1..]));
        }
    }
    if text.is_empty() {
        None
    } else {
        Some((text, &[]))
    }
}

/// The filing and the stamp in front of it that the digits spell, two for each byte. `None` says that they spell none; an `Err` is want
/// of memory for a book.
pub fn stamped_in(alloc: Global, digits: &[u8]) -> Result<Option<(Stamp, Filing)>, AllocError>
    requires { are_digits_of digits.now ≡ true }
    // What is found has these digits.
    ensures found { IfOk result (λ found. IfSome found (λ r. IsStamp r.0 × IsFiling r.1 × (encode_lower (stamp_bytes r.0 ++ spelling r.1) ≡ digits.now))) }
    // Where nothing is found no filing under a stamp has them.
    ensures none { result ≡ Ok None → (stamp : AnyStamp) → (filing : AnyFiling) → IsStamp stamp → IsFiling filing
        → encode_lower (stamp_bytes stamp ++ spelling filing) ≢ digits.now }
{
    let mut room = [0; CAPACITY];
    let Some(count) = decoded(digits, &mut room) else {
        return Ok(None);
    };
    match take_stamped(alloc, &room[..count]) {
        Ok(entry) => Ok(Some(entry)),
        Err(TakeError::NotFiling(_)) => Ok(None),
        Err(TakeError::NoMemory) => Err(AllocError),
    }
}

/// The filing that a text spells, two digits of lower case for each byte. `None` says that it spells none; an `Err` is want of memory
/// for a book.
pub fn filing_of_digits(alloc: Global, text: &[u8]) -> Result<Option<Filing>, AllocError>
    ensures found { IfOk result (λ found. IfSome found (λ filing. IsFiling filing × (encode_lower (spelling filing) ≡ text.now))) }
    ensures none { result ≡ Ok None → (filing : AnyFiling) → IsFiling filing → encode_lower (spelling filing) ≢ text.now }
{
    if !are_digits(text) {
        return Ok(None);
    }
    let mut room = [0; CAPACITY];
    let Some(count) = decoded(text, &mut room) else {
        return Ok(None);
    };
    match take(alloc, &room[..count]) {
        Ok(filing) => Ok(Some(filing)),
        Err(TakeError::NotFiling(_)) => Ok(None),
        Err(TakeError::NoMemory) => Err(AllocError),
    }
}

// Writes the bytes that the digits spell to the front of the room: how many there are. `None` says that they don't fit it.
fn decoded(digits: &[u8], room: &mut [u8; CAPACITY]) -> Option<usize>
    requires { are_digits_of digits.now ≡ true }
    ensures found { IfSome result (λ count. (count ≤ length room.new) × (encode_lower (take count room.new) ≡ digits.now)) }
    ensures bytes { IfSome result (λ count. IsBytes (take count room.new)) }
    ensures none { IfNone result ((bytes : List ℕ) → length bytes ≤ 8192 → encode_lower bytes ≢ digits.now) }
{
    let count = digits.len() / 2;
    if count > CAPACITY {
        return None;
    }
    let Ok(()) = hex::decode_to_slice(digits, &mut room[..count]) else {
        return None;
    };
    Some(count)
}
