//! An entry from bytes.
ghost use Rattle.std.specs.Prelude.{◌≡◌, ◌≤◌, ◌++◌, ◌*◌, ◌-ℤ◌, [], length, nat_lt, pos, true, Some, None, Ok, Err, IfOk, IfSome, if◌then◌else◌};
ghost use Rattle.std.specs.Int.{w64, from_le_bytes};
ghost use Rattle.format_table.specs.Reading.{IsNumber, IsNoNumber, ReadsRow};
ghost use Rattle.format_table.specs.Spelling.{row_bytes};
ghost use Rattle.format_table.specs.Taking.{Gives, byte_source, placed, taken, value_in};
ghost use Rattle.format_table.specs.Forms.{IsTable, most_numbers, most_of};
ghost use Rattle.format_table.specs.Parts.{slots_of};
ghost use Rattle.format_table.specs.Tables.{IsRow, are_plain};
ghost use Rattle.format_table.specs.Walk.{numbers_drafted, numbers_of_slots};

use crate::draft::Draft;
use crate::field::{Form, Part};
use crate::numbers::MOST_NUMBERS;
use crate::table::{EntryCodec, KindTable};

/// The entry that the bytes spell, all of them, or the place of the first fault: of the first byte of the first field that is
/// short or past its limit, or of the first byte too many. It takes no memory.
pub fn take<T: EntryCodec>(bytes: &[u8]) -> Result<T::Entry, u64>
    // What is taken is spelled so.
    ensures found { IfOk result (λ entry. IsRow T.key T.kinds (T.code_of entry) (T.numbers_of entry) × (bytes.now ≡ row_bytes T.key T.kinds (T.code_of entry) (T.numbers_of entry))) }
    // What is spelled so is taken.
    ensures only { (entry : T.Entry) → IsRow T.key T.kinds (T.code_of entry) (T.numbers_of entry) → bytes.now ≡ row_bytes T.key T.kinds (T.code_of entry) (T.numbers_of entry)
        → result ≡ Ok entry }
    // Which place it is.
    ensures exact { Gives T.code_of T.numbers_of result (taken T.key T.kinds bytes.now) }
{
    entry_in::<T>(bytes)
}

fn entry_in<T: EntryCodec>(bytes: &[u8]) -> Result<T::Entry, u64>
    ensures exact { Gives T.code_of T.numbers_of result (taken T.key T.kinds bytes.now) }
{
    match draft_in::<T>(bytes) {
        Ok((code, draft)) => Ok(T::entry(code, draft.numbers())),
        Err(place) => Err(place),
    }
}

// The code and the numbers that the bytes spell, or the place of the first fault.
fn draft_in<T: KindTable>(bytes: &[u8]) -> Result<(u8, Draft<MOST_NUMBERS>), u64>
    ensures { ReadsRow result (taken T.key T.kinds bytes.now) }
{
    let [code, rest @ ..] = bytes else {
        return Err(0);
    };
    let Some(row) = T::row(*code) else {
        return Err(0);
    };
    match numbers_at::<MOST_NUMBERS>(T::key_parts(), row.parts, rest) {
        Ok(draft) => Ok((*code, draft)),
        Err(place) => Err(place),
    }
}

/// The numbers of all fields in all of the bytes, which stand behind a kind's code, in a draft with room for so many.
pub fn numbers_at<const MOST: usize>(
    key: &'static [Part],
    parts: &'static [Part],
    bytes: &[u8],
) -> Result<Draft<MOST>, u64>
    requires table { IsTable (slots_of key.now ++ slots_of parts.now) }
    requires plain { are_plain (slots_of key.now) ≡ true }
    requires room { most_of (slots_of key.now ++ slots_of parts.now) ≤ MOST }
    requires few { MOST ≤ most_numbers }
    ensures { numbers_drafted result ≡ numbers_of_slots byte_source (slots_of key.now ++ slots_of parts.now) (placed 1 bytes.now) }
{
    let mut draft = Draft::new(key, parts);
    let mut place = 1;
    let mut rest = bytes;
    while let Some(field) = draft.next() {
        let Some(number) = number_at(field.form, rest) else {
            return Err(place);
        };
        if !draft.push(number) {
            return Err(place);
        }
        let width = field.form.width();
        let (_, behind) = rest.split_at(width);
        rest = behind;
        place += width as u64;
    }
    if rest.is_empty() {
        Ok(draft)
    } else {
        Err(place)
    }
}

// The number of a field at the front of the bytes, where they are enough and it is one of 64 bits with sign.
fn number_at(form: Form, bytes: &[u8]) -> Option<i64>
    ensures some { IfSome result (λ number. IsNumber form bytes.now number) }
    ensures none { result ≡ None → IsNoNumber form bytes.now }
{
    let width = form.width();
    if bytes.len() < width {
        return None;
    }
    i64::try_from(value_of(form, word_of(&bytes[..width]))).ok()
}

// The number that a word is in a form.
fn value_of(form: Form, word: u64) -> i128
    ensures { result ≡ value_in form word }
{
    match form {
        Form::I64 => signed(word, 1 << 63),
        Form::Day => signed(word, 1 << 31),
        _ => word as i128,
    }
}

// The words from a half on are the numbers below 0.
fn signed(word: u64, half: u64) -> i128
    ensures { result ≡ (if nat_lt word half then pos word else pos word -ℤ pos (2 * half)) }
{
    if word < half {
        word as i128
    } else {
        word as i128 - 2 * half as i128
    }
}

fn word_of(bytes: &[u8]) -> u64
    requires few { length bytes.now ≤ 8 }
    ensures value { result ≡ from_le_bytes w64 bytes.now }
{
    let mut block = [0; 8];
    block[..bytes.len()].copy_from_slice(bytes);
    u64::from_le_bytes(block)
}
