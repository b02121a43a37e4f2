//! The entry of a row.
ghost use Rattle.std.specs.Prelude.{◌≡◌, ◌+◌, ◌-◌, ◌++◌, ◌≤◌, [], IfOk, drop, length, map, option_and_then, option_map, true, Some};
ghost use Rattle.aid_types.specs.Ranges.{IsWithin};
ghost use Rattle.csv.specs.Records.{field_at, fields_of as texts_of};
ghost use Rattle.format_table.specs.Forms.{IsTable, most_numbers};
ghost use Rattle.format_table.specs.Parts.{slots_of};
ghost use Rattle.format_table.specs.TableRows.{row_of as kind_row};
ghost use Rattle.format_table.specs.Tables.{are_plain, kind_at, kind_named};
ghost use Rattle.format_table.specs.Walk.{numbers_drafted, numbers_of_slots};
ghost use Rattle.format_rows.specs.Meanings.{said_of};
ghost use Rattle.format_rows.specs.Numbers.{cause_of as cause_of_text, number_spelled, refused as refusal, row_source, whole_spelled};
ghost use Rattle.format_rows.specs.TableRowFormat.{row_meaning, row_of_slots, said_by};

use crate::count::has_fields;
use crate::error::{Cause, RowError};
use crate::field::number_in;
use aid_types::{Malformed, read_whole};
use csv::ByteRecord;
use format_table::{Draft, EntryCodec, Form, KindTable, MOST_NUMBERS, Part, TableRow};

/// The entry of a row, or why it is none. It takes no memory.
pub fn entry_of_row<T: EntryCodec>(row: u32, texts: &ByteRecord) -> Result<T::Entry, RowError>
    ensures { said_of (said_by T.code_of T.numbers_of) result ≡ row_meaning T.words T.key T.kinds row (texts_of texts.now) }
{
    match kind_at_start::<T>(texts) {
        Some(kind) => entry_of_kind::<T>(row, texts, kind),
        None => Err(refused(row, 1, Cause::UnknownKind)),
    }
}

// The kind that the first field names.
fn kind_at_start<T: KindTable>(texts: &ByteRecord) -> Option<TableRow>
    ensures { option_map kind_row result ≡ option_and_then (kind_named T.kinds) (field_at (texts_of texts.now) 0) }
{
    match texts.get(0) {
        Some(text) => T::named(text),
        None => None,
    }
}

// The entry of a row of a kind.
fn entry_of_kind<T: EntryCodec>(
    row: u32,
    texts: &ByteRecord,
    kind: TableRow,
) -> Result<T::Entry, RowError>
    requires kind { kind_at T.kinds kind.code ≡ Some (kind_row kind) }
    requires named { 1 ≤ length (texts_of texts.now) }
    ensures { said_of (said_by T.code_of T.numbers_of) result ≡ row_of_slots T.words row kind.code (T.key ++ slots_of kind.parts.now) (drop 1 (texts_of texts.now)) }
{
    let words = T::words();
    let key = T::key_parts();
    if !has_fields(words, key, kind.parts, texts) {
        return Err(refused(row, 0, Cause::WrongCount));
    }
    let draft = numbers_of(words, key, kind.parts, row, texts)?;
    Ok(T::entry(kind.code, draft.numbers()))
}

/// The numbers of all fields after the kind's name, or why the row has none. It takes no memory.
pub fn numbers_of(
    words: &[&str],
    key: &'static [Part],
    parts: &'static [Part],
    row: u32,
    texts: &ByteRecord,
) -> Result<Draft<MOST_NUMBERS>, RowError>
    requires words { length words.now ≤ 256 }
    requires table { IsTable (slots_of key.now ++ slots_of parts.now) }
    requires plain { are_plain (slots_of key.now) ≡ true }
    ensures { numbers_drafted result ≡ numbers_of_slots (row_source (map (λ word. word.now) words.now) row) (slots_of key.now ++ slots_of parts.now) (drop 1 (texts_of texts.now)) }
{
    let mut draft = Draft::<MOST_NUMBERS>::new(key, parts);
    while let Some(field) = draft.next() {
        let before = draft.numbers().len();
        let number = number_at(words, row, texts, before, field.form)?;
        if !draft.push(number) {
            return Err(refused(row, before as u16 + 2, Cause::Range));
        }
    }
    Ok(draft)
}

// The number that the field behind so many others spells in its form.
fn number_at(
    words: &[&str],
    row: u32,
    texts: &ByteRecord,
    before: usize,
    form: Form,
) -> Result<i64, RowError>
    requires words { length words.now ≤ 256 }
    requires few { before ≤ most_numbers }
    ensures { result ≡ number_spelled (map (λ word. word.now) words.now) row (before + 2) form (field_at (texts_of texts.now) (before + 1)) }
{
    let Some(text) = texts.get(before + 1) else {
        return Err(refused(row, 0, Cause::WrongCount));
    };
    let place = before as u16 + 2;
    match number_in(words, form, text) {
        Ok(number) => Ok(number),
        Err(malformed) => Err(refused(row, place, cause_of(malformed))),
    }
}

/// The whole number from `low` to `high` that a field spells, which counts from 1.
pub fn whole_at(
    row: u32,
    texts: &ByteRecord,
    field: u16,
    low: i64,
    high: i64,
) -> Result<i64, RowError>
    requires { 1 ≤ field }
    ensures value { result ≡ whole_spelled row field low high (field_at (texts_of texts.now) (field - 1)) }
    ensures in_range { IfOk result (λ z. IsWithin low high z) }
{
    let Some(text) = texts.get(usize::from(field) - 1) else {
        return Err(refused(row, 0, Cause::WrongCount));
    };
    match read_whole(text, low, high) {
        Ok(number) => Ok(number),
        Err(malformed) => Err(refused(row, field, cause_of(malformed))),
    }
}

// The cause that a text is no number of its field.
fn cause_of(malformed: Malformed) -> Cause
    ensures { result ≡ cause_of_text malformed }
{
    match malformed {
        Malformed::Spelling => Cause::Spelling,
        Malformed::Range => Cause::Range,
    }
}

// Why a row is no entry.
fn refused(row: u32, field: u16, cause: Cause) -> RowError
    ensures { result ≡ refusal row field cause }
{
    RowError { row, field, cause }
}
