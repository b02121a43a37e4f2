//! What a row of corrections says.
ghost use Rattle.std.specs.Prelude.{◌≡◌, IfOk, drop};
ghost use Rattle.csv.specs.Records.{fields_of};
ghost use Rattle.format_rows.specs.Numbers.{refused as refusal};
ghost use Rattle.office_amends.specs.Rows.{HasDigits, HasFiling, HasGrounds, HasKey, SaysChange, SaysRow, begins_with_digits as begins_so, has_fields as has_so_many, shifted as shifted_by, verb_named as verb_of_name, verb_of as verb_of_fields};

use crate::correction::{Change, CorrectionRow, Grounds, Verb};
use aid_filings::Filing;
use aid_types::{Key, School};
use csv::ByteRecord;
use format_filings::FilingForm;
use format_rows::{Cause, RowError, RowReader, whole_at};
use office_export::filing_of_digits;
use std::alloc::{AllocError, Global};

/// What the row with a number says, or why it says nothing. The outer error is want of memory.
pub fn correction_of_row(
    alloc: Global,
    row: u32,
    texts: &ByteRecord,
) -> Result<Result<CorrectionRow, RowError>, AllocError>
    ensures { IfOk result (λ says. SaysRow row (fields_of texts.now) says) }
{
    let Some(verb) = verb_of(texts) else {
        return Ok(Err(refused(row, 1, Cause::UnknownKind)));
    };
    if !has_fields(verb, texts.len()) {
        return Ok(Err(refused(row, 0, Cause::WrongCount)));
    }
    let grounds = match grounds_of(row, texts) {
        Ok(grounds) => grounds,
        Err(error) => return Ok(Err(error)),
    };
    match change_of(alloc, row, texts, verb)? {
        Ok(change) => Ok(Ok(CorrectionRow { change, grounds })),
        Err(error) => Ok(Err(error)),
    }
}

// What a row does.
fn verb_of(texts: &ByteRecord) -> Option<Verb>
    ensures { result ≡ verb_of_fields (fields_of texts.now) }
{
    match texts.get(0) {
        Some(word) => verb_named(word),
        None => None,
    }
}

fn verb_named(word: &[u8]) -> Option<Verb>
    ensures { result ≡ verb_of_name word.now }
{
    if word == b"replace".as_slice() {
        Some(Verb::Replace)
    } else if word == b"void".as_slice() {
        Some(Verb::Void)
    } else if word == b"insert".as_slice() {
        Some(Verb::Insert)
    } else {
        None
    }
}

// Whether such a row has so many fields.
fn has_fields(verb: Verb, count: usize) -> bool
    ensures { result ≡ has_so_many verb count }
{
    match verb {
        Verb::Replace => 4 <= count,
        Verb::Void => count == 5,
        Verb::Insert => 6 <= count,
    }
}

// The reason and the reference.
fn grounds_of(row: u32, texts: &ByteRecord) -> Result<Grounds, RowError>
    ensures { HasGrounds row (fields_of texts.now) result }
{
    let reason = whole_at(row, texts, 2, 1, 7)?;
    let reference = whole_at(row, texts, 3, 0, 999_999_999_999)?;
    Ok(Grounds {
        reason: reason as u8,
        reference: reference as u64,
    })
}

// The key that a row names.
fn key_of(row: u32, texts: &ByteRecord) -> Result<Key, RowError>
    ensures { HasKey row (fields_of texts.now) result }
{
    let school = whole_at(row, texts, 4, 0, 999_999)?;
    let number = whole_at(row, texts, 5, 1, 999_999_999_999)?;
    Ok(Key {
        school: School(school as u32),
        number: number as u64,
    })
}

// What is done to the list by a row that does this.
fn change_of(
    alloc: Global,
    row: u32,
    texts: &ByteRecord,
    verb: Verb,
) -> Result<Result<Change, RowError>, AllocError>
    ensures { IfOk result (λ says. SaysChange row (fields_of texts.now) verb says) }
{
    match verb {
        Verb::Replace => match filing_behind(alloc, row, texts, 3)? {
            Ok(filing) => Ok(Ok(Change::Replace(filing))),
            Err(error) => Ok(Err(shifted(3, &error))),
        },
        Verb::Void => match key_of(row, texts) {
            Ok(key) => Ok(Ok(Change::Void(key))),
            Err(error) => Ok(Err(error)),
        },
        Verb::Insert => insertion(alloc, row, texts),
    }
}

// What is put in, and where.
fn insertion(
    alloc: Global,
    row: u32,
    texts: &ByteRecord,
) -> Result<Result<Change, RowError>, AllocError>
    ensures { IfOk result (λ says. SaysChange row (fields_of texts.now) Verb.Insert says) }
{
    let before = match key_of(row, texts) {
        Ok(before) => before,
        Err(error) => return Ok(Err(error)),
    };
    match filing_behind(alloc, row, texts, 5)? {
        Ok(filing) => Ok(Ok(Change::Insert { filing, before })),
        Err(error) => Ok(Err(shifted(5, &error))),
    }
}

// The filing of the fields behind so many others.
fn filing_behind(
    alloc: Global,
    row: u32,
    texts: &ByteRecord,
    heads: usize,
) -> Result<Result<Filing, RowError>, AllocError>
    ensures { IfOk result (λ read. HasFiling row (drop heads (fields_of texts.now)) read) }
{
    let fields = fields_behind(alloc, texts, heads)?;
    if begins_with_digits(&fields) {
        filing_in_digits(alloc, row, &fields)
    } else {
        FilingForm::read(alloc, row, &fields)
    }
}

// The fields behind so many others, as a row of their own.
fn fields_behind(alloc: Global, texts: &ByteRecord, heads: usize) -> Result<ByteRecord, AllocError>
    ensures { IfOk result (λ fields. fields_of fields ≡ drop heads (fields_of texts.now)) }
{
    let mut fields = ByteRecord::new(alloc);
    let mut place = heads;
    while let Some(text) = texts.get(place) {
        fields.push_field(text)?;
        place += 1;
    }
    Ok(fields)
}

// Whether the first field says that the next one is digits.
fn begins_with_digits(fields: &ByteRecord) -> bool
    ensures { result ≡ begins_so (fields_of fields.now) }
{
    match fields.get(0) {
        Some(word) => word == b"digits".as_slice(),
        None => false,
    }
}

// The filing whose digits stand behind the first field.
fn filing_in_digits(
    alloc: Global,
    row: u32,
    fields: &ByteRecord,
) -> Result<Result<Filing, RowError>, AllocError>
    ensures { IfOk result (λ read. HasDigits row (drop 1 (fields_of fields.now)) read) }
{
    if fields.len() != 2 {
        return Ok(Err(refused(row, 0, Cause::WrongCount)));
    }
    let Some(digits) = fields.get(1) else {
        return Ok(Err(refused(row, 0, Cause::WrongCount)));
    };
    match filing_of_digits(alloc, digits)? {
        Some(filing) => Ok(Ok(filing)),
        None => Ok(Err(refused(row, 2, Cause::Spelling))),
    }
}

// An error at a field that stands behind so many others.
fn shifted(heads: u16, error: &RowError) -> RowError
    ensures { result ≡ shifted_by heads error.now }
{
    if error.field == 0 {
        return *error;
    }
    RowError {
        row: error.row,
        field: error.field.saturating_add(heads),
        cause: error.cause,
    }
}

// Why a row says nothing.
fn refused(row: u32, field: u16, cause: Cause) -> RowError
    ensures { result ≡ refusal row field cause }
{
    RowError { row, field, cause }
}
