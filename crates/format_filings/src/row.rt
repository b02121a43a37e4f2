//! The filing of a row.
ghost use Rattle.std.specs.Prelude.{◌≡◌, ◌≤◌, drop, length, option_and_then, true};
ghost use Rattle.csv.specs.Records.{field_at, fields_of as texts_of};
ghost use Rattle.format_kinds.specs.Kinds.{kind_named as kind_of_name};
ghost use Rattle.format_rows.specs.Numbers.{refused as refusal};
ghost use Rattle.format_filings.specs.Rows.{has_rows, row_meaning, row_of_kind, said};

use aid_filings::Filing;
use csv::ByteRecord;
use format_bytes::filing_of;
use format_kinds::{Kind, key_parts, kind_named, program_words, table_row};
use format_rows::{Cause, RowError, has_fields, numbers_of};
use std::alloc::Global;

/// The filing of a row, or why it is none. It takes no memory.
pub fn filing_of_row(alloc: Global, row: u32, texts: &ByteRecord) -> Result<Filing, RowError>
    ensures { said result ≡ row_meaning row (texts_of texts.now) }
{
    match kind_at_start(texts) {
        Some(kind) if is_row_kind(kind) => filing_of_kind(alloc, row, texts, kind),
        _ => Err(refused(row, 1, Cause::UnknownKind)),
    }
}

// The kind that the first field names.
fn kind_at_start(texts: &ByteRecord) -> Option<Kind>
    ensures { result ≡ option_and_then kind_of_name (field_at (texts_of texts.now) 0) }
{
    match texts.get(0) {
        Some(text) => kind_named(text),
        None => None,
    }
}

// A book is a text of its own.
fn is_row_kind(kind: Kind) -> bool
    ensures { result ≡ has_rows kind }
{
    kind != Kind::Book
}

// The filing of a row of a kind.
fn filing_of_kind(
    alloc: Global,
    row: u32,
    texts: &ByteRecord,
    kind: Kind,
) -> Result<Filing, RowError>
    requires rows { has_rows kind ≡ true }
    requires named { 1 ≤ length (texts_of texts.now) }
    ensures { said result ≡ row_of_kind row kind (drop 1 (texts_of texts.now)) }
{
    let words = program_words();
    let key = key_parts();
    let parts = table_row(kind).parts;
    if !has_fields(words, key, parts, texts) {
        return Err(refused(row, 0, Cause::WrongCount));
    }
    let draft = numbers_of(words, key, parts, row, texts)?;
    match filing_of(alloc, kind, draft.numbers()) {
        Ok(filing) => Ok(filing),
        Err(_) => unreachable!(),
    }
}

// Why a row is no filing.
fn refused(row: u32, field: u16, cause: Cause) -> RowError
    ensures { result ≡ refusal row field cause }
{
    RowError { row, field, cause }
}
