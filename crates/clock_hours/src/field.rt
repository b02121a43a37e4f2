//! The numbers of a row's fields, and the first field that is none.
ghost use Rattle.std.specs.Prelude.{◌≡◌, ◌≤◌, ◌<◌, ◌^◌, OnOk, length};
ghost use Rattle.std.specs.List.{AllByRecursion, position};
ghost use Rattle.csv.specs.Records.{fields_of};
ghost use Rattle.format_rows.specs.Numbers.{refused as refusal};
ghost use Rattle.clock_hours.specs.Fields.{IsInRange, between as between_of, cents_at as cents_in_field, is_misspelled, is_outside, judged, size as size_of, text_at as text_in_field, up_to as up_to_of, whole_at as whole_in_field};

use aid_types::{Malformed, read_cents, read_whole};
use csv::ByteRecord;
use format_rows::{Cause, RowError};

/// The number that a field spells, or why it spells none, and the range that it has to be in.
#[derive(Clone, Copy)]
pub struct Field {
    pub number: Result<i64, Malformed>,
    pub least: i64,
    pub most: i64,
}

impl Field {
    // A number that has to be between two others.
    pub(crate) fn between(least: u32, most: u32, number: Result<i64, Malformed>) -> Field
        ensures { result ≡ between_of least most number }
    {
        Field {
            number,
            least: i64::from(least),
            most: i64::from(most),
        }
    }

    // A number that may be no greater than another, which bounds nothing where it is no number itself.
    pub(crate) fn up_to(
        least: u32,
        most: Result<i64, Malformed>,
        number: Result<i64, Malformed>,
    ) -> Field
        ensures { result ≡ up_to_of least most number }
    {
        Field {
            number,
            least: i64::from(least),
            most: most.unwrap_or(i64::MAX),
        }
    }

    // The size of the number, which is not below 0.
    pub(crate) fn size(&self) -> u64
        ensures { result ≡ size_of self.now.number }
    {
        match self.number {
            Ok(number) => number.unsigned_abs(),
            Err(_) => 0,
        }
    }

    // The same of hours, weeks or dollars.
    pub(crate) fn count(&self) -> u32
        requires { size_of self.now.number < 2 ^ 32 }
        ensures { result ≡ size_of self.now.number }
    {
        self.size() as u32
    }

    // Whether the text spells no number of any size.
    fn is_misspelled(&self) -> bool
        ensures { result ≡ is_misspelled self.now }
    {
        matches!(self.number, Err(Malformed::Spelling))
    }

    // Whether the number is too small or too great.
    fn is_outside(&self) -> bool
        ensures { result ≡ is_outside self.now }
    {
        match self.number {
            Ok(number) => !(self.least <= number && number <= self.most),
            Err(_) => true,
        }
    }
}

// The whole number that a field spells, of which the kind is field 1.
pub(crate) fn whole_at(texts: &ByteRecord, field: usize) -> Result<i64, Malformed>
    requires { 1 ≤ field }
    ensures { result ≡ whole_in_field (fields_of texts.now) field }
{
    read_whole(text_at(texts, field), i64::MIN, i64::MAX)
}

// The amount that a field spells, in cents.
pub(crate) fn cents_at(texts: &ByteRecord, field: usize) -> Result<i64, Malformed>
    requires { 1 ≤ field }
    ensures { result ≡ cents_in_field (fields_of texts.now) field }
{
    let cents = read_cents(text_at(texts, field))?;
    Ok(cents as i64)
}

fn text_at(texts: &ByteRecord, field: usize) -> &[u8]
    requires { 1 ≤ field }
    ensures { result.now ≡ text_in_field (fields_of texts.now) field }
{
    match texts.get(field - 1) {
        Some(text) => text,
        None => &[],
    }
}

// Whether each field behind the kind is spelled well and in its range.
pub(crate) fn judge(row: u32, fields: &[Field]) -> Result<(), RowError>
    requires { length fields.now ≤ 15 }
    ensures judged { result ≡ judged row fields.now tt }
    ensures within { OnOk result (AllByRecursion IsInRange fields.now) }
{
    if let Some(place) = first_misspelled(fields) {
        return Err(refused(row, place as u16 + 2, Cause::Spelling));
    }
    if let Some(place) = first_outside(fields) {
        return Err(refused(row, place as u16 + 2, Cause::Range));
    }
    Ok(())
}

fn first_misspelled(fields: &[Field]) -> Option<usize>
    ensures { result ≡ position is_misspelled fields.now }
{
    fields.iter().position(|field| field.is_misspelled())
}

fn first_outside(fields: &[Field]) -> Option<usize>
    ensures { result ≡ position is_outside fields.now }
{
    fields.iter().position(|field| field.is_outside())
}

// Why a row has no answer.
pub(crate) fn refused(row: u32, field: u16, cause: Cause) -> RowError
    ensures { result ≡ refusal row field cause }
{
    RowError { row, field, cause }
}
