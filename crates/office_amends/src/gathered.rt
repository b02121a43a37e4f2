//! The corrections of a text, row by row.
ghost use Rattle.std.specs.Prelude.{◌≡◌, ◌≤◌, ◌+◌, ◌∷◌, ◌++◌, [], List, ℕ, IfOk, OnOk, None, Ok, Some, if◌then◌else◌, length};
ghost use Rattle.std.specs.Option.{option_copied};
ghost use Rattle.aid_types.specs.Ranges.{IsBetween};
ghost use Rattle.aid_filings.specs.declared.filing.Filing.{Filing as AnyFiling};
ghost use Rattle.csv.specs.Reading.{default_config, records, strip_bom};
ghost use Rattle.csv.specs.Records.{fields_of};
ghost use Rattle.office_amends.specs.Rows.{SaysRow};
ghost use Rattle.office_amends.specs.Gathered.{HasGathered, HasRecordKey, IsRecord, change_number as change_number_of, is_record as is_record_of, is_taken as is_taken_by, key_corrected as key_corrected_by, key_named as key_named_by, misfit as misfit_of, misfit_line, misfit_with as misfit_with_of, one_if_own as one_if_own_of};

use crate::correction::{Change, Correction, CorrectionRow, Grounds};
use crate::list::named_at;
use crate::row::correction_of_row;
use aid_filings::{AmendFacts, Filing, What};
use aid_types::{Key, School};
use csv::ByteRecord;
use format_bytes::kind;
use format_kinds::Kind;
use format_rows::{RowError, RowReader, TextRows, put_error};
use office_index::Office;
use office_sheets::put_number;
use std::alloc::{AllocError, Global};
use std::marker::Model;

/// What contracts see of the fields of a row. No code makes one.
#[derive(Drop)]
pub struct FieldsSaid {
    fields: ByteRecord,
}

impl Model for FieldsSaid {
    ghost Value = { List (List ℕ) };

    ghost view = { λ s. fields_of s.fields };
}

/// Rows of any fields.
pub struct FieldsForm;

impl RowReader for FieldsForm {
    type Entry = ByteRecord;

    type Said = FieldsSaid;

    ghost meaning = { λ row texts. Ok texts };

    ghost said = { λ fields. fields_of fields };

    fn read(
        _alloc: Global,
        _row: u32,
        texts: &ByteRecord,
    ) -> Result<Result<ByteRecord, RowError>, AllocError> {
        Ok(Ok(texts.clone()?))
    }
}

/// What the rows of a text come to: the corrections that fit, the lines of the rows that are none, how many these are, and how many
/// corrections have records with numbers of their own.
#[derive(Drop)]
pub struct Gathered {
    pub fits: Vec<Correction>,
    pub text: Vec<u8>,
    pub errors: u32,
    pub own: u32,
}

/// Reads the corrections of a text for the list of an office. The first record with a number of its own has `number`. An `Err` is want
/// of memory.
pub fn corrections_of(
    alloc: Global,
    old: &Office,
    number: u64,
    text: Vec<u8>,
) -> Result<Gathered, AllocError>
    requires short { length text.items ≤ 16777216 }
    requires number { IsBetween 1 999000000000 number }
    ensures gathered { IfOk result (λ g. HasGathered old.now.history number (records default_config (strip_bom text.items)) g) }
    ensures few { IfOk result (λ g. length g.fits.items ≤ 16777217) }
{
    let mut rows = TextRows::<FieldsForm>::new(alloc, text);
    let _most = rows.at_most();
    let mut gathered = Gathered {
        fits: Vec::new(alloc),
        text: Vec::new(alloc),
        errors: 0,
        own: 0,
    };
    let mut row = 0;
    while let Some(fields) = rows.next()? {
        let Ok(fields) = fields else {
            unreachable!();
        };
        row += 1;
        gather(alloc, old, number, row, &fields, &mut gathered)?;
    }
    Ok(gathered)
}

// Gathers the row with a number.
fn gather(
    alloc: Global,
    old: &Office,
    number: u64,
    row: u32,
    fields: &ByteRecord,
    gathered: &mut Gathered,
) -> Result<(), AllocError>
    requires number { IsBetween 1 999000000000 number }
    requires row { IsBetween 1 16777217 row }
    requires before { gathered.old.errors + length gathered.old.fits.items + 1 ≡ row }
    requires own { gathered.old.own ≤ length gathered.old.fits.items }
    ensures before { OnOk result (gathered.new.errors + length gathered.new.fits.items ≡ row) }
    ensures own { OnOk result (gathered.new.own ≤ length gathered.new.fits.items) }
    ensures gathered { (rows : List (List (List ℕ))) → HasGathered old.now.history number rows gathered.old → row ≡ length rows + 1
        → OnOk result (HasGathered old.now.history number (rows ++ fields_of fields.now ∷ []) gathered.new) }
{
    match correction_of_row(alloc, row, fields)? {
        Ok(said) => fit(old, number, row, said, gathered),
        Err(error) => {
            put_error(&error, &mut gathered.text)?;
            gathered.errors += 1;
            Ok(())
        }
    }
}

// Keeps what a row says where it fits, or tells why it doesn't.
fn fit(
    old: &Office,
    number: u64,
    row: u32,
    said: CorrectionRow,
    gathered: &mut Gathered,
) -> Result<(), AllocError>
    requires number { IsBetween 1 999000000000 number }
    requires row { IsBetween 1 16777217 row }
    requires before { gathered.old.errors + length gathered.old.fits.items + 1 ≡ row }
    requires own { gathered.old.own ≤ length gathered.old.fits.items }
    ensures before { OnOk result (gathered.new.errors + length gathered.new.fits.items ≡ row) }
    ensures own { OnOk result (gathered.new.own ≤ length gathered.new.fits.items) }
    ensures gathered { (rows : List (List (List ℕ))) (texts : List (List ℕ)) → HasGathered old.now.history number rows gathered.old → row ≡ length rows + 1
        → SaysRow row texts (Ok said) → OnOk result (HasGathered old.now.history number (rows ++ texts ∷ []) gathered.new) }
{
    match misfit(old, gathered.fits.as_slice(), &said.change) {
        Some(cause) => {
            put_misfit(row, cause, &mut gathered.text)?;
            gathered.errors += 1;
            Ok(())
        }
        None => {
            keep(number, said, gathered)?;
            Ok(())
        }
    }
}

// Keeps what a row says.
fn keep(number: u64, said: CorrectionRow, gathered: &mut Gathered) -> Result<(), AllocError>
    requires number { IsBetween 1 999000000000 number }
    requires few { length gathered.old.fits.items ≤ 16777216 }
    requires own { gathered.old.own ≤ length gathered.old.fits.items }
    ensures kept { OnOk result ((mark : AnyFiling) × IsRecord (number + gathered.old.own) said.change said.grounds mark
        × (gathered.new.fits.items ≡ gathered.old.fits.items ++ (record { change = said.change; «record» = mark }) ∷ [])) }
    ensures own { OnOk result (gathered.new.own ≡ one_if_own_of said.change + gathered.old.own) }
    ensures text { gathered.new.text ≡ gathered.old.text }
    ensures errors { gathered.new.errors ≡ gathered.old.errors }
{
    let CorrectionRow { change, grounds } = said;
    let own = one_if_own(&change);
    let record = record_of(number + u64::from(gathered.own), &change, &grounds);
    gathered.fits.push(Correction { change, record })?;
    gathered.own += own;
    Ok(())
}

// Whether the record of a change has a number of its own: 1 or 0.
fn one_if_own(change: &Change) -> u32
    ensures { result ≡ one_if_own_of change.now }
{
    match change {
        Change::Void(_) => 0,
        Change::Replace(_) | Change::Insert { .. } => 1,
    }
}

// The record of a change.
fn record_of(next: u64, change: &Change, grounds: &Grounds) -> Filing
    requires { IsBetween 1 999999999999 next }
    ensures { IsRecord next change.now grounds.now result }
{
    Filing {
        key: record_key(next, change),
        what: What::Amend(AmendFacts {
            of: key_corrected(change),
            change: change_number(change),
            reason: grounds.reason,
            reference: grounds.reference,
        }),
    }
}

// The key of the record of a change.
fn record_key(next: u64, change: &Change) -> Key
    requires { IsBetween 1 999999999999 next }
    ensures { HasRecordKey next change.now result }
{
    match change {
        Change::Void(key) => *key,
        Change::Replace(_) | Change::Insert { .. } => Key {
            school: School(0),
            number: next,
        },
    }
}

// The key of what is corrected.
fn key_corrected(change: &Change) -> Key
    ensures { result ≡ key_corrected_by change.now }
{
    match change {
        Change::Replace(filing) | Change::Insert { filing, .. } => filing.key,
        Change::Void(key) => *key,
    }
}

// What was done, as a record has it.
fn change_number(change: &Change) -> u8
    ensures value { result ≡ change_number_of change.now }
    ensures in_range { IsBetween 1 3 result }
{
    match change {
        Change::Replace(_) => 1,
        Change::Void(_) => 2,
        Change::Insert { .. } => 3,
    }
}

// Why a change doesn't fit the list behind those that fit.
fn misfit(old: &Office, fits: &[Correction], change: &Change) -> Option<u8>
    ensures { result ≡ misfit_of old.now.history fits.now change.now }
{
    if is_taken(fits, change) {
        return Some(5);
    }
    misfit_with(old.filing(old.position(&key_named(change))), change)
}

// Whether one of them has taken its place.
fn is_taken(fits: &[Correction], change: &Change) -> bool
    ensures { result ≡ is_taken_by fits.now change.now }
{
    match change {
        Change::Replace(filing) => named_at(fits, &filing.key).is_some(),
        Change::Void(key) => named_at(fits, key).is_some(),
        Change::Insert { .. } => false,
    }
}

// The key of the filing of the list that a change names.
fn key_named(change: &Change) -> Key
    ensures { result ≡ key_named_by change.now }
{
    match change {
        Change::Replace(filing) => filing.key,
        Change::Void(key) => *key,
        Change::Insert { before, .. } => *before,
    }
}

// Why a change doesn't fit the filing that has its key, if one has.
fn misfit_with(old: Option<&Filing>, change: &Change) -> Option<u8>
    ensures { result ≡ misfit_with_of (option_copied old.entry) change.now }
{
    let Some(old) = old else {
        return Some(6);
    };
    match change {
        Change::Replace(filing) => replaced_misfit(old, filing),
        Change::Void(_) => voided_misfit(old),
        Change::Insert { .. } => None,
    }
}

// Why a filing can't be taken out.
fn voided_misfit(old: &Filing) -> Option<u8>
    ensures { result ≡ (if is_record_of old.now then Some 7 else None) }
{
    if is_record(old) { Some(7) } else { None }
}

// Why one filing can't replace another.
fn replaced_misfit(old: &Filing, new: &Filing) -> Option<u8>
    ensures { result ≡ misfit_with_of (Some old.now) (Change.Replace new.now) }
{
    if is_record(old) || kind(&old.what) != kind(&new.what) {
        return Some(7);
    }
    if old == new { Some(8) } else { None }
}

// Whether a filing is a record of a correction.
fn is_record(filing: &Filing) -> bool
    ensures { result ≡ is_record_of filing.now }
{
    kind(&filing.what) == Kind::Amend
}

// Appends the line of a row that doesn't fit.
fn put_misfit(row: u32, cause: u8, out: &mut Vec<u8>) -> Result<(), AllocError>
    ensures { OnOk result (out.new.items ≡ out.old.items ++ misfit_line row cause) }
{
    put_number(u64::from(row), b' ', out)?;
    out.extend_from_slice(b"error 4 ")?;
    put_number(u64::from(cause), b'\n', out)
}
