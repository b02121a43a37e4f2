//! The lines of an export, written.
ghost use Rattle.std.specs.Prelude.{◌≡◌, ◌∷◌, ◌++◌, [], OnOk, decimal};
ghost use Rattle.aid_types.specs.Cents.{cents_text};
ghost use Rattle.aid_types.specs.Whole.{whole_text};
ghost use Rattle.aid_stamps.specs.Stamps.{IsStamp};
ghost use Rattle.format_bytes.specs.Numbers.{IsFiling};
ghost use Rattle.hex.specs.Hex.{encode_lower};
ghost use Rattle.office_export.specs.Lines.{end_line, filing_line, standing_line};

use aid_filings::{Filing, StandingRow};
use aid_seals::Seal;
use aid_stamps::Stamp;
use aid_types::{Student, Year, formula_name, put_cents, way_name};
use format_bytes::put_stamped;
use io_traits::PayloadBuffer;
use itoa::Buffer;
use std::alloc::AllocError;

/// Appends the line of a filing under its stamp. The room is where both are spelled first. An `Err` is want of memory.
pub fn put_filing_line(
    filing: &Filing,
    stamp: &Stamp,
    room: &mut PayloadBuffer,
    out: &mut Vec<u8>,
) -> Result<(), AllocError>
    ensures line { OnOk result (out.new.items ≡ out.old.items ++ filing_line stamp.now filing.now) }
    ensures is_stamp { IsStamp stamp.now }
    ensures is_filing { IsFiling filing.now }
{
    put_stamped(filing, stamp, room);
    put_word(b"filing", out)?;
    put_digits(room.bytes(), out)?;
    out.push(b'\n')?;
    Ok(())
}

/// Appends the line of where a student stands in a year. An `Err` is want of memory.
pub fn put_standing_line(
    student: Student,
    year: Year,
    row: &StandingRow,
    out: &mut Vec<u8>,
) -> Result<(), AllocError>
    ensures { OnOk result (out.new.items ≡ out.old.items ++ standing_line student year row.now) }
{
    put_word(b"standing", out)?;
    put_student(student, out)?;
    put_year(year, out)?;
    put_number(u64::from(row.transaction), b' ', out)?;
    put_word(formula_name(row.formula).as_bytes(), out)?;
    put_whole(row.sai, out)?;
    put_word(way_name(row.way).as_bytes(), out)?;
    put_number(u64::from(row.scheduled), b' ', out)?;
    put_amount(row.paid, out)?;
    put_number(u64::from(row.used), b'\n', out)
}

/// Appends the last line: how many filings and standings there are, and the seal of the filings. An `Err` is want of memory.
pub fn put_end_line(
    filings: u32,
    standings: u32,
    seal: &Seal,
    out: &mut Vec<u8>,
) -> Result<(), AllocError>
    ensures { OnOk result (out.new.items ≡ out.old.items ++ end_line filings standings seal.now.bytes) }
{
    put_word(b"end", out)?;
    put_number(u64::from(filings), b' ', out)?;
    put_number(u64::from(standings), b' ', out)?;
    put_digits(&seal.bytes, out)?;
    out.push(b'\n')?;
    Ok(())
}

// Appends a text and a byte behind it.
fn put_text(text: &[u8], end: u8, out: &mut Vec<u8>) -> Result<(), AllocError>
    ensures { OnOk result (out.new.items ≡ out.old.items ++ text.now ++ end ∷ []) }
{
    out.extend_from_slice(text)?;
    out.push(end)?;
    Ok(())
}

// Appends a word and a blank.
fn put_word(word: &[u8], out: &mut Vec<u8>) -> Result<(), AllocError>
    ensures { OnOk result (out.new.items ≡ out.old.items ++ word.now ++ 32 ∷ []) }
{
    put_text(word, b' ', out)
}

// Appends a number and a byte behind it.
fn put_number(number: u64, end: u8, out: &mut Vec<u8>) -> Result<(), AllocError>
    ensures { OnOk result (out.new.items ≡ out.old.items ++ decimal number ++ end ∷ []) }
{
    let mut digits = Buffer::new();
    put_text(digits.format(number).as_bytes(), end, out)
}

// Appends a student's number and a blank.
fn put_student(student: Student, out: &mut Vec<u8>) -> Result<(), AllocError>
    ensures { OnOk result (out.new.items ≡ out.old.items ++ decimal student ++ 32 ∷ []) }
{
    put_number(student.0, b' ', out)
}

// Appends a year and a blank.
fn put_year(year: Year, out: &mut Vec<u8>) -> Result<(), AllocError>
    ensures { OnOk result (out.new.items ≡ out.old.items ++ decimal year ++ 32 ∷ []) }
{
    put_number(u64::from(year.0), b' ', out)
}

// Appends a number that may be negative, and a blank.
fn put_whole(number: i32, out: &mut Vec<u8>) -> Result<(), AllocError>
    ensures { OnOk result (out.new.items ≡ out.old.items ++ whole_text number ++ 32 ∷ []) }
{
    let mut digits = Buffer::new();
    put_text(digits.format(number).as_bytes(), b' ', out)
}

// Appends an amount and a blank.
fn put_amount(cents: u64, out: &mut Vec<u8>) -> Result<(), AllocError>
    ensures { OnOk result (out.new.items ≡ out.old.items ++ cents_text cents ++ 32 ∷ []) }
{
    put_cents(cents, out)?;
    out.push(b' ')?;
    Ok(())
}

// Appends two digits for each byte.
fn put_digits(bytes: &[u8], out: &mut Vec<u8>) -> Result<(), AllocError>
    ensures { OnOk result (out.new.items ≡ out.old.items ++ encode_lower bytes.now) }
{
    for byte in bytes {
        let mut pair = [0; 2];
        let Ok(()) = hex::encode_to_slice([*byte], &mut pair) else {
            unreachable!();
        };
        out.extend_from_slice(&pair)?;
    }
    Ok(())
}
