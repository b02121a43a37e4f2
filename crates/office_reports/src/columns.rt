//! Columns of a table.
ghost use Rattle.std.specs.Prelude.{◌≡◌, ◌≤◌, ◌∷◌, ◌++◌, [], OnOk, decimal, replicate};
ghost use Rattle.aid_types.specs.Cents.{cents_text};
ghost use Rattle.aid_types.specs.Whole.{whole_text};
ghost use Rattle.aid_types.specs.Percents.{percent_text};
ghost use Rattle.office_reports.specs.Columns.{left, right};

use aid_types::{School, Student};
use itoa::Buffer;
use std::alloc::AllocError;

// Blanks for the widest column.
const BLANKS: [u8; 12] = [b' '; 12];

// Appends so many blanks.
fn put_blanks(count: usize, out: &mut Vec<u8>) -> Result<(), AllocError>
    requires { count ≤ 12 }
    ensures { OnOk result (out.new.items ≡ out.old.items ++ replicate count 32) }
{
    out.extend_from_slice(&BLANKS[..count])
}

/// Appends a text as it is, and a space.
pub fn put_text(text: &[u8], out: &mut Vec<u8>) -> Result<(), AllocError>
    ensures { OnOk result (out.new.items ≡ out.old.items ++ text.now ++ 32 ∷ []) }
{
    out.extend_from_slice(text)?;
    out.push(b' ')?;
    Ok(())
}

/// Appends the number of a term, and a space.
pub(crate) fn put_term(term: u8, out: &mut Vec<u8>) -> Result<(), AllocError>
    ensures { OnOk result (out.new.items ≡ out.old.items ++ decimal term ++ 32 ∷ []) }
{
    let mut digits = Buffer::new();
    put_text(digits.format(term).as_bytes(), out)
}

/// Appends a position as it is, and a space.
pub fn put_position(position: usize, out: &mut Vec<u8>) -> Result<(), AllocError>
    ensures { OnOk result (out.new.items ≡ out.old.items ++ decimal position ++ 32 ∷ []) }
{
    let mut digits = Buffer::new();
    put_text(digits.format(position).as_bytes(), out)
}

/// Appends a text, with blanks before it up to a width, and a byte behind it.
pub fn put_right(width: usize, text: &[u8], end: u8, out: &mut Vec<u8>) -> Result<(), AllocError>
    requires { width ≤ 12 }
    ensures { OnOk result (out.new.items ≡ out.old.items ++ right width text.now ++ end ∷ []) }
{
    put_blanks(width.saturating_sub(text.len()), out)?;
    out.extend_from_slice(text)?;
    out.push(end)?;
    Ok(())
}

/// Appends a text, with blanks behind it up to a width, and a byte behind them.
pub fn put_left(width: usize, text: &[u8], end: u8, out: &mut Vec<u8>) -> Result<(), AllocError>
    requires { width ≤ 12 }
    ensures { OnOk result (out.new.items ≡ out.old.items ++ left width text.now ++ end ∷ []) }
{
    out.extend_from_slice(text)?;
    put_blanks(width.saturating_sub(text.len()), out)?;
    out.push(end)?;
    Ok(())
}

/// Appends a number to the right of its column, and a byte behind it.
pub fn put_number(width: usize, number: u64, end: u8, out: &mut Vec<u8>) -> Result<(), AllocError>
    requires { width ≤ 12 }
    ensures { OnOk result (out.new.items ≡ out.old.items ++ right width (decimal number) ++ end ∷ []) }
{
    let mut digits = Buffer::new();
    put_right(width, digits.format(number).as_bytes(), end, out)
}

/// Appends a student's number to the right of a column of twelve, and a space.
pub(crate) fn put_student(student: Student, out: &mut Vec<u8>) -> Result<(), AllocError>
    ensures { OnOk result (out.new.items ≡ out.old.items ++ right 12 (decimal student) ++ 32 ∷ []) }
{
    put_number(12, student.0, b' ', out)
}

/// Appends a school's code to the right of a column of six, and a space.
pub fn put_school(school: School, out: &mut Vec<u8>) -> Result<(), AllocError>
    ensures { OnOk result (out.new.items ≡ out.old.items ++ right 6 (decimal school) ++ 32 ∷ []) }
{
    put_number(6, u64::from(school.0), b' ', out)
}

/// Appends a number that may be negative to the right of its column, and a byte behind it.
pub(crate) fn put_whole(
    width: usize,
    number: i32,
    end: u8,
    out: &mut Vec<u8>,
) -> Result<(), AllocError>
    requires { width ≤ 12 }
    ensures { OnOk result (out.new.items ≡ out.old.items ++ right width (whole_text number) ++ end ∷ []) }
{
    let mut digits = Buffer::new();
    put_right(width, digits.format(number).as_bytes(), end, out)
}

/// Appends cents to the right of a column of twelve, and a byte behind them.
pub fn put_amount(cents: u64, end: u8, out: &mut Vec<u8>) -> Result<(), AllocError>
    ensures { OnOk result (out.new.items ≡ out.old.items ++ right 12 (cents_text cents) ++ end ∷ []) }
{
    put_number(9, cents / 100, b'.', out)?;
    out.push(b'0' + (cents / 10 % 10) as u8)?;
    out.push(b'0' + (cents % 10) as u8)?;
    out.push(end)?;
    Ok(())
}

/// Appends tenths of a percent to the right of a column of five, and a space.
pub(crate) fn put_percent(tenths: u16, out: &mut Vec<u8>) -> Result<(), AllocError>
    ensures { OnOk result (out.new.items ≡ out.old.items ++ right 5 (percent_text tenths) ++ 32 ∷ []) }
{
    put_number(3, u64::from(tenths / 10), b'.', out)?;
    out.push(b'0' + (tenths % 10) as u8)?;
    out.push(b' ')?;
    Ok(())
}
