//! The lines of a worksheet, written.
ghost use Rattle.std.specs.Prelude.{◌≡◌, ◌≤◌, ◌++◌, OnOk, codes, decimal, replicate, sum};
ghost use Rattle.aid_types.specs.Cents.{cents_text};
ghost use Rattle.aid_types.specs.Percents.{percent_text};
ghost use Rattle.office_reports.specs.Columns.{left, right};
ghost use Rattle.sheet_r2t4.specs.ReturnLines.{amounts_text, figure_text, line_text, lines_text};
ghost use Rattle.sheet_r2t4.specs.declared.entry.Figure.TheVariants.{ByProgram as AmountsFigure};

use crate::entry::{Entry, Figure};
use crate::words::{letter, words};
use aid_types::ByProgram;
use itoa::Buffer;
use std::alloc::AllocError;

// Blanks for the widest column.
const BLANKS: [u8; 77] = [b' '; 77];

/// Appends a text. An `Err` is want of memory.
pub(crate) fn put_text(text: &[u8], out: &mut Vec<u8>) -> Result<(), AllocError>
    ensures { OnOk result (out.new.items ≡ out.old.items ++ text.now) }
{
    out.extend_from_slice(text)
}

/// Appends the digits of a number. An `Err` is want of memory.
pub(crate) fn put_digits(number: u64, out: &mut Vec<u8>) -> Result<(), AllocError>
    ensures { OnOk result (out.new.items ≡ out.old.items ++ decimal number) }
{
    let mut digits = Buffer::new();
    put_text(digits.format(number).as_bytes(), out)
}

/// Appends so many blanks, at most those of the widest column. An `Err` is want of memory.
pub(crate) fn put_blanks(count: usize, out: &mut Vec<u8>) -> Result<(), AllocError>
    requires { count ≤ 77 }
    ensures { OnOk result (out.new.items ≡ out.old.items ++ replicate count 32) }
{
    out.extend_from_slice(&BLANKS[..count])
}

/// Appends a text to the right of its column. An `Err` is want of memory.
pub(crate) fn put_right(width: usize, text: &[u8], out: &mut Vec<u8>) -> Result<(), AllocError>
    requires { width ≤ 77 }
    ensures { OnOk result (out.new.items ≡ out.old.items ++ right width text.now) }
{
    put_blanks(width.saturating_sub(text.len()), out)?;
    out.extend_from_slice(text)
}

/// Appends the lines of a worksheet. An `Err` is want of memory.
#[tactic(auto, unfolding(crate::specs::ReturnLines::lines_text))]
pub(crate) fn put_lines(entries: &[Entry], out: &mut Vec<u8>) -> Result<(), AllocError>
    ensures { OnOk result (out.new.items ≡ out.old.items ++ lines_text entries.now) }
{
    for entry in entries {
        put_line(entry, out)?;
    }
    Ok(())
}

// Appends a line: its letter, its words to the left, and what it tells to the right.
fn put_line(entry: &Entry, out: &mut Vec<u8>) -> Result<(), AllocError>
    ensures { OnOk result (out.new.items ≡ out.old.items ++ line_text entry.now) }
{
    put_text(letter(entry.label).as_bytes(), out)?;
    put_words(words(entry.label).as_bytes(), out)?;
    put_figure(&entry.figure, out)?;
    put_text(b"\n", out)
}

// Appends words to the left of their column.
fn put_words(text: &[u8], out: &mut Vec<u8>) -> Result<(), AllocError>
    ensures { OnOk result (out.new.items ≡ out.old.items ++ left 28 text.now) }
{
    out.extend_from_slice(text)?;
    put_blanks(28_usize.saturating_sub(text.len()), out)
}

// Appends what a line tells.
fn put_figure(figure: &Figure, out: &mut Vec<u8>) -> Result<(), AllocError>
    ensures { OnOk result (out.new.items ≡ out.old.items ++ figure_text figure.now) }
{
    match figure {
        Figure::ByProgram(amounts) => put_by_program(amounts, out),
        Figure::Cents(cents) => put_cents(77, u128::from(*cents), out),
        Figure::Days(days) => put_number(77, u128::from(*days), out),
        Figure::Percent(tenths) => put_percent(*tenths, out),
    }
}

// Appends amounts by program, and their sum.
fn put_by_program(amounts: &ByProgram, out: &mut Vec<u8>) -> Result<(), AllocError>
    ensures { OnOk result (out.new.items ≡ out.old.items ++ figure_text (AmountsFigure amounts.now)) }
{
    let cents = amounts.cents();
    put_amounts(&cents, out)?;
    put_cents(11, total(cents), out)
}

/// The sum of amounts by program, however great they are.
pub(crate) fn total(cents: [u64; 6]) -> u128
    ensures { result ≡ sum cents }
{
    let [unsub, sub, plus, pell, fseog, teach] = cents;
    u128::from(unsub)
        + u128::from(sub)
        + u128::from(plus)
        + u128::from(pell)
        + u128::from(fseog)
        + u128::from(teach)
}

// Appends amounts, each to the right of its column.
#[tactic(auto, unfolding(crate::specs::ReturnLines::amounts_text))]
fn put_amounts(amounts: &[u64], out: &mut Vec<u8>) -> Result<(), AllocError>
    ensures { OnOk result (out.new.items ≡ out.old.items ++ amounts_text amounts.now) }
{
    for &cents in amounts {
        put_cents(11, u128::from(cents), out)?;
    }
    Ok(())
}

// Appends cents to the right of their column.
fn put_cents(width: usize, cents: u128, out: &mut Vec<u8>) -> Result<(), AllocError>
    requires wide { 3 ≤ width }
    requires narrow { width ≤ 77 }
    ensures { OnOk result (out.new.items ≡ out.old.items ++ right width (cents_text cents)) }
{
    put_number(width - 3, cents / 100, out)?;
    out.push(b'.')?;
    out.push(b'0' + (cents / 10 % 10) as u8)?;
    out.push(b'0' + (cents % 10) as u8)?;
    Ok(())
}

// Appends tenths of a percent to the right of the widest column.
fn put_percent(tenths: u16, out: &mut Vec<u8>) -> Result<(), AllocError>
    ensures { OnOk result (out.new.items ≡ out.old.items ++ right 77 (percent_text tenths)) }
{
    put_number(75, u128::from(tenths / 10), out)?;
    out.push(b'.')?;
    out.push(b'0' + (tenths % 10) as u8)?;
    Ok(())
}

// Appends a number to the right of its column.
fn put_number(width: usize, number: u128, out: &mut Vec<u8>) -> Result<(), AllocError>
    requires { width ≤ 77 }
    ensures { OnOk result (out.new.items ≡ out.old.items ++ right width (decimal number)) }
{
    let mut digits = Buffer::new();
    put_right(width, digits.format(number).as_bytes(), out)
}
