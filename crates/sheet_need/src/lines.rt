//! The lines of a worksheet, written.
ghost use Rattle.std.specs.Prelude.{◌≡◌, ◌≤◌, ◌++◌, OnOk, codes, decimal, replicate};
ghost use Rattle.aid_types.specs.Whole.{whole_text};
ghost use Rattle.office_reports.specs.Columns.{right};
ghost use Rattle.sheet_need.specs.NeedLines.{entries_text, entry_text, is_shown as is_shown_of, line_text, figure_text};
ghost use Rattle.sheet_need.specs.NeedWords.{part_text, words_text};

use crate::entry::{Entry, Figure, Part};
use crate::words::{mark_word, words_before, words_behind};
use aid_types::{put_cents, way_name};
use itoa::Buffer;
use office_reports::put_right;
use std::alloc::AllocError;

// Blanks for the widest column.
const BLANKS: [u8; 44] = [b' '; 44];

/// Appends a text. An `Err` is want of memory.
pub(crate) fn put_text(text: &[u8], out: &mut Vec<u8>) -> Result<(), AllocError>
    ensures { OnOk result (out.new.items ≡ out.old.items ++ text.now) }
{
    out.extend_from_slice(text)
}

/// Appends the digits of a number. An `Err` is want of memory.
pub(crate) fn put_digits(number: u64, out: &mut Vec<u8>) -> Result<(), AllocError>
    ensures { OnOk result (out.new.items ≡ out.old.items ++ decimal number) }
{
    let mut digits = Buffer::new();
    put_text(digits.format(number).as_bytes(), out)
}

/// Appends the lines of a worksheet. An `Err` is want of memory.
#[tactic(auto, unfolding(crate::specs::NeedLines::entries_text))]
pub(crate) fn put_entries(entries: &[Entry], out: &mut Vec<u8>) -> Result<(), AllocError>
    ensures { OnOk result (out.new.items ≡ out.old.items ++ entries_text entries.now) }
{
    for entry in entries {
        put_entry(entry, out)?;
    }
    Ok(())
}

// Appends a line, if it has one.
fn put_entry(entry: &Entry, out: &mut Vec<u8>) -> Result<(), AllocError>
    ensures { OnOk result (out.new.items ≡ out.old.items ++ entry_text entry.now) }
{
    if is_shown(entry.figure) {
        put_line(entry, out)?;
    }
    Ok(())
}

// Whether a figure has a line.
fn is_shown(figure: Figure) -> bool
    ensures { result ≡ is_shown_of figure }
{
    match figure {
        Figure::Dollars(dollars) => dollars != 0,
        _ => true,
    }
}

// Appends a line: its mark, its words to the left, and the figure to the right.
fn put_line(entry: &Entry, out: &mut Vec<u8>) -> Result<(), AllocError>
    ensures { OnOk result (out.new.items ≡ out.old.items ++ line_text entry.now) }
{
    out.extend_from_slice(mark_word(entry.mark).as_bytes())?;
    let start = out.len();
    put_words(entry, out)?;
    put_blanks(44_usize.saturating_sub(out.len() - start), out)?;
    put_figure(entry.figure, out)
}

// Appends the words of a line.
fn put_words(entry: &Entry, out: &mut Vec<u8>) -> Result<(), AllocError>
    ensures { OnOk result (out.new.items ≡ out.old.items ++ words_text entry.now.label entry.now.part) }
{
    out.extend_from_slice(words_before(entry.label).as_bytes())?;
    put_part(entry.part, out)?;
    out.extend_from_slice(words_behind(entry.label).as_bytes())
}

// Appends what stands within words.
fn put_part(part: Part, out: &mut Vec<u8>) -> Result<(), AllocError>
    ensures { OnOk result (out.new.items ≡ out.old.items ++ part_text part) }
{
    match part {
        Part::Empty => Ok(()),
        Part::Number(number) => put_number(number, out),
        Part::Rate(rate) => put_cents(rate.unsigned_abs(), out),
        Part::WayTaken(way) => out.extend_from_slice(way_name(way).as_bytes()),
    }
}

// Appends a number as it is.
fn put_number(number: i64, out: &mut Vec<u8>) -> Result<(), AllocError>
    ensures { OnOk result (out.new.items ≡ out.old.items ++ whole_text number) }
{
    let mut digits = Buffer::new();
    out.extend_from_slice(digits.format(number).as_bytes())
}

// Appends the figure to the right of its column, and the end of the line.
fn put_figure(figure: Figure, out: &mut Vec<u8>) -> Result<(), AllocError>
    ensures { OnOk result (out.new.items ≡ out.old.items ++ right 12 (figure_text figure) ++ codes "\n") }
{
    match figure {
        Figure::Worked(number) => put_dollars(number, out),
        Figure::Dollars(number) => put_dollars(number, out),
        Figure::Answer(true) => put_right(12, b"yes", b'\n', out),
        Figure::Answer(false) => put_right(12, b"no", b'\n', out),
    }
}

// Appends a number to the right of its column, and the end of the line.
fn put_dollars(number: i128, out: &mut Vec<u8>) -> Result<(), AllocError>
    ensures { OnOk result (out.new.items ≡ out.old.items ++ right 12 (whole_text number) ++ codes "\n") }
{
    let mut digits = Buffer::new();
    put_right(12, digits.format(number).as_bytes(), b'\n', out)
}

// Appends so many blanks, at most those of the widest column.
fn put_blanks(count: usize, out: &mut Vec<u8>) -> Result<(), AllocError>
    requires { count ≤ 44 }
    ensures { OnOk result (out.new.items ≡ out.old.items ++ replicate count 32) }
{
    out.extend_from_slice(&BLANKS[..count])
}
