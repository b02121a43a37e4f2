//! The year's book on file.
ghost use Rattle.std.specs.Prelude.{◌≡◌, ◌<◌, ◌-◌, ◌++◌, IfOk, OnOk, decimal, get_or};
ghost use Rattle.std.specs.Option.{option_copied};
ghost use Rattle.aid_stamps.specs.Stamps.{plain_stamp};
ghost use Rattle.office_sheets.specs.Lists.{clerk_text};
ghost use Rattle.sheet_review.specs.BookSheet.{book_sheet, place_line, sheet_of};

use crate::book_text::put_book;
use crate::sections::put_text;
use aid_books::Book;
use aid_stamps::{ClerkName, Stamp};
use aid_types::Year;
use itoa::Buffer;
use law_terms::put_day;
use office_history::HistoryView;
use office_index::Office;
use office_plain::PlainHistory;
use office_sheets::clerk_or_hyphen;
use sorted_rows::Steps;
use std::alloc::{AllocError, Global};
use std::marker::Brand;
use std::sync::ledger::{Blank, Ledger};

/// The figures of the year's book on file, as the TOML that files it, and behind it a comment that tells its position and its stamp; `none`
/// where no book of the year is on file. Two passes over the filings. An `Err` is want of memory.
pub fn book(
    alloc: Global,
    office: &Office,
    stamps: &[Stamp],
    year: Year,
) -> Result<Vec<u8>, AllocError>
    ensures { IfOk result (λ text. text.items ≡ book_sheet office.now.history stamps.now year) }
{
    // The front tells that the history is legal.
    let _front = office.front();
    let filings = office.filings();
    let plain = PlainHistory::new(filings);
    book_in::<Brand>(alloc, &plain, stamps, year, Blank::new(1))
}

// The same on a list.
fn book_in<L: Ledger>(
    alloc: Global,
    plain: &PlainHistory<'_>,
    stamps: &[Stamp],
    year: Year,
    blank: Blank,
) -> Result<Vec<u8>, AllocError>
    requires name { blank.name ≡ L.name }
    requires parts { blank.parts ≡ L.parts }
    requires some { 0 < blank.parts }
    ensures { IfOk result (λ text. text.items ≡ book_sheet plain.now stamps.now year) }
{
    let mut steps = Steps::<L>::new(blank);
    let position = plain.book_at(year, &mut steps);
    let book = plain.book(year, &mut steps);
    let mut out = Vec::new(alloc);
    put_found(book, position, stamps, &mut out)?;
    Ok(out)
}

// Appends the text of a book at a position, where there is one.
fn put_found(
    book: Option<&Book>,
    position: u32,
    stamps: &[Stamp],
    out: &mut Vec<u8>,
) -> Result<(), AllocError>
    ensures { OnOk result (out.new.items ≡ out.old.items ++ sheet_of (option_copied book.entry) position stamps.now) }
{
    let Some(book) = book else {
        return put_text(b"none\n", out);
    };
    put_book(book, out)?;
    put_text(b"\n", out)?;
    put_place(position, stamp_at(stamps, position), out)
}

// The stamp of the filing at a position.
fn stamp_at(stamps: &[Stamp], position: u32) -> Stamp
    ensures { result ≡ get_or stamps.now (position - 1) plain_stamp }
{
    let index = position.saturating_sub(1) as usize;
    stamps.get(index).copied().unwrap_or(Stamp::plain())
}

// Appends the comment.
fn put_place(position: u32, stamp: Stamp, out: &mut Vec<u8>) -> Result<(), AllocError>
    ensures { OnOk result (out.new.items ≡ out.old.items ++ place_line position stamp) }
{
    put_text(b"# book at ", out)?;
    put_position(position, out)?;
    put_text(b", ", out)?;
    put_day(stamp.day, out)?;
    put_text(b" ", out)?;
    put_clerk(&stamp.clerk, out)?;
    put_text(b"\n", out)
}

// Appends a clerk's name, or a hyphen where there is none.
fn put_clerk(clerk: &ClerkName, out: &mut Vec<u8>) -> Result<(), AllocError>
    ensures { OnOk result (out.new.items ≡ out.old.items ++ clerk_text clerk.now) }
{
    put_text(clerk_or_hyphen(clerk.as_bytes()), out)
}

// Appends the digits of a position.
fn put_position(position: u32, out: &mut Vec<u8>) -> Result<(), AllocError>
    ensures { OnOk result (out.new.items ≡ out.old.items ++ decimal position) }
{
    let mut digits = Buffer::new();
    put_text(digits.format(position).as_bytes(), out)
}
