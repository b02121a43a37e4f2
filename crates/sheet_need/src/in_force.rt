//! The worksheet of a student's application in force.
ghost use Rattle.std.specs.Prelude.{◌≡◌, ◌<◌, ◌++◌, IfOk, OnOk};
ghost use Rattle.std.specs.Option.{option_copied};
ghost use Rattle.sheet_need.specs.Need.{need_sheet, sheet_of};

use crate::lines::put_text;
use crate::sheet::put_need;
use aid_books::Book;
use aid_types::{Application, Student, Year};
use office_history::HistoryView;
use office_index::Office;
use office_plain::PlainHistory;
use sorted_rows::Steps;
use std::alloc::{AllocError, Global};
use std::marker::Brand;
use std::sync::ledger::{Blank, Ledger};

/// The worksheet of the Student Aid Index and of the award of a student's application in force in a year, line by line.
/// Amounts are dollars (HEA 401(b), 475 to 478, 480). `none` where there is no application. Three passes over the filings.
/// An `Err` is want of memory.
pub fn need(
    alloc: Global,
    office: &Office,
    student: Student,
    year: Year,
) -> Result<Vec<u8>, AllocError>
    ensures { IfOk result (λ text. text.items ≡ need_sheet office.now.history student year) }
{
    // The front tells that the history is legal.
    let _front = office.front();
    let filings = office.filings();
    let plain = PlainHistory::new(filings);
    need_in::<Brand>(alloc, &plain, student, year, Blank::new(1))
}

// The worksheet on a list.
fn need_in<L: Ledger>(
    alloc: Global,
    plain: &PlainHistory<'_>,
    student: Student,
    year: Year,
    blank: Blank,
) -> Result<Vec<u8>, AllocError>
    requires name { blank.name ≡ L.name }
    requires parts { blank.parts ≡ L.parts }
    requires some { 0 < blank.parts }
    ensures { IfOk result (λ text. text.items ≡ need_sheet plain.now student year) }
{
    let mut steps = Steps::<L>::new(blank);
    let book_at = plain.book_at(year, &mut steps);
    let book = plain.book(year, &mut steps);
    let (at, application) = plain.application(student, year);
    let mut out = Vec::new(alloc);
    put_found(book, &application, at, book_at, &mut out)?;
    Ok(out)
}

// Appends the worksheet of an application under a book, where both are there.
fn put_found(
    book: Option<&Book>,
    application: &Option<Application>,
    at: u32,
    book_at: u32,
    out: &mut Vec<u8>,
) -> Result<(), AllocError>
    ensures { OnOk result (out.new.items ≡ out.old.items ++ sheet_of (option_copied book.entry) application.now at book_at) }
{
    match (book, application) {
        (Some(book), Some(application)) => put_need(book, application, at, book_at, out),
        _ => put_text(b"none\n", out),
    }
}
