//! What is on file, asked where no looks are counted.
ghost use Rattle.std.specs.Prelude.{◌≡◌, ◌<◌, Some};
ghost use Rattle.office_history.specs.Award.{ceiling_under};
ghost use Rattle.office_history.specs.Past.{the_book};
ghost use Rattle.office_history.specs.Rows.{place_row, school_row, school_year_row, term_row};

use aid_types::{Application, School, Student, Year};
use law_pell::Ceiling;
use office_history::{HistoryView, PlaceRow, SchoolRow, SchoolYearRow, TermRow, ceiling};
use sorted_rows::Steps;
use std::marker::Brand;
use std::sync::ledger::{Blank, Ledger};

// A count of looks that nobody reads.
fn blank_steps<L: Ledger>(blank: Blank) -> Steps<L>
    requires name { blank.name ≡ L.name }
    requires parts { blank.parts ≡ L.parts }
    requires some { 0 < blank.parts }
{
    Steps::<L>::new(blank)
}

fn ceiling_of_book<P: HistoryView, L: Ledger>(
    past: &P,
    filed: &Application,
    blank: Blank,
) -> Ceiling
    requires name { blank.name ≡ L.name }
    requires parts { blank.parts ≡ L.parts }
    requires some { 0 < blank.parts }
    ensures { result ≡ ceiling_under (the_book (P.history past.now) filed.now.year) (Some filed.now) }
{
    match past.book(filed.year, &mut blank_steps::<L>(blank)) {
        Some(book) => ceiling(book, filed),
        None => Ceiling::NONE,
    }
}

/// The ceiling that decides on an application under its year's book.
pub(crate) fn ceiling_on<P: HistoryView>(past: &P, filed: &Application) -> Ceiling
    ensures { result ≡ ceiling_under (the_book (P.history past.now) filed.now.year) (Some filed.now) }
{
    ceiling_of_book::<P, Brand>(past, filed, Blank::new(1))
}

fn term_on<P: HistoryView, L: Ledger>(
    past: &P,
    school: School,
    year: Year,
    number: u8,
    blank: Blank,
) -> (SchoolRow, TermRow)
    requires name { blank.name ≡ L.name }
    requires parts { blank.parts ≡ L.parts }
    requires some { 0 < blank.parts }
    ensures school { result.0 ≡ school_row (P.history past.now) school }
    ensures term { result.1 ≡ term_row (P.history past.now) school year number }
{
    past.term(school, year, number, &mut blank_steps::<L>(blank))
}

/// A school with its term of a year and a number.
pub fn term_of<P: HistoryView>(
    past: &P,
    school: School,
    year: Year,
    number: u8,
) -> (SchoolRow, TermRow)
    ensures school { result.0 ≡ school_row (P.history past.now) school }
    ensures term { result.1 ≡ term_row (P.history past.now) school year number }
{
    term_on::<P, Brand>(past, school, year, number, Blank::new(1))
}

fn place_on<P: HistoryView, L: Ledger>(
    past: &P,
    school: School,
    student: Student,
    year: Year,
    number: u8,
    blank: Blank,
) -> PlaceRow
    requires name { blank.name ≡ L.name }
    requires parts { blank.parts ≡ L.parts }
    requires some { 0 < blank.parts }
    ensures { result ≡ place_row (P.history past.now) school student year number }
{
    past.place(school, student, year, number, &mut blank_steps::<L>(blank))
}

/// A student's term at a school.
pub fn place_of<P: HistoryView>(
    past: &P,
    school: School,
    student: Student,
    year: Year,
    number: u8,
) -> PlaceRow
    ensures { result ≡ place_row (P.history past.now) school student year number }
{
    place_on::<P, Brand>(past, school, student, year, number, Blank::new(1))
}

fn school_on<P: HistoryView, L: Ledger>(past: &P, code: u32, blank: Blank) -> SchoolRow
    requires name { blank.name ≡ L.name }
    requires parts { blank.parts ≡ L.parts }
    requires some { 0 < blank.parts }
    ensures { result ≡ school_row (P.history past.now) code }
{
    past.school(code, &mut blank_steps::<L>(blank))
}

/// The school with a code.
pub fn school_of<P: HistoryView>(past: &P, code: u32) -> SchoolRow
    ensures { result ≡ school_row (P.history past.now) code }
{
    school_on::<P, Brand>(past, code, Blank::new(1))
}

fn school_year_on<P: HistoryView, L: Ledger>(
    past: &P,
    school: School,
    student: Student,
    year: Year,
    blank: Blank,
) -> SchoolYearRow
    requires name { blank.name ≡ L.name }
    requires parts { blank.parts ≡ L.parts }
    requires some { 0 < blank.parts }
    ensures { result ≡ school_year_row (P.history past.now) school student year }
{
    past.school_year(school, student, year, &mut blank_steps::<L>(blank))
}

/// A student's year at a school.
pub fn school_year_of<P: HistoryView>(
    past: &P,
    school: School,
    student: Student,
    year: Year,
) -> SchoolYearRow
    ensures { result ≡ school_year_row (P.history past.now) school student year }
{
    school_year_on::<P, Brand>(past, school, student, year, Blank::new(1))
}
