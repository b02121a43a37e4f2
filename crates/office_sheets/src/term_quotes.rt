//! What the students of a term could be paid of Pell.
ghost use Rattle.std.specs.Prelude.{◌≡◌, ◌++◌, IfOk, OnOk, reverse};
ghost use Rattle.office_sheets.specs.Quotes.{enrolled as enrolled_on, enrolled_by as enrolled_by_what, quote_line, quote_row, quote_rows as quote_rows_on, quotes_sheet};

use crate::headed::headed_text;
use crate::pieces::{put_dollars, put_number};
use aid_filings::{Filing, What};
use aid_types::{Program, School, Student, Year};
use office_index::Office;
use office_reports::{ReportLine, push_told, sort_students};
use std::alloc::{AllocError, Global};

/// A student with credits in force in a term: the credits, the Scheduled Award in dollars, the term's net Pell in cents, and the
/// greatest Pell payment that the school could file, in cents that are whole dollars.
#[derive(Clone, Copy)]
pub struct QuoteOf {
    pub student: Student,
    pub credits: u8,
    pub scheduled: u32,
    pub pell: u64,
    pub quote: u64,
}

/// Each student with credits in force in a term of a school, by number, as comma-separated values below a heading: the credits, the
/// Scheduled Award, the term's net Pell, and the greatest Pell payment in whole dollars that the school could file. `none` where there
/// is no such student. One pass over the filings and four look-ups for each student. An `Err` is want of memory.
pub fn quotes(
    alloc: Global,
    office: &Office,
    school: School,
    year: Year,
    term: u8,
) -> Result<Vec<u8>, AllocError>
    ensures { IfOk result (λ text. text.items ≡ quotes_sheet office.now.history school year term) }
{
    let rows = quote_rows(alloc, office, school, year, term)?;
    let heading = b"student,credits,scheduled,pell,quote\n";
    headed_text(alloc, heading, rows.as_slice())
}

// The students with credits in force.
fn quote_rows(
    alloc: Global,
    office: &Office,
    school: School,
    year: Year,
    term: u8,
) -> Result<Vec<QuoteOf>, AllocError>
    ensures { IfOk result (λ rows. rows.items ≡ quote_rows_on office.now.history school year term) }
{
    let students = enrolled(alloc, office.filings(), school, year, term)?;
    let mut rows = Vec::new(alloc);
    for &student in students.as_slice() {
        push_quote(office, school, year, term, student, &mut rows)?;
    }
    Ok(rows)
}

// Appends a student who has credits in force.
fn push_quote(
    office: &Office,
    school: School,
    year: Year,
    term: u8,
    student: Student,
    rows: &mut Vec<QuoteOf>,
) -> Result<(), AllocError>
    ensures { OnOk result (rows.new.items ≡ rows.old.items ++ quote_row office.now.history school year term student) }
{
    let credits = office.place(school, student, year, term).credits;
    if credits == 0 {
        return Ok(());
    }
    rows.push(QuoteOf {
        student,
        credits,
        scheduled: office.standing(student, year).scheduled,
        pell: office.net(student, school, year, term, Program::Pell),
        quote: office.quote(school, student, year, term),
    })?;
    Ok(())
}

// The students who were enrolled in a term, by number.
fn enrolled(
    alloc: Global,
    filings: &[Filing],
    school: School,
    year: Year,
    term: u8,
) -> Result<Vec<Student>, AllocError>
    ensures { IfOk result (λ students. students.items ≡ enrolled_on (reverse filings.now) school year term) }
{
    let mut students = Vec::new(alloc);
    for filing in filings {
        push_told(enrolled_by(filing, school, year, term), &mut students)?;
    }
    sort_students(&mut students);
    Ok(students)
}

// The student of an enrollment in the term.
fn enrolled_by(filing: &Filing, school: School, year: Year, term: u8) -> Option<Student>
    ensures { result ≡ enrolled_by_what school year term filing.now.key filing.now.what }
{
    match &filing.what {
        What::Enroll(e) if filing.key.school == school && e.year == year && e.term == term => {
            Some(e.student)
        }
        _ => None,
    }
}

impl ReportLine for QuoteOf {
    ghost line = { quote_line };

    fn put(&self, out: &mut Vec<u8>) -> Result<(), AllocError> {
        put_number(self.student.0, b',', out)?;
        put_number(u64::from(self.credits), b',', out)?;
        put_number(u64::from(self.scheduled), b',', out)?;
        put_dollars(self.pell, b',', out)?;
        put_number(self.quote / 100, b'\n', out)
    }
}
