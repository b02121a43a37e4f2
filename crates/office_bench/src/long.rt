//! Students with many filings each: terms of four years at four schools, in which Pell is paid and adjusted again and again.
ghost use Rattle.std.specs.Prelude.{◌≤◌};
ghost use Rattle.aid_types.specs.Ranges.{IsBetween};

use crate::desk::Desk;
use crate::filings::{
    FIRST_DAY, FIRST_YEAR, Place, adjustment, application, calendar, enrollment, origination,
    payment, school,
};
use crate::generator::Sequence;
use aid_books::BoxedBook;
use aid_filings::What;
use aid_types::{Student, Year};
use specimen::specimen_book;
use std::alloc::{AllocError, Global};

// The filings of a student.
const SHARE: u32 = 2000;

/// What was paid in a term.
#[derive(Clone, Copy)]
struct Paid {
    place: Place,
    cents: u64,
    ghost cents_in_range: { cents ≤ 99999999 },
}

/// The payments of the last four terms, `None` where a quote was 0.
#[derive(Clone, Copy)]
struct Standing {
    last: Option<Paid>,
    second: Option<Paid>,
    third: Option<Paid>,
    fourth: Option<Paid>,
}

/// Files so many filings, or up to two fewer, of students with 2,000 each.
pub fn file_long(desk: &mut Desk, alloc: Global, filings: u32) -> Result<(), AllocError> {
    file_schools(desk, alloc)?;
    let mut sequence = Sequence::new();
    for student in 1..=filings.div_ceil(SHARE) {
        let until = desk.tally.filings().saturating_add(SHARE).min(filings);
        file_student(desk, &mut sequence, student, until.saturating_sub(2))?;
    }
    Ok(())
}

// Files the specimen book for each of four years, and four schools with eight terms in each.
fn file_schools(desk: &mut Desk, alloc: Global) -> Result<(), AllocError> {
    for year in FIRST_YEAR..=FIRST_YEAR + 3 {
        let mut book = specimen_book();
        book.year = Year(year);
        desk.file_next(0, What::Book(BoxedBook::new(Box::new(alloc, book)?)))?;
    }
    for code in 101..=104 {
        desk.file_next(0, school(code))?;
    }
    for code in 101..=104 {
        for year in FIRST_YEAR..=FIRST_YEAR + 3 {
            file_terms(desk, code, year)?;
        }
    }
    Ok(())
}

// Files eight terms of six weeks each. Those of another school begin ten days later.
fn file_terms(desk: &mut Desk, school: u32, year: u16) -> Result<(), AllocError>
    requires school { IsBetween 101 104 school }
    requires year { IsBetween 2025 2028 year }
{
    let begun = FIRST_DAY + 365 * (year - FIRST_YEAR) + 10 * (school - 101) as u16;
    for term in 1..=8 {
        let place = Place { school, year, term };
        let first = begun + 42 * (u16::from(term) - 1);
        desk.file_next(school, calendar(place, first, first + 41))?;
    }
    Ok(())
}

// Files what a student begins with, and then term after term until so many filings are counted. A term takes three at most.
fn file_student(
    desk: &mut Desk,
    sequence: &mut Sequence,
    student: u32,
    until: u32,
) -> Result<(), AllocError>
    requires { 1 ≤ student }
{
    let student = Student(u64::from(student));
    for year in FIRST_YEAR..=FIRST_YEAR + 3 {
        let income = sequence.low_income();
        desk.file_next(101, application(student, year, income))?;
        for school in 101..=104 {
            desk.file_next(school, origination(student, year))?;
        }
    }
    let mut standing = Standing {
        last: None,
        second: None,
        third: None,
        fourth: None,
    };
    for _ in 0..SHARE {
        if until <= desk.tally.filings() {
            break;
        }
        adjust(desk, student, standing.fourth)?;
        let paid = enroll_and_pay(desk, sequence, student)?;
        standing = Standing {
            last: paid,
            second: standing.last,
            third: standing.second,
            fourth: standing.third,
        };
    }
    Ok(())
}

// Files an adjustment of a payment to nothing.
fn adjust(desk: &mut Desk, student: Student, paid: Option<Paid>) -> Result<(), AllocError> {
    match paid {
        Some(paid) => {
            let place = paid.place;
            desk.file_next(place.school, adjustment(student, place, paid.cents))
        }
        None => Ok(()),
    }
}

// Files credits in a term, and a payment of the quote, if there is one.
fn enroll_and_pay(
    desk: &mut Desk,
    sequence: &mut Sequence,
    student: Student,
) -> Result<Option<Paid>, AllocError> {
    let place = sequence.place();
    let credits = sequence.credits();
    desk.file_next(place.school, enrollment(student, place, credits))?;
    let Some(cents) = desk.quote(student, place) else {
        return Ok(None);
    };
    desk.file_next(place.school, payment(student, place, cents))?;
    Ok(Some(Paid { place, cents }))
}
