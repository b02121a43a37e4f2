//! The generated year, filed student by student or kind by kind.
ghost use Rattle.std.specs.Prelude.{◌≤◌};

use crate::desk::Desk;
use crate::filings::{
    FIRST_DAY, FIRST_YEAR, Place, application, calendar, enrollment, origination, payment, school,
    withdrawal,
};
use crate::generator::{Draws, Sequence};
use aid_books::BoxedBook;
use aid_filings::What;
use aid_types::Student;
use specimen::specimen_book;
use std::alloc::{AllocError, Global};

/// What a student files in a year.
#[derive(Clone, Copy)]
enum Kind {
    Application,
    Enrollment,
    Origination,
    Payment,
    Withdrawal,
}

// The kinds in the order of a student's filings.
const KINDS: [Kind; 5] = [
    Kind::Application,
    Kind::Enrollment,
    Kind::Origination,
    Kind::Payment,
    Kind::Withdrawal,
];

/// Files the year student by student.
pub fn file_students(desk: &mut Desk, alloc: Global, students: u32) -> Result<(), AllocError> {
    file_schools(desk, alloc)?;
    let mut sequence = Sequence::new();
    for student in 1..=students {
        let draws = sequence.draws();
        for kind in KINDS {
            file_kind(desk, kind, student, draws)?;
        }
    }
    Ok(())
}

/// Files the same year kind by kind: all applications, then all enrollments, and so on.
pub fn file_kinds(desk: &mut Desk, alloc: Global, students: u32) -> Result<(), AllocError> {
    file_schools(desk, alloc)?;
    for kind in KINDS {
        let mut sequence = Sequence::new();
        for student in 1..=students {
            file_kind(desk, kind, student, sequence.draws())?;
        }
    }
    Ok(())
}

// Files the specimen book, and four schools with two terms each.
fn file_schools(desk: &mut Desk, alloc: Global) -> Result<(), AllocError> {
    let book = BoxedBook::new(Box::new(alloc, specimen_book())?);
    desk.file(0, 1, What::Book(book))?;
    for code in 101..=104 {
        desk.file(0, u64::from(code) - 99, school(code))?;
    }
    for school in 101..=104 {
        let year = FIRST_YEAR;
        let autumn = Place {
            school,
            year,
            term: 1,
        };
        let spring = Place {
            school,
            year,
            term: 2,
        };
        desk.file(school, 1, calendar(autumn, FIRST_DAY, 20_434))?;
        desk.file(school, 2, calendar(spring, 20_465, 20_574))?;
    }
    Ok(())
}

// Files what a student files of a kind, if anything.
fn file_kind(desk: &mut Desk, kind: Kind, student: u32, draws: Draws) -> Result<(), AllocError>
    requires { 1 ≤ student }
{
    let number = 10 * u64::from(student);
    let student = Student(u64::from(student));
    let place = draws.place;
    let school = place.school;
    match kind {
        Kind::Application => {
            desk.file(school, number, application(student, place.year, draws.agi))
        }
        Kind::Enrollment => desk.file(
            school,
            number + 1,
            enrollment(student, place, draws.credits),
        ),
        Kind::Origination => desk.file(school, number + 2, origination(student, place.year)),
        Kind::Payment => match desk.quote(student, place) {
            Some(cents) => desk.file(school, number + 3, payment(student, place, cents)),
            None => Ok(()),
        },
        Kind::Withdrawal => match draws.withdrawn {
            Some(days) => desk.file(school, number + 4, withdrawal(student, place, days)),
            None => Ok(()),
        },
    }
}
