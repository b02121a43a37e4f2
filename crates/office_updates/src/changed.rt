//! The names of the rows that a filing may change.
ghost use Rattle.std.specs.Prelude.{◌≡◌};
ghost use Rattle.office_updates.specs.Changed.{place_changed as place_changed_by, school_year_changed as school_year_changed_by, student_changed as student_changed_by, year_changed as year_changed_by};

use aid_filings::{Filing, What};
use aid_types::{School, Student, Year};
use office_history::{StudentPlace, StudentSchoolYear, StudentYear};

/// The student's term at a school of which a filing may change the row.
pub fn place_changed(filing: &Filing) -> Option<StudentPlace>
    ensures { result ≡ place_changed_by filing.now.key.school filing.now.what }
{
    let school = filing.key.school;
    match &filing.what {
        What::Enroll(e) => Some(place_name(school, e.student, e.year, e.term)),
        What::Pay(a) | What::Repay(a) | What::Adjust(a) => {
            Some(place_name(school, a.student, a.year, a.term))
        }
        What::Withdraw(w) => Some(place_name(school, w.student, w.year, w.term)),
        What::Sent(s) => Some(place_name(school, s.student, s.year, s.term)),
        _ => None,
    }
}

/// The student's year of which a filing may change the row.
pub fn year_changed(filing: &Filing) -> Option<StudentYear>
    ensures { result ≡ year_changed_by filing.now.what }
{
    match &filing.what {
        What::Apply(a) => Some(year_name(a.student, a.year)),
        What::Pay(a) | What::Repay(a) | What::Adjust(a) => Some(year_name(a.student, a.year)),
        What::Withdraw(w) => Some(year_name(w.student, w.year)),
        _ => None,
    }
}

/// The student's year at a school of which a filing may change the row.
pub fn school_year_changed(filing: &Filing) -> Option<StudentSchoolYear>
    ensures { result ≡ school_year_changed_by filing.now.key.school filing.now.what }
{
    let school = filing.key.school;
    match &filing.what {
        What::Originate(o) | What::Cost(o) => { Some(school_year_name(school, o.student, o.year)) }
        What::Pay(a) | What::Repay(a) | What::Adjust(a) => {
            Some(school_year_name(school, a.student, a.year))
        }
        What::Withdraw(w) => Some(school_year_name(school, w.student, w.year)),
        _ => None,
    }
}

/// The student of whom a filing may change the row.
pub fn student_changed(filing: &Filing) -> Option<u64>
    ensures { result ≡ student_changed_by filing.now.what }
{
    match &filing.what {
        What::Prior(prior) => Some(student_name(prior.student)),
        What::Apply(a) => Some(student_name(a.student)),
        What::Enroll(e) => Some(student_name(e.student)),
        What::Pay(a) | What::Repay(a) | What::Adjust(a) => Some(student_name(a.student)),
        What::Withdraw(w) => Some(student_name(w.student)),
        _ => None,
    }
}

/// The name of a student's term at a school.
pub(crate) fn place_name(school: School, student: Student, year: Year, term: u8) -> StudentPlace
    ensures { result ≡ record { student = student; school = school; year = year; term = term } }
{
    StudentPlace {
        student: student.0,
        school: school.0,
        year: year.0,
        term,
    }
}

/// The name of a student's year.
pub(crate) fn year_name(student: Student, year: Year) -> StudentYear
    ensures { result ≡ record { student = student; year = year } }
{
    StudentYear {
        student: student.0,
        year: year.0,
    }
}

/// The name of a student's year at a school.
pub(crate) fn school_year_name(school: School, student: Student, year: Year) -> StudentSchoolYear
    ensures { result ≡ record { student = student; school = school; year = year } }
{
    StudentSchoolYear {
        student: student.0,
        school: school.0,
        year: year.0,
    }
}

/// The name of a student.
pub(crate) fn student_name(student: Student) -> u64
    ensures { result ≡ student }
{
    student.0
}
