//! What is filed.
ghost use Rattle.std.specs.Prelude.{◌<◌, ◌≤◌};
ghost use Rattle.aid_types.specs.Ranges.{IsBetween};

use aid_filings::{
    Amount, CalendarFacts, EnrollFacts, OriginateFacts, PriorFacts, SchoolFacts, What,
    WithdrawFacts,
};
use aid_types::{Application, Breaks, ByProgram, Day, Program, Region, Side, Student, Year};

/// The first award year.
pub const FIRST_YEAR: u16 = 2025;

/// The first day of the first term of the generated year, 2025-08-25.
pub const FIRST_DAY: u16 = 20_325;

/// A term of a school: the school's code, the award year, and the number of the term in it.
#[derive(Clone, Copy)]
pub struct Place {
    pub school: u32,
    pub year: u16,
    pub term: u8,
    pub ghost school_in_range: { IsBetween 101 104 school },
    pub ghost year_in_range: { IsBetween 2025 2028 year },
    pub ghost term_in_range: { IsBetween 1 8 term },
}

/// A school of two main terms in a year with 12 full-time credits.
pub fn school(code: u32) -> What
    requires { IsBetween 1 999999 code }
{
    What::School(SchoolFacts {
        code,
        terms: 2,
        full: 12,
    })
}

/// A term from its first to its last day: the first two of a year are main terms.
pub fn calendar(place: Place, first: u16, last: u16) -> What {
    What::Calendar(CalendarFacts {
        year: Year(place.year),
        term: place.term,
        extra: place.term > 2,
        first: Day(i32::from(first)),
        last: Day(i32::from(last)),
        breaks: Breaks::new(),
    })
}

/// One percent of the lifetime limit, used before.
pub fn prior(student: Student) -> What {
    What::Prior(PriorFacts {
        student,
        units: 1000,
    })
}

/// The application of a dependent student of a family of four, whose parents earned all of their income and paid a tenth
/// of it in tax.
pub fn application(student: Student, year: u16, agi: u32) -> What
    requires year { IsBetween 2025 2028 year }
    requires agi { agi < 120000 }
{
    let mut parents = Side::EMPTY;
    parents.agi = agi as i32;
    parents.tax = (agi / 10) as i32;
    parents.earned_first = agi as i32;
    What::Apply(Application {
        student,
        year: Year(year),
        transaction: 1,
        birth_year: year - 19,
        region: Region::Contiguous,
        family: 4,
        married: false,
        graduate: false,
        bachelor: false,
        veteran: false,
        dependents: false,
        orphan: false,
        ward: false,
        foster: false,
        emancipated: false,
        homeless: false,
        student_file: true,
        own: Side::EMPTY,
        parents_married: true,
        parents_file: true,
        parent_age: 48,
        parents,
    })
}

/// Credits in a term.
pub fn enrollment(student: Student, place: Place, credits: u8) -> What {
    What::Enroll(EnrollFacts {
        student,
        year: Year(place.year),
        term: place.term,
        credits,
    })
}

/// A cost of attendance of 24,000 dollars.
pub fn origination(student: Student, year: u16) -> What
    requires { IsBetween 2025 2028 year }
{
    What::Originate(OriginateFacts {
        student,
        year: Year(year),
        cost: 24_000,
    })
}

/// A Pell payment.
pub fn payment(student: Student, place: Place, cents: u64) -> What
    requires { cents ≤ 99999999 }
{
    What::Pay(pell(student, place, cents))
}

/// A downward adjustment of Pell.
pub fn adjustment(student: Student, place: Place, cents: u64) -> What
    requires { cents ≤ 99999999 }
{
    What::Adjust(pell(student, place, cents))
}

// Cents of Pell in a term.
fn pell(student: Student, place: Place, cents: u64) -> Amount
    requires { cents ≤ 99999999 }
{
    Amount {
        student,
        year: Year(place.year),
        term: place.term,
        program: Program::Pell,
        cents,
    }
}

/// A withdrawal so many days after the first of the generated year, determined a week later, with charges of 2,000.00.
pub fn withdrawal(student: Student, place: Place, days: u8) -> What {
    let last = i32::from(FIRST_DAY) + i32::from(days);
    What::Withdraw(WithdrawFacts {
        student,
        year: Year(place.year),
        term: place.term,
        last: Day(last),
        determined: Day(last + 7),
        charges: 200_000,
        could: ByProgram::EMPTY,
    })
}
