// The rows of one student.
ghost use Rattle.std.specs.Prelude.{◌≡◌, ◌+◌, ◌-◌, ◌*◌, ◌/◌, ◌≤◌, ◌<◌, [], ◌∷◌, ◌++◌, drop, pos, IfSome, MatchOption};
ghost use Rattle.aid_types.specs.Ranges.{IsBetween};
ghost use Rattle.format_bytes.specs.Numbers.{application_numbers, side_numbers};
ghost use Rattle.run_generate.specs.Rows.{apply_row, enroll_row, last_day as last_day_of, originate_row, pay_row, says, school_of, student_rows, withdraw_row, withdraw_rows, zeros};

use crate::draws::Draws;
use crate::terms::{autumn, days_later};
use crate::{QuotePayment, YearOperation};
use aid_filings::{EnrollFacts, Filing, OriginateFacts, What, WithdrawFacts};
use aid_types::{Application, ByProgram, Day, Key, Region, School, Side, Year};

/// A student whose rows are being taken: the number, the draws, and how many rows were taken.
#[derive(Clone, Copy)]
pub struct DrawnStudent {
    pub number: u16,
    pub draws: Draws,
    pub taken: u8,
    pub ghost some: { 1 ≤ number },
}

// The number of a student.
fn number(student: &DrawnStudent) -> u64
    ensures value { result ≡ student.now.number }
    ensures in_range { IsBetween 1 65535 result }
{
    u64::from(student.number)
}

// The school of a student.
fn school(draws: &Draws) -> School
    ensures { result ≡ school_of draws.now }
{
    School(101 + draws.school % 4)
}

// The key of a student's row: ten numbers of the school are a student's.
fn key(student: &DrawnStudent, row: u8) -> Key
    requires { row < 10 }
    ensures school { result.school ≡ school_of student.now.draws }
    ensures number { result.number ≡ 10 * student.now.number + row }
{
    Key {
        school: school(&student.draws),
        number: 10 * number(student) + u64::from(row),
    }
}

// The student as the office knows it.
fn named(student: &DrawnStudent) -> aid_types::Student
    ensures { result ≡ student.now.number }
{
    aid_types::Student(number(student))
}

// The amounts of a household that earned its income and paid a tenth of it as tax.
fn household(income: u32) -> Side
    requires { income < 120000 }
    ensures { side_numbers result ≡ pos income ∷ (zeros 8 ++ (pos (income / 10) ∷ pos income ∷ zeros 5)) }
{
    Side {
        agi: income as i32,
        ira: 0,
        interest: 0,
        ira_untaxed: 0,
        pension: 0,
        foreign: 0,
        grants: 0,
        credits: 0,
        work_study: 0,
        tax: (income / 10) as i32,
        earned_first: income as i32,
        earned_second: 0,
        support: 0,
        cash: 0,
        investments: 0,
        business: 0,
    }
}

// What a student who depends on parents applies with, by the households' amounts.
fn application_of(year: Year, student: &DrawnStudent, own: Side, parents: Side) -> Application
    ensures { application_numbers result ≡ pos student.now.number ∷ pos year ∷ pos 1 ∷ pos (year - 19) ∷ pos 0 ∷ pos 4
        ∷ (zeros 10 ++ (pos 1 ∷ (side_numbers own ++ (pos 1 ∷ pos 1 ∷ pos 48 ∷ side_numbers parents)))) }
{
    Application {
        student: named(student),
        year,
        transaction: 1,
        birth_year: year.number() - 19,
        region: Region::Contiguous,
        family: 4,
        married: false,
        graduate: false,
        bachelor: false,
        veteran: false,
        dependents: false,
        orphan: false,
        ward: false,
        foster: false,
        emancipated: false,
        homeless: false,
        student_file: true,
        own,
        parents_married: true,
        parents_file: true,
        parent_age: 48,
        parents,
    }
}

// The application of a student.
#[tactic(auto, unfolding(format_bytes::specs::Numbers::facts_of, crate::specs::Rows::says))]
pub fn application(year: Year, student: &DrawnStudent) -> YearOperation
    ensures { says result ≡ apply_row year student.now.number student.now.draws }
{
    let own = household(0);
    let parents = household(student.draws.income % 120_000);
    YearOperation::File(Filing {
        key: key(student, 0),
        what: What::Apply(application_of(year, student, own, parents)),
    })
}

// The credits of a student in term 1.
#[tactic(auto, unfolding(format_bytes::specs::Numbers::facts_of, crate::specs::Rows::says))]
fn enrollment(year: Year, student: &DrawnStudent) -> YearOperation
    ensures { says result ≡ enroll_row year student.now.number student.now.draws }
{
    YearOperation::File(Filing {
        key: key(student, 1),
        what: What::Enroll(EnrollFacts {
            student: named(student),
            year,
            term: 1,
            credits: 3 + (student.draws.credits % 10) as u8,
        }),
    })
}

// The cost of attendance of a student.
#[tactic(auto, unfolding(format_bytes::specs::Numbers::facts_of, crate::specs::Rows::says))]
fn origination(year: Year, student: &DrawnStudent) -> YearOperation
    ensures { says result ≡ originate_row year student.now.number student.now.draws }
{
    YearOperation::File(Filing {
        key: key(student, 2),
        what: What::Originate(OriginateFacts {
            student: named(student),
            year,
            cost: 24_000,
        }),
    })
}

// The payment of a student in term 1.
#[tactic(auto, unfolding(crate::specs::Rows::says))]
fn payment(year: Year, student: &DrawnStudent) -> YearOperation
    ensures { says result ≡ pay_row year student.now.number student.now.draws }
{
    YearOperation::PayQuote(QuotePayment {
        key: key(student, 3),
        student: named(student),
        year,
        term: 1,
    })
}

// The withdrawal of a student from term 1.
#[tactic(auto, unfolding(format_bytes::specs::Numbers::facts_of, crate::specs::Rows::says))]
fn withdrawal(year: Year, student: &DrawnStudent) -> YearOperation
    ensures { says result ≡ withdraw_row year student.now.number student.now.draws }
{
    let last = last_day(year, &student.draws);
    YearOperation::File(Filing {
        key: key(student, 4),
        what: What::Withdraw(WithdrawFacts {
            student: named(student),
            year,
            term: 1,
            last,
            determined: days_later(last, 7),
            charges: 200_000,
            could: ByProgram::new([0; 6]),
        }),
    })
}

// The last day of attendance of a student who withdraws.
#[tactic(auto, using(crate::proofs::Founding::autumn_early))]
fn last_day(year: Year, draws: &Draws) -> Day
    ensures value { result ≡ last_day_of year draws.now }
    ensures early { result + 7 ≤ 2958463 }
{
    days_later(autumn(year), (draws.leave / 16 % 100) as u8)
}

// The row of the withdrawal of a student, where there is one.
fn leaving(year: Year, student: &DrawnStudent) -> Option<YearOperation>
    ensures { MatchOption result (withdraw_rows year student.now.number student.now.draws ≡ []) (λ operation. withdraw_rows year student.now.number student.now.draws ≡ says operation ∷ []) }
{
    if student.draws.leave % 16 == 0 {
        Some(withdrawal(year, student))
    } else {
        None
    }
}

/// The next row of a student; `None` behind the last.
#[tactic(auto, using(crate::proofs::Founding::none_behind))]
pub fn student_row(year: Year, student: &DrawnStudent) -> Option<YearOperation>
    ensures row { MatchOption result (drop student.now.taken (student_rows year student.now.number student.now.draws) ≡ [])
        (λ operation. drop student.now.taken (student_rows year student.now.number student.now.draws)
        ≡ says operation ∷ drop (student.now.taken + 1) (student_rows year student.now.number student.now.draws)) }
    ensures few { IfSome result (λ operation. student.now.taken < 5) }
{
    match student.taken {
        0 => Some(application(year, student)),
        1 => Some(enrollment(year, student)),
        2 => Some(origination(year, student)),
        3 => Some(payment(year, student)),
        4 => match leaving(year, student) {
            Some(operation) => Some(operation),
            None => None,
        },
        _ => None,
    }
}
