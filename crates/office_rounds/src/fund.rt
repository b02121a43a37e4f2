//! What of a fund is left to award.
ghost use Rattle.std.specs.Prelude.{◌≡◌, ◌+◌, ◌-◌, ◌/◌, ◌<◌, ◌≤◌, ℕ, IfOk, length, reverse};
ghost use Rattle.std.specs.List.{Contains};
ghost use Rattle.std.specs.List.Sorted.{IsStrictlySortedBy};
ghost use Rattle.std.specs.Ordering.{nat_cmp};
ghost use Rattle.office_history.specs.Net.{is_cell, net_at, paid};
ghost use Rattle.office_rounds.specs.Candidates.{fund_cell};
ghost use Rattle.office_rounds.specs.Fund.{granted as granted_on, granted_to as granted_to_in, rest_of_fund as rest_of_fund_on};

use crate::request::RoundRequest;
use aid_filings::{Filing, What};
use aid_types::{Program, Student};
use office_index::Office;
use std::alloc::{AllocError, Global};

/// What of the fund is left to award, in whole dollars. An `Err` is want of memory.
pub(crate) fn rest_of_fund(
    alloc: Global,
    office: &Office,
    request: &RoundRequest,
) -> Result<u32, AllocError>
    ensures { IfOk result (λ rest. rest ≡ rest_of_fund_on office.now.history request.now) }
{
    let cents = granted(alloc, office, request)?;
    Ok(rest(request.amount, cents))
}

// Whole dollars less cents, rounded up, and not below 0.
fn rest(amount: u32, cents: u64) -> u32
    requires { cents ≤ 100000000000000 }
    ensures { result ≡ amount - (cents + 99) / 100 }
{
    u64::from(amount).saturating_sub((cents + 99) / 100) as u32
}

// The cents that students have of the fund. An `Err` is want of memory.
fn granted(alloc: Global, office: &Office, request: &RoundRequest) -> Result<u64, AllocError>
    ensures value { IfOk result (λ cents. cents ≡ granted_on office.now.history request.now) }
    ensures at_most { IfOk result (λ cents. cents ≤ 100000000000000) }
{
    // The front tells that the history is legal.
    let _filings = office.front();
    let students = students_granted(alloc, office.filings(), request)?;
    let mut cents = 0;
    for &student in students.as_slice() {
        cents += granted_in_term(office, request, student);
    }
    Ok(cents)
}

/// The cents that a student has of the fund.
pub(crate) fn granted_in_term(office: &Office, request: &RoundRequest, student: Student) -> u64
    ensures value { result ≡ net_at office.now.history (fund_cell request.now student) }
    ensures at_most { result ≤ 99999999 }
{
    office.net(
        student,
        request.school,
        request.year,
        request.term,
        Program::Fseog,
    )
}

// The students whom the fund paid, by number and each once. An `Err` is want of memory.
fn students_granted(
    alloc: Global,
    filings: &[Filing],
    request: &RoundRequest,
) -> Result<Vec<Student>, AllocError>
    ensures order { IfOk result (λ students. IsStrictlySortedBy nat_cmp students.items) }
    ensures each { IfOk result (λ students. (student : ℕ) → 0 < paid (reverse filings.now) (is_cell (fund_cell request.now student)) → Contains students.items student) }
    ensures few { IfOk result (λ students. length students.items ≤ length filings.now) }
{
    let mut students = Vec::new(alloc);
    for filing in filings {
        if let Some(student) = granted_to(filing, request) {
            students.push(student)?;
        }
    }
    sort_students(&mut students);
    Ok(students)
}

// The student of a payment from the fund.
fn granted_to(filing: &Filing, request: &RoundRequest) -> Option<Student>
    ensures { result ≡ granted_to_in request.now filing.now.key filing.now.what }
{
    match &filing.what {
        What::Pay(amount)
            if filing.key.school == request.school
                && amount.year == request.year
                && amount.term == request.term
                && amount.program == Program::Fseog => { Some(amount.student) }
        _ => None,
    }
}

// Sorts students by number, and drops those that come again.
fn sort_students(students: &mut Vec<Student>)
    ensures order { IsStrictlySortedBy nat_cmp students.new.items }
    ensures kept { (student : ℕ) → Contains students.old.items student → Contains students.new.items student }
    ensures few { length students.new.items ≤ length students.old.items }
{
    students.sort_unstable_by_key(|student| student.0);
    students.dedup();
}
