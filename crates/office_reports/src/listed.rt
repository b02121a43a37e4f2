//! The lines that reports have.
ghost use Rattle.std.specs.Prelude.{◌≡◌, ◌+◌, ◌<◌, ◌≤◌, ◌++◌, List, IfOk, OnOk, length, reverse, take};
ghost use Rattle.aid_filings.specs.declared.filing.Filing.{Filing as AnyFiling};
ghost use Rattle.office_history.specs.Answer.{outcome_of};
ghost use Rattle.office_history.specs.Net.{used};
ghost use Rattle.office_reports.specs.Rows.{award_rows as award_rows_on, lifetime_rows as lifetime_rows_on, net_of, net_row, nets_at, return_rows as return_rows_on, returns_in, standing_rows as standing_rows_on};

use crate::gathered::{applicants, lifetime_users, paid_places};
use crate::priors::{prior_of, priors};
use crate::rows::{LifetimeOf, NetOf, PaidPlace, ReturnOf, StandingOf};
use aid_filings::{Filing, Outcome, What};
use aid_types::{Program, Student, Year};
use law_terms::due;
use office_index::Office;
use std::alloc::{AllocError, Global};

/// Where each student with an application in the year stands, by number. An `Err` is want of memory.
pub(crate) fn standing_rows(
    alloc: Global,
    office: &Office,
    year: Year,
) -> Result<Vec<StandingOf>, AllocError>
    ensures { IfOk result (λ rows. rows.items ≡ standing_rows_on office.now.history year) }
{
    let students = applicants(alloc, office.filings(), year)?;
    let mut rows = Vec::new(alloc);
    for &student in students.as_slice() {
        let row = office.standing(student, year);
        rows.push(StandingOf { student, row })?;
    }
    Ok(rows)
}

/// The nets above 0 in the year, by school, student, term and program. An `Err` is want of memory.
pub(crate) fn award_rows(
    alloc: Global,
    office: &Office,
    year: Year,
) -> Result<Vec<NetOf>, AllocError>
    ensures { IfOk result (λ rows. rows.items ≡ award_rows_on office.now.history year) }
{
    let places = paid_places(alloc, office.filings(), year)?;
    let mut rows = Vec::new(alloc);
    for place in places.as_slice() {
        put_nets(office, year, place, &mut rows)?;
    }
    Ok(rows)
}

// Appends the nets above 0 in a term of the year.
fn put_nets(
    office: &Office,
    year: Year,
    place: &PaidPlace,
    rows: &mut Vec<NetOf>,
) -> Result<(), AllocError>
    ensures { OnOk result (rows.new.items ≡ rows.old.items ++ nets_at office.now.history year place.now) }
{
    put_net(office, year, place, Program::Unsub, rows)?;
    put_net(office, year, place, Program::Sub, rows)?;
    put_net(office, year, place, Program::Plus, rows)?;
    put_net(office, year, place, Program::Pell, rows)?;
    put_net(office, year, place, Program::Fseog, rows)?;
    put_net(office, year, place, Program::Teach, rows)
}

// Appends the net of a program in a term of the year, where it is above 0.
fn put_net(
    office: &Office,
    year: Year,
    place: &PaidPlace,
    program: Program,
    rows: &mut Vec<NetOf>,
) -> Result<(), AllocError>
    ensures { OnOk result (rows.new.items ≡ rows.old.items ++ net_row place.now program (net_of office.now.history year place.now program)) }
{
    let cents = office.net(place.student, place.school, year, place.term, program);
    if cents == 0 {
        return Ok(());
    }
    rows.push(NetOf {
        school: place.school,
        student: place.student,
        term: place.term,
        program,
        cents,
    })?;
    Ok(())
}

/// The withdrawals in the year, by position. An `Err` is want of memory.
pub(crate) fn return_rows(
    alloc: Global,
    office: &Office,
    year: Year,
) -> Result<Vec<ReturnOf>, AllocError>
    ensures { IfOk result (λ rows. rows.items ≡ return_rows_on office.now.history year) }
{
    let filings = office.filings();
    let mut rows = Vec::new(alloc);
    for index in 0..office.front() {
        put_return_at(office, year, filings, index, &mut rows)?;
    }
    Ok(rows)
}

// Adds the line of the filing at an index to those of the filings before it.
fn put_return_at(
    office: &Office,
    year: Year,
    filings: &[Filing],
    index: u32,
    rows: &mut Vec<ReturnOf>,
) -> Result<(), AllocError>
    requires all { reverse filings.now ≡ office.now.history }
    requires before { rows.old.items ≡ return_rows_on (reverse (take index filings.now)) year }
    requires inside { index < length filings.now }
    requires few { length filings.now ≤ 1000000 }
    ensures { OnOk result (rows.new.items ≡ return_rows_on (reverse (take (index + 1) filings.now)) year) }
{
    let Some(outcome) = office.outcome(index + 1) else {
        unreachable!();
    };
    put_return(year, &filings[index as usize], outcome, rows)
}

// Appends the line of a withdrawal in the year with the outcome of its admission, and none of another filing.
fn put_return(
    year: Year,
    filing: &Filing,
    outcome: Outcome,
    rows: &mut Vec<ReturnOf>,
) -> Result<(), AllocError>
    ensures { (past : List AnyFiling) → outcome ≡ outcome_of past filing.now
        → OnOk result (rows.new.items ≡ rows.old.items ++ returns_in past year filing.now filing.now.what) }
{
    let What::Withdraw(withdrawal) = &filing.what else {
        return Ok(());
    };
    if withdrawal.year != year {
        return Ok(());
    }
    if let Outcome::Returned {
        percent,
        school,
        owed,
        post,
    } = outcome
    {
        rows.push(ReturnOf {
            school: filing.key.school,
            student: withdrawal.student,
            term: withdrawal.term,
            percent,
            returned: school,
            owed,
            post,
            due: due(withdrawal.determined),
        })?;
    }
    Ok(())
}

/// The lifetime units of each student with a prior use or a Pell payment, by number. An `Err` is want of memory.
pub(crate) fn lifetime_rows(alloc: Global, office: &Office) -> Result<Vec<LifetimeOf>, AllocError>
    ensures { IfOk result (λ rows. rows.items ≡ lifetime_rows_on office.now.history) }
{
    let filings = office.filings();
    let students = lifetime_users(alloc, filings)?;
    let units = priors(alloc, filings)?;
    let mut rows = Vec::new(alloc);
    for &student in students.as_slice() {
        rows.push(LifetimeOf {
            student,
            prior: prior_of(&units, student),
            used: used_units(office, student),
        })?;
    }
    Ok(rows)
}

// The lifetime units that a student used, which every year's standing tells.
fn used_units(office: &Office, student: Student) -> u32
    ensures { result ≡ used office.now.history student }
{
    office.standing(student, Year(2000)).used
}
