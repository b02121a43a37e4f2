//! The reports.
ghost use Rattle.std.specs.Prelude.{◌≡◌, IfOk};
ghost use Rattle.office_reports.specs.Reports.{award_report, lifetime_report, return_report, stamp_report, standing_report};

use crate::lines::put_stamp;
use crate::listed::{award_rows, lifetime_rows, return_rows, standing_rows};
use crate::table::{put_count, table_of};
use aid_stamps::Stamp;
use aid_types::Year;
use office_index::Office;
use std::alloc::{AllocError, Global};

/// Where each student with an application in the year stands, by student number: the student, the formula, the final Student
/// Aid Index, the way to the award, the Scheduled Award in dollars (HEA 401(b), 475 to 477), the year's net Pell and the
/// lifetime units used. One pass over the filings and one look-up for each line. An `Err` is want of memory.
pub fn standings(alloc: Global, office: &Office, year: Year) -> Result<Vec<u8>, AllocError>
    ensures { IfOk result (λ text. text.items ≡ standing_report office.now.history year) }
{
    let rows = standing_rows(alloc, office, year)?;
    table_of(alloc, rows.as_slice())
}

/// What each student has of each program in each term of the year, by school, student, term and program in the order of
/// returns: the net, where it is above 0. One pass over the filings and six look-ups for each term in which a student was
/// paid. An `Err` is want of memory.
pub fn awards(alloc: Global, office: &Office, year: Year) -> Result<Vec<u8>, AllocError>
    ensures { IfOk result (λ text. text.items ≡ award_report office.now.history year) }
{
    let rows = award_rows(alloc, office, year)?;
    table_of(alloc, rows.as_slice())
}

/// The withdrawals in the year, by position: the school, the student, the term, the percent earned, what the school
/// returns, what the student owes, the post-withdrawal disbursement (34 CFR 668.22), and the day on which the school's
/// return is due, 45 days after its determination (34 CFR 668.22(j)(1)), or `none`. One pass over the filings and one
/// look-up for each line. An `Err` is want of memory.
pub fn returns(alloc: Global, office: &Office, year: Year) -> Result<Vec<u8>, AllocError>
    ensures { IfOk result (λ text. text.items ≡ return_report office.now.history year) }
{
    let rows = return_rows(alloc, office, year)?;
    table_of(alloc, rows.as_slice())
}

/// The lifetime units of each student with a prior use or a Pell payment, by student number: those before this office, and
/// all that were used (HEA 401(d)(5)), in thousandths of a percent of a year's award. Two passes over the filings and one
/// look-up for each line. An `Err` is want of memory.
pub fn lifetimes(alloc: Global, office: &Office) -> Result<Vec<u8>, AllocError>
    ensures { IfOk result (λ text. text.items ≡ lifetime_report office.now.history) }
{
    let rows = lifetime_rows(alloc, office)?;
    table_of(alloc, rows.as_slice())
}

/// The stamps of all filings, the oldest first: the position, which counts from 1, the day and the clerk's name. An `Err` is
/// want of memory.
pub fn stamp_lines(alloc: Global, stamps: &[Stamp]) -> Result<Vec<u8>, AllocError>
    ensures { IfOk result (λ text. text.items ≡ stamp_report stamps.now) }
{
    let mut out = Vec::new(alloc);
    for (index, stamp) in stamps.iter().enumerate() {
        put_stamp(index + 1, stamp, &mut out)?;
    }
    put_count(stamps.len(), &mut out)?;
    Ok(out)
}
