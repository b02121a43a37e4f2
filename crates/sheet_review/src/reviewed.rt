//! What is on file of a student's award year.
ghost use Rattle.std.specs.Prelude.{◌≡◌, ◌≤◌, ◌++◌, [], IfOk, OnOk, codes, if◌then◌else◌, length, map, reverse};
ghost use Rattle.std.specs.List.{concat};
ghost use Rattle.office_export.specs.Lines.{standing_line};
ghost use Rattle.office_history.specs.Answer.{outcome_at, standing_of};
ghost use Rattle.office_sheets.specs.Ledgers.{student_sheet, withdrawn_place};
ghost use Rattle.office_sheets.specs.Lists.{list_line};
ghost use Rattle.sheet_need.specs.Need.{need_sheet};
ghost use Rattle.sheet_review.specs.BookSheet.{book_sheet};
ghost use Rattle.sheet_review.specs.ReviewSheet.{application_lines, applies, heading, places_left, review_sheet, withdrawal_part, withdrawal_places};

use crate::on_file::book;
use crate::sections::put_text;
use aid_filings::{Filing, What, WithdrawFacts};
use aid_stamps::Stamp;
use aid_types::{Key, Student, Year};
use office_export::put_standing_line;
use office_index::Office;
use office_sheets::{put_list_line, student as ledger_of};
use sheet_need::need;
use sheet_r2t4::withdrawal;
use std::alloc::{AllocError, Global};

/// What a reviewer wants of a student's award year, each part under a heading: the applications with their outcomes, the year's book,
/// the worksheet of need, the ledger, the worksheet of each withdrawal, and where the student stands. A few passes over the filings.
/// An `Err` is want of memory.
pub fn review(
    alloc: Global,
    office: &Office,
    stamps: &[Stamp],
    student: Student,
    year: Year,
) -> Result<Vec<u8>, AllocError>
    // Each filing has its stamp.
    requires stamped { length stamps.now ≡ length office.now.history }
    ensures { IfOk result (λ text. text.items ≡ review_sheet office.now.history (reverse stamps.now) student year) }
{
    let mut out = Vec::new(alloc);
    put_applications(office, stamps, student, year, &mut out)?;
    put_year_book(alloc, office, stamps, year, &mut out)?;
    put_need(alloc, office, student, year, &mut out)?;
    put_ledger(alloc, office, stamps, student, &mut out)?;
    put_withdrawals(alloc, office, student, year, &mut out)?;
    put_standing(office, student, year, &mut out)?;
    Ok(out)
}

// Appends the line in front of a part.
#[tactic(auto, unfolding(crate::specs::ReviewSheet::heading))]
fn put_heading(title: &[u8], out: &mut Vec<u8>) -> Result<(), AllocError>
    ensures { OnOk result (out.new.items ≡ out.old.items ++ heading title.now) }
{
    put_text(b"== ", out)?;
    put_text(title, out)?;
    put_text(b"\n", out)
}

// Appends a part under its heading.
fn put_part(title: &[u8], part: &[u8], out: &mut Vec<u8>) -> Result<(), AllocError>
    ensures { OnOk result (out.new.items ≡ out.old.items ++ heading title.now ++ part.now) }
{
    put_heading(title, out)?;
    put_text(part, out)
}

// Appends the applications of the student in the year.
fn put_applications(
    office: &Office,
    stamps: &[Stamp],
    student: Student,
    year: Year,
    out: &mut Vec<u8>,
) -> Result<(), AllocError>
    requires stamped { length stamps.now ≡ length office.now.history }
    ensures { OnOk result (out.new.items
        ≡ out.old.items ++ heading (codes "Applications") ++ concat (application_lines student year office.now.history (reverse stamps.now))) }
{
    put_heading(b"Applications", out)?;
    put_application_lines(office, stamps, student, year, out)
}

// Appends their lines.
fn put_application_lines(
    office: &Office,
    stamps: &[Stamp],
    student: Student,
    year: Year,
    out: &mut Vec<u8>,
) -> Result<(), AllocError>
    requires stamped { length stamps.now ≡ length office.now.history }
    ensures { OnOk result (out.new.items ≡ out.old.items ++ concat (application_lines student year office.now.history (reverse stamps.now))) }
{
    let filings = office.filings();
    for index in 0..office.front() {
        let place = index as usize;
        let (stamp, filing) = (&stamps[place], &filings[place]);
        put_application(office, index + 1, stamp, filing, student, year, out)?;
    }
    Ok(())
}

// Appends the line of the filing at a position, where it is an application of the student in the year.
fn put_application(
    office: &Office,
    position: u32,
    stamp: &Stamp,
    filing: &Filing,
    student: Student,
    year: Year,
    out: &mut Vec<u8>,
) -> Result<(), AllocError>
    requires { (1 ≤ position) × (position ≤ length office.now.history) }
    ensures { OnOk result (out.new.items ≡ out.old.items
        ++ (if applies student year filing.now.what then list_line position stamp.now filing.now (outcome_at office.now.history position) else [])) }
{
    if !is_application(&filing.what, student, year) {
        return Ok(());
    }
    let Some(outcome) = office.outcome(position) else {
        unreachable!();
    };
    put_list_line(position as usize, stamp, filing, &outcome, out)
}

// Whether a filing is an application of the student in the year.
fn is_application(what: &What, student: Student, year: Year) -> bool
    ensures { result ≡ applies student year what.now }
{
    match what {
        What::Apply(application) => application.student == student && application.year == year,
        _ => false,
    }
}

// Appends the year's book.
fn put_year_book(
    alloc: Global,
    office: &Office,
    stamps: &[Stamp],
    year: Year,
    out: &mut Vec<u8>,
) -> Result<(), AllocError>
    ensures { OnOk result (out.new.items ≡ out.old.items ++ heading (codes "Year book") ++ book_sheet office.now.history stamps.now year) }
{
    let part = book(alloc, office, stamps, year)?;
    put_part(b"Year book", part.as_slice(), out)
}

// Appends how the index and the award came about.
fn put_need(
    alloc: Global,
    office: &Office,
    student: Student,
    year: Year,
    out: &mut Vec<u8>,
) -> Result<(), AllocError>
    ensures { OnOk result (out.new.items ≡ out.old.items ++ heading (codes "Need") ++ need_sheet office.now.history student year) }
{
    let part = need(alloc, office, student, year)?;
    put_part(b"Need", part.as_slice(), out)
}

// Appends the ledger of the student.
fn put_ledger(
    alloc: Global,
    office: &Office,
    stamps: &[Stamp],
    student: Student,
    out: &mut Vec<u8>,
) -> Result<(), AllocError>
    requires stamped { length stamps.now ≡ length office.now.history }
    ensures { OnOk result (out.new.items ≡ out.old.items ++ heading (codes "Ledger") ++ student_sheet student office.now.history (reverse stamps.now)) }
{
    let part = ledger_of(alloc, office, stamps, student)?;
    put_part(b"Ledger", part.as_slice(), out)
}

// Appends the worksheets of the student's withdrawals in the year.
fn put_withdrawals(
    alloc: Global,
    office: &Office,
    student: Student,
    year: Year,
    out: &mut Vec<u8>,
) -> Result<(), AllocError>
    ensures { OnOk result (out.new.items
        ≡ out.old.items ++ concat (map (withdrawal_part office.now.history) (withdrawal_places student year office.now.history))) }
{
    let filings = office.filings();
    for filing in filings {
        put_withdrawal(alloc, office, filing, student, year, out)?;
    }
    Ok(())
}

// Appends the worksheet of a filing, where it withdraws the student in the year.
fn put_withdrawal(
    alloc: Global,
    office: &Office,
    filing: &Filing,
    student: Student,
    year: Year,
    out: &mut Vec<u8>,
) -> Result<(), AllocError>
    ensures { OnOk result (out.new.items
        ≡ out.old.items ++ concat (map (withdrawal_part office.now.history) (places_left student year filing.now.key filing.now.what))) }
{
    match &filing.what {
        What::Withdraw(withdrawn) => {
            if withdrawn.student == student && withdrawn.year == year {
                put_worksheet(alloc, office, &filing.key, withdrawn, out)
            } else {
                Ok(())
            }
        }
        _ => Ok(()),
    }
}

// Appends the worksheet of a withdrawal.
fn put_worksheet(
    alloc: Global,
    office: &Office,
    key: &Key,
    of: &WithdrawFacts,
    out: &mut Vec<u8>,
) -> Result<(), AllocError>
    ensures { OnOk result (out.new.items ≡ out.old.items ++ withdrawal_part office.now.history (withdrawn_place key.now of.now)) }
{
    let part = withdrawal(alloc, office, key.school, of.student, of.year, of.term)?;
    put_part(b"Withdrawal", part.as_slice(), out)
}

// Appends where the student stands in the year.
fn put_standing(
    office: &Office,
    student: Student,
    year: Year,
    out: &mut Vec<u8>,
) -> Result<(), AllocError>
    ensures { OnOk result (out.new.items
        ≡ out.old.items ++ heading (codes "Standing") ++ standing_line student year (standing_of office.now.history student year)) }
{
    put_heading(b"Standing", out)?;
    put_standing_line(student, year, &office.standing(student, year), out)
}
