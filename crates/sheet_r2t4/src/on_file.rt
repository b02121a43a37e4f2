//! The worksheet of the withdrawal that is on file.
ghost use Rattle.std.specs.Prelude.{◌≡◌, ◌++◌, IfOk, OnOk, Some};
ghost use Rattle.std.specs.Option.{option_copied};
ghost use Rattle.office_history.specs.Rows.{filing_in};
ghost use Rattle.sheet_r2t4.specs.ReturnSheet.{return_sheet, sheet_at, sheet_of};

use crate::lines::put_text;
use crate::sheet::put_return;
use aid_filings::{Filing, What};
use aid_types::{School, Student, Year};
use office_index::Office;
use office_plain::PlainHistory;
use std::alloc::{AllocError, Global};

/// The worksheet of a student's withdrawal from a term of a school, line by line, with what came of it since. Amounts are
/// dollars and cents (34 CFR 668.22). `none` where no withdrawal from it is on file. A few passes over the filings before
/// the withdrawal. An `Err` is want of memory.
pub fn withdrawal(
    alloc: Global,
    office: &Office,
    school: School,
    student: Student,
    year: Year,
    term: u8,
) -> Result<Vec<u8>, AllocError>
    ensures { IfOk result (λ text. text.items ≡ return_sheet office.now.history school student year term) }
{
    let position = office.place(school, student, year, term).withdrawn_at;
    let mut out = Vec::new(alloc);
    put_found(office, position, office.filing(position), &mut out)?;
    Ok(out)
}

// Appends the worksheet of the filing at a position.
fn put_found(
    office: &Office,
    position: u32,
    filing: Option<&Filing>,
    out: &mut Vec<u8>,
) -> Result<(), AllocError>
    requires { option_copied filing ≡ filing_in office.now.history position }
    ensures { OnOk result (out.new.items ≡ out.old.items ++ sheet_at office.now.history position (option_copied filing.entry)) }
{
    match filing {
        Some(filing) => put_filing(office, position, filing, out),
        None => put_text(b"none\n", out),
    }
}

// Appends the worksheet of a filing that stands at a position.
fn put_filing(
    office: &Office,
    position: u32,
    filing: &Filing,
    out: &mut Vec<u8>,
) -> Result<(), AllocError>
    requires { filing_in office.now.history position ≡ Some filing.now }
    ensures { OnOk result (out.new.items ≡ out.old.items ++ sheet_of office.now.history position filing.now.key filing.now.what) }
{
    // The front tells that the history is legal.
    let _front = office.front();
    let filings = office.filings();
    match &filing.what {
        What::Withdraw(withdrawal) => {
            let before = PlainHistory::new(&filings[..position as usize - 1]);
            put_return(&before, office, position, &filing.key, withdrawal, out)
        }
        _ => put_text(b"none\n", out),
    }
}
