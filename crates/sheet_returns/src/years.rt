//! What came of the returns of a year.
ghost use Rattle.std.specs.Prelude.{◌≡◌, ◌≤◌, ◌++◌, IfOk, OnOk, length, reverse};
ghost use Rattle.sheet_returns.specs.Returns.{return_row, return_rows as return_rows_on, return_rows_at, return_rows_for, return_rows_in, returns_sheet};

use crate::rows::{ReturnOfYear, Withdrawn};
use crate::sendings::{last_sent, sendings, sent_late};
use crate::withdrawals::withdrawals;
use aid_filings::{Filing, SentFacts, What, WithdrawFacts};
use aid_types::{Key, Program, School, Year};
use law_terms::due as due_day;
use office_history::Account;
use office_index::Office;
use office_sheets::headed_text;
use std::alloc::{AllocError, Global};

/// The returns of a school's year, program by program, as comma-separated values below a heading: the student's term and the
/// program, the days on which the withdrawal was determined and its return is due (34 CFR 668.22(j)(1)), what the school returns,
/// what it has sent back, the last day on which it sent something, what it sent after the return was due, what is open, what the
/// student owes and has repaid, and the position and the number of the withdrawal. The lines come by position, and those of one
/// withdrawal in the order of returns. `none` where there is no line. One pass over the filings, and for each line one over
/// what the school sent back in the year. An `Err` is want of memory.
pub fn returns(
    alloc: Global,
    office: &Office,
    school: School,
    year: Year,
) -> Result<Vec<u8>, AllocError>
    ensures { IfOk result (λ text. text.items ≡ returns_sheet school year office.now.history) }
{
    let rows = return_rows(alloc, office, school, year)?;
    let heading =
        b"student,term,program,determined,due,returned,sent,last_sent,sent_late,open,owed,repaid,position,number\n";
    headed_text(alloc, heading, rows.as_slice())
}

// The lines.
fn return_rows(
    alloc: Global,
    office: &Office,
    school: School,
    year: Year,
) -> Result<Vec<ReturnOfYear>, AllocError>
    ensures { IfOk result (λ rows. rows.items ≡ return_rows_on school year office.now.history) }
{
    // The front tells that the filings are few.
    let _front = office.front();
    let withdrawals = withdrawals(alloc, office, school)?;
    let sent = sendings(alloc, office.filings(), school, year)?;
    let mut rows = Vec::new(alloc);
    for at in withdrawals.as_slice() {
        put_return_at(office, year, sent.as_slice(), at, &mut rows)?;
    }
    Ok(rows)
}

// Appends what came of a withdrawal in the year.
fn put_return_at(
    office: &Office,
    year: Year,
    sent: &[SentFacts],
    at: &Withdrawn,
    rows: &mut Vec<ReturnOfYear>,
) -> Result<(), AllocError>
    requires { length sent.now ≤ 1000000 }
    ensures { OnOk result (rows.new.items ≡ rows.old.items ++ return_rows_at year (reverse sent.now) office.now.history at.now) }
{
    match office.filing(at.position) {
        Some(filing) => put_return_of(office, year, sent, at.position, filing, rows),
        None => Ok(()),
    }
}

// Appends what came of a withdrawal in the year, and nothing of another filing.
fn put_return_of(
    office: &Office,
    year: Year,
    sent: &[SentFacts],
    position: u32,
    filing: &Filing,
    rows: &mut Vec<ReturnOfYear>,
) -> Result<(), AllocError>
    requires { length sent.now ≤ 1000000 }
    ensures { OnOk result (rows.new.items ≡ rows.old.items
        ++ return_rows_in year (reverse sent.now) office.now.history position filing.now.key filing.now.what) }
{
    let What::Withdraw(withdrawal) = &filing.what else {
        return Ok(());
    };
    if withdrawal.year != year {
        return Ok(());
    }
    let WithdrawFacts { student, term, .. } = *withdrawal;
    let account = office
        .place(filing.key.school, student, withdrawal.year, term)
        .account;
    put_programs(sent, position, &filing.key, withdrawal, &account, rows)
}

// Appends what came of each program of a withdrawal, in the order of returns.
fn put_programs(
    sent: &[SentFacts],
    position: u32,
    key: &Key,
    withdrawal: &WithdrawFacts,
    account: &Account,
    rows: &mut Vec<ReturnOfYear>,
) -> Result<(), AllocError>
    requires { length sent.now ≤ 1000000 }
    ensures { OnOk result (rows.new.items ≡ rows.old.items
        ++ return_rows_for (reverse sent.now) position key.now withdrawal.now account.now) }
{
    put_return(
        sent,
        position,
        key,
        withdrawal,
        account,
        Program::Unsub,
        rows,
    )?;
    put_return(sent, position, key, withdrawal, account, Program::Sub, rows)?;
    put_return(
        sent,
        position,
        key,
        withdrawal,
        account,
        Program::Plus,
        rows,
    )?;
    put_return(
        sent,
        position,
        key,
        withdrawal,
        account,
        Program::Pell,
        rows,
    )?;
    put_return(
        sent,
        position,
        key,
        withdrawal,
        account,
        Program::Fseog,
        rows,
    )?;
    put_return(
        sent,
        position,
        key,
        withdrawal,
        account,
        Program::Teach,
        rows,
    )
}

// Appends what came of a program of a withdrawal, where the school returns something of it.
fn put_return(
    sent: &[SentFacts],
    position: u32,
    key: &Key,
    withdrawal: &WithdrawFacts,
    account: &Account,
    program: Program,
    rows: &mut Vec<ReturnOfYear>,
) -> Result<(), AllocError>
    requires { length sent.now ≤ 1000000 }
    ensures { OnOk result (rows.new.items ≡ rows.old.items
        ++ return_row (reverse sent.now) position key.now withdrawal.now account.now program) }
{
    let returned = account.returned.at(program);
    if returned > 0 {
        rows.push(ReturnOfYear {
            student: withdrawal.student,
            term: withdrawal.term,
            program,
            determined: withdrawal.determined,
            due: due_day(withdrawal.determined),
            returned,
            sent: account.sent.at(program),
            last_sent: last_sent(withdrawal, program, sent),
            sent_late: sent_late(withdrawal, program, sent),
            owed: account.owed.at(program),
            repaid: account.repaid.at(program),
            position,
            number: key.number,
        })?;
    }
    Ok(())
}
