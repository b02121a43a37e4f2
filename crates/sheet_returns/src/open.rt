//! What a school still has to send back.
ghost use Rattle.std.specs.Prelude.{◌≡◌, ◌+◌, ◌-◌, ◌++◌, IfOk, OnOk};
ghost use Rattle.sheet_returns.specs.Due.{due_rows as due_rows_on, due_sheet, open_row, open_rows, open_rows_at, open_rows_in};

use crate::rows::{OpenReturn, Withdrawn};
use crate::withdrawals::by_due;
use aid_filings::{Filing, What, WithdrawFacts};
use aid_types::{Day, Key, Program, School};
use law_terms::due as due_day;
use office_history::Account;
use office_index::Office;
use office_sheets::headed_text;
use std::alloc::{AllocError, Global};

/// What a school has to send back of its returns and has not sent yet, of all years, as comma-separated values below a
/// heading: the day on which the return is due, 45 days after the school determined the withdrawal (34 CFR 668.22(j)(1)),
/// how many days the day that is asked about is behind it, the student's term and the program, what the school returns, what
/// it has sent back and what is open, and the position and the number of the withdrawal. The lines come by the day on which
/// they are due, those of one day by position, and those of one withdrawal in the order of returns: so the late ones come
/// first. `none` where nothing is open. One pass over the filings and a look-up for each withdrawal. An `Err` is want of
/// memory.
pub fn due(alloc: Global, office: &Office, day: Day, school: School) -> Result<Vec<u8>, AllocError>
    ensures { IfOk result (λ text. text.items ≡ due_sheet day school office.now.history) }
{
    let rows = due_rows(alloc, office, day, school)?;
    let heading = b"due,late,student,year,term,program,returned,sent,open,position,number\n";
    headed_text(alloc, heading, rows.as_slice())
}

// The lines.
fn due_rows(
    alloc: Global,
    office: &Office,
    day: Day,
    school: School,
) -> Result<Vec<OpenReturn>, AllocError>
    ensures { IfOk result (λ rows. rows.items ≡ due_rows_on day school office.now.history) }
{
    let withdrawals = by_due(alloc, office, school)?;
    let mut rows = Vec::new(alloc);
    for at in withdrawals.as_slice() {
        put_open_at(office, day, at, &mut rows)?;
    }
    Ok(rows)
}

// Appends what is open of a withdrawal.
fn put_open_at(
    office: &Office,
    day: Day,
    at: &Withdrawn,
    rows: &mut Vec<OpenReturn>,
) -> Result<(), AllocError>
    ensures { OnOk result (rows.new.items ≡ rows.old.items ++ open_rows_at day office.now.history at.now) }
{
    match office.filing(at.position) {
        Some(filing) => put_open_of(office, day, at.position, filing, rows),
        None => Ok(()),
    }
}

// Appends what is open of a withdrawal, and nothing of another filing.
fn put_open_of(
    office: &Office,
    day: Day,
    position: u32,
    filing: &Filing,
    rows: &mut Vec<OpenReturn>,
) -> Result<(), AllocError>
    ensures { OnOk result (rows.new.items ≡ rows.old.items ++ open_rows_in day office.now.history position filing.now.key filing.now.what) }
{
    let What::Withdraw(withdrawal) = &filing.what else {
        return Ok(());
    };
    let WithdrawFacts {
        student,
        year,
        term,
        ..
    } = *withdrawal;
    let account = office.place(filing.key.school, student, year, term).account;
    put_open_programs(day, position, &filing.key, withdrawal, &account, rows)
}

// Appends what is open of each program, in the order of returns.
fn put_open_programs(
    day: Day,
    position: u32,
    key: &Key,
    withdrawal: &WithdrawFacts,
    account: &Account,
    rows: &mut Vec<OpenReturn>,
) -> Result<(), AllocError>
    ensures { OnOk result (rows.new.items ≡ rows.old.items ++ open_rows day position key.now withdrawal.now account.now) }
{
    put_open(
        day,
        position,
        key,
        withdrawal,
        account,
        Program::Unsub,
        rows,
    )?;
    put_open(day, position, key, withdrawal, account, Program::Sub, rows)?;
    put_open(day, position, key, withdrawal, account, Program::Plus, rows)?;
    put_open(day, position, key, withdrawal, account, Program::Pell, rows)?;
    put_open(
        day,
        position,
        key,
        withdrawal,
        account,
        Program::Fseog,
        rows,
    )?;
    put_open(
        day,
        position,
        key,
        withdrawal,
        account,
        Program::Teach,
        rows,
    )
}

// Appends a program of a withdrawal, where something of it is open.
fn put_open(
    day: Day,
    position: u32,
    key: &Key,
    withdrawal: &WithdrawFacts,
    account: &Account,
    program: Program,
    rows: &mut Vec<OpenReturn>,
) -> Result<(), AllocError>
    ensures { OnOk result (rows.new.items ≡ rows.old.items ++ open_row day position key.now withdrawal.now account.now program) }
{
    let returned = account.returned.at(program);
    let sent = account.sent.at(program);
    if sent < returned {
        rows.push(OpenReturn {
            due: due_day(withdrawal.determined),
            late: late(withdrawal.determined, day),
            student: withdrawal.student,
            year: withdrawal.year,
            term: withdrawal.term,
            program,
            returned,
            sent,
            position,
            number: key.number,
        })?;
    }
    Ok(())
}

// How many days a day is behind the 45 days after another.
fn late(determined: Day, day: Day) -> u32
    ensures { result ≡ day - (determined + 45) }
{
    day.count().saturating_sub(determined.count() + 45)
}
