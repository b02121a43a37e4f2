//! The ledger of a student.
ghost use Rattle.std.specs.Prelude.{◌≡◌, ◌+◌, ◌≤◌, ◌∷◌, ◌++◌, [], Some, IfOk, OnOk, length, reverse, slice_index};
ghost use Rattle.aid_types.specs.Programs.{rank};
ghost use Rattle.aid_filings.specs.Students.{student_of};
ghost use Rattle.office_history.specs.Answer.{IsLegal};
ghost use Rattle.office_history.specs.Net.{used as used_of};
ghost use Rattle.office_sheets.specs.Ledgers.{amount_row, is_student, ledger_rows as ledger_rows_of, moved_row, return_row, return_rows, row_on, rows_about, rows_told, sent_back, student_sheet, withdrawn_place};
ghost use Rattle.office_sheets.specs.LedgerLines.{text_of};
ghost use Rattle.office_sheets.specs.Takings.{taken_by};
ghost use Rattle.office_sheets.specs.declared.ledger_rows.Told.TheVariants.{Enrollment, Sending, Withdrawal};

use crate::front::grow;
use crate::ledger_rows::{LedgerRow, Moved, Movement, SentBack, Told};
use crate::pieces::none_text;
use crate::term_sums::Sums;
use aid_filings::{Amount, EnrollFacts, Filing, Outcome, SentFacts, What, WithdrawFacts};
use aid_stamps::Stamp;
use aid_types::{ByProgram, Key, Program, Student, Year};
use office_history::Place;
use office_index::Office;
use office_reports::table_of;
use std::alloc::{AllocError, Global};

/// All filings about a student, the oldest first, each with its stamp, its key and what it brought; behind money that moved
/// the net of its program in the term and the lifetime units that the student used, both with it. A withdrawal has a line
/// more for each program of which the school returns something. One pass over the filings, which judges each of them again.
/// An `Err` is want of memory.
pub fn student(
    alloc: Global,
    office: &Office,
    stamps: &[Stamp],
    student: Student,
) -> Result<Vec<u8>, AllocError>
    requires { length stamps.now ≡ length office.now.history }
    ensures { IfOk result (λ text. text.items ≡ student_sheet student office.now.history (reverse stamps.now)) }
{
    let rows = ledger_rows(alloc, office, stamps, student)?;
    ledger_text(alloc, rows.as_slice())
}

// The lines and how many there are, or that there is none.
fn ledger_text(alloc: Global, rows: &[LedgerRow]) -> Result<Vec<u8>, AllocError>
    ensures { IfOk result (λ text. text.items ≡ text_of rows.now) }
{
    if rows.is_empty() {
        none_text(alloc)
    } else {
        table_of(alloc, rows)
    }
}

// The rows of all filings about a student. An office anew has the filings before the one that the pass is at.
fn ledger_rows(
    alloc: Global,
    office: &Office,
    stamps: &[Stamp],
    student: Student,
) -> Result<Vec<LedgerRow>, AllocError>
    requires { length stamps.now ≡ length office.now.history }
    ensures { IfOk result (λ rows. rows.items ≡ ledger_rows_of student office.now.history (reverse stamps.now)) }
{
    let filings = office.filings();
    let front = office.front();
    let mut past = Office::new(alloc);
    past.reserve(front)?;
    let mut rows = Vec::new(alloc);
    for index in 0..front as usize {
        pass(
            alloc,
            &filings[index],
            &stamps[index],
            student,
            &mut past,
            &mut rows,
        )?;
    }
    Ok(rows)
}

// Adds the rows of a filing where it is about the student, and the filing to those before it.
fn pass(
    alloc: Global,
    filing: &Filing,
    stamp: &Stamp,
    student: Student,
    past: &mut Office,
    rows: &mut Vec<LedgerRow>,
) -> Result<(), AllocError>
    requires legal { IsLegal (filing.now ∷ past.old.history) }
    requires room { 1 ≤ past.old.spare }
    ensures history { OnOk result (past.new.history ≡ filing.now ∷ past.old.history) }
    ensures spare { OnOk result (past.new.spare + 1 ≡ past.old.spare) }
    ensures rows { OnOk result (rows.new.items ≡ rows.old.items ++ rows_about student past.old.history stamp.now filing.now) }
{
    let before = taken_in(past, filing);
    let outcome = grow(alloc, filing, past)?;
    if !is_about(filing, student) {
        return Ok(());
    }
    let returned = taken_in(past, filing).minus(&before);
    put_rows(past, filing, stamp, outcome, &returned, rows)
}

// Whether a filing is about the student.
fn is_about(filing: &Filing, student: Student) -> bool
    ensures { result ≡ is_student student (student_of filing.now.what) }
{
    match filing.what.student() {
        Some(about) => about == student,
        None => false,
    }
}

// What was taken back by program in the term of a withdrawal, and nothing for another filing.
fn taken_in(office: &Office, filing: &Filing) -> ByProgram
    ensures { result ≡ taken_by office.now.history filing.now.key filing.now.what }
{
    match &filing.what {
        What::Withdraw(withdrawal) => {
            let place = withdrawn_at(&filing.key, withdrawal);
            Sums::at(office, &place).taken
        }
        _ => ByProgram::EMPTY,
    }
}

// The term of a withdrawal.
fn withdrawn_at(key: &Key, withdrawal: &WithdrawFacts) -> Place
    ensures { result ≡ withdrawn_place key.now withdrawal.now }
{
    Place {
        school: key.school,
        student: withdrawal.student,
        year: withdrawal.year,
        term: withdrawal.term,
    }
}

// Appends the rows of the newest filing of an office, with the outcome of its admission and what is returned by program.
fn put_rows(
    now: &Office,
    filing: &Filing,
    stamp: &Stamp,
    outcome: Outcome,
    returned: &ByProgram,
    rows: &mut Vec<LedgerRow>,
) -> Result<(), AllocError>
    ensures { OnOk result (rows.new.items ≡ rows.old.items
        ++ rows_told now.now.history stamp.now filing.now outcome returned.now filing.now.what) }
{
    match &filing.what {
        What::Book(_) | What::School(_) | What::Calendar(_) | What::Amend(_) => Ok(()),
        What::Prior(prior) => {
            let told = Told::Prior(prior.units);
            put_told(now, filing, stamp, None, None, told, rows)
        }
        What::Apply(application) => {
            let told = Told::Application(outcome);
            put_told(now, filing, stamp, Some(application.year), None, told, rows)
        }
        What::Enroll(enrollment) => put_enrollment(now, filing, stamp, enrollment, rows),
        What::Originate(origination) => {
            let told = Told::Cost(origination.cost);
            put_told(now, filing, stamp, Some(origination.year), None, told, rows)
        }
        What::Pay(amount) => put_amount(now, filing, stamp, amount, Movement::Payment, rows),
        What::Repay(amount) => put_amount(now, filing, stamp, amount, Movement::Repayment, rows),
        What::Adjust(amount) => put_amount(now, filing, stamp, amount, Movement::Adjustment, rows),
        What::Cost(changed) => {
            let told = Told::ChangedCost(changed.cost);
            put_told(now, filing, stamp, Some(changed.year), None, told, rows)
        }
        What::Sent(sending) => put_sending(now, filing, stamp, sending, rows),
        What::Withdraw(withdrawal) => {
            put_withdrawal(now, filing, stamp, withdrawal, outcome, returned, rows)
        }
    }
}

// Appends the row of an enrollment.
fn put_enrollment(
    now: &Office,
    filing: &Filing,
    stamp: &Stamp,
    enrollment: &EnrollFacts,
    rows: &mut Vec<LedgerRow>,
) -> Result<(), AllocError>
    ensures { let e = enrollment.now in OnOk result (rows.new.items ≡ rows.old.items
        ++ row_on now.now.history stamp.now filing.now (Some e.year) (Some e.term) (Enrollment e.credits) ∷ []) }
{
    let (year, term) = (Some(enrollment.year), Some(enrollment.term));
    let told = Told::Enrollment(enrollment.credits);
    put_told(now, filing, stamp, year, term, told, rows)
}

// Appends the row of a return that was sent back.
fn put_sending(
    now: &Office,
    filing: &Filing,
    stamp: &Stamp,
    sending: &SentFacts,
    rows: &mut Vec<LedgerRow>,
) -> Result<(), AllocError>
    ensures { let s = sending.now in OnOk result (rows.new.items ≡ rows.old.items
        ++ row_on now.now.history stamp.now filing.now (Some s.year) (Some s.term) (Sending (sent_back s)) ∷ []) }
{
    let (year, term) = (Some(sending.year), Some(sending.term));
    let told = Told::Sending(SentBack::filed(sending));
    put_told(now, filing, stamp, year, term, told, rows)
}

// Appends the row of a withdrawal, and one for each program of which the school returns something.
fn put_withdrawal(
    now: &Office,
    filing: &Filing,
    stamp: &Stamp,
    withdrawal: &WithdrawFacts,
    outcome: Outcome,
    returned: &ByProgram,
    rows: &mut Vec<LedgerRow>,
) -> Result<(), AllocError>
    ensures { let w = withdrawal.now in OnOk result (rows.new.items ≡ rows.old.items
        ++ (row_on now.now.history stamp.now filing.now (Some w.year) (Some w.term) (Withdrawal outcome)
        ∷ return_rows now.now.history stamp.now filing.now (withdrawn_place filing.now.key w) returned.now)) }
{
    let (year, term) = (Some(withdrawal.year), Some(withdrawal.term));
    let told = Told::Withdrawal(outcome);
    put_told(now, filing, stamp, year, term, told, rows)?;
    let place = withdrawn_at(&filing.key, withdrawal);
    put_returns(now, filing, stamp, &place, returned, rows)
}

// Appends the row of what a filing tells.
fn put_told(
    now: &Office,
    filing: &Filing,
    stamp: &Stamp,
    year: Option<Year>,
    term: Option<u8>,
    told: Told,
    rows: &mut Vec<LedgerRow>,
) -> Result<(), AllocError>
    ensures { OnOk result (rows.new.items ≡ rows.old.items ++ row_on now.now.history stamp.now filing.now year term told ∷ []) }
{
    rows.push(LedgerRow {
        position: now.front(),
        stamp: *stamp,
        key: filing.key,
        year,
        term,
        told,
    })?;
    Ok(())
}

// Appends the row of an amount that moved.
fn put_amount(
    now: &Office,
    filing: &Filing,
    stamp: &Stamp,
    amount: &Amount,
    movement: Movement,
    rows: &mut Vec<LedgerRow>,
) -> Result<(), AllocError>
    ensures { OnOk result (rows.new.items ≡ rows.old.items ++ amount_row now.now.history stamp.now filing.now movement amount.now ∷ []) }
{
    let place = Place {
        school: filing.key.school,
        student: amount.student,
        year: amount.year,
        term: amount.term,
    };
    let moved = Moved::filed(movement, amount);
    put_moved(now, filing, stamp, &place, moved, rows)
}

// Appends the row of money that moved in a term.
fn put_moved(
    now: &Office,
    filing: &Filing,
    stamp: &Stamp,
    place: &Place,
    moved: Moved,
    rows: &mut Vec<LedgerRow>,
) -> Result<(), AllocError>
    ensures { OnOk result (rows.new.items ≡ rows.old.items ++ moved_row now.now.history stamp.now filing.now place.now moved ∷ []) }
{
    let net = now.net(
        place.student,
        place.school,
        place.year,
        place.term,
        moved.program,
    );
    let used = used_units(now, place.student);
    let told = Told::Money { moved, net, used };
    put_told(
        now,
        filing,
        stamp,
        Some(place.year),
        Some(place.term),
        told,
        rows,
    )
}

// The lifetime units that a student used, which every year's standing tells.
fn used_units(office: &Office, student: Student) -> u32
    ensures { result ≡ used_of office.now.history student }
{
    office.standing(student, Year(2000)).used
}

// Appends a row for each program of which a school returns something, in the order of returns.
fn put_returns(
    now: &Office,
    filing: &Filing,
    stamp: &Stamp,
    place: &Place,
    returned: &ByProgram,
    rows: &mut Vec<LedgerRow>,
) -> Result<(), AllocError>
    ensures { OnOk result (rows.new.items ≡ rows.old.items ++ return_rows now.now.history stamp.now filing.now place.now returned.now) }
{
    put_return(now, filing, stamp, place, Program::Unsub, returned, rows)?;
    put_return(now, filing, stamp, place, Program::Sub, returned, rows)?;
    put_return(now, filing, stamp, place, Program::Plus, returned, rows)?;
    put_return(now, filing, stamp, place, Program::Pell, returned, rows)?;
    put_return(now, filing, stamp, place, Program::Fseog, returned, rows)?;
    put_return(now, filing, stamp, place, Program::Teach, returned, rows)
}

// Appends the row of what a school returns of a program, where it returns something.
fn put_return(
    now: &Office,
    filing: &Filing,
    stamp: &Stamp,
    place: &Place,
    program: Program,
    returned: &ByProgram,
    rows: &mut Vec<LedgerRow>,
) -> Result<(), AllocError>
    ensures { OnOk result (rows.new.items ≡ rows.old.items
        ++ return_row now.now.history stamp.now filing.now place.now program (slice_index returned.now (rank program))) }
{
    let cents = returned.at(program);
    if cents == 0 {
        return Ok(());
    }
    let moved = Moved::back(program, cents);
    put_moved(now, filing, stamp, place, moved, rows)
}
