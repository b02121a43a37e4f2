//! The payments of a term.
ghost use Rattle.std.specs.Prelude.{◌≡◌, ◌+◌, ◌≤◌, ◌∷◌, ◌++◌, [], Some, IfOk, OnOk, length, reverse, slice_index};
ghost use Rattle.aid_types.specs.Programs.{rank};
ghost use Rattle.office_history.specs.Answer.{IsLegal};
ghost use Rattle.office_history.specs.Own.{own_place};
ghost use Rattle.office_sheets.specs.Ledgers.{returned_by};
ghost use Rattle.office_sheets.specs.Payments.{is_of_term, payment_row, payment_rows as payment_rows_of, payments_by, payments_sheet, payments_told, return_payment, return_payments};
ghost use Rattle.office_sheets.specs.TermSums.{term_sums};

use crate::front::grow;
use crate::headed::headed_text;
use crate::ledger_rows::{Moved, Movement};
use crate::payment_rows::PaymentRow;
use crate::term_sums::Sums;
use aid_filings::{Filing, What};
use aid_stamps::Stamp;
use aid_types::{ByProgram, Program, School, Year};
use office_history::Place;
use office_index::Office;
use std::alloc::{AllocError, Global};

/// Every movement of money of all students in a term of a school, the oldest first, as comma-separated values below a heading:
/// the position and the key of its filing, what moved, with a minus where it was taken back, the total of its program over the
/// whole term with it, and the stamp. A withdrawal has a line for each program of which the school returns something. `none`
/// where nothing moved. One pass over the filings, which judges each of them again. An `Err` is want of memory.
pub fn payments(
    alloc: Global,
    office: &Office,
    stamps: &[Stamp],
    school: School,
    year: Year,
    term: u8,
) -> Result<Vec<u8>, AllocError>
    requires { length stamps.now ≡ length office.now.history }
    ensures { IfOk result (λ text. text.items ≡ payments_sheet school year term office.now.history (reverse stamps.now)) }
{
    let asked = SchoolTerm { school, year, term };
    let rows = payment_rows(alloc, office, stamps, &asked)?;
    let heading = b"position,school,number,kind,student,year,term,program,amount,total,day,clerk\n";
    headed_text(alloc, heading, rows.as_slice())
}

/// A term of a school.
#[derive(Clone, Copy)]
pub struct SchoolTerm {
    pub school: School,
    pub year: Year,
    pub term: u8,
}

impl SchoolTerm {
    // Whether a student's term is of it.
    fn has(&self, place: &Place) -> bool
        ensures { result ≡ is_of_term self.now.school self.now.year self.now.term (Some place.now) }
    {
        place.school == self.school && place.year == self.year && place.term == self.term
    }
}

// The rows of all movements in the term. An office anew has the filings before the one that the pass is at, and the sums are
// those of the term on these filings.
fn payment_rows(
    alloc: Global,
    office: &Office,
    stamps: &[Stamp],
    asked: &SchoolTerm,
) -> Result<Vec<PaymentRow>, AllocError>
    requires { length stamps.now ≡ length office.now.history }
    ensures { let t = asked.now in IfOk result (λ rows. rows.items ≡ payment_rows_of t.school t.year t.term office.now.history (reverse stamps.now)) }
{
    let filings = office.filings();
    let front = office.front();
    let mut past = Office::new(alloc);
    past.reserve(front)?;
    let mut sums = Sums::EMPTY;
    let mut rows = Vec::new(alloc);
    for index in 0..front as usize {
        pass(
            alloc,
            &filings[index],
            &stamps[index],
            asked,
            &mut past,
            &mut sums,
            &mut rows,
        )?;
    }
    Ok(rows)
}

// Adds what a filing moves in the term to its sums and its rows, and the filing to those before it.
fn pass(
    alloc: Global,
    filing: &Filing,
    stamp: &Stamp,
    asked: &SchoolTerm,
    past: &mut Office,
    sums: &mut Sums,
    rows: &mut Vec<PaymentRow>,
) -> Result<(), AllocError>
    requires legal { IsLegal (filing.now ∷ past.old.history) }
    requires room { 1 ≤ past.old.spare }
    requires sums { let t = asked.now in sums.old ≡ term_sums past.old.history t.school t.year t.term }
    ensures history { OnOk result (past.new.history ≡ filing.now ∷ past.old.history) }
    ensures spare { OnOk result (past.new.spare + 1 ≡ past.old.spare) }
    ensures sums { let t = asked.now in OnOk result (sums.new ≡ term_sums past.new.history t.school t.year t.term) }
    ensures rows { let t = asked.now in OnOk result (rows.new.items ≡ rows.old.items
        ++ payments_by t.school t.year t.term past.old.history stamp.now filing.now) }
{
    match Place::of(filing) {
        Some(place) if asked.has(&place) => {
            pass_movement(alloc, filing, stamp, &place, past, sums, rows)
        }
        _ => {
            grow(alloc, filing, past)?;
            Ok(())
        }
    }
}

// The same of a filing of a student's term, which is of the term of the sums.
fn pass_movement(
    alloc: Global,
    filing: &Filing,
    stamp: &Stamp,
    place: &Place,
    past: &mut Office,
    sums: &mut Sums,
    rows: &mut Vec<PaymentRow>,
) -> Result<(), AllocError>
    requires legal { IsLegal (filing.now ∷ past.old.history) }
    requires room { 1 ≤ past.old.spare }
    requires own { own_place filing.now.key filing.now.what ≡ Some place.now }
    requires sums { let p = place.now in sums.old ≡ term_sums past.old.history p.school p.year p.term }
    ensures history { OnOk result (past.new.history ≡ filing.now ∷ past.old.history) }
    ensures spare { OnOk result (past.new.spare + 1 ≡ past.old.spare) }
    ensures sums { let p = place.now in OnOk result (sums.new ≡ term_sums past.new.history p.school p.year p.term) }
    ensures rows { OnOk result (rows.new.items ≡ rows.old.items ++ payments_told (filing.now ∷ past.old.history) stamp.now filing.now
        (returned_by past.old.history filing.now.key filing.now.what) filing.now.what) }
{
    let before = Sums::at(past, place);
    grow(alloc, filing, past)?;
    let more = Sums::at(past, place).rest(&before);
    *sums = sums.both(&more);
    put_movements(past, filing, stamp, place, &more.taken, sums, rows)
}

// Appends the rows of the newest filing of an office, which is of a student's term, with what is returned by program.
fn put_movements(
    now: &Office,
    filing: &Filing,
    stamp: &Stamp,
    place: &Place,
    returned: &ByProgram,
    sums: &Sums,
    rows: &mut Vec<PaymentRow>,
) -> Result<(), AllocError>
    requires own { own_place filing.now.key filing.now.what ≡ Some place.now }
    requires sums { let p = place.now in sums.now ≡ term_sums now.now.history p.school p.year p.term }
    ensures { OnOk result (rows.new.items ≡ rows.old.items
        ++ payments_told now.now.history stamp.now filing.now returned.now filing.now.what) }
{
    match &filing.what {
        What::Pay(amount) => {
            let moved = Moved::filed(Movement::Payment, amount);
            put_movement(now, filing, stamp, place, moved, sums, rows)
        }
        What::Repay(amount) => {
            let moved = Moved::filed(Movement::Repayment, amount);
            put_movement(now, filing, stamp, place, moved, sums, rows)
        }
        What::Adjust(amount) => {
            let moved = Moved::filed(Movement::Adjustment, amount);
            put_movement(now, filing, stamp, place, moved, sums, rows)
        }
        What::Withdraw(_) => put_returns(now, filing, stamp, place, returned, sums, rows),
        _ => Ok(()),
    }
}

// Appends the row of money that moved in a student's term.
fn put_movement(
    now: &Office,
    filing: &Filing,
    stamp: &Stamp,
    place: &Place,
    moved: Moved,
    sums: &Sums,
    rows: &mut Vec<PaymentRow>,
) -> Result<(), AllocError>
    requires { let p = place.now in sums.now ≡ term_sums now.now.history p.school p.year p.term }
    ensures { OnOk result (rows.new.items ≡ rows.old.items ++ payment_row now.now.history stamp.now filing.now place.now moved ∷ []) }
{
    rows.push(PaymentRow {
        position: now.front(),
        stamp: *stamp,
        key: filing.key,
        student: place.student,
        year: place.year,
        term: place.term,
        moved,
        total: sums.net(moved.program),
    })?;
    Ok(())
}

// Appends a row for each program of which a school returns something, in the order of returns.
fn put_returns(
    now: &Office,
    filing: &Filing,
    stamp: &Stamp,
    place: &Place,
    back: &ByProgram,
    sums: &Sums,
    rows: &mut Vec<PaymentRow>,
) -> Result<(), AllocError>
    requires { let p = place.now in sums.now ≡ term_sums now.now.history p.school p.year p.term }
    ensures { OnOk result (rows.new.items ≡ rows.old.items ++ return_payments now.now.history stamp.now filing.now place.now back.now) }
{
    put_return(now, filing, stamp, place, Program::Unsub, back, sums, rows)?;
    put_return(now, filing, stamp, place, Program::Sub, back, sums, rows)?;
    put_return(now, filing, stamp, place, Program::Plus, back, sums, rows)?;
    put_return(now, filing, stamp, place, Program::Pell, back, sums, rows)?;
    put_return(now, filing, stamp, place, Program::Fseog, back, sums, rows)?;
    put_return(now, filing, stamp, place, Program::Teach, back, sums, rows)
}

// Appends the row of what a school returns of a program, where it returns something.
fn put_return(
    now: &Office,
    filing: &Filing,
    stamp: &Stamp,
    place: &Place,
    program: Program,
    back: &ByProgram,
    sums: &Sums,
    rows: &mut Vec<PaymentRow>,
) -> Result<(), AllocError>
    requires { let p = place.now in sums.now ≡ term_sums now.now.history p.school p.year p.term }
    ensures { OnOk result (rows.new.items ≡ rows.old.items
        ++ return_payment now.now.history stamp.now filing.now place.now program (slice_index back.now (rank program))) }
{
    let cents = back.at(program);
    if cents == 0 {
        return Ok(());
    }
    let moved = Moved::back(program, cents);
    put_movement(now, filing, stamp, place, moved, sums, rows)
}
