//! The row of a student's year that a filing writes, and that of the student.
ghost use Rattle.std.specs.Prelude.{◌≡◌, ℕ, ◌+◌, ◌==◌, ◌≤◌, ◌∷◌, Some, length, slice_index};
ghost use Rattle.aid_filings.specs.declared.filing.What.TheVariants.{Apply};
ghost use Rattle.aid_types.specs.Programs.{rank as rank_of};
ghost use Rattle.aid_types.specs.declared.application.Application.{Application as Applied};
ghost use Rattle.aid_types.specs.Ranges.{IsBetween};
ghost use Rattle.office_history.specs.Answer.{IsLegal};
ghost use Rattle.office_history.specs.Award.{award_under, ceiling_under};
ghost use Rattle.office_history.specs.Past.{first_of_two, is_extra, the_book, the_term};
ghost use Rattle.office_history.specs.Accounts.{AreSums};
ghost use Rattle.office_history.specs.Rows.{student_row, year_row};
ghost use Rattle.office_history.specs.declared.names.StudentYear.{StudentYear as Name};
ghost use Rattle.office_history.specs.declared.rows.StudentRow.{StudentRow as OfStudent};
ghost use Rattle.office_history.specs.declared.rows.YearRow.{YearRow as OfYear};
ghost use Rattle.office_updates.specs.After.{IsStudentAfter, IsYearAfter, after};
ghost use Rattle.office_updates.specs.Changed.{IsStudentBefore, IsYearBefore, student_changed, year_changed};
ghost use Rattle.office_history.specs.Names.{year_cmp};
ghost use Rattle.office_updates.specs.Moved.{IsWithinYear, main_moved, student_moved, student_paid, student_prior, use_of_year, year_applied, year_moved};
ghost use Rattle.office_history.specs.Own.{IsOwnEntry};

use crate::changed::{student_name, year_name};
use crate::uncounted::{ceiling_on, term_of};
use aid_filings::{Amount, Filing, PriorFacts, What};
use aid_types::{Application, Program, School, Student, Term, Year};
use law_pell::Ceiling;
use law_terms::use_of;
use office_history::{Account, HistoryView, StudentRow, StudentYear, YearRow};

/// The row of a student's year that a filing writes after the filings so far, where it moves this much in its own term:
/// an application and its award, or the nets with what is paid and taken back. `None` where it changes no year. `before` is
/// the row as it stands before it, and `award` the Scheduled Award of an application.
pub fn year_after<P: HistoryView>(
    past: &P,
    filing: &Filing,
    before: &YearRow,
    award: u32,
    moved: &Account,
) -> Option<(StudentYear, YearRow)>
    requires legal { IsLegal (filing.now ∷ P.history past.now) }
    requires before { IsYearBefore (P.history past.now) filing.now before.now }
    requires award { (a : Applied) → filing.now.what ≡ Apply a → award ≡ award_under (the_book (P.history past.now) a.year) (Some a) }
    requires moved { IsOwnEntry (P.history past.now) filing.now.key filing.now.what moved.now }
    ensures written { IsYearAfter (P.history past.now) filing.now result }
    ensures named { (name : Name) (row : OfYear) → result ≡ Some (name, row) → year_changed filing.now.what ≡ Some name }
{
    let school = filing.key.school;
    match &filing.what {
        What::Apply(a) => Some((
            year_name(a.student, a.year),
            applied(past, a, before, award),
        )),
        What::Pay(a) | What::Repay(a) | What::Adjust(a) => Some((
            year_name(a.student, a.year),
            moved_year(past, school, a.year, a.term, before, moved),
        )),
        What::Withdraw(w) => Some((
            year_name(w.student, w.year),
            moved_year(past, school, w.year, w.term, before, moved),
        )),
        _ => None,
    }
}

// A student's year with this application and its award in force.
fn applied<P: HistoryView>(past: &P, filed: &Application, before: &YearRow, award: u32) -> YearRow
    requires { award ≡ award_under (the_book (P.history past.now) filed.now.year) (Some filed.now) }
    ensures { result ≡ year_applied before.now filed.now award (ceiling_under (the_book (P.history past.now) filed.now.year) (Some filed.now))
        (length (P.history past.now) + 1) }
{
    let position = past.front() + 1;
    // An application that has an award is below the ceiling.
    let ceiling = if award == 0 {
        ceiling_on(past, filed)
    } else {
        Ceiling::NONE
    };
    YearRow {
        transaction: u32::from(filed.transaction),
        application_at: position,
        scheduled: award,
        ceiling,
        ..*before
    }
}

// A student's year with what moved in a term of it.
fn moved_year<P: HistoryView>(
    past: &P,
    school: School,
    year: Year,
    number: u8,
    before: &YearRow,
    moved: &Account,
) -> YearRow
    requires nets { (p : ℕ) → slice_index before.now.nets p ≤ 100000000000000 }
    requires main { before.now.main ≤ 100000000000000 }
    requires paid { AreSums moved.now.paid }
    ensures { result ≡ year_moved before.now (the_term (P.history past.now) school year number) moved.now }
{
    let term = term_of(past, school, year, number).1.term;
    YearRow {
        nets: before.nets.plus(&moved.paid).minus(&moved.taken),
        main: moved_main(&term, before.main, moved),
        ..*before
    }
}

// The net Pell of the main terms with what moved in a term.
fn moved_main(term: &Option<Term>, main: u64, moved: &Account) -> u64
    requires main { main ≤ 100000000000000 }
    requires paid { AreSums moved.now.paid }
    ensures { result ≡ main_moved (is_extra term.now) main moved.now }
{
    match term {
        Some(term) if term.extra => main,
        _ => {
            let paid = main + moved.paid.at(Program::Pell);
            paid.saturating_sub(moved.taken.at(Program::Pell))
        }
    }
}

/// The row of a student that a filing writes after the filings so far, where it writes this row of the student's year: the
/// use before this office, the first Pell payment, or the lifetime use. `None` where it changes no student. `before` and
/// `of_year` are the rows of the student and of the year as they stand before it.
pub fn student_after<P: HistoryView>(
    past: &P,
    filing: &Filing,
    before: &StudentRow,
    of_year: &YearRow,
    year: &Option<(StudentYear, YearRow)>,
) -> Option<(u64, StudentRow)>
    requires legal { IsLegal (filing.now ∷ P.history past.now) }
    requires before { IsStudentBefore (P.history past.now) filing.now before.now }
    requires of_year { IsYearBefore (P.history past.now) filing.now of_year.now }
    requires year { IsYearAfter (P.history past.now) filing.now year.now }
    ensures written { IsStudentAfter (P.history past.now) filing.now result }
    ensures named { (student : ℕ) (row : OfStudent) → result ≡ Some (student, row) → student_changed filing.now.what ≡ Some student }
{
    match &filing.what {
        What::Prior(prior) => {
            Some((student_name(prior.student), with_prior(past, prior, before)))
        }
        What::Apply(a) => Some((
            student_name(a.student),
            with_use(past, a.student, a.year, before, of_year, year),
        )),
        What::Pay(a) => Some((
            student_name(a.student),
            with_payment(past, a, before, of_year, year),
        )),
        What::Withdraw(w) => Some((
            student_name(w.student),
            with_use(past, w.student, w.year, before, of_year, year),
        )),
        What::Repay(a) | What::Adjust(a) => Some((
            student_name(a.student),
            with_use(past, a.student, a.year, before, of_year, year),
        )),
        _ => None,
    }
}

// A student with the use before this office.
fn with_prior<P: HistoryView>(past: &P, prior: &PriorFacts, before: &StudentRow) -> StudentRow
    requires units { prior.now.units ≤ 600000 }
    requires before { before.now ≡ student_row (P.history past.now) prior.now.student }
    ensures { result ≡ student_prior (student_row (P.history past.now) prior.now.student) (length (P.history past.now) + 1) prior.now.units }
{
    let position = past.front() + 1;
    StudentRow {
        prior_at: position,
        used: before.used + prior.units,
        ..*before
    }
}

// A student with what one year uses now.
fn with_use<P: HistoryView>(
    past: &P,
    student: Student,
    year: Year,
    before: &StudentRow,
    of_year: &YearRow,
    written: &Option<(StudentYear, YearRow)>,
) -> StudentRow
    requires before { before.now ≡ student_row (P.history past.now) student }
    requires of_year { of_year.now ≡ year_row (P.history past.now) student year }
    requires within { IsWithinYear (after year_cmp written.now (record { student = student; year = year }) (year_row (P.history past.now) student year)) }
    ensures value { result ≡ student_moved (student_row (P.history past.now) student) (year_row (P.history past.now) student year)
        (after year_cmp written.now (record { student = student; year = year }) (year_row (P.history past.now) student year)) }
    ensures between { IsBetween 2000 2099 year }
{
    let _front = past.front();
    let _number = year.number();
    let now = row_of(written, year_name(student, year), of_year);
    StudentRow {
        used: before.used - use_in(of_year) + use_in(&now),
        ..*before
    }
}

// A student with a payment.
fn with_payment<P: HistoryView>(
    past: &P,
    amount: &Amount,
    before: &StudentRow,
    of_year: &YearRow,
    written: &Option<(StudentYear, YearRow)>,
) -> StudentRow
    requires before { before.now ≡ student_row (P.history past.now) amount.now.student }
    requires of_year { of_year.now ≡ year_row (P.history past.now) amount.now.student amount.now.year }
    requires within { IsWithinYear (after year_cmp written.now (record { student = amount.now.student; year = amount.now.year })
        (year_row (P.history past.now) amount.now.student amount.now.year)) }
    ensures value { result ≡ student_paid (student_moved (student_row (P.history past.now) amount.now.student) (year_row (P.history past.now) amount.now.student amount.now.year)
        (after year_cmp written.now (record { student = amount.now.student; year = amount.now.year }) (year_row (P.history past.now) amount.now.student amount.now.year)))
        (rank_of amount.now.program == 3) (length (P.history past.now) + 1) }
    ensures between { IsBetween 2000 2099 amount.now.year }
{
    let position = past.front() + 1;
    let row = with_use(past, amount.student, amount.year, before, of_year, written);
    StudentRow {
        pell_at: first_of(amount.program == Program::Pell, row.pell_at, position),
        ..row
    }
}

// The position of the first that passes: that of one before, or else this one's where it passes.
fn first_of(passes: bool, before: u32, here: u32) -> u32
    ensures { result ≡ first_of_two passes before here }
{
    if passes && before == 0 { here } else { before }
}

// The row of a name, which is the one from before where none is written of this name.
fn row_of(written: &Option<(StudentYear, YearRow)>, name: StudentYear, before: &YearRow) -> YearRow
    ensures { result ≡ after year_cmp written.now name before.now }
{
    match written {
        Some((of, row)) if *of == name => *row,
        _ => *before,
    }
}

// The lifetime units that a year uses.
fn use_in(year: &YearRow) -> u32
    requires { IsWithinYear year.now }
    ensures value { result ≡ use_of_year year.now }
    ensures at_most { result ≤ 150000 }
{
    use_of(year.nets.at(Program::Pell), year.scheduled)
}
