//! The rows of a school, and of a student's year at one, after one filing more.
ghost use Rattle.std.specs.Prelude.{◌≡◌, ◌+◌, ◌-◌, ◌≤◌, ◌∷◌, Some, length, sum};
ghost use Rattle.aid_types.specs.Ranges.{EachIsCents};
ghost use Rattle.office_history.specs.Answer.{IsLegal};
ghost use Rattle.office_history.specs.declared.names.StudentSchoolYear.{StudentSchoolYear as Name};
ghost use Rattle.office_history.specs.declared.rows.SchoolYearRow.{SchoolYearRow as Row};
ghost use Rattle.office_updates.specs.After.{IsSchoolAfter, IsSchoolYearAfter};
ghost use Rattle.office_updates.specs.Changed.{IsSchoolYearBefore, school_year_changed};
ghost use Rattle.office_history.specs.Own.{IsOwnEntry};

use crate::changed::school_year_name;
use aid_filings::{Filing, OriginateFacts, What};
use aid_types::{School, Student, Year};
use office_history::{Account, HistoryView, SchoolRow, SchoolYearRow, StudentSchoolYear};

/// The row of a student's year at a school that a filing writes, `None` where it changes none. `before` is the row as it
/// stands before it, and `moved` what the filing moves in its own term.
pub fn school_year_after<P: HistoryView>(
    past: &P,
    filing: &Filing,
    before: &SchoolYearRow,
    moved: &Account,
) -> Option<(StudentSchoolYear, SchoolYearRow)>
    requires legal { IsLegal (filing.now ∷ P.history past.now) }
    requires before { IsSchoolYearBefore (P.history past.now) filing.now before.now }
    requires moved { IsOwnEntry (P.history past.now) filing.now.key filing.now.what moved.now }
    ensures written { IsSchoolYearAfter (P.history past.now) filing.now result }
    ensures named { (name : Name) (row : Row) → result ≡ Some (name, row) → school_year_changed filing.now.key.school filing.now.what ≡ Some name }
{
    let school = filing.key.school;
    match &filing.what {
        What::Originate(origination) => Some(with_cost(
            next_position(past),
            school,
            origination,
            before,
        )),
        What::Cost(changed) => Some(with_changed_cost(school, changed, before)),
        What::Pay(amount) | What::Repay(amount) | What::Adjust(amount) => Some(with_moved(
            school,
            amount.student,
            amount.year,
            before,
            moved,
        )),
        What::Withdraw(withdrawal) => Some(with_moved(
            school,
            withdrawal.student,
            withdrawal.year,
            before,
            moved,
        )),
        _ => None,
    }
}

// The year at the school with its cost of attendance, filed at a position.
fn with_cost(
    position: u32,
    school: School,
    origination: &OriginateFacts,
    before: &SchoolYearRow,
) -> (StudentSchoolYear, SchoolYearRow)
    ensures name { result.0 ≡ record { student = origination.now.student; school = school; year = origination.now.year } }
    ensures row { result.1 ≡ record before.now { cost_at = position; cost = origination.now.cost } }
{
    let row = SchoolYearRow {
        cost_at: position,
        cost: origination.cost,
        ..*before
    };
    (
        school_year_name(school, origination.student, origination.year),
        row,
    )
}

// The year at the school with a changed cost of attendance.
fn with_changed_cost(
    school: School,
    changed: &OriginateFacts,
    before: &SchoolYearRow,
) -> (StudentSchoolYear, SchoolYearRow)
    ensures name { result.0 ≡ record { student = changed.now.student; school = school; year = changed.now.year } }
    ensures row { result.1 ≡ record before.now { cost = changed.now.cost } }
{
    let row = SchoolYearRow {
        cost: changed.cost,
        ..*before
    };
    (school_year_name(school, changed.student, changed.year), row)
}

// The year at the school in which a filing moved money.
fn with_moved(
    school: School,
    student: Student,
    year: Year,
    before: &SchoolYearRow,
    moved: &Account,
) -> (StudentSchoolYear, SchoolYearRow)
    requires before { before.now.net ≤ 100000000000000 }
    requires paid { EachIsCents moved.now.paid }
    requires taken { EachIsCents moved.now.taken }
    ensures name { result.0 ≡ record { student = student; school = school; year = year } }
    ensures row { result.1 ≡ record before.now { net = (before.now.net + sum moved.now.paid) - sum moved.now.taken } }
{
    let net = (before.net + moved.paid.sum()).saturating_sub(moved.taken.sum());
    let row = SchoolYearRow { net, ..*before };
    (school_year_name(school, student, year), row)
}

/// The row of a school that a filing writes, `None` where it changes none.
pub fn school_after<P: HistoryView>(past: &P, filing: &Filing) -> Option<(u32, SchoolRow)>
    requires { IsLegal (filing.now ∷ P.history past.now) }
    ensures { IsSchoolAfter (P.history past.now) filing.now result }
{
    match &filing.what {
        What::School(facts) => {
            let row = SchoolRow {
                at: next_position(past),
                terms: facts.terms,
                full: facts.full,
            };
            Some((facts.code, row))
        }
        _ => None,
    }
}

/// The position of the filing that comes next.
pub(crate) fn next_position<P: HistoryView>(past: &P) -> u32
    ensures { result ≡ length (P.history past.now) + 1 }
{
    past.front() + 1
}
