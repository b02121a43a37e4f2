//! The row of a student's term at a school, after one filing more.
ghost use Rattle.std.specs.Prelude.{◌≡◌, ◌+◌, ◌∷◌, Some, length};
ghost use Rattle.aid_filings.specs.declared.filing.EnrollFacts.{EnrollFacts as Enrolled};
ghost use Rattle.aid_filings.specs.declared.filing.What.TheVariants.{Enroll};
ghost use Rattle.office_history.specs.Answer.{IsLegal};
ghost use Rattle.office_history.specs.Accounts.{HasSums, joined as joined_of};
ghost use Rattle.office_history.specs.declared.names.StudentPlace.{StudentPlace as Name};
ghost use Rattle.office_history.specs.declared.rows.PlaceRow.{PlaceRow as Row};
ghost use Rattle.office_updates.specs.After.{IsPlaceAfter};
ghost use Rattle.office_updates.specs.Changed.{IsPlaceBefore, place_changed};
ghost use Rattle.office_history.specs.Names.{place_name as name_of_enrollment};
ghost use Rattle.office_history.specs.Own.{IsOwnEntry};

use crate::after_schools::next_position;
use crate::changed::place_name;
use aid_filings::{EnrollFacts, Filing, What, WithdrawFacts};
use aid_types::{School, Student, Year};
use office_history::{Account, HistoryView, PlaceRow, StudentPlace};

/// The row of a student's term at a school that a filing writes, `None` where it changes none. `before` is the row as it
/// stands before it, and `moved` what the filing moves in its own term. An enrollment writes the row of its place.
pub fn place_after<P: HistoryView>(
    past: &P,
    filing: &Filing,
    before: &PlaceRow,
    moved: &Account,
) -> Option<(StudentPlace, PlaceRow)>
    requires legal { IsLegal (filing.now ∷ P.history past.now) }
    requires before { IsPlaceBefore (P.history past.now) filing.now before.now }
    requires moved { IsOwnEntry (P.history past.now) filing.now.key filing.now.what moved.now }
    ensures written { IsPlaceAfter (P.history past.now) filing.now result }
    ensures named { (name : Name) (row : Row) → result ≡ Some (name, row) → place_changed filing.now.key.school filing.now.what ≡ Some name }
    ensures enrolled { (e : Enrolled) → filing.now.what ≡ Enroll e → (row : Row) × (result ≡ Some (name_of_enrollment filing.now.key.school e, row)) }
{
    let school = filing.key.school;
    match &filing.what {
        What::Enroll(enrollment) => Some(with_credits(school, enrollment, before)),
        What::Pay(amount) | What::Repay(amount) | What::Adjust(amount) => Some(with_moved(
            school,
            amount.student,
            amount.year,
            amount.term,
            before,
            moved,
        )),
        What::Withdraw(withdrawal) => Some(with_withdrawal(
            next_position(past),
            school,
            withdrawal,
            before,
            moved,
        )),
        What::Sent(sent) => Some(with_moved(
            school,
            sent.student,
            sent.year,
            sent.term,
            before,
            moved,
        )),
        _ => None,
    }
}

// The place of an enrollment with its credits in force.
fn with_credits(
    school: School,
    enrollment: &EnrollFacts,
    before: &PlaceRow,
) -> (StudentPlace, PlaceRow)
    ensures name { result.0 ≡ name_of_enrollment school enrollment.now }
    ensures row { result.1 ≡ record before.now { credits = enrollment.now.credits } }
{
    let row = PlaceRow {
        credits: enrollment.credits,
        ..*before
    };
    (
        place_name(school, enrollment.student, enrollment.year, enrollment.term),
        row,
    )
}

// The place at which a filing moved money, or at which it was sent back.
fn with_moved(
    school: School,
    student: Student,
    year: Year,
    term: u8,
    before: &PlaceRow,
    moved: &Account,
) -> (StudentPlace, PlaceRow)
    requires before { HasSums before.now.account }
    requires moved { HasSums moved.now }
    ensures name { result.0 ≡ record { student = student; school = school; year = year; term = term } }
    ensures row { result.1 ≡ record before.now { account = joined_of before.now.account moved.now } }
{
    let row = PlaceRow {
        account: before.account.joined(moved),
        ..*before
    };
    (place_name(school, student, year, term), row)
}

// The place of a withdrawal at a position.
fn with_withdrawal(
    position: u32,
    school: School,
    withdrawal: &WithdrawFacts,
    before: &PlaceRow,
    moved: &Account,
) -> (StudentPlace, PlaceRow)
    requires before { HasSums before.now.account }
    requires moved { HasSums moved.now }
    ensures name { result.0 ≡ record { student = withdrawal.now.student; school = school; year = withdrawal.now.year; term = withdrawal.now.term } }
    ensures row { result.1 ≡ record before.now { withdrawn_at = position; could = withdrawal.now.could; determined = withdrawal.now.determined; account = joined_of before.now.account moved.now } }
{
    let row = PlaceRow {
        withdrawn_at: position,
        could: withdrawal.could,
        determined: withdrawal.determined,
        account: before.account.joined(moved),
        ..*before
    };
    let name = place_name(school, withdrawal.student, withdrawal.year, withdrawal.term);
    (name, row)
}
