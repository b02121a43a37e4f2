//! What is on file, however it is kept.
ghost use Rattle.std.specs.Prelude.{◌≡◌, ◌≢◌, ◌+◌, ◌-◌, ◌*◌, ◌^◌, ◌≤◌, ℕ, Bool, List, IsSome, IsTrue, length};
ghost use Rattle.std.specs.Option.{option_copied};
ghost use Rattle.aid_filings.specs.declared.filing.Filing.{Filing as Filed};
ghost use Rattle.office_history.specs.Answer.{IsLegal, outcome_at};
ghost use Rattle.office_history.specs.Positions.{book_at as book_position, is_paid_beside, least_code, term_over};
ghost use Rattle.office_history.specs.Past.{key_at as key_position, terms_on_file, the_book};
ghost use Rattle.office_history.specs.FirstEnrollments.{places_of};
ghost use Rattle.office_history.specs.Rows.{calendar_row, filing_in, place_row, school_row, school_year_row, student_row, term_row, terms_at, year_row};

use crate::rows::{CalendarRow, PlaceRow, SchoolRow, SchoolYearRow, StudentRow, TermRow, YearRow};
use aid_books::Book;
use aid_filings::{CalendarFacts, Filing, Outcome};
use aid_types::{Key, Refusal, School, Student, Term, Year};
use sorted_rows::Steps;
use std::sync::ledger::Ledger;

/// What is on file: one question for each kind of row. A question counts each of its looks at a row of an index; a list that
/// has none counts nothing. A student's places are the terms at schools in which the student is enrolled, however often the
/// credits changed.
pub trait HistoryView {
    /// The filings, the newest first.
    ghost history: { Self → List Filed };

    /// How many looks at most a question takes to find one row.
    ghost lookups: { Self → ℕ };

    /// Whether the looks are counted: those that a search for a key needs, and three for each place along which a walk goes.
    ghost counts: { Self → Bool };

    /// The number of filings. They are a legal list.
    fn front(&self) -> u32
        ensures value { result ≡ length (history self.now) }
        ensures legal { IsLegal (history self.now) };

    /// The filing at a position, counted from 1; `None` where there is no such position.
    fn filing(&self, position: u32) -> Option<&Filing>
        ensures { option_copied result ≡ filing_in (history self.now) position };

    /// The outcome with which the filing at a position was admitted.
    fn outcome(&self, position: u32) -> Outcome
        requires first { 1 ≤ position }
        requires last { position ≤ length (history self.now) }
        ensures { result ≡ outcome_at (history self.now) position };

    /// The position of a key.
    fn key_at<L: Ledger>(&self, key: &Key, steps: &mut Steps<L>) -> u32
        ensures value { result ≡ key_position key.now (history self.now) }
        ensures later { steps.old ≤ steps.new }
        ensures met { IsTrue (counts self.now) → result ≢ 0 → steps.old + 1 ≤ steps.new }
        ensures missed { IsTrue (counts self.now) → result ≡ 0 → length (history self.now) + 2 ≤ 2 ^ (steps.new - steps.old + 1) }
        ensures cost { steps.new ≤ steps.old + lookups self.now };

    /// The position of a year's book.
    fn book_at<L: Ledger>(&self, year: Year, steps: &mut Steps<L>) -> u32
        ensures value { result ≡ book_position (history self.now) year }
        ensures later { steps.old ≤ steps.new }
        ensures cost { steps.new ≤ steps.old + lookups self.now };

    /// A year's book.
    fn book<L: Ledger>(&self, year: Year, steps: &mut Steps<L>) -> Option<&Book>
        ensures value { option_copied result ≡ the_book (history self.now) year }
        ensures later { steps.old ≤ steps.new }
        ensures cost { steps.new ≤ steps.old + lookups self.now };

    /// The school with a code.
    fn school<L: Ledger>(&self, code: u32, steps: &mut Steps<L>) -> SchoolRow
        ensures value { result ≡ school_row (history self.now) code }
        ensures later { steps.old ≤ steps.new }
        ensures cost { steps.new ≤ steps.old + lookups self.now };

    /// A school with its term of a year and a number.
    fn term<L: Ledger>(
        &self,
        school: School,
        year: Year,
        number: u8,
        steps: &mut Steps<L>,
    ) -> (SchoolRow, TermRow)
        ensures school { result.0 ≡ school_row (history self.now) school }
        ensures term { result.1 ≡ term_row (history self.now) school year number }
        ensures later { steps.old ≤ steps.new }
        ensures cost { steps.new ≤ steps.old + lookups self.now + 4 * terms_at (history self.now) school };

    /// A school with what its terms say of one that is to be filed.
    fn calendar<L: Ledger>(
        &self,
        school: School,
        calendar: &CalendarFacts,
        steps: &mut Steps<L>,
    ) -> (SchoolRow, CalendarRow)
        ensures school { result.0 ≡ school_row (history self.now) school }
        ensures terms { result.1 ≡ calendar_row (history self.now) school calendar.now }
        ensures later { steps.old ≤ steps.new }
        ensures cost { steps.new ≤ steps.old + lookups self.now + 4 * terms_at (history self.now) school };

    /// A student's term at a school.
    fn place<L: Ledger>(
        &self,
        school: School,
        student: Student,
        year: Year,
        number: u8,
        steps: &mut Steps<L>,
    ) -> PlaceRow
        ensures value { result ≡ place_row (history self.now) school student year number }
        ensures later { steps.old ≤ steps.new }
        ensures cost { steps.new ≤ steps.old + lookups self.now };

    /// A student's year at all schools.
    fn year<L: Ledger>(&self, student: Student, year: Year, steps: &mut Steps<L>) -> YearRow
        ensures value { result ≡ year_row (history self.now) student year }
        ensures later { steps.old ≤ steps.new }
        ensures cost { steps.new ≤ steps.old + lookups self.now };

    /// A student's year at a school.
    fn school_year<L: Ledger>(
        &self,
        school: School,
        student: Student,
        year: Year,
        steps: &mut Steps<L>,
    ) -> SchoolYearRow
        ensures value { result ≡ school_year_row (history self.now) school student year }
        ensures later { steps.old ≤ steps.new }
        ensures cost { steps.new ≤ steps.old + lookups self.now };

    /// A student.
    fn student<L: Ledger>(&self, student: Student, steps: &mut Steps<L>) -> StudentRow
        ensures value { result ≡ student_row (history self.now) student }
        ensures later { steps.old ≤ steps.new }
        ensures cost { steps.new ≤ steps.old + lookups self.now };

    /// A student with the least code of another school that has a term which shares a day with this one and holds net Pell
    /// of the student; 0 where there is none.
    fn beside<L: Ledger>(
        &self,
        student: Student,
        school: School,
        this: &Option<Term>,
        steps: &mut Steps<L>,
    ) -> (StudentRow, u32)
        ensures student { result.0 ≡ student_row (history self.now) student }
        ensures code { result.1 ≡ least_code (is_paid_beside (history self.now) school student this.now) (terms_on_file (history self.now)) }
        ensures later { steps.old ≤ steps.new }
        ensures walked { IsTrue (counts self.now) → IsSome this.now → steps.old + 3 * places_of (history self.now) student ≤ steps.new }
        ensures cost { steps.new ≤ steps.old + lookups self.now + 4 * places_of (history self.now) student };

    /// A student with the first term of a year, by school and number, that holds more net Pell than an award in dollars gives
    /// it, told as a refusal.
    fn over<L: Ledger>(
        &self,
        award: u32,
        student: Student,
        year: Year,
        steps: &mut Steps<L>,
    ) -> (StudentRow, Option<Refusal>)
        requires { award ≤ 100000 }
        ensures student { result.0 ≡ student_row (history self.now) student }
        ensures term { result.1 ≡ term_over (history self.now) award student year }
        ensures later { steps.old ≤ steps.new }
        ensures cost { steps.new ≤ steps.old + lookups self.now + 4 * places_of (history self.now) student };
}
