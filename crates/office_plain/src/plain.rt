//! A plain list of filings, read from end to end at each question.
ghost use Rattle.std.specs.Prelude.{◌≡◌, ◌↔◌, IsTrue, reverse};
ghost use Rattle.office_history.specs.Answer.{IsLegal};

use crate::applications::{ceiling_under, scheduled_under};
use crate::moved::Cells;
use aid_books::Book;
use aid_filings::{CalendarFacts, Filing, Outcome};
use aid_types::{ByProgram, Day, Key, Refusal, School, Student, Term, Year};
use office_answers::rule_on;
use office_history::{
    CalendarRow, HistoryView, Place, PlaceRow, SchoolRow, SchoolYearRow, StudentRow, TermRow,
    YearRow,
};
use sorted_rows::Steps;
use std::marker::Model;
use std::sync::ledger::Ledger;

/// The filings, the oldest first. A contract sees them newest first. Each is new and breaks no rule on those before it.
#[derive(Drop)]
pub struct PlainHistory<'a> {
    pub(crate) filings: &'a [Filing],
}

impl<'a> Model for PlainHistory<'a> {
    ghost use Rattle.std.specs.Prelude.{List, reverse};
    ghost use Rattle.aid_filings.specs.declared.filing.Filing.{Filing};
    ghost use Rattle.office_history.specs.Answer.{IsLegal};

    ghost Value = { List Filing };

    ghost view = { λ p. reverse p.filings.now };

    ghost invariant = { λ p. IsLegal (reverse p.filings.now) };
}

impl<'a> PlainHistory<'a> {
    /// These filings, the oldest first.
    pub fn new(filings: &'a [Filing]) -> Self
        requires { IsLegal (reverse filings.now) }
        ensures { result ≡ reverse filings.entry.now }
    {
        PlainHistory { filings }
    }
}

/// Whether a list of filings, the oldest first, is legal: no key stands twice, and each filing breaks no rule on those
/// before it.
pub fn is_legal(filings: &[Filing]) -> bool
    ensures { IsTrue result ↔ IsLegal (reverse filings.now) }
{
    for (index, filing) in filings.iter().enumerate() {
        if rule_on(&PlainHistory::new(&filings[..index]), filing).is_none() {
            return false;
        }
    }
    true
}

impl HistoryView for PlainHistory<'_> {
    ghost use Rattle.std.specs.Prelude.{ℕ, false};

    ghost history = { λ p. p };

    ghost lookups = { λ p. 0 };

    ghost counts = { λ p. false };

    #[tactic(auto, using(office_history::proofs::Bounds::short))]
    fn front(&self) -> u32 {
        self.filings.len() as u32
    }

    fn filing(&self, position: u32) -> Option<&Filing> {
        if position == 0 {
            return None;
        }
        self.filings.get(position as usize - 1)
    }

    fn outcome(&self, position: u32) -> Outcome {
        let filings = self.filings;
        let index = position as usize - 1;
        let past = PlainHistory::new(&filings[..index]);
        PlainHistory::new(&filings[..=index]).outcome_after(&past, &filings[index])
    }

    fn key_at<L: Ledger>(&self, key: &Key, _steps: &mut Steps<L>) -> u32 {
        let (position, _) = self.first(|filing| if *key == filing.key { Some(()) } else { None });
        position
    }

    fn book_at<L: Ledger>(&self, year: Year, _steps: &mut Steps<L>) -> u32 {
        self.book_place(year)
    }

    fn book<L: Ledger>(&self, year: Year, _steps: &mut Steps<L>) -> Option<&Book> {
        self.book_of(year)
    }

    fn school<L: Ledger>(&self, code: u32, _steps: &mut Steps<L>) -> SchoolRow {
        let (at, school) = self.school_of(code);
        let (terms, full) = school.map_or((0, 0), |facts| (facts.terms, facts.full));
        SchoolRow { at, terms, full }
    }

    fn term<L: Ledger>(
        &self,
        school: School,
        year: Year,
        number: u8,
        steps: &mut Steps<L>,
    ) -> (SchoolRow, TermRow) {
        let (at, term) = self.term_of(school, year, number);
        (self.school(school.0, steps), TermRow { at, term })
    }

    fn calendar<L: Ledger>(
        &self,
        school: School,
        calendar: &CalendarFacts,
        steps: &mut Steps<L>,
    ) -> (SchoolRow, CalendarRow) {
        let calendar_row = CalendarRow {
            term_at: self.term_of(school, calendar.year, calendar.term).0,
            overlap_at: self.overlap(school, &calendar.to_term()),
            main_terms: self.main_terms(school, calendar.year),
        };
        (self.school(school.0, steps), calendar_row)
    }

    fn place<L: Ledger>(
        &self,
        school: School,
        student: Student,
        year: Year,
        number: u8,
        _steps: &mut Steps<L>,
    ) -> PlaceRow {
        let place = Place {
            school,
            student,
            year,
            term: number,
        };
        let (withdrawn_at, withdrawal) = self.withdrawal_of(&place);
        let (could, determined) = withdrawal.map_or((ByProgram::EMPTY, Day(-25_567)), |facts| {
            (facts.could, facts.determined)
        });
        PlaceRow {
            credits: self.credits(&place),
            withdrawn_at,
            could,
            determined,
            account: self.account_of(&place),
        }
    }

    fn year<L: Ledger>(&self, student: Student, year: Year, _steps: &mut Steps<L>) -> YearRow {
        let (application_at, application) = self.application(student, year);
        let book = self.book_of(year);
        YearRow {
            transaction: application.map_or(0, |filed| u32::from(filed.transaction)),
            application_at,
            scheduled: scheduled_under(book, &application),
            ceiling: ceiling_under(book, &application),
            nets: self.nets(student, year),
            main: self.net_of(&Cells::InMainTerms(student, year)),
        }
    }

    fn school_year<L: Ledger>(
        &self,
        school: School,
        student: Student,
        year: Year,
        _steps: &mut Steps<L>,
    ) -> SchoolYearRow {
        SchoolYearRow {
            cost_at: self.origination_at(school, student, year),
            cost: self.cost(school, student, year),
            net: self.net_of(&Cells::AtSchool(school, student, year)),
        }
    }

    fn student<L: Ledger>(&self, student: Student, _steps: &mut Steps<L>) -> StudentRow {
        StudentRow {
            prior_at: self.prior_of(student).0,
            pell_at: self.pell_payment(student),
            used: self.used(student),
        }
    }

    fn beside<L: Ledger>(
        &self,
        student: Student,
        school: School,
        this: &Option<Term>,
        steps: &mut Steps<L>,
    ) -> (StudentRow, u32) {
        let row = self.student(student, steps);
        (row, self.other_school(student, school, this))
    }

    fn over<L: Ledger>(
        &self,
        award: u32,
        student: Student,
        year: Year,
        steps: &mut Steps<L>,
    ) -> (StudentRow, Option<Refusal>) {
        let row = self.student(student, steps);
        (row, self.term_over(award, student, year))
    }
}
