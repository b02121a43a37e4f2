//! The application in force, the award that it gives, and with what the newest filing was admitted.
ghost use Rattle.std.specs.Prelude.{◌≡◌, ◌∷◌, option_copied, sum};
ghost use Rattle.aid_filings.specs.declared.reply.Outcome.TheVariants.{Returned};
ghost use Rattle.office_history.specs.Answer.{indexed, outcome_of};
ghost use Rattle.office_history.specs.Award.{award_under, ceiling_under as ceiling_told, scheduled as scheduled_award};
ghost use Rattle.office_history.specs.Net.{sheet as sheet_after};
ghost use Rattle.office_history.specs.Past.{application as application_of, application_in as application_told, is_higher as is_higher_of, the_book};
ghost use Rattle.office_history.specs.Positions.{application_at};
ghost use Rattle.office_history.specs.Sheets.{CanBeWorkedOut};

use crate::moved::{Cells, place};
use crate::plain::PlainHistory;
use aid_books::Book;
use aid_filings::{Filing, Outcome, What, WithdrawFacts};
use aid_types::{Application, Key, Student, Year};
use law_pell::Ceiling;
use office_answers::{indexed_by_book, returned_outcome};
use office_history::{HistoryView, award, ceiling};

impl PlainHistory<'_> {
    /// The student's application in force in the year, which is the first with the highest transaction, and its position.
    #[tactic(auto, using(office_history::proofs::Bounds::short))]
    pub fn application(&self, student: Student, year: Year) -> (u32, Option<Application>)
        ensures position { result.0 ≡ application_at self.now student year }
        ensures application { result.1 ≡ application_of self.now student year }
    {
        let filings = self.filings;
        let mut position = 0;
        let mut standing = None;
        for index in 0..filings.len() {
            let new = application_in(&filings[index].what, student, year);
            if is_higher(&new, &standing) {
                position = index as u32 + 1;
                standing = new;
            }
        }
        (position, standing)
    }

    /// The Scheduled Award in dollars that the application in force gives under the year's book, 0 where one of them is
    /// missing (HEA 401(b)).
    pub(crate) fn scheduled(&self, student: Student, year: Year) -> u32
        ensures { result ≡ scheduled_award self.now student year }
    {
        scheduled_under(self.book_of(year), &self.application(student, year).1)
    }

    // What the application in force brings under the year's book.
    fn brought(&self, student: Student, year: Year) -> Outcome
        ensures { result ≡ indexed (the_book self.now year) (application_of self.now student year) }
    {
        match (self.book_of(year), self.application(student, year).1) {
            (Some(book), Some(application)) => indexed_by_book(book, &application),
            _ => Outcome::Noted,
        }
    }

    /// With what the newest filing of this list was admitted after the others: an application with the award it brings, a
    /// payment with the year's net of its program and the lifetime use, both with it, a withdrawal with its worksheet.
    pub(crate) fn outcome_after(&self, past: &PlainHistory<'_>, newest: &Filing) -> Outcome
        requires { self.now ≡ newest.now ∷ past.now }
        ensures { result ≡ outcome_of past.now newest.now }
    {
        // The front tells that the list is legal.
        let _filings = self.front();
        match &newest.what {
            What::Apply(filed) => self.brought(filed.student, filed.year),
            What::Pay(amount) => Outcome::Paid {
                paid: self.net_of(&Cells::InYear(amount.student, amount.year, amount.program)),
                used: self.used(amount.student),
            },
            What::Withdraw(facts) => past.worked_out(&newest.key, facts),
            _ => Outcome::Noted,
        }
    }

    // The figures of a withdrawal's worksheet.
    fn worked_out(&self, key: &Key, facts: &WithdrawFacts) -> Outcome
        requires { CanBeWorkedOut self.now key.now facts.now }
        ensures { let s = sheet_after self.now key.now facts.now in result ≡ Returned s.percent s.school (sum s.owed) s.post }
    {
        // The front tells that the list is legal.
        let _filings = self.front();
        let place = place(key.school, facts.student, facts.year, facts.term);
        returned_outcome(&self.sheet(key, facts, &self.account_of(&place)))
    }
}

/// The Scheduled Award in dollars that an application gives under a book, 0 where one of them is missing.
pub(crate) fn scheduled_under(book: Option<&Book>, application: &Option<Application>) -> u32
    ensures { result ≡ award_under (option_copied book.entry) application.now }
{
    match (book, application) {
        (Some(book), Some(application)) => award(book, application),
        _ => 0,
    }
}

/// The ceiling that decides on an application under a book; none where one of them is missing.
pub(crate) fn ceiling_under(book: Option<&Book>, application: &Option<Application>) -> Ceiling
    ensures { result ≡ ceiling_told (option_copied book.entry) application.now }
{
    match (book, application) {
        (Some(book), Some(application)) => ceiling(book, application),
        _ => Ceiling::NONE,
    }
}

// Whether an application has a higher transaction than the one before it.
fn is_higher(new: &Option<Application>, before: &Option<Application>) -> bool
    ensures { result ≡ is_higher_of new.now before.now }
{
    match (new, before) {
        (Some(new), Some(before)) => before.transaction < new.transaction,
        _ => new.is_some(),
    }
}

// The student's application of the year, where that is filed.
fn application_in(what: &What, student: Student, year: Year) -> Option<Application>
    ensures { result ≡ application_told student year what.now }
{
    match what {
        What::Apply(filed) if filed.student == student && filed.year == year => Some(*filed),
        _ => None,
    }
}
