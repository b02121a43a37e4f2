//! What the earliest filing tells that answers a question, and what is in force.
ghost use Rattle.std.specs.Prelude.{◌≡◌, Option, is_some, option_copied};
ghost use Rattle.aid_filings.specs.declared.filing.Filing.{Filing as Filed};
ghost use Rattle.office_history.specs.Past.{at_school, book_in as book_told, cost, credits as credits_in_force, earliest, first_at, prior_units, the_book, the_school, the_term, the_withdrawal, withdrawal_in as withdrawal_told};
ghost use Rattle.office_history.specs.Positions.{book_at, cost_at, pell_at, prior_at, school_at, term_at, withdrawn_at};
ghost use Rattle.office_plain.specs.Asked.{Answers};

use crate::plain::PlainHistory;
use aid_books::Book;
use aid_filings::{Filing, SchoolFacts, What, WithdrawFacts};
use aid_types::{Program, School, Student, Term, Year};
use office_history::{HistoryView, Place};

impl PlainHistory<'_> {
    /// The position of the earliest filing that answers a question, and what it tells. A position counts from 1, and is 0
    /// where there is none.
    #[tactic(auto, using(office_history::proofs::Bounds::short))]
    pub(crate) fn first<A, F: Fn(&Filing) -> Option<A>>(&self, operation: F) -> (u32, Option<A>)
        requires { F.IsAlwaysCallable operation }
        ensures position { (told : Filed → Option A) → Answers (F.post operation) told → result.0 ≡ first_at (λ f. is_some (told f)) self.now }
        ensures told { (told : Filed → Option A) → Answers (F.post operation) told → result.1 ≡ earliest told self.now }
    {
        let filings = self.filings;
        for index in 0..filings.len() {
            if let Some(told) = operation(&filings[index]) {
                return (index as u32 + 1, Some(told));
            }
        }
        (0, None)
    }

    /// The position of the school with this code, and what is filed of it.
    pub(crate) fn school_of(&self, code: u32) -> (u32, Option<SchoolFacts>)
        ensures position { result.0 ≡ school_at self.now code }
        ensures school { result.1 ≡ the_school self.now code }
    {
        self.first(|filing| match &filing.what {
            What::School(facts) if facts.code == code => Some(*facts),
            _ => None,
        })
    }

    /// The position of the school's term of this year and number, and the term.
    pub(crate) fn term_of(&self, school: School, year: Year, number: u8) -> (u32, Option<Term>)
        ensures position { result.0 ≡ term_at self.now school year number }
        ensures term { result.1 ≡ the_term self.now school year number }
    {
        self.first(|filing| match &filing.what {
            What::Calendar(facts)
                if filing.key.school == school && facts.year == year && facts.term == number => {
                Some(facts.to_term())
            }
            _ => None,
        })
    }

    /// The position of the student's withdrawal from the school's term, and what is filed of it.
    pub(crate) fn withdrawal_of(&self, place: &Place) -> (u32, Option<WithdrawFacts>)
        ensures position { result.0 ≡ withdrawn_at self.now place.now.school place.now.student place.now.year place.now.term }
        ensures withdrawal { result.1 ≡ the_withdrawal self.now place.now.school place.now.student place.now.year place.now.term }
    {
        self.first(|filing| withdrawal_in(filing, place))
    }

    /// The position of the student's use of the lifetime limit before this office, and the use in thousandths of a percent,
    /// 0 where none is on file.
    pub(crate) fn prior_of(&self, student: Student) -> (u32, u32)
        ensures position { result.0 ≡ prior_at self.now student }
        ensures units { result.1 ≡ prior_units self.now student }
    {
        let (position, units) = self.first(|filing| match &filing.what {
            What::Prior(facts) if facts.student == student => Some(facts.units),
            _ => None,
        });
        (position, units.unwrap_or(0))
    }

    /// The position of the student's origination at the school in the year.
    pub(crate) fn origination_at(&self, school: School, student: Student, year: Year) -> u32
        ensures { result ≡ cost_at self.now school student year }
    {
        let (position, _) = self.first(|filing| match &filing.what {
            What::Originate(facts)
                if filing.key.school == school && facts.student == student && facts.year == year =>
                { Some(facts.cost) }
            _ => None,
        });
        position
    }

    /// The student's cost of attendance in dollars at the school in the year, 0 where none is on file (HEA 472). The one filed
    /// last is in force.
    pub(crate) fn cost(&self, school: School, student: Student, year: Year) -> u32
        ensures { result ≡ cost self.now school student year }
    {
        let filings = self.filings;
        let mut last = 0;
        for filing in filings {
            match &filing.what {
                What::Originate(facts) | What::Cost(facts)
                    if filing.key.school == school
                        && facts.student == student
                        && facts.year == year => {
                    last = facts.cost;
                }
                _ => {}
            }
        }
        last
    }

    /// The position of the student's first Pell payment.
    pub(crate) fn pell_payment(&self, student: Student) -> u32
        ensures { result ≡ pell_at self.now student }
    {
        let (position, _) = self.first(|filing| match &filing.what {
            What::Pay(amount)
                if amount.student == student && matches!(amount.program, Program::Pell) => {
                Some(())
            }
            _ => None,
        });
        position
    }

    /// The position of the year's book.
    pub(crate) fn book_place(&self, year: Year) -> u32
        ensures { result ≡ book_at self.now year }
    {
        let (position, _) = self.first(|filing| match &filing.what {
            What::Book(boxed) if boxed.as_book().year == year => Some(()),
            _ => None,
        });
        position
    }

    /// The year's book.
    pub(crate) fn book_of(&self, year: Year) -> Option<&Book>
        ensures { option_copied result ≡ the_book self.now year }
    {
        match self.filing(self.book_place(year)) {
            Some(filing) => book_in(&filing.what, year),
            None => None,
        }
    }

    /// The student's credits in the school's term, 0 where none are on file. Those filed last are in force.
    pub(crate) fn credits(&self, place: &Place) -> u8
        ensures { result ≡ credits_in_force self.now place.now.school place.now.student place.now.year place.now.term }
    {
        let filings = self.filings;
        let mut last = 0;
        for filing in filings {
            match &filing.what {
                What::Enroll(facts)
                    if filing.key.school == place.school
                        && facts.student == place.student
                        && facts.year == place.year
                        && facts.term == place.term => {
                    last = facts.credits;
                }
                _ => {}
            }
        }
        last
    }
}

// The year's book, where that is filed.
fn book_in(what: &What, year: Year) -> Option<&Book>
    ensures { option_copied result ≡ book_told year what.now }
{
    match what {
        What::Book(boxed) if boxed.as_book().year == year => Some(boxed.as_book()),
        _ => None,
    }
}

/// The student's withdrawal from the school's term, where that is filed.
pub(crate) fn withdrawal_in(filing: &Filing, place: &Place) -> Option<WithdrawFacts>
    ensures { result ≡ at_school place.now.school (withdrawal_told place.now.student place.now.year place.now.term) filing.now }
{
    match &filing.what {
        What::Withdraw(facts)
            if filing.key.school == place.school
                && facts.student == place.student
                && facts.year == place.year
                && facts.term == place.term => { Some(*facts) }
        _ => None,
    }
}
