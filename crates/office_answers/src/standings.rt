//! Quotes, and where a student stands, over whatever keeps what is on file.
ghost use Rattle.std.specs.Prelude.{◌≡◌, ℕ, ◌+◌, ◌*◌, ◌<◌, ◌≤◌, Some, None, IsSome, IsTrue};
ghost use Rattle.std.specs.Option.{option_copied};
ghost use Rattle.aid_types.specs.RuleLines.{first_broken};
ghost use Rattle.office_history.specs.Answer.{quote_of, standing_of, standing_under};
ghost use Rattle.office_history.specs.FirstEnrollments.{places_of};
ghost use Rattle.office_history.specs.Past.{the_term};
ghost use Rattle.office_history.specs.Rows.{filing_in, told_application};
ghost use Rattle.office_history.specs.Rules.{payment_rules};
ghost use Rattle.office_answers.specs.Walked.{walked};

use crate::gathered::payment_facts;
use aid_books::Book;
use aid_filings::{StandingRow, What};
use aid_types::{Application, Formula, Program, School, Student, Way, Year};
use law_sai::formula_of;
use office_history::{HistoryView, decision};
use sorted_rows::Steps;
use std::sync::ledger::Ledger;

/// The greatest Pell payment in cents, of whole dollars, that the school could file for the student's term under a new
/// key; 0 where there is none.
#[tactic(auto, using(office_history::proofs::LinesOf::payment_lines_are, office_history::proofs::FactsInRange::payment_in_range))]
pub fn quote<P: HistoryView, L: Ledger>(
    past: &P,
    school: School,
    student: Student,
    year: Year,
    term: u8,
    steps: &mut Steps<L>,
) -> u64
    ensures value { result ≡ quote_of (P.history past.now) school student year term }
    // Each smaller payment of whole dollars breaks no rule either.
    ensures below { (dollars : ℕ) → 0 < dollars → 100 * dollars ≤ result
        → first_broken (payment_rules (P.history past.now) school student year term 3 (100 * dollars)) ≡ None }
    ensures at_most { result ≤ 99999900 }
    ensures later { steps.old ≤ steps.new }
    ensures walked { IsTrue (P.counts past.now) → IsSome (the_term (P.history past.now) school year term)
        → steps.old + 3 * places_of (P.history past.now) student ≤ steps.new }
    ensures cost { steps.new ≤ steps.old + 5 * P.lookups past.now + 4 * walked (P.history past.now) school (Some student) }
{
    // The front tells that what is on file is legal.
    let _filings = past.front();
    let read = payment_facts(past, school, student, year, term, Program::Pell, steps);
    law_rules::quote(&read.facts, school, student, year, term)
}

/// Where a student stands in a year: the application in force with its award, the year's net Pell at all schools and the
/// lifetime units used.
#[tactic(auto, using(office_history::proofs::InForce::in_force))]
pub fn standing<P: HistoryView, L: Ledger>(
    past: &P,
    student: Student,
    year: Year,
    steps: &mut Steps<L>,
) -> StandingRow
    ensures value { result ≡ standing_of (P.history past.now) student year }
    ensures later { steps.old ≤ steps.new }
    ensures cost { steps.new ≤ steps.old + 3 * P.lookups past.now }
{
    let book = past.book(year, steps);
    let of_year = past.year(student, year, steps);
    let paid = of_year.nets.at(Program::Pell);
    let used = past.student(student, steps).used;
    match (book, application_at(past, of_year.application_at)) {
        (Some(book), Some(application)) => with_award(book, application, paid, used),
        _ => StandingRow {
            transaction: 0,
            formula: Formula::A,
            sai: 0,
            way: Way::Nothing,
            scheduled: 0,
            paid,
            used,
        },
    }
}

// The application at a position; `None` where there is none.
fn application_at<P: HistoryView>(past: &P, position: u32) -> Option<&Application>
    ensures { option_copied result ≡ told_application (filing_in (P.history past.now) position) }
{
    match &past.filing(position)?.what {
        What::Apply(application) => Some(application),
        _ => None,
    }
}

fn with_award(book: &Book, application: &Application, paid: u64, used: u32) -> StandingRow
    ensures { result ≡ standing_under (Some book.now) (Some application.now) paid used }
{
    let decision = decision(book, application);
    StandingRow {
        transaction: u32::from(application.transaction),
        formula: formula_of(book, application),
        sai: decision.sai,
        way: decision.way,
        scheduled: decision.scheduled,
        paid,
        used,
    }
}
