//! What an application brings: its formula, final index and award.
ghost use Rattle.std.specs.Prelude.{◌≡◌};
ghost use Rattle.std.specs.Option.{option_copied};
ghost use Rattle.office_answers.specs.Brought.{awarded, brought_by};
ghost use Rattle.office_history.specs.Answer.{indexed_by};
ghost use Rattle.office_history.specs.Award.{unfit_under};

use aid_books::Book;
use aid_filings::Outcome;
use aid_types::{Application, Refusal};
use law_sai::{fits, formula_of};
use office_history::decision;

/// What an application brings under a book: its formula, final index, way and award.
pub fn indexed_by_book(book: &Book, application: &Application) -> Outcome
    ensures { result ≡ indexed_by book.now application.now }
{
    let decision = decision(book, application);
    Outcome::Indexed {
        formula: formula_of(book, application),
        sai: decision.sai,
        way: decision.way,
        scheduled: decision.scheduled,
    }
}

/// Why an application is out of range for its year's book.
pub(crate) fn unfit(book: Option<&Book>, application: &Application) -> Option<Refusal>
    ensures { result ≡ unfit_under (option_copied book.entry) application.now }
{
    fits(book?, application)
}

/// What an application brings under its year's book; nothing where there is no book, or it is out of range for it.
pub(crate) fn brought_under(
    book: Option<&Book>,
    application: &Application,
    unfit: &Option<Refusal>,
) -> Outcome
    ensures { result ≡ brought_by unfit.now (option_copied book.entry) application.now }
{
    match (book, unfit) {
        (Some(book), None) => indexed_by_book(book, application),
        _ => Outcome::Noted,
    }
}

/// The Scheduled Award in dollars that an outcome tells, 0 where it tells none.
pub fn award_in(outcome: &Outcome) -> u32
    ensures { result ≡ awarded outcome.now }
{
    match outcome {
        Outcome::Indexed { scheduled, .. } => *scheduled,
        _ => 0,
    }
}
