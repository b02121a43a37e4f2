//! Calls of the law, each under the one clause that refuses a wrong body. The clause is proved of the call, so what it refuses the
//! call's own contract refuses. Each edit of `must-fail/` puts a wrong body in the place of a call, and stands here since a check
//! of this crate costs less than one of the crate whose call it is.
#![tactic(auto)]

ghost use Rattle.std.specs.Prelude.{◌≡◌, ◌∷◌, Ok, Some, IfOk};
ghost use Rattle.aid_types.specs.Ranges.{IsIndex, IsSignedAmount};
ghost use Rattle.format_books.specs.Text.{numbers_of_text};
ghost use Rattle.format_kinds.specs.Book.{numbers_of};
ghost use Rattle.law_pell.specs.Award.{calculated as calculated_of, ceiling_at, income as income_of};
ghost use Rattle.law_r2t4.specs.Worksheet.{AreInputsInRange, worksheet_of};
ghost use Rattle.law_rules.specs.InRange.{AreFactsInRange};
ghost use Rattle.law_rules.specs.Lines.{broken_of, payment_lines};
ghost use Rattle.law_rules.specs.Quote.{greatest_payment};
ghost use Rattle.aid_filings.specs.declared.filing.What.TheVariants.{Withdraw};
ghost use Rattle.aid_filings.specs.declared.filing.WithdrawFacts.{WithdrawFacts as Withdrawal};
ghost use Rattle.office_history.specs.Answer.{IsLegal, answer_of};
ghost use Rattle.office_history.specs.Own.{IsOwnAccount, IsOwnEntry, own_place};
ghost use Rattle.office_history.specs.Past.{the_term};
ghost use Rattle.office_history.specs.Positions.{withdrawn_at as withdrawal_at};
ghost use Rattle.office_history.specs.declared.place.Place.{Place};
ghost use Rattle.office_updates.specs.After.{IsSchoolYearAfter};
ghost use Rattle.office_updates.specs.Changed.{IsSchoolYearBefore};

mod limits;

use aid_books::Book;
use aid_filings::{Filing, Response, What};
use aid_types::{Application, Formula, Key, Refusal, School, Student, Term, Year};
use format_books::{BookError, book_of};
use law_pell::{Ceiling, calculated, ceiling_for, income};
use law_r2t4::{Inputs, Lines, worksheet};
use law_rules::{Facts, broken, quote};
pub use limits::{
    cost_limit, lifetime_limit, main_terms_limit, supplemental_limit, taken_back_limit, term_limit,
    two_schools_limit, year_limit,
};
use office_answers::{answer, entry_of};
use office_history::{Account, HistoryView, SchoolYearRow, StudentSchoolYear};
use office_updates::school_year_after;
use sorted_rows::Steps;
use std::alloc::Global;
use std::sync::ledger::Ledger;

/// The book of a text, each key of which is a book's.
pub fn year_book(alloc: Global, text: &[u8]) -> Result<Book, BookError>
    ensures { IfOk result (λ b. numbers_of_text text.now ≡ Ok (numbers_of b)) }
{
    book_of(alloc, text)
}

/// An index below zero adds nothing to a Calculated award.
pub fn award_calculated(book: &Book, index: i32) -> i64
    requires { IsIndex index }
    ensures value { result ≡ calculated_of book.now index }
    ensures in_range { IsSignedAmount result }
{
    calculated(book, index)
}

/// The ceiling that an index is at or above.
pub fn ceiling_reached(book: &Book, a: &Application, index: i32) -> Ceiling
    requires { IsIndex index }
    ensures { result ≡ ceiling_at book.now a.now index }
{
    ceiling_for(book, a, index)
}

/// The household whose income decides.
pub fn income_that_decides(book: &Book, formula: Formula, a: &Application) -> i64
    ensures { result ≡ income_of book.now formula a.now }
{
    income(book, formula, a)
}

/// What a school and a student return.
pub fn returns(i: &Inputs) -> Lines
    requires { AreInputsInRange i.now }
    ensures { result ≡ worksheet_of i.now.completed i.now.total i.now.charges i.now.net i.now.could }
{
    worksheet(i)
}

/// A quote is the greatest payment that breaks no rule, to the dollar.
pub fn quoted(f: &Facts, school: School, student: Student, year: Year, term: u8) -> u64
    requires { AreFactsInRange f.now }
    ensures { result ≡ greatest_payment (payment_lines f.now school student year term 3) }
{
    quote(f, school, student, year, term)
}

/// The first rule that a filing breaks.
pub fn first_broken(f: &Facts, key: &Key, what: &What) -> Option<Refusal>
    requires { AreFactsInRange f.now }
    ensures { result ≡ broken_of f.now key.now what.now }
{
    broken(f, key, what)
}

/// The answer to a filing.
pub fn answered<P: HistoryView, L: Ledger>(
    past: &P,
    filing: &Filing,
    steps: &mut Steps<L>,
) -> Response
    ensures { result ≡ answer_of (P.history past.now) filing.now }
{
    answer(past, filing, steps)
}

/// What a filing moves in the student's term that it is about.
pub fn entry<P: HistoryView>(
    past: &P,
    filing: &Filing,
    withdrawn_at: u32,
    so_far: &Account,
    term: &Option<Term>,
) -> Account
    requires legal { IsLegal (filing.now ∷ P.history past.now) }
    requires withdrawn { (p : Place) → own_place filing.now.key filing.now.what ≡ Some p
        → withdrawn_at ≡ withdrawal_at (P.history past.now) p.school p.student p.year p.term }
    requires account { IsOwnAccount (P.history past.now) (own_place filing.now.key filing.now.what) so_far.now }
    requires term { (w : Withdrawal) → filing.now.what ≡ Withdraw w → term.now ≡ the_term (P.history past.now) filing.now.key.school w.year w.term }
    ensures { IsOwnEntry (P.history past.now) filing.now.key filing.now.what result }
{
    entry_of(past, filing, withdrawn_at, so_far, term)
}

/// The row of a student's year at a school behind a filing, with the cost of attendance in force.
pub fn costed<P: HistoryView>(
    past: &P,
    filing: &Filing,
    before: &SchoolYearRow,
    moved: &Account,
) -> Option<(StudentSchoolYear, SchoolYearRow)>
    requires legal { IsLegal (filing.now ∷ P.history past.now) }
    requires before { IsSchoolYearBefore (P.history past.now) filing.now before.now }
    requires moved { IsOwnEntry (P.history past.now) filing.now.key filing.now.what moved.now }
    ensures { IsSchoolYearAfter (P.history past.now) filing.now result }
{
    school_year_after(past, filing, before, moved)
}
