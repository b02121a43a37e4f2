//! The worksheet of a withdrawal.
ghost use Rattle.std.specs.Prelude.{◌≡◌, ◌≤◌};
ghost use Rattle.aid_types.specs.Programs.{minus};
ghost use Rattle.aid_types.specs.Ranges.{EachIsCents};
ghost use Rattle.law_terms.specs.Terms.{IsLawful, days_upto};
ghost use Rattle.office_history.specs.Net.{sheet as sheet_after};
ghost use Rattle.office_history.specs.Past.{the_term};
ghost use Rattle.office_history.specs.Accounts.{IsAccount};
ghost use Rattle.office_history.specs.Sheets.{CanBeWorkedOut};
ghost use Rattle.law_r2t4.specs.Worksheet.{worksheet_of};

use aid_filings::WithdrawFacts;
use aid_types::{Key, Term};
use law_r2t4::{Inputs, Lines, worksheet};
use law_terms::days;
use office_history::{Account, HistoryView};

/// The worksheet of a withdrawal from a term, on what moved in the student's term before it (34 CFR 668.22).
#[tactic(auto, using(crate::proofs::TermDays::days_begun, crate::proofs::TermDays::days_inside))]
pub fn sheet(term: &Term, withdrawal: &WithdrawFacts, so_far: &Account) -> Lines
    requires lawful { IsLawful term.now }
    requires begun { term.now.first ≤ withdrawal.now.last }
    requires inside { withdrawal.now.last ≤ term.now.last }
    requires nets { EachIsCents (minus so_far.now.paid so_far.now.taken) }
    ensures { result ≡ worksheet_of (days_upto term.now withdrawal.now.last) (days_upto term.now term.now.last) withdrawal.now.charges
        (minus so_far.now.paid so_far.now.taken) withdrawal.now.could }
{
    worksheet(&Inputs {
        completed: days(term, withdrawal.last),
        total: days(term, term.last),
        charges: withdrawal.charges,
        net: so_far.paid.minus(&so_far.taken),
        could: withdrawal.could,
    })
}

/// The worksheet of a withdrawal on what is on file of its term, and on what moved in the student's term before it.
pub(crate) fn sheet_on_file<P: HistoryView>(
    past: &P,
    key: &Key,
    withdrawal: &WithdrawFacts,
    term: &Option<Term>,
    so_far: &Account,
) -> Lines
    requires worked_out { CanBeWorkedOut (P.history past.now) key.now withdrawal.now }
    requires term { term.now ≡ the_term (P.history past.now) key.now.school withdrawal.now.year withdrawal.now.term }
    requires account { IsAccount (P.history past.now) key.now.school withdrawal.now.student withdrawal.now.year withdrawal.now.term so_far.now }
    ensures value { result ≡ sheet_after (P.history past.now) key.now withdrawal.now }
    ensures owed { EachIsCents result.owed }
{
    let _filings = past.front();
    match term {
        Some(term) => sheet(term, withdrawal, so_far),
        None => unreachable!(),
    }
}
