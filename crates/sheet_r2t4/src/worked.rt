//! What a withdrawal was worked out from, and its worksheet.
ghost use Rattle.std.specs.Prelude.{◌≡◌, ◌<◌, ◌≤◌, Some};
ghost use Rattle.aid_types.specs.Ranges.{EachIsCents};
ghost use Rattle.law_terms.specs.Terms.{IsLawful};
ghost use Rattle.office_history.specs.Accounts.{IsAccount};
ghost use Rattle.office_history.specs.Net.{sheet as sheet_after};
ghost use Rattle.office_history.specs.Past.{the_term};
ghost use Rattle.office_history.specs.Sheets.{CanBeWorkedOut};
ghost use Rattle.sheet_r2t4.specs.ReturnEntries.{nets_of};

use aid_filings::WithdrawFacts;
use aid_types::{ByProgram, Key, Term};
use law_r2t4::Lines;
use office_answers::sheet;
use office_history::{Account, HistoryView};
use office_plain::PlainHistory;
use sorted_rows::Steps;
use std::marker::Brand;
use std::sync::ledger::{Blank, Ledger};

/// The term of a withdrawal, the nets of its programs before it, and its worksheet.
#[derive(Clone, Copy)]
pub(crate) struct WorkedOut {
    pub term: Term,
    pub net: ByProgram,
    pub lines: Lines,
}

/// The worksheet of a withdrawal on the filings before it, with what it was worked out from.
pub(crate) fn worked_out(
    past: &PlainHistory<'_>,
    key: &Key,
    withdrawal: &WithdrawFacts,
) -> WorkedOut
    requires { CanBeWorkedOut past.now key.now withdrawal.now }
    ensures term { Some result.term ≡ the_term past.now key.now.school withdrawal.now.year withdrawal.now.term }
    ensures lawful { IsLawful result.term }
    ensures begun { result.term.first ≤ withdrawal.now.last }
    ensures inside { withdrawal.now.last ≤ result.term.last }
    ensures net { result.net ≡ nets_of past.now key.now withdrawal.now }
    ensures cents { EachIsCents result.net }
    ensures lines { result.lines ≡ sheet_after past.now key.now withdrawal.now }
{
    // The front tells that the list is legal.
    let _front = past.front();
    let (term, so_far) = on_file::<Brand>(past, key, withdrawal, Blank::new(1));
    match term {
        Some(term) => WorkedOut {
            term,
            net: so_far.paid.minus(&so_far.taken),
            lines: sheet(&term, withdrawal, &so_far),
        },
        None => unreachable!(),
    }
}

// What is on file of a withdrawal: its term, and what moved in the student's term.
fn on_file<L: Ledger>(
    past: &PlainHistory<'_>,
    key: &Key,
    withdrawal: &WithdrawFacts,
    blank: Blank,
) -> (Option<Term>, Account)
    requires name { blank.name ≡ L.name }
    requires parts { blank.parts ≡ L.parts }
    requires some { 0 < blank.parts }
    ensures term { result.0 ≡ the_term past.now key.now.school withdrawal.now.year withdrawal.now.term }
    ensures account { IsAccount past.now key.now.school withdrawal.now.student withdrawal.now.year withdrawal.now.term result.1 }
{
    let WithdrawFacts {
        student,
        year,
        term,
        ..
    } = *withdrawal;
    let mut steps = Steps::<L>::new(blank);
    let place = past.place(key.school, student, year, term, &mut steps);
    let (_, row) = past.term(key.school, year, term, &mut steps);
    (row.term, place.account)
}
