//! What is answered on what is on file, where no looks are counted.
ghost use Rattle.std.specs.Prelude.{◌≡◌, ℕ, ◌*◌, ◌<◌, ◌≤◌, None, IfSome, is_some};
ghost use Rattle.aid_filings.specs.declared.reply.Response.TheVariants.{Admit};
ghost use Rattle.aid_types.specs.RuleLines.{first_broken};
ghost use Rattle.office_history.specs.Answer.{answer_of, is_admit, quote_of, standing_of};
ghost use Rattle.office_history.specs.Past.{key_at};
ghost use Rattle.office_history.specs.Rules.{payment_rules};

use crate::responses::answer;
use crate::standings::{quote, standing};
use aid_filings::{Filing, Outcome, Response, StandingRow};
use aid_types::{Key, School, Student, Year};
use office_history::HistoryView;
use sorted_rows::Steps;
use std::marker::Brand;
use std::sync::ledger::{Blank, Ledger};

/// The verdict on a filing.
pub fn verdict_on<P: HistoryView>(past: &P, filing: &Filing) -> Response
    ensures { result ≡ answer_of (P.history past.now) filing.now }
{
    verdict_counted::<P, Brand>(past, filing, Blank::new(1))
}

fn verdict_counted<P: HistoryView, L: Ledger>(past: &P, filing: &Filing, blank: Blank) -> Response
    requires name { blank.name ≡ L.name }
    requires parts { blank.parts ≡ L.parts }
    requires some { 0 < blank.parts }
    ensures { result ≡ answer_of (P.history past.now) filing.now }
{
    answer(past, filing, &mut Steps::<L>::new(blank))
}

/// The position of the filing with a key; 0 where there is none.
pub fn key_position_on<P: HistoryView>(past: &P, key: &Key) -> u32
    ensures { result ≡ key_at key.now (P.history past.now) }
{
    key_position_counted::<P, Brand>(past, key, Blank::new(1))
}

fn key_position_counted<P: HistoryView, L: Ledger>(past: &P, key: &Key, blank: Blank) -> u32
    requires name { blank.name ≡ L.name }
    requires parts { blank.parts ≡ L.parts }
    requires some { 0 < blank.parts }
    ensures { result ≡ key_at key.now (P.history past.now) }
{
    past.key_at(key, &mut Steps::<L>::new(blank))
}

/// With what a filing would be admitted: where its key is new, and it breaks no rule.
pub fn rule_on<P: HistoryView>(past: &P, filing: &Filing) -> Option<Outcome>
    ensures admitted { is_some result ≡ is_admit (answer_of (P.history past.now) filing.now) }
    ensures outcome { IfSome result (λ outcome. answer_of (P.history past.now) filing.now ≡ Admit outcome) }
{
    match verdict_on(past, filing) {
        Response::Admit(outcome) => Some(outcome),
        _ => None,
    }
}

/// The greatest Pell payment that a school could file for a student's term.
pub fn quote_on<P: HistoryView>(
    past: &P,
    school: School,
    student: Student,
    year: Year,
    term: u8,
) -> u64
    ensures value { result ≡ quote_of (P.history past.now) school student year term }
    ensures below { (dollars : ℕ) → 0 < dollars → 100 * dollars ≤ result
        → first_broken (payment_rules (P.history past.now) school student year term 3 (100 * dollars)) ≡ None }
    ensures at_most { result ≤ 99999900 }
{
    quote_counted::<P, Brand>(past, school, student, year, term, Blank::new(1))
}

fn quote_counted<P: HistoryView, L: Ledger>(
    past: &P,
    school: School,
    student: Student,
    year: Year,
    term: u8,
    blank: Blank,
) -> u64
    requires name { blank.name ≡ L.name }
    requires parts { blank.parts ≡ L.parts }
    requires some { 0 < blank.parts }
    ensures value { result ≡ quote_of (P.history past.now) school student year term }
    ensures below { (dollars : ℕ) → 0 < dollars → 100 * dollars ≤ result
        → first_broken (payment_rules (P.history past.now) school student year term 3 (100 * dollars)) ≡ None }
    ensures at_most { result ≤ 99999900 }
{
    quote(
        past,
        school,
        student,
        year,
        term,
        &mut Steps::<L>::new(blank),
    )
}

/// Where a student stands in a year.
pub fn standing_on<P: HistoryView>(past: &P, student: Student, year: Year) -> StandingRow
    ensures { result ≡ standing_of (P.history past.now) student year }
{
    standing_counted::<P, Brand>(past, student, year, Blank::new(1))
}

fn standing_counted<P: HistoryView, L: Ledger>(
    past: &P,
    student: Student,
    year: Year,
    blank: Blank,
) -> StandingRow
    requires name { blank.name ≡ L.name }
    requires parts { blank.parts ≡ L.parts }
    requires some { 0 < blank.parts }
    ensures { result ≡ standing_of (P.history past.now) student year }
{
    standing(past, student, year, &mut Steps::<L>::new(blank))
}
