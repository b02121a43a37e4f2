//! Walks along a school's terms, from the newest to the oldest. A step is a look at a term that is filed, or at where the one
//! before it stands.
ghost use Rattle.std.specs.Prelude.{◌≡◌, ◌+◌, ◌*◌, ◌<◌, ◌≤◌, cond, is_some, length, reverse};
ghost use Rattle.aid_filings.specs.Calendars.{term_of};
ghost use Rattle.office_history.specs.Answer.{IsLegal};
ghost use Rattle.office_history.specs.Past.{term_in as term_filed};
ghost use Rattle.office_history.specs.Rows.{calendar_row, term_row, terms_at};
ghost use Rattle.office_updates.specs.Links.{befores_of, newest_term};
ghost use Rattle.office_updates.specs.Walks.{is_main as is_main_term, overlaps as is_overlapping};

use aid_filings::{CalendarFacts, Filing, What};
use aid_types::{School, Term, Year};
use law_terms::shares_day;
use office_history::{CalendarRow, TermRow};
use sorted_rows::Steps;
use std::sync::ledger::Ledger;

/// A school's term of a year and a number, where `newest` is the position of the school's newest term, and `befores` tells of
/// each filing where the one before it stands.
pub fn school_term<L: Ledger>(
    filings: &[Filing],
    befores: &[u32],
    newest: u32,
    school: School,
    year: Year,
    number: u8,
    steps: &mut Steps<L>,
) -> TermRow
    requires legal { IsLegal (reverse filings.now) }
    requires linked { befores.now ≡ befores_of (reverse filings.now) }
    requires newest { newest ≡ newest_term (reverse filings.now) school }
    ensures value { result ≡ term_row (reverse filings.now) school year number }
    ensures later { steps.old ≤ steps.new }
    ensures cost { steps.new ≤ steps.old + 2 * terms_at (reverse filings.now) school }
    ensures counted { result.at ≡ 0 → steps.new ≡ steps.old + 2 * terms_at (reverse filings.now) school }
{
    let mut at = newest;
    while 0 < at {
        let index = at as usize - 1;
        steps.tick(); // the filing
        if let Some(term) = term_here(&filings[index].what, year, number) {
            return TermRow {
                at,
                term: Some(term),
            };
        }
        steps.tick(); // where the one before it stands
        at = befores[index];
    }
    TermRow { at: 0, term: None }
}

/// What the school's terms say of a calendar, where `newest` is the position of the school's newest term.
pub fn school_calendar<L: Ledger>(
    filings: &[Filing],
    befores: &[u32],
    newest: u32,
    school: School,
    calendar: &CalendarFacts,
    steps: &mut Steps<L>,
) -> CalendarRow
    requires legal { IsLegal (reverse filings.now) }
    requires linked { befores.now ≡ befores_of (reverse filings.now) }
    requires newest { newest ≡ newest_term (reverse filings.now) school }
    ensures value { result ≡ calendar_row (reverse filings.now) school calendar.now }
    ensures cost { steps.new ≡ steps.old + 2 * terms_at (reverse filings.now) school }
{
    let mut row = CalendarRow {
        term_at: 0,
        overlap_at: 0,
        main_terms: 0,
    };
    let mut at = newest;
    while 0 < at {
        let index = at as usize - 1;
        steps.tick();
        row = with_calendar(&filings[index], at, calendar, row);
        steps.tick();
        at = befores[index];
    }
    row
}

// The term of the year and the number, where it is filed.
fn term_here(what: &What, year: Year, number: u8) -> Option<Term>
    ensures { result ≡ term_filed year number what.now }
{
    match what {
        What::Calendar(filed) if filed.year == year && filed.term == number => Some(
            filed.to_term(),
        ),
        _ => None,
    }
}

// What was found so far of a calendar, with an older filing.
fn with_calendar(
    filing: &Filing,
    at: u32,
    calendar: &CalendarFacts,
    row: CalendarRow,
) -> CalendarRow
    requires { row.main_terms ≤ 1000000 }
    ensures term_at { result.term_at ≡ cond (is_some (term_filed calendar.now.year calendar.now.term filing.now.what)) at row.term_at }
    ensures overlap_at { result.overlap_at ≡ cond (is_overlapping (term_of calendar.now) filing.now.what) at row.overlap_at }
    ensures main_terms { result.main_terms ≡ row.main_terms + cond (is_main_term calendar.now.year filing.now.what) 1 0 }
{
    let what = &filing.what;
    CalendarRow {
        term_at: if is_numbered(what, calendar.year, calendar.term) {
            at
        } else {
            row.term_at
        },
        overlap_at: if overlaps(what, &calendar.to_term()) {
            at
        } else {
            row.overlap_at
        },
        main_terms: if is_main(what, calendar.year) {
            row.main_terms + 1
        } else {
            row.main_terms
        },
    }
}

// Whether the term of the year and the number is filed.
fn is_numbered(what: &What, year: Year, number: u8) -> bool
    ensures { result ≡ is_some (term_filed year number what.now) }
{
    match what {
        What::Calendar(filed) => filed.year == year && filed.term == number,
        _ => false,
    }
}

// Whether a term is filed that shares a day with this one.
fn overlaps(what: &What, term: &Term) -> bool
    ensures { result ≡ is_overlapping term.now what.now }
{
    match what {
        What::Calendar(filed) => shares_day(term, &filed.to_term()),
        _ => false,
    }
}

// Whether a main term of the year is filed.
fn is_main(what: &What, year: Year) -> bool
    ensures { result ≡ is_main_term year what.now }
{
    match what {
        What::Calendar(filed) => filed.year == year && !filed.extra,
        _ => false,
    }
}
