//! What a school sent back.
ghost use Rattle.std.specs.Prelude.{◌≡◌, ◌≤◌, IfOk, length, reverse};
ghost use Rattle.sheet_returns.specs.Sendings.{is_of as is_of_program, later_of, last_sent as last_sent_of, sending as sending_in, sendings as sendings_on, sent_late as sent_late_of};

use aid_filings::{Filing, SentFacts, What, WithdrawFacts};
use aid_types::{Day, Program, School, Year};
use office_reports::push_told;
use std::alloc::{AllocError, Global};

/// What a school sent back of a year's returns, filing by filing, the oldest first. An `Err` is want of memory.
pub(crate) fn sendings(
    alloc: Global,
    filings: &[Filing],
    school: School,
    year: Year,
) -> Result<Vec<SentFacts>, AllocError>
    ensures { IfOk result (λ list. list.items ≡ reverse (sendings_on school year (reverse filings.now))) }
{
    let mut list = Vec::new(alloc);
    for filing in filings {
        push_told(sending(school, year, filing), &mut list)?;
    }
    Ok(list)
}

// What a filing tells of it.
fn sending(school: School, year: Year, filing: &Filing) -> Option<SentFacts>
    ensures { result ≡ sending_in school year filing.now.key filing.now.what }
{
    match &filing.what {
        What::Sent(sending) if filing.key.school == school && sending.year == year => Some(
            *sending,
        ),
        _ => None,
    }
}

// Whether it was sent back of a program of a withdrawal.
fn is_of(withdrawal: &WithdrawFacts, program: Program, sending: &SentFacts) -> bool
    ensures { result ≡ is_of_program withdrawal.now program sending.now }
{
    sending.student == withdrawal.student
        && sending.term == withdrawal.term
        && sending.program.rank() == program.rank()
}

/// The last day on which something of a program of a withdrawal was sent back.
pub(crate) fn last_sent(
    withdrawal: &WithdrawFacts,
    program: Program,
    sendings: &[SentFacts],
) -> Option<Day>
    ensures { result ≡ last_sent_of withdrawal.now program (reverse sendings.now) }
{
    let mut last = None;
    for sending in sendings {
        if is_of(withdrawal, program, sending) {
            last = Some(later(sending.day, last));
        }
    }
    last
}

// The later of a day and another, where there is another.
fn later(day: Day, other: Option<Day>) -> Day
    ensures { result ≡ later_of day other }
{
    match other {
        Some(other) if day.is_before(other) => other,
        _ => day,
    }
}

/// What of a program of a withdrawal was sent back after the 45 days, in cents.
pub(crate) fn sent_late(withdrawal: &WithdrawFacts, program: Program, sendings: &[SentFacts]) -> u64
    requires { length sendings.now ≤ 1000000 }
    ensures { result ≡ sent_late_of withdrawal.now program (reverse sendings.now) }
{
    let mut cents = 0;
    for sending in sendings {
        if is_of(withdrawal, program, sending)
            && withdrawal.determined.count() + 45 < sending.day.count()
        {
            cents += sending.cents;
        }
    }
    cents
}
