//! What the rules of a filing that is only noted read of the filings so far. Each row is asked for once.
ghost use Rattle.std.specs.Prelude.{◌≡◌, ◌+◌, ◌*◌, ◌≤◌, None};
ghost use Rattle.aid_filings.specs.Students.{student_of};
ghost use Rattle.aid_filings.specs.declared.filing.What.TheVariants.{Calendar, Enroll, Repay, Adjust, Sent};
ghost use Rattle.office_history.specs.FactsOf.{facts_of, no_facts};
ghost use Rattle.office_history.specs.Rows.{terms_at};
ghost use Rattle.office_answers.specs.Noted.{IsNoted};
ghost use Rattle.office_answers.specs.Walked.{walked};

use aid_filings::{Amount, CalendarFacts, EnrollFacts, Filing, SentFacts, What};
use aid_types::{Key, Program};
use law_rules::Facts;
use office_history::{HistoryView, SchoolRow};
use sorted_rows::Steps;
use std::sync::ledger::Ledger;

/// What a filing that is only noted reads.
pub(crate) fn noted_facts<P: HistoryView, L: Ledger>(
    past: &P,
    filing: &Filing,
    steps: &mut Steps<L>,
) -> Facts
    requires { IsNoted filing.now.what }
    ensures value { result ≡ facts_of (P.history past.now) filing.now.key filing.now.what }
    ensures later { steps.old ≤ steps.new }
    ensures cost { steps.new ≤ steps.old + 5 * P.lookups past.now + 4 * walked (P.history past.now) filing.now.key.school (student_of filing.now.what) }
{
    let key = &filing.key;
    let desk = key.school.0;
    match &filing.what {
        What::Book(book) => Facts {
            book_at: past.book_at(book.as_book().year, steps),
            ..desk_facts(past.front(), &past.school(desk, steps))
        },
        What::School(school) => Facts {
            code_at: past.school(school.code, steps).at,
            ..desk_facts(past.front(), &past.school(desk, steps))
        },
        What::Calendar(calendar) => calendar_facts(past, key, calendar, steps),
        What::Prior(prior) => {
            let student = past.student(prior.student, steps);
            Facts {
                prior_at: student.prior_at,
                pell_at: student.pell_at,
                ..desk_facts(past.front(), &past.school(desk, steps))
            }
        }
        What::Enroll(enrollment) => enrollment_facts(past, key, enrollment, steps),
        What::Originate(filed) => Facts {
            transaction: past.year(filed.student, filed.year, steps).transaction,
            cost_at: past
                .school_year(key.school, filed.student, filed.year, steps)
                .cost_at,
            ..desk_facts(past.front(), &past.school(desk, steps))
        },
        What::Repay(amount) => repayment_facts(past, key, amount, steps),
        What::Adjust(amount) => adjustment_facts(past, key, amount, steps),
        What::Cost(filed) => {
            let of_year = past.school_year(key.school, filed.student, filed.year, steps);
            Facts {
                cost_at: of_year.cost_at,
                net_all: of_year.net,
                ..desk_facts(past.front(), &past.school(desk, steps))
            }
        }
        What::Sent(sent) => sending_facts(past, key, sent, steps),
        What::Amend(_) => desk_facts(past.front(), &past.school(desk, steps)),
        What::Apply(_) | What::Pay(_) | What::Withdraw(_) => unreachable!(),
    }
}

/// What is given for every kind.
pub(crate) fn desk_facts(filings: u32, school: &SchoolRow) -> Facts
    ensures { result ≡ record no_facts { filings = filings; school_at = school.now.at; terms = school.now.terms; full = school.now.full } }
{
    Facts {
        filings,
        school_at: school.at,
        terms: school.terms,
        full: school.full,
        ..Facts::EMPTY
    }
}

// What a term that is filed reads.
fn calendar_facts<P: HistoryView, L: Ledger>(
    past: &P,
    key: &Key,
    calendar: &CalendarFacts,
    steps: &mut Steps<L>,
) -> Facts
    ensures value { result ≡ facts_of (P.history past.now) key.now (Calendar calendar.now) }
    ensures later { steps.old ≤ steps.new }
    ensures cost { steps.new ≤ steps.old + P.lookups past.now + 4 * walked (P.history past.now) key.now.school None }
{
    let filings = past.front();
    let (school, terms) = past.calendar(key.school, calendar, steps);
    Facts {
        term_at: terms.term_at,
        overlap_at: terms.overlap_at,
        main_terms: terms.main_terms as u8,
        ..desk_facts(filings, &school)
    }
}

// What an enrollment reads.
fn enrollment_facts<P: HistoryView, L: Ledger>(
    past: &P,
    key: &Key,
    filed: &EnrollFacts,
    steps: &mut Steps<L>,
) -> Facts
    ensures value { result ≡ facts_of (P.history past.now) key.now (Enroll filed.now) }
    ensures later { steps.old ≤ steps.new }
    ensures cost { steps.new ≤ steps.old + 3 * P.lookups past.now + 4 * terms_at (P.history past.now) key.now.school }
{
    let (school, term) = past.term(key.school, filed.year, filed.term, steps);
    let place = past.place(key.school, filed.student, filed.year, filed.term, steps);
    Facts {
        term_at: term.at,
        scheduled: past.year(filed.student, filed.year, steps).scheduled,
        withdrawn_at: place.withdrawn_at,
        pell_term: place.account.net(Program::Pell),
        ..desk_facts(past.front(), &school)
    }
}

// What a repayment reads.
fn repayment_facts<P: HistoryView, L: Ledger>(
    past: &P,
    key: &Key,
    filed: &Amount,
    steps: &mut Steps<L>,
) -> Facts
    ensures value { result ≡ facts_of (P.history past.now) key.now (Repay filed.now) }
    ensures later { steps.old ≤ steps.new }
    ensures cost { steps.new ≤ steps.old + 2 * P.lookups past.now }
{
    let place = past.place(key.school, filed.student, filed.year, filed.term, steps);
    Facts {
        owed: place.account.owed.at(filed.program),
        repaid: place.account.repaid.at(filed.program),
        ..desk_facts(past.front(), &past.school(key.school.0, steps))
    }
}

// What a downward adjustment reads.
fn adjustment_facts<P: HistoryView, L: Ledger>(
    past: &P,
    key: &Key,
    filed: &Amount,
    steps: &mut Steps<L>,
) -> Facts
    ensures value { result ≡ facts_of (P.history past.now) key.now (Adjust filed.now) }
    ensures later { steps.old ≤ steps.new }
    ensures cost { steps.new ≤ steps.old + 2 * P.lookups past.now + 4 * terms_at (P.history past.now) key.now.school }
{
    let (school, term) = past.term(key.school, filed.year, filed.term, steps);
    let place = past.place(key.school, filed.student, filed.year, filed.term, steps);
    Facts {
        term_at: term.at,
        withdrawn_at: place.withdrawn_at,
        net: place.account.net(filed.program),
        ..desk_facts(past.front(), &school)
    }
}

// What a return that was sent back reads.
fn sending_facts<P: HistoryView, L: Ledger>(
    past: &P,
    key: &Key,
    filed: &SentFacts,
    steps: &mut Steps<L>,
) -> Facts
    ensures value { result ≡ facts_of (P.history past.now) key.now (Sent filed.now) }
    ensures later { steps.old ≤ steps.new }
    ensures cost { steps.new ≤ steps.old + 2 * P.lookups past.now }
{
    let place = past.place(key.school, filed.student, filed.year, filed.term, steps);
    Facts {
        withdrawn_at: place.withdrawn_at,
        determined: place.determined,
        returned: place.account.returned.at(filed.program),
        sent: place.account.sent.at(filed.program),
        ..desk_facts(past.front(), &past.school(key.school.0, steps))
    }
}
