//! What is read of the filings so far to judge an application, a payment or a withdrawal: the facts that its rules are tried
//! on, and what its outcome is worked out from. Each row is asked for once, but for the book of an application, which is asked
//! for with its position.
ghost use Rattle.std.specs.Prelude.{◌≡◌, ◌+◌, ◌*◌, ◌≤◌, Some, None, IsSome, IsTrue};
ghost use Rattle.aid_types.specs.Programs.{rank as rank_of};
ghost use Rattle.aid_filings.specs.declared.filing.What.TheVariants.{Apply, Withdraw};
ghost use Rattle.office_history.specs.Answer.{indexed};
ghost use Rattle.office_history.specs.Award.{unfit_under};
ghost use Rattle.office_history.specs.FactsOf.{aid_facts as aid_facts_of, facts_of, payment_facts as payment_facts_of};
ghost use Rattle.office_history.specs.Net.{used_else as used_else_of};
ghost use Rattle.office_history.specs.FirstEnrollments.{places_of};
ghost use Rattle.office_history.specs.Past.{the_book, the_term};
ghost use Rattle.office_history.specs.Rows.{place_row, student_row, term_row, terms_at, year_row};
ghost use Rattle.office_answers.specs.Walked.{walked};

use crate::applications::{award_in, brought_under, unfit};
use crate::noted::desk_facts;
use aid_filings::{Outcome, WithdrawFacts};
use aid_types::{Application, Key, Program, School, Student, Year};
use law_rules::Facts;
use law_terms::use_of;
use office_history::{HistoryView, PlaceRow, StudentRow, TermRow, YearRow};
use sorted_rows::Steps;
use std::sync::ledger::Ledger;

/// What an application reads, and what it brings under the book of its year, where it isn't out of range for it.
#[derive(Clone, Copy)]
pub(crate) struct ApplicationFacts {
    pub facts: Facts,
    pub brought: Outcome,
}

/// What a payment reads, and the year and the student before it.
#[derive(Clone, Copy)]
pub(crate) struct PaymentFacts {
    pub facts: Facts,
    pub year: YearRow,
    pub student: StudentRow,
}

/// What a payment and a withdrawal read alike, with the rows of the term, of the student's term and of the student's year.
#[derive(Clone, Copy)]
pub(crate) struct AidFacts {
    pub facts: Facts,
    pub term: TermRow,
    pub place: PlaceRow,
    pub year: YearRow,
}

/// What an application reads, with what it brings.
#[tactic(auto, using(crate::proofs::Applied::award_brought, crate::proofs::Applied::brought_at_most))]
pub(crate) fn application_facts<P: HistoryView, L: Ledger>(
    past: &P,
    key: &Key,
    filed: &Application,
    steps: &mut Steps<L>,
) -> ApplicationFacts
    ensures facts { result.facts ≡ facts_of (P.history past.now) key.now (Apply filed.now) }
    ensures brought { unfit_under (the_book (P.history past.now) filed.now.year) filed.now ≡ None
        → result.brought ≡ indexed (the_book (P.history past.now) filed.now.year) (Some filed.now) }
    ensures later { steps.old ≤ steps.new }
    ensures cost { steps.new ≤ steps.old + 5 * P.lookups past.now + 4 * walked (P.history past.now) key.now.school (Some filed.now.student) }
{
    let book = past.book(filed.year, steps);
    let year = past.year(filed.student, filed.year, steps);
    let unfit = unfit(book, filed);
    let brought = brought_under(book, filed, &unfit);
    let next_scheduled = award_in(&brought);
    let (student, term_over) = past.over(next_scheduled, filed.student, filed.year, steps);
    ApplicationFacts {
        facts: Facts {
            book_at: past.book_at(filed.year, steps),
            transaction: year.transaction,
            pell_year: year.nets.at(Program::Pell),
            pell_main: year.main,
            used_else: used_else(past, filed.student, filed.year, &student, &year),
            unfit,
            next_scheduled,
            term_over,
            ..desk_facts(past.front(), &past.school(key.school.0, steps))
        },
        brought,
    }
}

/// The lifetime units that a student has used but for those of one year.
#[tactic(auto, using(crate::proofs::Brought::used_apart, office_history::proofs::Awards::year_holds, office_history::proofs::Ranges::used_else_within))]
pub(crate) fn used_else<P: HistoryView>(
    past: &P,
    student: Student,
    year: Year,
    used: &StudentRow,
    paid: &YearRow,
) -> u32
    requires used { used.now ≡ student_row (P.history past.now) student }
    requires paid { paid.now ≡ year_row (P.history past.now) student year }
    ensures value { result ≡ used_else_of (P.history past.now) student year }
    ensures at_most { result ≤ 600000 }
{
    let _filings = past.front();
    let _year = year.number();
    let _ = student;
    used.used - use_of(paid.nets.at(Program::Pell), paid.scheduled)
}

// What a payment and a withdrawal read alike, but for the use of other years.
fn aid_facts<P: HistoryView, L: Ledger>(
    past: &P,
    school: School,
    student: Student,
    award_year: Year,
    number: u8,
    steps: &mut Steps<L>,
) -> AidFacts
    ensures facts { result.facts ≡ record (aid_facts_of (P.history past.now) school student award_year number) { used_else = 0 } }
    ensures term { result.term ≡ term_row (P.history past.now) school award_year number }
    ensures place { result.place ≡ place_row (P.history past.now) school student award_year number }
    ensures year { result.year ≡ year_row (P.history past.now) student award_year }
    ensures later { steps.old ≤ steps.new }
    ensures cost { steps.new ≤ steps.old + 4 * P.lookups past.now + 4 * terms_at (P.history past.now) school }
{
    let (desk, term) = past.term(school, award_year, number, steps);
    let place = past.place(school, student, award_year, number, steps);
    let year = past.year(student, award_year, steps);
    let cost = past.school_year(school, student, award_year, steps);
    AidFacts {
        facts: Facts {
            term_at: term.at,
            term: term.term,
            transaction: year.transaction,
            scheduled: year.scheduled,
            cost_at: cost.cost_at,
            cost: cost.cost,
            credits: place.credits,
            withdrawn_at: place.withdrawn_at,
            pell_term: place.account.net(Program::Pell),
            pell_year: year.nets.at(Program::Pell),
            fseog_year: year.nets.at(Program::Fseog),
            net_all: cost.net,
            ..desk_facts(past.front(), &desk)
        },
        term,
        place,
        year,
    }
}

/// What a payment of a program reads, with the year and the student.
pub(crate) fn payment_facts<P: HistoryView, L: Ledger>(
    past: &P,
    school: School,
    student: Student,
    year: Year,
    number: u8,
    program: Program,
    steps: &mut Steps<L>,
) -> PaymentFacts
    ensures facts { result.facts ≡ payment_facts_of (P.history past.now) school student year number (rank_of program) }
    ensures year { result.year ≡ year_row (P.history past.now) student year }
    ensures student { result.student ≡ student_row (P.history past.now) student }
    ensures later { steps.old ≤ steps.new }
    ensures walked { IsTrue (P.counts past.now) → IsSome (the_term (P.history past.now) school year number)
        → steps.old + 3 * places_of (P.history past.now) student ≤ steps.new }
    ensures cost { steps.new ≤ steps.old + 5 * P.lookups past.now + 4 * walked (P.history past.now) school (Some student) }
{
    let aid = aid_facts(past, school, student, year, number, steps);
    let (of_student, other_school) = past.beside(student, school, &aid.term.term, steps);
    let account = &aid.place.account;
    PaymentFacts {
        facts: Facts {
            ceiling_index: aid.year.ceiling.index,
            ceiling_bound: aid.year.ceiling.bound,
            used_else: used_else(past, student, year, &of_student, &aid.year),
            other_school,
            after: account.after.at(program),
            after_all: account.after_all,
            post: account.post,
            could: aid.place.could,
            ..aid.facts
        },
        year: aid.year,
        student: of_student,
    }
}

/// What a withdrawal reads, with its term and what moved in it.
pub(crate) fn withdrawal_facts<P: HistoryView, L: Ledger>(
    past: &P,
    key: &Key,
    withdrawal: &WithdrawFacts,
    steps: &mut Steps<L>,
) -> AidFacts
    ensures facts { result.facts ≡ facts_of (P.history past.now) key.now (Withdraw withdrawal.now) }
    ensures term { result.term ≡ term_row (P.history past.now) key.now.school withdrawal.now.year withdrawal.now.term }
    ensures place { result.place ≡ place_row (P.history past.now) key.now.school withdrawal.now.student withdrawal.now.year withdrawal.now.term }
    ensures later { steps.old ≤ steps.new }
    ensures cost { steps.new ≤ steps.old + 5 * P.lookups past.now + 4 * walked (P.history past.now) key.now.school (Some withdrawal.now.student) }
{
    let (student, year) = (withdrawal.student, withdrawal.year);
    let mut aid = aid_facts(past, key.school, student, year, withdrawal.term, steps);
    let of_student = past.student(student, steps);
    aid.facts.used_else = used_else(past, student, year, &of_student, &aid.year);
    aid
}
