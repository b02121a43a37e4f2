//! The verdict on a filing, and with what it is admitted, over whatever keeps what is on file.
ghost use Rattle.std.specs.Prelude.{◌≡◌, ◌≢◌, ◌+◌, ◌-◌, ◌*◌, ◌^◌, ◌≤◌, IsTrue, length, sum};
ghost use Rattle.aid_filings.specs.Students.{student_of};
ghost use Rattle.aid_filings.specs.declared.filing.What.TheVariants.{Apply, Pay, Withdraw};
ghost use Rattle.aid_filings.specs.declared.reply.Outcome.TheVariants.{Returned};
ghost use Rattle.aid_types.specs.Ranges.{EachIsCents, IsBetween};
ghost use Rattle.office_history.specs.Answer.{IsLegal, answer_of, breaks, judged};
ghost use Rattle.office_answers.specs.Brought.{IsWithPayment, paid_with};
ghost use Rattle.office_answers.specs.Noted.{IsNoted};
ghost use Rattle.office_history.specs.Past.{key_at};
ghost use Rattle.office_history.specs.Rows.{student_row, year_row};
ghost use Rattle.office_answers.specs.Walked.{walked};

use crate::gathered::{application_facts, payment_facts, used_else, withdrawal_facts};
use crate::noted::noted_facts;
use crate::sheets::sheet_on_file;
use aid_filings::{Amount, Filing, Outcome, Response, What, WithdrawFacts};
use aid_types::{Application, Program, Refusal};
use law_r2t4::Lines;
use law_rules::broken;
use law_terms::use_of;
use office_history::{HistoryView, StudentRow, YearRow};
use sorted_rows::Steps;
use std::sync::ledger::Ledger;

/// The answer to a filing: `Again` with its position and the outcome of its admission where it stands already, refusal
/// 15 where its key is used for another filing, else the first rule that it breaks, or `Admit`.
#[tactic(auto, using(crate::proofs::Decided::answer_other, crate::proofs::Decided::nothing_there, crate::proofs::Decided::judged_new))]
pub fn answer<P: HistoryView, L: Ledger>(
    past: &P,
    filing: &Filing,
    steps: &mut Steps<L>,
) -> Response
    ensures value { result ≡ answer_of (P.history past.now) filing.now }
    ensures later { steps.old ≤ steps.new }
    ensures met { IsTrue (P.counts past.now) → key_at filing.now.key (P.history past.now) ≢ 0 → steps.old + 1 ≤ steps.new }
    ensures missed { IsTrue (P.counts past.now) → key_at filing.now.key (P.history past.now) ≡ 0
        → length (P.history past.now) + 2 ≤ 2 ^ (steps.new - steps.old + 1) }
    ensures cost { steps.new ≤ steps.old + 6 * P.lookups past.now + 4 * walked (P.history past.now) filing.now.key.school (student_of filing.now.what) }
{
    let _filings = past.front();
    let position = past.key_at(&filing.key, steps);
    match past.filing(position) {
        None => judge(past, filing, steps),
        Some(standing) if standing == filing => Response::Again {
            position,
            outcome: past.outcome(position),
        },
        // The key stands for another filing.
        Some(_) => Response::Refused(Refusal {
            rule: 15,
            kept: u64::from(position),
            bound: filing.key.number,
        }),
    }
}

// The verdict on a filing whose key isn't used: the first rule that it breaks, or that it is admitted.
fn judge<P: HistoryView, L: Ledger>(past: &P, filing: &Filing, steps: &mut Steps<L>) -> Response
    requires legal { IsLegal (P.history past.now) }
    ensures value { result ≡ judged (P.history past.now) filing.now (breaks (P.history past.now) filing.now) }
    ensures later { steps.old ≤ steps.new }
    ensures cost { steps.new ≤ steps.old + 5 * P.lookups past.now + 4 * walked (P.history past.now) filing.now.key.school (student_of filing.now.what) }
{
    match &filing.what {
        What::Apply(application) => judge_application(past, filing, application, steps),
        What::Pay(payment) => judge_payment(past, filing, payment, steps),
        What::Withdraw(withdrawal) => judge_withdrawal(past, filing, withdrawal, steps),
        _ => judge_noted(past, filing, steps),
    }
}

// The verdict on a filing that is only noted.
#[tactic(auto, using(office_history::proofs::LinesOf::broken_is, office_history::proofs::FactsInRange::facts_in_range))]
fn judge_noted<P: HistoryView, L: Ledger>(
    past: &P,
    filing: &Filing,
    steps: &mut Steps<L>,
) -> Response
    requires legal { IsLegal (P.history past.now) }
    requires noted { IsNoted filing.now.what }
    ensures value { result ≡ judged (P.history past.now) filing.now (breaks (P.history past.now) filing.now) }
    ensures later { steps.old ≤ steps.new }
    ensures cost { steps.new ≤ steps.old + 5 * P.lookups past.now + 4 * walked (P.history past.now) filing.now.key.school (student_of filing.now.what) }
{
    let facts = noted_facts(past, filing, steps);
    match broken(&facts, &filing.key, &filing.what) {
        Some(refusal) => Response::Refused(refusal),
        None => Response::Admit(Outcome::Noted),
    }
}

// The verdict on an application, which is admitted with the award that it brings.
#[tactic(auto, using(office_history::proofs::LinesOf::broken_is, crate::proofs::Applied::fits, crate::proofs::Applied::outcome))]
fn judge_application<P: HistoryView, L: Ledger>(
    past: &P,
    filing: &Filing,
    application: &Application,
    steps: &mut Steps<L>,
) -> Response
    requires legal { IsLegal (P.history past.now) }
    requires what { filing.now.what ≡ Apply application.now }
    ensures value { result ≡ judged (P.history past.now) filing.now (breaks (P.history past.now) filing.now) }
    ensures later { steps.old ≤ steps.new }
    ensures cost { steps.new ≤ steps.old + 5 * P.lookups past.now + 4 * walked (P.history past.now) filing.now.key.school (student_of filing.now.what) }
{
    let read = application_facts(past, &filing.key, application, steps);
    match broken(&read.facts, &filing.key, &filing.what) {
        Some(refusal) => Response::Refused(refusal),
        None => Response::Admit(read.brought),
    }
}

// The verdict on a payment, which is admitted with the year's net of its program and the lifetime use, both with it.
#[tactic(auto, using(office_history::proofs::LinesOf::broken_is, crate::proofs::Brought::pay_is_within, crate::proofs::Brought::outcome_of_pay))]
fn judge_payment<P: HistoryView, L: Ledger>(
    past: &P,
    filing: &Filing,
    payment: &Amount,
    steps: &mut Steps<L>,
) -> Response
    requires legal { IsLegal (P.history past.now) }
    requires what { filing.now.what ≡ Pay payment.now }
    ensures value { result ≡ judged (P.history past.now) filing.now (breaks (P.history past.now) filing.now) }
    ensures later { steps.old ≤ steps.new }
    ensures cost { steps.new ≤ steps.old + 5 * P.lookups past.now + 4 * walked (P.history past.now) filing.now.key.school (student_of filing.now.what) }
{
    let Amount {
        student,
        year,
        term,
        program,
        ..
    } = *payment;
    let read = payment_facts(past, filing.key.school, student, year, term, program, steps);
    match broken(&read.facts, &filing.key, &filing.what) {
        Some(refusal) => Response::Refused(refusal),
        None => Response::Admit(paid(past, payment, &read.year, &read.student)),
    }
}

// The verdict on a withdrawal, which is admitted with its worksheet.
#[tactic(auto, using(office_history::proofs::LinesOf::broken_is))]
fn judge_withdrawal<P: HistoryView, L: Ledger>(
    past: &P,
    filing: &Filing,
    withdrawal: &WithdrawFacts,
    steps: &mut Steps<L>,
) -> Response
    requires legal { IsLegal (P.history past.now) }
    requires what { filing.now.what ≡ Withdraw withdrawal.now }
    ensures value { result ≡ judged (P.history past.now) filing.now (breaks (P.history past.now) filing.now) }
    ensures later { steps.old ≤ steps.new }
    ensures cost { steps.new ≤ steps.old + 5 * P.lookups past.now + 4 * walked (P.history past.now) filing.now.key.school (student_of filing.now.what) }
{
    let read = withdrawal_facts(past, &filing.key, withdrawal, steps);
    match broken(&read.facts, &filing.key, &filing.what) {
        Some(refusal) => Response::Refused(refusal),
        None => Response::Admit(returned_outcome(&sheet_on_file(
            past,
            &filing.key,
            withdrawal,
            &read.term.term,
            &read.place.account,
        ))),
    }
}

// The year's net of the program and the lifetime use, both with the payment.
fn paid<P: HistoryView>(past: &P, amount: &Amount, year: &YearRow, student: &StudentRow) -> Outcome
    requires year { year.now ≡ year_row (P.history past.now) amount.now.student amount.now.year }
    requires student { student.now ≡ student_row (P.history past.now) amount.now.student }
    requires within { IsWithPayment (P.history past.now) amount.now }
    ensures value { result ≡ paid_with (P.history past.now) amount.now }
    ensures year { IsBetween 2000 2099 amount.now.year }
{
    let _filings = past.front();
    let _year = amount.year.number();
    let paid = year.nets.at(amount.program) + amount.cents;
    let used = match amount.program {
        Program::Pell => {
            used_else(past, amount.student, amount.year, student, year)
                + use_of(paid, year.scheduled)
        }
        _ => student.used,
    };
    Outcome::Paid { paid, used }
}

/// The figures of a worksheet.
pub fn returned_outcome(lines: &Lines) -> Outcome
    requires { EachIsCents lines.now.owed }
    ensures { result ≡ Returned lines.now.percent lines.now.school (sum lines.now.owed) lines.now.post }
{
    Outcome::Returned {
        percent: lines.percent,
        school: lines.school,
        owed: lines.owed.sum(),
        post: lines.post,
    }
}
