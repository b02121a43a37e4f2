//! The rules on filings: the first rule that a filing breaks, on the facts of the filings before it; and the quote, which is the
//! greatest Pell payment that breaks none.
#![tactic(auto)]

ghost use Rattle.law_rules.specs.InRange.{AreFactsInRange};
ghost use Rattle.law_rules.specs.Lines.{broken_of};
ghost use Rattle.std.specs.Prelude.{◌≡◌};

mod award;
mod calendar;
mod desk;
mod facts;
mod limits;
mod payment;
mod quote_limits;
mod quotes;
mod rules;
mod school;
mod withdrawal;

use aid_filings::What;
use aid_types::{Key, Refusal};
pub use facts::Facts;
pub use limits::{MOST_UNITS, limit_of_year, payment_at};
pub use quotes::quote;
pub use rules::MOST_FILINGS;

/// The first rule of its kind's order that a filing breaks, with what stands and what may stand; `None` where it
/// breaks none. `f` holds the facts of the filings before it.
pub fn broken(f: &Facts, key: &Key, what: &What) -> Option<Refusal>
    requires { AreFactsInRange f.now }
    ensures { result ≡ broken_of f.now key.now what.now }
{
    let school = key.school;
    match what {
        What::Book(book) => desk::broken_book(f, school, book),
        What::School(filed) => desk::broken_school(f, school, filed),
        What::Calendar(calendar) => calendar::broken_calendar(f, school, calendar),
        What::Prior(prior) => desk::broken_prior(f, school, prior),
        What::Apply(application) => award::broken_application(f, school, application),
        What::Enroll(enrollment) => school::broken_enrollment(f, school, enrollment),
        What::Originate(origination) => school::broken_origination(f, school, origination),
        What::Pay(payment) => payment::broken_payment(f, school, payment),
        What::Withdraw(withdrawal) => withdrawal::broken_withdrawal(f, school, withdrawal),
        What::Repay(repayment) => school::broken_repayment(f, school, repayment),
        What::Adjust(adjustment) => school::broken_adjustment(f, school, adjustment),
        What::Cost(cost) => school::broken_cost(f, school, cost),
        What::Sent(sent) => school::broken_sending(f, school, sent),
        What::Amend(amendment) => desk::broken_amendment(f, school, amendment),
    }
}
