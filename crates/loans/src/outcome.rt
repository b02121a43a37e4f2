//! The text of what a loan filing is admitted with.
use crate::table::Loans;
use arrayvec::ArrayString;
use format_rows::push_cents;
use law_loans::LoanOutcome;
use log_rules::OutcomeText;

impl OutcomeText for Loans {
    ghost use Rattle.loans.specs.Outcomes.{loan_text};

    ghost outcome_text = { loan_text };

    fn push_outcome(outcome: &LoanOutcome, line: &mut ArrayString<160>) {
        match outcome {
            LoanOutcome::Noted => line.push_str("noted"),
            LoanOutcome::Lent { year, all } => {
                line.push_str("lent ");
                push_cents(line, *year);
                line.push_str(" ");
                push_cents(line, *all);
            }
        }
    }
}
