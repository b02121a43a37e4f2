//! What a filing makes of a row.
ghost use Rattle.std.specs.Prelude.{◌≡◌, ◌≤◌, Some};
ghost use Rattle.law_loans.specs.Loans.{earlier_or as earlier_of, higher as higher_of, is_sub as is_subsidized};
ghost use Rattle.law_loans.specs.Changes.{AreBelow, limits_after as limits_of, nets_with, nets_without, student_after as student_of, year_after as year_of};

use crate::rows::{LimitsRow, ProgramNets, StudentRow, YearRow};
use crate::{BorrowerFacts, LimitFacts, LoanWhat};
use aid_types::Program;

/// The limits of a year once these are filed for it: the first stay.
pub(crate) fn limits_after(row: &LimitsRow, limits: &LimitFacts, position: u32) -> LimitsRow
    ensures { result ≡ limits_of position limits.now row.now }
{
    LimitsRow {
        at: earlier_or(row.at, position),
        limits: match row.limits {
            Some(first) => Some(first),
            None => Some(*limits),
        },
    }
}

/// A student's row once a filing stands that is about the student.
pub(crate) fn student_after(row: &StudentRow, what: &LoanWhat, position: u32) -> StudentRow
    requires below { AreBelow row.now.nets }
    ensures { result ≡ student_of position what.now row.now }
{
    match what {
        LoanWhat::Limits(_) => *row,
        LoanWhat::Borrower(record) => StudentRow {
            last: Some(*record),
            ..*row
        },
        LoanWhat::Before(before) => StudentRow {
            before_at: earlier_or(row.before_at, position),
            before: match row.before {
                Some(first) => Some(first),
                None => Some(*before),
            },
            ..*row
        },
        LoanWhat::Lend(loan) => StudentRow {
            loan_at: earlier_or(row.loan_at, position),
            nets: row.nets.with(loan.program, loan.cents),
            ..*row
        },
        LoanWhat::Cancel(loan) => StudentRow {
            nets: row.nets.without(loan.program, loan.cents),
            ..*row
        },
    }
}

/// The row of a student's year once a filing stands that is about it.
pub(crate) fn year_after(row: &YearRow, what: &LoanWhat) -> YearRow
    requires below { AreBelow row.now.nets }
    ensures { result ≡ year_of what.now row.now }
{
    match what {
        LoanWhat::Limits(_) | LoanWhat::Before(_) => *row,
        LoanWhat::Borrower(record) => YearRow {
            in_force: higher(&row.in_force, record),
            ..*row
        },
        LoanWhat::Lend(loan) => YearRow {
            nets: row.nets.with(loan.program, loan.cents),
            ..*row
        },
        LoanWhat::Cancel(loan) => YearRow {
            nets: row.nets.without(loan.program, loan.cents),
            ..*row
        },
    }
}

impl ProgramNets {
    // With a loan of below a million dollars.
    fn with(self, program: Program, cents: u64) -> ProgramNets
        requires below { AreBelow self }
        requires cents { cents ≤ 99999999 }
        ensures { result ≡ nets_with self (is_subsidized program) cents }
    {
        if is_sub(program) {
            ProgramNets {
                sub: self.sub + cents,
                unsub: self.unsub,
            }
        } else {
            ProgramNets {
                sub: self.sub,
                unsub: self.unsub + cents,
            }
        }
    }

    // With a loan cancelled.
    fn without(self, program: Program, cents: u64) -> ProgramNets
        ensures { result ≡ nets_without self (is_subsidized program) cents }
    {
        if is_sub(program) {
            ProgramNets {
                sub: self.sub.saturating_sub(cents),
                unsub: self.unsub,
            }
        } else {
            ProgramNets {
                sub: self.sub,
                unsub: self.unsub.saturating_sub(cents),
            }
        }
    }
}

fn is_sub(program: Program) -> bool
    ensures { result ≡ is_subsidized program }
{
    match program {
        Program::Sub => true,
        _ => false,
    }
}

// The position that stood before, or else this one.
fn earlier_or(before: u32, position: u32) -> u32
    ensures { result ≡ earlier_of before position }
{
    if before == 0 { position } else { before }
}

// Of two records the one with the higher transaction, and the first where it is the same.
fn higher(old: &Option<BorrowerFacts>, filed: &BorrowerFacts) -> Option<BorrowerFacts>
    ensures { result ≡ higher_of old.now (Some filed.now) }
{
    match old {
        None => Some(*filed),
        Some(first) if first.transaction < filed.transaction => Some(*filed),
        Some(first) => Some(*first),
    }
}
