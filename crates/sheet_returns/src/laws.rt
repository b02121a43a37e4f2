//! A law of what is due, as the contract of a function that computes nothing. A slice has the oldest first.
ghost use Rattle.std.specs.Prelude.{◌↔◌, ℕ, reverse};
ghost use Rattle.std.specs.List.{AllPairs, Contains};
ghost use Rattle.sheet_returns.specs.Before.{IsDueBefore};
ghost use Rattle.sheet_returns.specs.Withdrawals.{by_due, withdrawals};
ghost use Rattle.sheet_returns.specs.declared.rows.Withdrawn.{Withdrawn as Withdrawal};

use aid_filings::Filing;

/// The withdrawals of which a sheet tells what is due rise by the day on which they were determined and, on one day, by position; and
/// they are exactly those from the school's terms.
pub fn due_in_order(history: &[Filing])
    ensures rise { (school : ℕ) → AllPairs IsDueBefore (by_due school (reverse history.now)) }
    ensures told { (school : ℕ) (at : Withdrawal) → Contains (by_due school (reverse history.now)) at ↔ Contains (withdrawals school (reverse history.now)) at }
{
    let _ = history;
}
