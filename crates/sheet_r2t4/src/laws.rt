//! Laws of worksheets, each as the contract of a function that computes nothing. A slice has the oldest first.
ghost use Rattle.std.specs.Prelude.{◌≡◌, ◌≤◌, ◌++◌, ◌∷◌, ℕ, reverse};
ghost use Rattle.aid_filings.specs.declared.filing.WithdrawFacts.{WithdrawFacts as Facts};
ghost use Rattle.aid_filings.specs.declared.filing.What.TheVariants.{Withdraw};
ghost use Rattle.office_history.specs.Answer.{IsLegal};
ghost use Rattle.office_history.specs.Net.{cell_at, is_cell, owed, repaid, sheet};
ghost use Rattle.sheet_r2t4.specs.ReturnSums.{IsEven, IsSplit};

use aid_filings::Filing;

/// In a legal list no student repaid more of a program in a term than is owed of it. So what a worksheet has as still owed is all that
/// is left of it.
pub fn repaid_of_owed(history: &[Filing])
    requires { IsLegal (reverse history.now) }
    ensures { (school student year term program : ℕ)
        → repaid (reverse history.now) (is_cell (cell_at school student year term program)) ≤ owed (reverse history.now) (is_cell (cell_at school student year term program)) }
{
    let _ = history;
}

/// A worksheet adds up: O is the lesser of K and N, and Q the rest of K; and of each program what the student has now, what the school
/// returned and what was repaid is what the student had before the withdrawal and what was paid since.
pub fn worksheet_adds_up(before: &[Filing], filing: &Filing, after: &[Filing])
    requires { IsLegal (reverse (before.now ++ filing.now ∷ after.now)) }
    ensures split { (w : Facts) → filing.now.what ≡ Withdraw w → IsSplit (sheet (reverse before.now) filing.now.key w) w.charges }
    ensures even { (w : Facts) (program : ℕ) → filing.now.what ≡ Withdraw w
        → IsEven (reverse before.now) (reverse (before.now ++ filing.now ∷ after.now)) filing.now.key w program }
{
    let _ = before;
    let _ = filing;
    let _ = after;
}
