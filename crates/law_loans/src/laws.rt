//! Laws of lists of loan filings, each as the contract of a function that computes nothing. A list has its newest filing first.
ghost use Rattle.std.specs.Prelude.{◌≡◌, ◌*◌, ◌≤◌, ◌<◌, ℕ, Bool, List, None, length};
ghost use Rattle.law_loans.specs.declared.filing.LoanAmount.{LoanAmount};
ghost use Rattle.law_loans.specs.declared.filing.LoanFiling.{LoanFiling};
ghost use Rattle.law_loans.specs.Loans.{lent, nets};
ghost use Rattle.law_loans.specs.Rules.{AreAllowed, AreSmall, breaks};
ghost use Rattle.law_loans.specs.Within.{IsWithinLoans};

/// A list of which each filing breaks no rule on those before it is within every limit (HEA 455(a); 34 CFR 685.203).
pub fn allowed_within()
    ensures { (past : List LoanFiling) → AreAllowed past → IsWithinLoans past }
{}

/// A filing that breaks no rule is filed on fewer than 200,000.
pub fn room_left()
    ensures { (past : List LoanFiling) (filing : LoanFiling) → breaks past filing ≡ None → length past < 200000 }
{}

/// Such a list has at most 200,000 filings.
pub fn allowed_length()
    ensures { (past : List LoanFiling) → AreAllowed past → length past ≤ 200000 }
{}

/// On such a list the nets of each student and year have room in 64 bits. A sum of loans is at most 99,999,999 cents a filing.
pub fn allowed_amounts()
    ensures small { (past : List LoanFiling) → AreAllowed past → (student year : ℕ) → AreSmall (nets past student year) }
    ensures loans { (past : List LoanFiling) (test : LoanAmount → Bool) → lent past test ≤ 99999999 * length past }
{}
