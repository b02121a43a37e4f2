//! Laws of sheets, each as the contract of a function that computes nothing. A slice has the oldest first.
ghost use Rattle.std.specs.Prelude.{◌≡◌, ◌+◌, ◌++◌, ◌∷◌, ℕ, List, length, reverse, true};
ghost use Rattle.std.specs.List.{All, Contains};
ghost use Rattle.aid_types.specs.Programs.{rank};
ghost use Rattle.aid_types.specs.declared.number.Program.{Program};
ghost use Rattle.aid_filings.specs.declared.filing.Amount.{Amount};
ghost use Rattle.aid_filings.specs.declared.filing.Filing.{Filing as Filed};
ghost use Rattle.aid_filings.specs.declared.filing.What.TheVariants.{Pay};
ghost use Rattle.office_history.specs.Net.{net};
ghost use Rattle.office_sheets.specs.LedgerOf.{IsAbout, TellsOf};
ghost use Rattle.office_sheets.specs.Ledgers.{ledger_rows};
ghost use Rattle.office_sheets.specs.PaymentLaws.{IsPaymentOf, last_total};
ghost use Rattle.office_sheets.specs.Payments.{is_in_term, of_program, payment_rows};
ghost use Rattle.office_sheets.specs.declared.payment_rows.PaymentRow.{PaymentRow};

use aid_filings::Filing;
use aid_stamps::Stamp;

/// The rows of a student's ledger tell of the filings about the student: of each of them, and of no other.
pub fn rows_of_student(history: &[Filing], stamps: &[Stamp])
    requires { length stamps.now ≡ length history.now }
    ensures about { (student : ℕ) → All (λ row. IsAbout student (reverse history.now) row.position) (ledger_rows student (reverse history.now) (reverse stamps.now)) }
    ensures told { (student position : ℕ) → IsAbout student (reverse history.now) position → TellsOf (ledger_rows student (reverse history.now) (reverse stamps.now)) position }
{
    let _ = history;
    let _ = stamps;
}

/// The last total of a program in a term's payments is what all its students have of the program, by the office's own net;
/// where no row is of the program, they have nothing of it. Each payment in the term has its row, with the amount that was filed.
pub fn totals_of_payments(history: &[Filing], stamps: &[Stamp])
    requires { length stamps.now ≡ length history.now }
    ensures totals { (school year term : ℕ) → (program : Program)
        → last_total program 0 (payment_rows school year term (reverse history.now) (reverse stamps.now)) ≡ net (reverse history.now) (of_program school year term (rank program)) }
    ensures payments { (school year term : ℕ) → (before after : List Filed) → (filing : Filed) → (amount : Amount) → history.now ≡ before ++ filing ∷ after
        → filing.what ≡ Pay amount → is_in_term school year term filing.key filing.what ≡ true
        → (row : PaymentRow) × Contains (payment_rows school year term (reverse history.now) (reverse stamps.now)) row × IsPaymentOf (length before + 1) filing amount row }
{
    let _ = history;
    let _ = stamps;
}
