//! What one filing moves in the student's term that it is about.
ghost use Rattle.std.specs.Prelude.{◌≡◌, ◌∷◌, List, Some, is_some};
ghost use Rattle.aid_filings.specs.declared.filing.Filing.{Filing as Filed};
ghost use Rattle.aid_filings.specs.declared.filing.What.TheVariants.{Pay, Repay, Adjust, Sent, Withdraw};
ghost use Rattle.aid_filings.specs.declared.filing.WithdrawFacts.{WithdrawFacts as Withdrawal};
ghost use Rattle.aid_types.specs.declared.number.Key.{Key as Keyed};
ghost use Rattle.office_history.specs.Answer.{IsLegal};
ghost use Rattle.office_history.specs.Past.{the_term, the_withdrawal};
ghost use Rattle.office_history.specs.Positions.{withdrawn_at as withdrawal_at};
ghost use Rattle.office_history.specs.Own.{IsOwnAccount, IsOwnEntry, of_lines, own_place};
ghost use Rattle.office_history.specs.declared.place.Place.{Place};

use crate::sheets::sheet_on_file;
use aid_filings::{Amount, Filing, SentFacts, What};
use aid_types::{ByProgram, Term};
use law_r2t4::Lines;
use office_history::{Account, HistoryView};

/// What a filing moves in the student's term that it is about, after what is on file, and what it says was sent back; nothing where
/// it does neither. Of that term before the filing are told the position of the student's withdrawal from it, and what moved in it;
/// and of a withdrawal the term on file.
pub fn entry_of<P: HistoryView>(
    past: &P,
    filing: &Filing,
    withdrawn_at: u32,
    so_far: &Account,
    term: &Option<Term>,
) -> Account
    requires legal { IsLegal (filing.now ∷ P.history past.now) }
    requires withdrawn { (p : Place) → own_place filing.now.key filing.now.what ≡ Some p
        → withdrawn_at ≡ withdrawal_at (P.history past.now) p.school p.student p.year p.term }
    requires account { IsOwnAccount (P.history past.now) (own_place filing.now.key filing.now.what) so_far.now }
    requires term { (w : Withdrawal) → filing.now.what ≡ Withdraw w → term.now ≡ the_term (P.history past.now) filing.now.key.school w.year w.term }
    ensures { IsOwnEntry (P.history past.now) filing.now.key filing.now.what result }
{
    match &filing.what {
        // A payment comes after the withdrawal from its term where there was one.
        What::Pay(amount) => paid(amount, 0 < withdrawn_at),
        What::Repay(amount) => repaid(amount),
        What::Adjust(amount) => adjusted(amount),
        What::Withdraw(facts) => {
            returned(&sheet_on_file(past, &filing.key, facts, term, so_far))
        }
        What::Sent(facts) => sent(facts),
        _ => Account::EMPTY,
    }
}

/// A payment, before or after the withdrawal from its term.
pub fn paid(amount: &Amount, withdrawn: bool) -> Account
    ensures { (past : List Filed) (key : Keyed) → withdrawn ≡ is_some (the_withdrawal past key.school amount.now.student amount.now.year amount.now.term)
        → IsOwnEntry past key (Pay amount.now) result }
{
    let paid = ByProgram::of(amount.program, amount.cents);
    let (after, after_all) = if withdrawn {
        (paid, amount.cents)
    } else {
        (ByProgram::EMPTY, 0)
    };
    Account {
        paid,
        after,
        after_all,
        ..Account::EMPTY
    }
}

/// A repayment by the student.
pub fn repaid(amount: &Amount) -> Account
    ensures { (past : List Filed) (key : Keyed) → IsOwnEntry past key (Repay amount.now) result }
{
    let repaid = ByProgram::of(amount.program, amount.cents);
    Account {
        taken: repaid,
        repaid,
        ..Account::EMPTY
    }
}

/// A downward adjustment.
pub fn adjusted(amount: &Amount) -> Account
    ensures { (past : List Filed) (key : Keyed) → IsOwnEntry past key (Adjust amount.now) result }
{
    Account {
        taken: ByProgram::of(amount.program, amount.cents),
        ..Account::EMPTY
    }
}

/// A return that the school sent back: it moves no money of the student's.
pub fn sent(facts: &SentFacts) -> Account
    ensures { (past : List Filed) (key : Keyed) → IsOwnEntry past key (Sent facts.now) result }
{
    Account {
        sent: ByProgram::of(facts.program, facts.cents),
        ..Account::EMPTY
    }
}

/// A withdrawal with this worksheet.
pub fn returned(lines: &Lines) -> Account
    ensures { result ≡ of_lines lines.now }
{
    Account {
        taken: lines.returned,
        owed: lines.owed,
        returned: lines.returned,
        post: lines.post,
        ..Account::EMPTY
    }
}
