//! What a filing moves in the student's term that it is about, asked where no looks are counted.
ghost use Rattle.std.specs.Prelude.{◌≡◌, ◌∷◌};
ghost use Rattle.aid_filings.specs.declared.filing.What.TheVariants.{Withdraw};
ghost use Rattle.aid_filings.specs.declared.filing.WithdrawFacts.{WithdrawFacts as Withdrawal};
ghost use Rattle.office_history.specs.Answer.{IsLegal};
ghost use Rattle.office_history.specs.Own.{IsOwnEntry};
ghost use Rattle.office_history.specs.Past.{the_term};
ghost use Rattle.office_updates.specs.Changed.{IsPlaceBefore};

use aid_filings::{Filing, What};
use aid_types::Term;
use office_answers::entry_of;
use office_history::{Account, HistoryView, PlaceRow};
use office_updates::term_of;

/// What a filing that comes next moves in the student's term that it is about, and what it says was sent back; nothing where it does
/// neither. `row` is the row of that term before the filing.
pub(crate) fn own_entry<P: HistoryView>(past: &P, filing: &Filing, row: &PlaceRow) -> Account
    requires legal { IsLegal (filing.now ∷ P.history past.now) }
    requires row { IsPlaceBefore (P.history past.now) filing.now row.now }
    ensures { IsOwnEntry (P.history past.now) filing.now.key filing.now.what result }
{
    let term = withdrawn_from(past, filing);
    entry_of(past, filing, row.withdrawn_at, &row.account, &term)
}

// The term on file of a withdrawal; `None` of other filings.
fn withdrawn_from<P: HistoryView>(past: &P, filing: &Filing) -> Option<Term>
    ensures { (w : Withdrawal) → filing.now.what ≡ Withdraw w → result ≡ the_term (P.history past.now) filing.now.key.school w.year w.term }
{
    match &filing.what {
        What::Withdraw(facts) => {
            term_of(past, filing.key.school, facts.year, facts.term)
                .1
                .term
        }
        _ => None,
    }
}
