// A filing joins those that stand.
ghost use Rattle.std.specs.Prelude.{◌≡◌, ◌+◌, ◌≤◌, ◌∷◌, reverse, vec_len, vec_capacity};
ghost use Rattle.log_rules.specs.Kept.{IsKept};
ghost use Rattle.log_rules.specs.Ruled.{answer_of, history_of};

use crate::number::{FilingNumber, name_of};
use crate::{Filed, OfficeRules, RuleResponse};
use sorted_rows::Table;

/// Adds a filing that is admitted to those that stand, with its outcome, the position of its key, and what it says. It takes no memory.
pub(crate) fn join<R: OfficeRules>(
    filings: &mut Vec<Filed<R::Entry, R::Outcome>>,
    places: &mut Table<FilingNumber, u32>,
    index: &mut R::Index,
    filing: R::Entry,
    outcome: R::Outcome,
)
    requires kept { IsKept R.ruling (reverse filings.old.items) places.old.rows (R.on_file index.old) }
    requires admitted { answer_of R.ruling (history_of filings.old.items) filing ≡ RuleResponse.Admit outcome }
    requires capacity { vec_len filings.old + 1 ≤ vec_capacity filings.old }
    requires row { 1 ≤ places.old.room }
    requires room { 1 ≤ R.room index.old }
    ensures kept { IsKept R.ruling (reverse filings.new.items) places.new.rows (R.on_file index.new) }
    ensures history { history_of filings.new.items ≡ filing ∷ history_of filings.old.items }
    ensures count { vec_len filings.new ≡ vec_len filings.old + 1 }
    ensures capacity { vec_capacity filings.new ≡ vec_capacity filings.old }
    ensures row { places.new.room + 1 ≡ places.old.room }
    ensures room { R.room index.old ≤ R.room index.new + 1 }
{
    let position = filings.len() as u32 + 1;
    let key = R::key(&filing);
    R::admit(index, &filing);
    places.add(name_of(&key), position);
    filings.push_reserved(Filed {
        entry: filing,
        outcome,
    });
}
