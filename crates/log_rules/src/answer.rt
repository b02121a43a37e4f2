// The answer to a filing.
ghost use Rattle.std.specs.Prelude.{◌≡◌, reverse};
ghost use Rattle.log_rules.specs.Kept.{IsKept};
ghost use Rattle.log_rules.specs.Ruled.{IsLegal, answer_of, answer_there, history_of, judged, standing_with, verdict_of};

use crate::number::{FilingNumber, name_of};
use crate::{Filed, OfficeRules, RuleResponse};
use aid_types::Refusal;
use sorted_rows::Table;

/// The answer to a filing, by the filings that stand, the oldest first, the rows of their keys' positions, and the index of what is on
/// file. It is one search of the rows and one look at a filing, or the rules' own judgment.
pub(crate) fn answer<R: OfficeRules>(
    filings: &[Filed<R::Entry, R::Outcome>],
    places: &Table<FilingNumber, u32>,
    index: &R::Index,
    filing: &R::Entry,
) -> RuleResponse<R::Outcome>
    requires { IsKept R.ruling (reverse filings.now) places.now.rows (R.on_file index.now) }
    ensures { result ≡ answer_of R.ruling (history_of filings.now) filing.now }
{
    let key = R::key(filing);
    let name = name_of(&key);
    match places.at(&name) {
        Some(position) => answer_there::<R>(&filings[position as usize - 1], position, filing),
        None => answer_new::<R>(index, filing),
    }
}

// The answer to a filing whose key stands at a position.
fn answer_there<R: OfficeRules>(
    stands: &Filed<R::Entry, R::Outcome>,
    position: u32,
    filing: &R::Entry,
) -> RuleResponse<R::Outcome>
    ensures { result ≡ answer_there R.ruling filing.now (standing_with position stands.now.entry stands.now.outcome) }
{
    if is_same::<R>(filing, &stands.entry) {
        return RuleResponse::Again {
            position,
            outcome: stands.outcome,
        };
    }
    let key = R::key(filing);
    RuleResponse::Refused(Refusal {
        rule: 15,
        kept: u64::from(position),
        bound: key.number,
    })
}

// The answer to a filing with a new key.
fn answer_new<R: OfficeRules>(index: &R::Index, filing: &R::Entry) -> RuleResponse<R::Outcome>
    requires { IsLegal R.ruling (R.on_file index.now) }
    ensures { result ≡ verdict_of (judged R.ruling (R.on_file index.now) filing.now) }
{
    match R::judge(index, filing) {
        Ok(outcome) => RuleResponse::Admit(outcome),
        Err(refusal) => RuleResponse::Refused(refusal),
    }
}

/// Whether two filings are the same. It takes no memory.
pub fn is_same<R: OfficeRules>(one: &R::Entry, other: &R::Entry) -> bool
    ensures { result ≡ R.ruling.is_same one.now other.now }
{
    format_table::is_same::<R>(one, other)
}
