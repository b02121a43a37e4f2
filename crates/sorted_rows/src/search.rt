//! The binary search among rows in the order of their keys.
ghost use Rattle.std.specs.Prelude.{◌≡◌, ◌+◌, ◌-◌, ◌*◌, ◌^◌, ◌≤◌, length, IfOk, IfErr};
ghost use Rattle.sorted_rows.specs.Places.{IsHere, IsGap};

use crate::Steps;
use std::cmp::Ordering;
use std::sync::ledger::Ledger;

/// The place of the row with the key, or the place where such a row would go. Each look at a row is one step: one at least
/// where the row is found, and where it isn't, so many that what is left after halving by each is none.
pub(crate) fn search<K: Ord, V, L: Ledger>(
    rows: &[(K, V)],
    key: &K,
    steps: &mut Steps<L>,
) -> Result<usize, usize>
    ensures found { IfOk result (IsHere K.cmp key.now rows.now) }
    ensures gap { IfErr result (IsGap K.cmp key.now rows.now) }
    ensures later { steps.old ≤ steps.new }
    ensures met { IfOk result (λ _. steps.old + 1 ≤ steps.new) }
    ensures missed { IfErr result (λ _. length rows.now + 2 ≤ 2 ^ (steps.new - steps.old + 1)) }
    ensures lookups { 2 ^ (steps.new - steps.old) ≤ 2 * length rows.now + 1 }
{
    let mut low = 0;
    let mut high = rows.len();
    while low < high {
        let middle = low + (high - low) / 2;
        steps.tick();
        match key.cmp(&rows[middle].0) {
            Ordering::Equal => return Ok(middle),
            Ordering::Less => high = middle,
            Ordering::Greater => low = middle + 1,
        }
    }
    Err(low)
}
