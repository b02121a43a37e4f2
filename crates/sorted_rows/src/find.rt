//! Rows found by key, with the looks counted or not.
ghost use Rattle.std.specs.Prelude.{◌≡◌, ◌+◌, ◌-◌, ◌*◌, ◌^◌, ◌<◌, ◌≤◌, true, None, length, IfOk, IfErr, IfSome};
ghost use Rattle.std.specs.List.Sorted.{IsStrictlySortedBy};
ghost use Rattle.std.specs.Map.{keys_of};
ghost use Rattle.sorted_rows.specs.Places.{IsAfterSmaller, IsGap, IsHere, value_at};

use crate::Steps;
use crate::search::search;
use std::cmp::Ordering;
use std::sync::ledger::{Blank, Ledger};

/// The value of the row with a key.
pub(crate) fn find<K: Ord + Copy, V: Copy, L: Ledger>(
    rows: &[(K, V)],
    key: &K,
    steps: &mut Steps<L>,
) -> Option<V>
    requires sorted { IsStrictlySortedBy K.cmp (keys_of rows.now) }
    ensures value { result ≡ value_at K.cmp key.now rows.now }
    ensures later { steps.old ≤ steps.new }
    ensures met { IfSome result (λ _. steps.old + 1 ≤ steps.new) }
    ensures missed { result ≡ None → length rows.now + 2 ≤ 2 ^ (steps.new - steps.old + 1) }
    ensures lookups { 2 ^ (steps.new - steps.old) ≤ 2 * length rows.now + 1 }
{
    match search(rows, key, steps) {
        Ok(place) => Some(rows[place].1),
        Err(_) => None,
    }
}

/// The value of the row with a key, where nobody counts the looks.
pub(crate) fn find_uncounted<K: Ord + Copy, V: Copy, L: Ledger>(
    rows: &[(K, V)],
    key: &K,
    blank: Blank,
) -> Option<V>
    requires sorted { IsStrictlySortedBy K.cmp (keys_of rows.now) }
    requires name { blank.name ≡ L.name }
    requires parts { blank.parts ≡ L.parts }
    requires some { 0 < blank.parts }
    ensures { result ≡ value_at K.cmp key.now rows.now }
{
    match place_of::<K, V, L>(rows, key, blank) {
        Ok(place) => Some(rows[place].1),
        Err(_) => None,
    }
}

/// The place of a key, where nobody counts the looks. A new key mostly comes after all others, so that is tried first.
pub(crate) fn place_of<K: Ord, V, L: Ledger>(
    rows: &[(K, V)],
    key: &K,
    blank: Blank,
) -> Result<usize, usize>
    requires name { blank.name ≡ L.name }
    requires parts { blank.parts ≡ L.parts }
    requires some { 0 < blank.parts }
    ensures found { IfOk result (IsHere K.cmp key.now rows.now) }
    ensures gap { IfErr result (IsGap K.cmp key.now rows.now) }
{
    if is_last(rows, key) {
        return Err(rows.len());
    }
    let mut steps: Steps<L> = Steps::new(blank);
    search(rows, key, &mut steps)
}

/// Whether there is a last row, and the key comes after it.
pub(crate) fn is_last<K: Ord, V>(rows: &[(K, V)], key: &K) -> bool
    ensures { result ≡ true → IsAfterSmaller K.cmp key.now rows.now (length rows.now) }
{
    let count = rows.len();
    if count == 0 {
        return false;
    }
    match key.cmp(&rows[count - 1].0) {
        Ordering::Greater => true,
        _ => false,
    }
}
