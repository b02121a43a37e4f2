//! The rows that a filing may change, each found once.
ghost use Rattle.std.specs.Prelude.{◌≡◌, Some, None, IfSome};
ghost use Rattle.std.specs.Option.{option_copied};
ghost use Rattle.sorted_rows.specs.Places.{IsHere, value_at};

use sorted_rows::Slots;

/// The slot and the value of the row with a name, where there are a name and a row.
pub(crate) fn find<'a, K: Ord + Copy, V: Copy>(
    rows: &'a Slots<K, V>,
    name: &Option<K>,
) -> (Option<u32>, Option<&'a V>)
    ensures slot { (key : K) → name.now ≡ Some key → IfSome result.0 (IsHere K.cmp key rows.now.rows) }
    ensures none { (key : K) → name.now ≡ Some key → result.0 ≡ None → value_at K.cmp key rows.now.rows ≡ None }
    ensures row { (key : K) → name.now ≡ Some key → option_copied result.1 ≡ value_at K.cmp key rows.now.rows }
{
    match name {
        Some(key) => find_row(rows, key),
        None => (None, None),
    }
}

fn find_row<'a, K: Ord + Copy, V: Copy>(
    rows: &'a Slots<K, V>,
    key: &K,
) -> (Option<u32>, Option<&'a V>)
    ensures slot { IfSome result.0 (IsHere K.cmp key.now rows.now.rows) }
    ensures none { result.0 ≡ None → value_at K.cmp key.now rows.now.rows ≡ None }
    ensures row { option_copied result.1 ≡ value_at K.cmp key.now rows.now.rows }
{
    match rows.slot_at(key) {
        Some(slot) => (Some(slot), Some(&rows.row(slot).1)),
        None => (None, None),
    }
}
