//! The merge of the tail into the main rows.
ghost use Rattle.std.specs.Prelude.{◌≡◌, ◌+◌, ◌-◌, ◌<◌, ◌≤◌, ◌++◌, [], true, false, length, take, vec_len, vec_capacity};
ghost use Rattle.std.specs.List.Sorted.{IsStrictlySortedBy};
ghost use Rattle.std.specs.Map.{keys_of};
ghost use Rattle.sorted_rows.specs.Places.{AreAlike, AreApart, IsBelowPrior, tail_size};

use crate::table::TAIL_SIZE;
use std::cmp::Ordering;

/// A tail is merged once its square is so many times the number of the main rows: the rows that writes move in a tail then cost
/// about what those cost that merges move.
const SQUARES: usize = 16;

/// Merges the tail into the main rows once it is long. The main rows have room for it.
pub(crate) fn merge_long<K: Ord + Copy, V: Copy>(main: &mut Vec<(K, V)>, tail: &mut Vec<(K, V)>)
    requires apart { AreApart K.cmp tail.old.items main.old.items }
    requires short { vec_len tail.old ≤ tail_size }
    requires room { vec_len main.old + vec_len tail.old ≤ vec_capacity main.old }
    ensures apart { AreApart K.cmp tail.new.items main.new.items }
    ensures values { AreAlike K.cmp (tail.old.items ++ main.old.items) (tail.new.items ++ main.new.items) }
    ensures short { vec_len tail.new < tail_size }
    ensures places { vec_capacity tail.new ≡ vec_capacity tail.old }
    ensures room { vec_capacity main.old ≤ vec_capacity main.new }
    ensures count { vec_len main.new + vec_len tail.new ≡ vec_len main.old + vec_len tail.old }
{
    if is_long(tail.len(), main.len()) {
        merge(main, tail);
    }
}

/// Whether so many rows of the tail are merged into so many main rows.
fn is_long(tail: usize, main: usize) -> bool
    ensures { tail_size ≤ tail → result ≡ true }
{
    TAIL_SIZE <= tail || main < tail * tail / SQUARES
}

/// Merges the tail into the main rows, which have room for it, and leaves it empty.
fn merge<K: Ord + Copy, V: Copy>(main: &mut Vec<(K, V)>, tail: &mut Vec<(K, V)>)
    requires apart { AreApart K.cmp tail.old.items main.old.items }
    requires room { vec_len main.old + vec_len tail.old ≤ vec_capacity main.old }
    ensures empty { tail.new.items ≡ [] }
    ensures sorted { IsStrictlySortedBy K.cmp (keys_of main.new.items) }
    ensures values { AreAlike K.cmp (tail.old.items ++ main.old.items) main.new.items }
    ensures none { vec_len tail.new ≡ 0 }
    ensures places { vec_capacity tail.new ≡ vec_capacity tail.old }
    ensures room { vec_capacity main.old ≤ vec_capacity main.new }
    ensures count { vec_len main.new ≡ vec_len main.old + vec_len tail.old }
{
    let count = main.len();
    let _ = main.extend_from_slice(tail.as_slice());
    weave(main.as_mut_slice(), count, tail.as_slice());
    tail.clear();
}

/// Puts the rows of the tail among the first `count` rows, the greatest first. What stood behind these is written over.
fn weave<K: Ord + Copy, V: Copy>(rows: &mut [(K, V)], count: usize, tail: &[(K, V)])
    requires fit { length rows.old ≡ count + length tail.now }
    requires apart { AreApart K.cmp tail.now (take count rows.old) }
    ensures sorted { IsStrictlySortedBy K.cmp (keys_of rows.new) }
    ensures values { AreAlike K.cmp (tail.now ++ take count rows.old) rows.new }
{
    let mut left = count;
    let mut waiting = tail.len();
    let mut place = rows.len();
    while 0 < waiting {
        place -= 1;
        if is_below_prior(rows, left, &tail[waiting - 1].0) {
            left -= 1;
            rows[place] = rows[left];
        } else {
            waiting -= 1;
            rows[place] = tail[waiting];
        }
    }
}

/// Whether a row stands before the place, and the key is below its key.
fn is_below_prior<K: Ord + Copy, V: Copy>(rows: &[(K, V)], place: usize, key: &K) -> bool
    requires { place ≤ length rows.now }
    ensures below { result ≡ true → IsBelowPrior K.cmp key.now rows.now place }
    ensures not_below { result ≡ false → IsBelowPrior K.cmp key.now rows.now place → ⊥ }
{
    if 0 < place {
        match key.cmp(&rows[place - 1].0) {
            Ordering::Less => true,
            _ => false,
        }
    } else {
        false
    }
}
