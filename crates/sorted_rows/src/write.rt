//! The write of a row into the main rows or the tail.
ghost use Rattle.std.specs.Prelude.{◌≡◌, ◌+◌, ◌<◌, ◌≤◌, ◌++◌, true, false, None, IsSome, cond, length, vec_len, vec_capacity};
ghost use Rattle.std.specs.List.Sorted.{IsStrictlySortedBy};
ghost use Rattle.std.specs.Map.{keys_of};
ghost use Rattle.std.specs.Option.{is_none};
ghost use Rattle.sorted_rows.specs.Places.{AreApart, IsAfterSmaller, IsWritten, tail_size, value_at};

use crate::find::{is_last, place_of};
use crate::merge::merge_long;
use std::marker::Brand;
use std::sync::ledger::Blank;

/// Writes the value of a key where it belongs, and answers whether the key is new. For a new key the tail has a place, and
/// the main rows have room for one row more than there are.
pub(crate) fn write<K: Ord + Copy, V: Copy>(
    main: &mut Vec<(K, V)>,
    tail: &mut Vec<(K, V)>,
    key: K,
    value: V,
) -> bool
    requires apart { AreApart K.cmp tail.old.items main.old.items }
    requires short { vec_len tail.old < tail_size }
    requires fits { vec_len main.old + vec_len tail.old ≤ vec_capacity main.old }
    requires places { value_at K.cmp key (tail.old.items ++ main.old.items) ≡ None → tail_size ≤ vec_capacity tail.old }
    requires room { value_at K.cmp key (tail.old.items ++ main.old.items) ≡ None → vec_len main.old + vec_len tail.old + 1 ≤ vec_capacity main.old }
    ensures new { result ≡ is_none (value_at K.cmp key (tail.old.items ++ main.old.items)) }
    ensures apart { AreApart K.cmp tail.new.items main.new.items }
    ensures values { IsWritten K.cmp key value (tail.old.items ++ main.old.items) (tail.new.items ++ main.new.items) }
    ensures short { vec_len tail.new < tail_size }
    ensures places { vec_capacity tail.new ≡ vec_capacity tail.old }
    ensures room { vec_capacity main.old ≤ vec_capacity main.new }
    ensures count { vec_len main.new + vec_len tail.new ≡ vec_len main.old + vec_len tail.old + cond result 1 0 }
{
    if write_over(main, key, value) {
        return false;
    }
    write_new(main, tail, key, value)
}

/// Writes the value of a key that the main rows lack, and answers whether the tail lacks it too.
pub(crate) fn write_new<K: Ord + Copy, V: Copy>(
    main: &mut Vec<(K, V)>,
    tail: &mut Vec<(K, V)>,
    key: K,
    value: V,
) -> bool
    requires apart { AreApart K.cmp tail.old.items main.old.items }
    requires not_main { value_at K.cmp key main.old.items ≡ None }
    requires short { vec_len tail.old < tail_size }
    requires fits { vec_len main.old + vec_len tail.old ≤ vec_capacity main.old }
    requires places { value_at K.cmp key tail.old.items ≡ None → tail_size ≤ vec_capacity tail.old }
    requires room { value_at K.cmp key tail.old.items ≡ None → vec_len main.old + vec_len tail.old + 1 ≤ vec_capacity main.old }
    ensures new { result ≡ is_none (value_at K.cmp key tail.old.items) }
    ensures apart { AreApart K.cmp tail.new.items main.new.items }
    ensures values { IsWritten K.cmp key value (tail.old.items ++ main.old.items) (tail.new.items ++ main.new.items) }
    ensures short { vec_len tail.new < tail_size }
    ensures places { vec_capacity tail.new ≡ vec_capacity tail.old }
    ensures room { vec_capacity main.old ≤ vec_capacity main.new }
    ensures count { vec_len main.new + vec_len tail.new ≡ vec_len main.old + vec_len tail.old + cond result 1 0 }
{
    let is_new = put(tail, key, value);
    merge_long(main, tail);
    is_new
}

/// Writes the value of a key that no row has. It goes to the main rows at once where it comes after all of them, as a new key
/// mostly does, and else to the tail.
pub(crate) fn add<K: Ord + Copy, V: Copy>(
    main: &mut Vec<(K, V)>,
    tail: &mut Vec<(K, V)>,
    key: K,
    value: V,
)
    requires apart { AreApart K.cmp tail.old.items main.old.items }
    requires new { value_at K.cmp key (tail.old.items ++ main.old.items) ≡ None }
    requires short { vec_len tail.old < tail_size }
    requires places { tail_size ≤ vec_capacity tail.old }
    requires room { vec_len main.old + vec_len tail.old + 1 ≤ vec_capacity main.old }
    ensures apart { AreApart K.cmp tail.new.items main.new.items }
    ensures values { IsWritten K.cmp key value (tail.old.items ++ main.old.items) (tail.new.items ++ main.new.items) }
    ensures short { vec_len tail.new < tail_size }
    ensures places { vec_capacity tail.new ≡ vec_capacity tail.old }
    ensures room { vec_capacity main.old ≤ vec_capacity main.new }
    ensures count { vec_len main.new + vec_len tail.new ≡ vec_len main.old + vec_len tail.old + 1 }
{
    if is_last(main.as_slice(), &key) {
        append(main, key, value);
    } else {
        let _ = write_new(main, tail, key, value);
    }
}

/// Writes the value of a key behind all rows, after which it comes. The rows have a place.
fn append<K: Ord + Copy, V: Copy>(rows: &mut Vec<(K, V)>, key: K, value: V)
    requires sorted { IsStrictlySortedBy K.cmp (keys_of rows.old.items) }
    requires last { IsAfterSmaller K.cmp key rows.old.items (length rows.old.items) }
    requires room { vec_len rows.old < vec_capacity rows.old }
    ensures sorted { IsStrictlySortedBy K.cmp (keys_of rows.new.items) }
    ensures values { IsWritten K.cmp key value rows.old.items rows.new.items }
    ensures count { vec_len rows.new ≡ vec_len rows.old + 1 }
    ensures capacity { vec_capacity rows.new ≡ vec_capacity rows.old }
{
    rows.push_reserved((key, value));
}

/// Writes the value of a key if the rows have it, and answers whether they do.
fn write_over<K: Ord + Copy, V: Copy>(rows: &mut Vec<(K, V)>, key: K, value: V) -> bool
    requires { IsStrictlySortedBy K.cmp (keys_of rows.old.items) }
    ensures sorted { IsStrictlySortedBy K.cmp (keys_of rows.new.items) }
    ensures written { result ≡ true → IsWritten K.cmp key value rows.old.items rows.new.items }
    ensures had { result ≡ true → IsSome (value_at K.cmp key rows.old.items) }
    ensures same { result ≡ false → rows.new.items ≡ rows.old.items }
    ensures lacks { result ≡ false → value_at K.cmp key rows.old.items ≡ None }
    ensures count { vec_len rows.new ≡ vec_len rows.old }
    ensures capacity { vec_capacity rows.new ≡ vec_capacity rows.old }
{
    match place_of::<K, V, Brand>(rows.as_slice(), &key, Blank::new(1)) {
        Ok(place) => {
            rows[place].1 = value;
            true
        }
        Err(_) => false,
    }
}

/// Writes the value of a key, and answers whether the key is new. For a new key the rows have a place.
fn put<K: Ord + Copy, V: Copy>(rows: &mut Vec<(K, V)>, key: K, value: V) -> bool
    requires sorted { IsStrictlySortedBy K.cmp (keys_of rows.old.items) }
    requires room { value_at K.cmp key rows.old.items ≡ None → vec_len rows.old < vec_capacity rows.old }
    ensures new { result ≡ is_none (value_at K.cmp key rows.old.items) }
    ensures sorted { IsStrictlySortedBy K.cmp (keys_of rows.new.items) }
    ensures values { IsWritten K.cmp key value rows.old.items rows.new.items }
    ensures count { vec_len rows.new ≡ vec_len rows.old + cond result 1 0 }
    ensures capacity { vec_capacity rows.new ≡ vec_capacity rows.old }
{
    match place_of::<K, V, Brand>(rows.as_slice(), &key, Blank::new(1)) {
        Ok(place) => {
            rows[place].1 = value;
            false
        }
        Err(place) => {
            let _ = rows.insert(place, (key, value));
            true
        }
    }
}
