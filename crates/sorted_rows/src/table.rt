//! The table: most rows in one sorted list, and in a short one new keys that wait to be merged.
ghost use Rattle.std.specs.Prelude.{◌≡◌, ◌+◌, ◌-◌, ◌*◌, ◌<◌, ◌≤◌, ◌^◌, [], ℕ, Some, None, IfSome, OnOk, OnErr, cond, max, length};
ghost use Rattle.std.specs.Option.{is_none};
ghost use Rattle.sorted_rows.specs.Places.{IsWritten, tail_looks, value_at};

use crate::Steps;
use crate::find::{find, find_uncounted};
use crate::write::{add, write};
use std::alloc::{AllocError, Global};
use std::marker::{Brand, Model};
use std::sync::ledger::{Blank, Ledger};

/// The tail is merged into the main rows when it has so many rows at the latest.
pub(crate) const TAIL_SIZE: usize = 1024;

/// Rows of a key and a value, no key twice. A contract sees the list of the rows, in which a key's value is found by
/// `value_at`, and the room: how many more rows it takes without asking for memory.
#[derive(Drop)]
pub struct Table<K: Ord + Copy, V: Copy> {
    main: Vec<(K, V)>,
    tail: Vec<(K, V)>,
    room: usize,
}

impl<K: Ord + Copy, V: Copy> Model for Table<K, V> {
    ghost use Rattle.std.specs.Prelude.{◌+◌, ◌≤◌, ◌<◌, ◌++◌, vec_len, vec_capacity};
    ghost use Rattle.sorted_rows.specs.Places.{AreApart, tail_size};
    ghost use Rattle.sorted_rows.specs.Seen.{Seen};

    ghost Value = { Seen K V };

    ghost view = { λ t. record { rows = t.tail.items ++ t.main.items; room = t.room } };

    ghost invariant = { λ t. AreApart K.cmp t.tail.items t.main.items
        × (vec_len t.tail < tail_size)
        × (vec_len t.main + vec_len t.tail + t.room ≤ vec_capacity t.main)
        × (0 < t.room → tail_size ≤ vec_capacity t.tail) };
}

impl<K: Ord + Copy, V: Copy> Table<K, V> {
    /// A table with no row and no room.
    pub fn new(alloc: Global) -> Self
        ensures rows { result.rows ≡ [] }
        ensures room { result.room ≡ 0 }
    {
        Table {
            main: Vec::new(alloc),
            tail: Vec::new(alloc),
            room: 0,
        }
    }

    /// Makes room for `n` rows more. An `Err` is want of memory.
    pub fn reserve(&mut self, n: u32) -> Result<(), AllocError>
        ensures rows { self.new.rows ≡ self.old.rows }
        ensures room { OnOk result (self.new.room ≡ max self.old.room n) }
        ensures err { OnErr result (self.new.room ≡ self.old.room) }
    {
        let wanted = n as usize;
        if self.room < wanted {
            self.tail.reserve(TAIL_SIZE - self.tail.len())?;
            let more = wanted.checked_add(self.tail.len()).ok_or(AllocError)?;
            self.main.reserve(more)?;
            self.room = wanted;
        }
        Ok(())
    }

    /// The value of a key. Each look at a row is a step: ten at most in the tail, and elsewhere one for each binary digit of
    /// the number of rows. So among 1,000,000 rows a value is found in 30 looks. They are never more than two for each binary
    /// digit of the number of rows, and one less where there is a row. They are one at least where the key is found, and where
    /// it isn't, about one for each binary digit.
    pub fn get<L: Ledger>(&self, key: &K, steps: &mut Steps<L>) -> Option<V>
        ensures value { result ≡ value_at K.cmp key.now self.now.rows }
        ensures later { steps.old ≤ steps.new }
        ensures met { IfSome result (λ _. steps.old + 1 ≤ steps.new) }
        ensures missed { result ≡ None → length self.now.rows + 2 ≤ 2 ^ (steps.new - steps.old + 1) }
        ensures lookups { (digits : ℕ) → length self.now.rows < 2 ^ digits → steps.new ≤ steps.old + tail_looks + digits }
        ensures twice { (digits : ℕ) → length self.now.rows < 2 ^ digits → steps.new ≤ steps.old + 2 * digits }
        ensures spared { (digits : ℕ) → 0 < length self.now.rows → length self.now.rows < 2 ^ digits → steps.new + 1 ≤ steps.old + 2 * digits }
    {
        match find(self.tail.as_slice(), key, steps) {
            Some(value) => Some(value),
            None => find(self.main.as_slice(), key, steps),
        }
    }

    /// The value of a key, where nobody counts the looks.
    pub fn at(&self, key: &K) -> Option<V>
        ensures { result ≡ value_at K.cmp key.now self.now.rows }
    {
        match find_uncounted::<K, V, Brand>(self.tail.as_slice(), key, Blank::new(1)) {
            Some(value) => Some(value),
            None => find_uncounted::<K, V, Brand>(self.main.as_slice(), key, Blank::new(1)),
        }
    }

    /// Writes the value of a key. A new key takes one place of the room; no call takes memory.
    pub fn set(&mut self, key: K, value: V)
        requires room { value_at K.cmp key self.old.rows ≡ None → 0 < self.old.room }
        ensures values { IsWritten K.cmp key value self.old.rows self.new.rows }
        ensures room { let places = cond (is_none (value_at K.cmp key self.old.rows)) 1 0 in self.new.room + places ≡ self.old.room }
        ensures count { length self.new.rows + self.new.room ≡ length self.old.rows + self.old.room }
    {
        if write(&mut self.main, &mut self.tail, key, value) {
            self.room -= 1;
        }
    }

    /// Writes the value of a key that the table lacks, which spares the search of the main rows. It takes one place of the room,
    /// and no memory.
    pub fn add(&mut self, key: K, value: V)
        requires new { value_at K.cmp key self.old.rows ≡ None }
        requires room { 0 < self.old.room }
        ensures values { IsWritten K.cmp key value self.old.rows self.new.rows }
        ensures room { self.new.room + 1 ≡ self.old.room }
        ensures count { length self.new.rows ≡ length self.old.rows + 1 }
    {
        add(&mut self.main, &mut self.tail, key, value);
        self.room -= 1;
    }
}
