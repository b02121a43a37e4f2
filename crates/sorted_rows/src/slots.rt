//! Rows that stay where they were put, with a table of their numbers by key.
ghost use Rattle.std.specs.Prelude.{◌≡◌, ◌+◌, ◌-◌, ◌*◌, ◌^◌, ◌<◌, ◌≤◌, ◌↔◌, ◌++◌, [], ◌∷◌, ℕ, Some, None, IfSome, OnOk, OnErr, cond, max, length};
ghost use Rattle.std.specs.List.{slice_get};
ghost use Rattle.std.specs.Option.{is_none, option_copied};
ghost use Rattle.sorted_rows.specs.Places.{AreStaying, IsHere, IsWritten, value_at};

use crate::Steps;
use crate::table::Table;
use std::alloc::{AllocError, Global};
use std::marker::Model;
use std::sync::ledger::Ledger;

/// Rows of a key and a value, no key twice, that stay where they were put: a row's slot is its number from 0 in the order
/// in which the keys came. Only the slots are sorted by key, so a row may be long. A contract sees the list of the rows,
/// the oldest first, and the room: how many more rows it takes without asking for memory.
#[derive(Drop)]
pub struct Slots<K: Ord + Copy, V: Copy> {
    slots: Table<K, u32>,
    rows: Vec<(K, V)>,
}

impl<K: Ord + Copy, V: Copy> Model for Slots<K, V> {
    ghost use Rattle.std.specs.Prelude.{◌+◌, ◌≤◌, vec_len, vec_capacity};
    ghost use Rattle.sorted_rows.specs.Places.{ArePlaced};
    ghost use Rattle.sorted_rows.specs.Seen.{Seen};

    ghost Value = { Seen K V };

    ghost view = { λ t. record { rows = t.rows.items; room = t.slots.room } };

    ghost invariant = { λ t. ArePlaced K.cmp t.slots.rows t.rows.items
        × (vec_len t.rows + t.slots.room ≤ vec_capacity t.rows) };
}

impl<K: Ord + Copy, V: Copy> Slots<K, V> {
    /// Slots with no row and no room.
    pub fn new(alloc: Global) -> Self
        ensures rows { result.rows ≡ [] }
        ensures room { result.room ≡ 0 }
    {
        Slots {
            slots: Table::new(alloc),
            rows: Vec::new(alloc),
        }
    }

    /// Makes room for `n` rows more. An `Err` is want of memory.
    pub fn reserve(&mut self, n: u32) -> Result<(), AllocError>
        ensures rows { self.new.rows ≡ self.old.rows }
        ensures room { OnOk result (self.new.room ≡ max self.old.room n) }
        ensures err { OnErr result (self.new.room ≡ self.old.room) }
    {
        self.rows.reserve(n as usize)?;
        self.slots.reserve(n)
    }

    /// How many rows there are: the slots are the numbers below.
    pub fn len(&self) -> usize
        ensures { result ≡ length self.now.rows }
    {
        self.rows.len()
    }

    /// The slot of a key. Each look at a slot is a step: two at most for each binary digit of the number of rows, and one
    /// less where there is a row. They are one at least where the key is found, and where it isn't, about one for each digit.
    pub fn slot_of<L: Ledger>(&self, key: &K, steps: &mut Steps<L>) -> Option<u32>
        ensures found { IfSome result (IsHere K.cmp key.now self.now.rows) }
        ensures none { result ≡ None ↔ value_at K.cmp key.now self.now.rows ≡ None }
        ensures later { steps.old ≤ steps.new }
        ensures met { IfSome result (λ _. steps.old + 1 ≤ steps.new) }
        ensures missed { result ≡ None → length self.now.rows + 2 ≤ 2 ^ (steps.new - steps.old + 1) }
        ensures lookups { (digits : ℕ) → length self.now.rows < 2 ^ digits → steps.new ≤ steps.old + 2 * digits }
        ensures spared { (digits : ℕ) → 0 < length self.now.rows → length self.now.rows < 2 ^ digits → steps.new + 1 ≤ steps.old + 2 * digits }
    {
        self.slots.get(key, steps)
    }

    /// The slot of a key, where nobody counts the looks.
    pub fn slot_at(&self, key: &K) -> Option<u32>
        ensures found { IfSome result (IsHere K.cmp key.now self.now.rows) }
        ensures none { result ≡ None ↔ value_at K.cmp key.now self.now.rows ≡ None }
    {
        self.slots.at(key)
    }

    /// The row at a slot, where nobody counts the looks.
    pub fn row(&self, slot: u32) -> &(K, V)
        requires { slot < length self.now.rows }
        ensures here { slice_get self.now.rows slot ≡ Some result.now }
        ensures own { value_at K.cmp result.now.0 self.now.rows ≡ Some result.now.1 }
    {
        &self.rows[slot as usize]
    }

    /// The row at a slot, which takes one step.
    pub fn look<L: Ledger>(&self, slot: u32, steps: &mut Steps<L>) -> &(K, V)
        requires { slot < length self.now.rows }
        ensures here { slice_get self.now.rows slot ≡ Some result.now }
        ensures own { value_at K.cmp result.now.0 self.now.rows ≡ Some result.now.1 }
        ensures one { steps.new ≡ steps.old + 1 }
    {
        steps.tick();
        self.row(slot)
    }

    /// The value of a key. The look at its row is a step too: in all at most two for each binary digit of the number of
    /// rows. So among 1,000,000 rows a value is found in 40 looks.
    pub fn get<L: Ledger>(&self, key: &K, steps: &mut Steps<L>) -> Option<&V>
        ensures value { option_copied result ≡ value_at K.cmp key.now self.now.rows }
        ensures later { steps.old ≤ steps.new }
        ensures met { IfSome result (λ _. steps.old + 2 ≤ steps.new) }
        ensures missed { result ≡ None → length self.now.rows + 2 ≤ 2 ^ (steps.new - steps.old + 1) }
        ensures lookups { (digits : ℕ) → length self.now.rows < 2 ^ digits → steps.new ≤ steps.old + 2 * digits }
    {
        let slot = self.slot_of(key, steps)?;
        Some(&self.look(slot, steps).1)
    }

    /// The value of a key, where nobody counts the looks.
    pub fn at(&self, key: &K) -> Option<&V>
        ensures { option_copied result ≡ value_at K.cmp key.now self.now.rows }
    {
        let slot = self.slots.at(key)?;
        Some(&self.row(slot).1)
    }

    /// Writes the value of a key, and answers its slot. A new key takes one place of the room, and the next slot; no call
    /// takes memory, and no row moves.
    pub fn put(&mut self, key: K, value: V) -> u32
        requires room { value_at K.cmp key self.old.rows ≡ None → 0 < self.old.room }
        requires few { length self.old.rows < 4294967295 }
        ensures values { IsWritten K.cmp key value self.old.rows self.new.rows }
        ensures slot { IsHere K.cmp key self.new.rows result }
        ensures stays { AreStaying self.old.rows self.new.rows }
        ensures room { let places = cond (is_none (value_at K.cmp key self.old.rows)) 1 0 in self.new.room + places ≡ self.old.room }
        ensures count { length self.new.rows + self.new.room ≡ length self.old.rows + self.old.room }
    {
        match self.slots.at(&key) {
            Some(slot) => {
                self.set(slot, value);
                slot
            }
            None => self.add(key, value),
        }
    }

    /// Writes the value of the key at a slot. No row moves.
    pub fn set(&mut self, slot: u32, value: V)
        requires { slot < length self.old.rows }
        ensures values { (key : K) (before : V) → slice_get self.old.rows slot ≡ Some (key, before) → IsWritten K.cmp key value self.old.rows self.new.rows }
        ensures stays { AreStaying self.old.rows self.new.rows }
        ensures count { length self.new.rows ≡ length self.old.rows }
        ensures room { self.new.room ≡ self.old.room }
    {
        self.rows[slot as usize].1 = value;
    }

    /// Puts the row of a key that has none behind the others, and answers its slot.
    pub fn add(&mut self, key: K, value: V) -> u32
        requires new { value_at K.cmp key self.old.rows ≡ None }
        requires room { 0 < self.old.room }
        requires few { length self.old.rows < 4294967295 }
        ensures rows { self.new.rows ≡ self.old.rows ++ (key, value) ∷ [] }
        ensures slot { result ≡ length self.old.rows }
        ensures room { self.new.room + 1 ≡ self.old.room }
    {
        let slot = self.rows.len() as u32;
        self.slots.add(key, slot);
        let _ = self.rows.push((key, value));
        slot
    }
}
