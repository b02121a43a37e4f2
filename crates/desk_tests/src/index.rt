//! What is on file of marks.
ghost use Rattle.std.specs.Prelude.{◌≡◌, ◌+◌, ◌≤◌, ◌∷◌, [], OnOk};
ghost use Rattle.desk_tests.specs.Marks.{total as total_of};

use crate::Mark;
use std::alloc::{AllocError, Global};
use std::marker::Model;

/// The marks that stand, and the points of all of them.
#[derive(Drop)]
pub struct MarkIndex {
    // The oldest first.
    marks: Vec<Mark>,
    total: u32,
    room: u32,
}

impl Model for MarkIndex {
    ghost use Rattle.std.specs.Prelude.{◌≡◌, ◌+◌, ◌≤◌, reverse, vec_len, vec_capacity};
    ghost use Rattle.desk_tests.specs.Marks.{Marked, total as total_of};

    ghost Value = { Marked };

    ghost view = { λ i. record { list = reverse i.marks.items; room = i.room } };

    ghost invariant = { λ i. (i.total ≡ total_of (reverse i.marks.items)) × (vec_len i.marks + i.room ≤ vec_capacity i.marks) };
}

impl MarkIndex {
    /// No mark.
    pub fn new(alloc: Global) -> Self
        ensures list { result.list ≡ [] }
        ensures room { result.room ≡ 0 }
    {
        MarkIndex {
            marks: Vec::new(alloc),
            total: 0,
            room: 0,
        }
    }

    /// Makes room for so many marks more.
    pub fn reserve(&mut self, n: u32) -> Result<(), AllocError>
        ensures list { self.new.list ≡ self.old.list }
        ensures room { OnOk result (n ≤ self.new.room) }
        ensures no_less { self.old.room ≤ self.new.room }
    {
        if self.room < n {
            self.marks.reserve(n as usize)?;
            self.room = n;
        }
        Ok(())
    }

    /// The points of all marks.
    pub fn total(&self) -> u32
        ensures { result ≡ total_of self.now.list }
    {
        self.total
    }

    /// Adds a mark.
    pub fn push(&mut self, mark: Mark)
        requires room { 1 ≤ self.old.room }
        requires few { total_of self.old.list ≤ 1000 }
        ensures list { self.new.list ≡ mark ∷ self.old.list }
        ensures room { self.old.room ≡ self.new.room + 1 }
    {
        self.total += u32::from(mark.amount) + 1;
        self.marks.push_reserved(mark);
        self.room -= 1;
    }
}
