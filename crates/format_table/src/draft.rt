//! The numbers of a filing, one after the other.
ghost use Rattle.std.specs.Prelude.{◌≡◌, ◌+◌, ◌++◌, ◌<◌, ◌≤◌, ℤ, true, length, option_map, slice_get, reverse, IfSome, if◌then◌else◌};
ghost use Rattle.format_table.specs.Draft.{accepts, onward};
ghost use Rattle.format_table.specs.Forms.{IsHeld, IsTable, most_numbers, most_of};
ghost use Rattle.format_table.specs.Parts.{line_of, slots_of};
ghost use Rattle.format_table.specs.Tables.{are_plain};

use crate::field::{Field, Part};
use crate::layout::Layout;
use crate::limit::fits;
use arrayvec::ArrayVec;
use std::marker::Model;

/// The numbers of a filing so far, each within its limit, with room for so many. A contract sees the fields of those to come,
/// and the numbers, newest first.
#[derive(Drop)]
pub struct Draft<const MOST: usize> {
    layout: Layout,
    numbers: ArrayVec<i64, MOST>,
}

impl<const MOST: usize> Model for Draft<MOST> {
    ghost use Rattle.std.specs.Prelude.{reverse};
    ghost use Rattle.format_table.specs.Draft.{IsDraft, Progress};

    ghost Value = { Progress };

    ghost view = { λ d. record { slots = d.layout; earlier = reverse d.numbers.items } };

    ghost invariant = { λ d. IsDraft MOST d.layout d.numbers.items };
}

impl<const MOST: usize> Draft<MOST> {
    ghost use Rattle.std.specs.Prelude.{[]};

    /// An entry of these parts, those of the key first, of which no number stands yet.
    pub fn new(key: &'static [Part], parts: &'static [Part]) -> Self
        requires table { IsTable (slots_of key.now ++ slots_of parts.now) }
        requires plain { are_plain (slots_of key.now) ≡ true }
        requires room { most_of (slots_of key.now ++ slots_of parts.now) ≤ MOST }
        requires few { MOST ≤ most_numbers }
        ensures to_come { result.slots ≡ slots_of key.now ++ slots_of parts.now }
        ensures none { result.earlier ≡ [] }
    {
        Draft {
            layout: Layout::new(key, parts),
            numbers: ArrayVec::new(),
        }
    }

    /// The field of the next number, if one is to come. What is accepted has room in the field's bytes.
    pub fn next(&self) -> Option<&'static Field>
        ensures field { option_map (λ field. line_of field.now) result ≡ option_map (λ slot. slot.line) (slice_get self.now.slots 0) }
        ensures held { IfSome result (λ field. (z : ℤ) → accepts self.now z ≡ true → IsHeld field.now.form z) }
        ensures room { IfSome result (λ field. length self.now.earlier < most_numbers) }
    {
        self.layout.next()
    }

    /// Puts the next number behind the others, where one is to come and it is within its limit, and tells whether it is.
    pub fn push(&mut self, number: i64) -> bool
        ensures accepted { result ≡ accepts self.old number }
        ensures onward { self.new ≡ (if result then onward self.old number else self.old) }
    {
        let Some(field) = self.layout.next() else {
            return false;
        };
        if !fits(&field.limit, self.numbers.as_slice(), number) {
            return false;
        }
        self.numbers.push(number);
        self.layout.advance(number);
        true
    }

    /// The numbers so far, the oldest first.
    pub fn numbers(&self) -> &[i64]
        ensures numbers { result.now ≡ reverse self.now.earlier }
        ensures few { length result.now ≤ most_numbers }
    {
        self.numbers.as_slice()
    }
}
