//! What numbers are still to come in a filing.
ghost use Rattle.std.specs.Prelude.{◌≡◌, ◌≢◌, true, [], ◌++◌, drop, option_map, slice_get};
ghost use Rattle.format_table.specs.Layout.{after as after_number, cut};
ghost use Rattle.format_table.specs.Parts.{line_of, slot_of, slots_of};
ghost use Rattle.format_table.specs.Tables.{are_plain};

use crate::field::{Field, Part};
use std::marker::Model;

// The fields of the rows that are still to come: the rest of the row at hand, and so many more rows. Where the row at
// hand is at its end, no more come.
#[derive(Drop)]
struct CountedRows {
    row: &'static [Field],
    left: u64,
    later: &'static [Field],
}

impl Model for CountedRows {
    ghost use Rattle.std.specs.Prelude.{◌≡◌, List, [], ◌++◌, map};
    ghost use Rattle.format_table.specs.Layout.{plain, rows_again};
    ghost use Rattle.format_table.specs.Parts.{Slot, lines_of};

    ghost Value = { List Slot };

    ghost view = { λ r. map plain (lines_of r.row.now) ++ rows_again r.left (lines_of r.later.now) };

    ghost invariant = { λ r. r.row.now ≡ [] → rows_again r.left (lines_of r.later.now) ≡ [] };
}

impl CountedRows {
    ghost use Rattle.std.specs.Prelude.{unsigned_abs};
    ghost use Rattle.format_table.specs.Layout.{plain, rows};

    // No rows are to come.
    fn none() -> Self
        ensures { result ≡ [] }
    {
        CountedRows {
            row: &[],
            left: 0,
            later: &[],
        }
    }

    // So many rows of a part as the number says.
    fn counted(part: &'static Part, number: i64) -> Self
        ensures { result ≡ rows (unsigned_abs number) (slot_of part.now).first (slot_of part.now).later }
    {
        let count = number.unsigned_abs();
        if count == 0 || part.first.is_empty() {
            return CountedRows::none();
        }
        CountedRows {
            row: part.first,
            left: count - 1,
            later: part.later,
        }
    }

    fn next(&self) -> Option<&'static Field>
        ensures { option_map (λ field. plain (line_of field.now)) result ≡ slice_get self.now 0 }
    {
        self.row.first()
    }

    fn advance(&mut self)
        requires { self.old ≢ [] }
        ensures { self.new ≡ drop 1 self.old }
    {
        if let Some((_, rest)) = self.row.split_first() {
            self.row = rest;
            if rest.is_empty() && self.left > 0 {
                self.row = self.later;
                self.left -= 1;
            }
        }
    }
}

// What a number of this part leaves of the parts behind it.
fn left_behind(part: &Part, rest: &'static [Part], number: i64) -> &'static [Part]
    ensures { slots_of result.now ≡ cut part.now.ends number (slots_of rest.now) }
{
    if number > 1 {
        rest
    } else {
        &rest[..rest.len().saturating_sub(part.ends)]
    }
}

/// The fields of the numbers that are still to come in a filing. A contract sees them as a list.
#[derive(Drop)]
pub struct Layout {
    rows: CountedRows,
    // The parts behind them: those of the key, which leave all that is behind them, and those of the kind.
    key: &'static [Part],
    parts: &'static [Part],
}

impl Model for Layout {
    ghost use Rattle.std.specs.Prelude.{◌≡◌, true, List, ◌++◌};
    ghost use Rattle.format_table.specs.Parts.{Slot, slots_of};
    ghost use Rattle.format_table.specs.Tables.{are_plain};

    ghost Value = { List Slot };

    ghost view = { λ l. l.rows ++ (slots_of l.key.now ++ slots_of l.parts.now) };

    ghost invariant = { λ l. are_plain (slots_of l.key.now) ≡ true };
}

impl Layout {
    /// All numbers of these parts are to come, those of the key first.
    pub fn new(key: &'static [Part], parts: &'static [Part]) -> Self
        requires { are_plain (slots_of key.now) ≡ true }
        ensures { result ≡ slots_of key.now ++ slots_of parts.now }
    {
        Layout {
            rows: CountedRows::none(),
            key,
            parts,
        }
    }

    /// The field of the next number, if one is to come.
    pub fn next(&self) -> Option<&'static Field>
        ensures { option_map (λ field. line_of field.now) result ≡ option_map (λ slot. slot.line) (slice_get self.now 0) }
    {
        if let Some(field) = self.rows.next() {
            Some(field)
        } else if let Some(part) = self.key.first() {
            Some(&part.field)
        } else if let Some(part) = self.parts.first() {
            Some(&part.field)
        } else {
            None
        }
    }

    /// Goes on past the next number, which is this one.
    pub fn advance(&mut self, number: i64)
        requires { self.old ≢ [] }
        ensures { self.new ≡ after_number self.old number }
    {
        if self.rows.next().is_some() {
            self.rows.advance();
        } else if let Some((part, rest)) = self.key.split_first() {
            self.key = rest;
            self.rows = CountedRows::counted(part, number);
        } else if let Some((part, rest)) = self.parts.split_first() {
            self.parts = left_behind(part, rest, number);
            self.rows = CountedRows::counted(part, number);
        }
    }
}
