//! The table that goes by age.
ghost use Rattle.std.specs.Prelude.{◌≡◌, ◌≤◌, All, length};
ghost use Rattle.aid_books.specs.Ages.{IsAgeRow, IsByAge};

use std::marker::Model;

/// A row: the age in years where it begins, and the asset protection allowance from there on in dollars (HEA 478(d)).
#[derive(Clone, Copy, PartialEq, Eq)]
pub struct AgeRow {
    pub start: i64,
    pub single: i64,
    pub married: i64,
}

/// A table of 1 to 64 such rows, each beginning at a greater age than the one before it. A contract sees the list.
#[derive(PartialEq, Eq, Drop)]
pub struct Ages {
    rows: [AgeRow; 64],
    count: usize,
}

impl Model for Ages {
    ghost use Rattle.std.specs.Prelude.{pos, List, All, length, take};
    ghost use Rattle.aid_books.specs.declared.ages.AgeRow.{AgeRow};
    ghost use Rattle.aid_types.specs.Filled.{filled, IsFilled};
    ghost use Rattle.aid_books.specs.Ages.{IsAgeRow, IsByAge};

    ghost Value = { List AgeRow };

    ghost view = { λ t. take t.count t.rows };

    ghost invariant = { λ t. IsFilled 64 (record { start = pos 0; single = pos 0; married = pos 0 }) t.count t.rows
        × All IsAgeRow (take t.count t.rows) × IsByAge (take t.count t.rows) };

    ghost inverse = { λ rows. record { rows = filled 64 (record { start = pos 0; single = pos 0; married = pos 0 }) rows; count = length rows } };
}

impl Ages {
    /// The table of these rows.
    pub fn from_rows(rows: &[AgeRow]) -> Self
        requires few { length rows.now ≤ 64 }
        requires in_range { All IsAgeRow rows.now }
        requires by_age { IsByAge rows.now }
        ensures { result ≡ rows.now }
    {
        let mut array = [AgeRow {
            start: 0,
            single: 0,
            married: 0,
        }; 64];
        for (i, row) in rows.iter().enumerate() {
            array[i] = *row;
        }
        Ages {
            rows: array,
            count: rows.len(),
        }
    }

    /// The rows, the least age first.
    pub fn as_slice(&self) -> &[AgeRow]
        ensures rows { result.now ≡ self.now }
        ensures few { length self.now ≤ 64 }
        ensures in_range { All IsAgeRow self.now }
        ensures by_age { IsByAge self.now }
    {
        &self.rows[..self.count]
    }
}
