//! Tables that go by an amount.
ghost use Rattle.std.specs.Prelude.{◌≡◌, ◌≤◌, All, length};
ghost use Rattle.aid_books.specs.Marginal.{IsBracket, IsMarginal};

use std::marker::Model;

/// A row of such a table: where it begins and its base there in dollars, and the rate of what is over it in
/// ten-thousandths (HEA 475(e), 478(c)).
#[derive(Clone, Copy, PartialEq, Eq)]
pub struct Bracket {
    pub over: i64,
    pub base: i64,
    pub rate: i64,
}

/// A table of 1 to 16 such rows, each beginning above the one before it with the value that that one has there. A
/// contract sees the list.
#[derive(PartialEq, Eq, Drop)]
pub struct Brackets {
    rows: [Bracket; 16],
    count: usize,
}

impl Model for Brackets {
    ghost use Rattle.std.specs.Prelude.{pos, List, All, length, take};
    ghost use Rattle.aid_books.specs.declared.marginal.Bracket.{Bracket};
    ghost use Rattle.aid_types.specs.Filled.{filled, IsFilled};
    ghost use Rattle.aid_books.specs.Marginal.{IsBracket, IsMarginal};

    ghost Value = { List Bracket };

    ghost view = { λ t. take t.count t.rows };

    ghost invariant = { λ t. IsFilled 16 (record { over = pos 0; base = pos 0; rate = pos 0 }) t.count t.rows
        × All IsBracket (take t.count t.rows) × IsMarginal (take t.count t.rows) };

    ghost inverse = { λ rows. record { rows = filled 16 (record { over = pos 0; base = pos 0; rate = pos 0 }) rows; count = length rows } };
}

impl Brackets {
    ghost use Rattle.std.specs.Prelude.{ℕ, ◌≤ℤ◌, IfSome, IfNone, Some};
    ghost use Rattle.aid_books.specs.declared.marginal.Bracket.{Bracket};
    ghost use Rattle.aid_books.specs.Marginal.{row_at as row_at_of};
    ghost use Rattle.aid_books.specs.RowAt.{IsRowAt};

    /// The table of these rows.
    pub fn from_rows(rows: &[Bracket]) -> Self
        requires few { length rows.now ≤ 16 }
        requires in_range { All IsBracket rows.now }
        requires marginal { IsMarginal rows.now }
        ensures { result ≡ rows.now }
    {
        let mut array = [Bracket {
            over: 0,
            base: 0,
            rate: 0,
        }; 16];
        for (i, row) in rows.iter().enumerate() {
            array[i] = *row;
        }
        Brackets {
            rows: array,
            count: rows.len(),
        }
    }

    /// The rows, the least beginning first.
    pub fn as_slice(&self) -> &[Bracket]
        ensures rows { result.now ≡ self.now }
        ensures few { length self.now ≤ 16 }
        ensures in_range { All IsBracket self.now }
        ensures marginal { IsMarginal self.now }
    {
        &self.rows[..self.count]
    }

    /// The last row that begins below `x`: the one row that does and whose successor doesn't.
    pub fn row_at(&self, x: i64) -> Option<Bracket>
        ensures value { result ≡ row_at_of self.now x }
        ensures in_range { IfSome result IsBracket }
        ensures found { IfSome result (λ row. (k : ℕ) × IsRowAt self.now x k row) }
        ensures only { (k : ℕ) → (row : Bracket) → IsRowAt self.now x k row → result ≡ Some row }
        ensures none { IfNone result (All (λ row. x ≤ℤ row.over) self.now) }
    {
        let _rows = self.as_slice();
        self.last_row_below(x)
    }

    fn last_row_below(&self, x: i64) -> Option<Bracket>
        ensures value { result ≡ row_at_of self.now x }
        ensures in_range { IfSome result IsBracket }
    {
        self.as_slice()
            .iter()
            .rev()
            .copied()
            .find(|row| row.over < x)
    }
}
