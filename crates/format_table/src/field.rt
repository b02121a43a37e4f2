//! What a field of a filing is.
ghost use Rattle.std.specs.Prelude.{◌≡◌};
ghost use Rattle.format_table.specs.Parts.{width_of};

/// How a field's number is written in a row and a body, and kept in bytes.
#[derive(Clone, Copy, PartialEq, Eq)]
pub enum Form {
    /// A whole number, kept in 1, 2, 4 or 8 bytes without sign.
    U8,
    U16,
    U32,
    U64,
    /// A whole number, kept in 8 bytes with sign.
    I64,
    /// Cents, written as dollars with two decimals, kept in 8 bytes.
    Cents,
    /// A civil day, written as `2025-08-25`, kept as the days since 1970-01-01 in 4 bytes with sign.
    Day,
    /// 0 or 1, kept in one byte.
    Flag,
    /// A word of its table's own list, kept in one byte as its place there.
    Word,
    /// A count of the rows that follow, kept in one byte.
    Count,
}

impl Form {
    /// How many bytes its number takes.
    pub fn width(self) -> usize
        ensures value { result ≡ width_of self }
    {
        match self {
            Form::U8 | Form::Flag | Form::Word | Form::Count => 1,
            Form::U16 => 2,
            Form::U32 | Form::Day => 4,
            Form::U64 | Form::I64 | Form::Cents => 8,
        }
    }
}

/// What a field's number may be, after the numbers before it in the filing.
#[derive(Clone, Copy, PartialEq, Eq)]
pub enum Limit {
    /// From the first number to the second.
    Between(i64, i64),
    /// From this number to the one just before.
    UpToLast(i64),
    /// Above the same column of the row before, up to this number.
    AboveRow(i64),
    /// The value that the row before it has where this row begins, up to this number.
    Continues(i64),
    /// The share of what the first row begins at, by the schedule's first rate, up to this number.
    Begins(i64),
}

/// A field: its name, which is its key in a body, how its number is written and kept, and what the number may be.
#[derive(Clone, Copy)]
pub struct Field {
    pub name: &'static str,
    pub form: Form,
    pub limit: Limit,
}

/// A field with the rows that it counts, where its number is a count: the fields of the first row, and those of each later
/// one. A field that counts nothing has no fields in either. The last `ends` fields of the kind stand only where the number is
/// above 1; most fields have none.
#[derive(Clone, Copy)]
pub struct Part {
    pub field: Field,
    pub first: &'static [Field],
    pub later: &'static [Field],
    pub ends: usize,
}
