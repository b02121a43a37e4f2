//! Why a row is none of its form.
ghost use Rattle.std.specs.Prelude.{◌≡◌};

/// What is wrong with a row.
#[derive(Clone, Copy, PartialEq, Eq)]
pub enum Cause {
    /// The first field names no kind that has rows.
    UnknownKind,
    /// There are more or fewer fields than the kind has.
    WrongCount,
    /// A field's text isn't spelled as its form is.
    Spelling,
    /// A field's number is out of range or past its limit, or there is no such day.
    Range,
}

impl Cause {
    ghost use Rattle.format_rows.specs.Causes.{number_of};

    /// The number that a line gives for it, from 1.
    pub fn number(self) -> u8
        ensures { result ≡ number_of self }
    {
        match self {
            Cause::UnknownKind => 1,
            Cause::WrongCount => 2,
            Cause::Spelling => 3,
            Cause::Range => 4,
        }
    }
}

/// Why a row is none of its form. `row` and `field` count from 1, the kind being field 1, and `field` is 0 for a wrong number
/// of fields.
#[derive(Clone, Copy, PartialEq, Eq)]
pub struct RowError {
    pub row: u32,
    pub field: u16,
    pub cause: Cause,
}
