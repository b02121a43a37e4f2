//! Why a text is no year book.
ghost use Rattle.std.specs.Prelude.{◌≡◌};
ghost use Rattle.format_books.specs.declared.error.BookError.TheVariants.{NoMemory};
ghost use Rattle.format_books.specs.Errors.{error_number};

use crate::ranges::{Highest, range};
use crate::table::{BookField, Holds, fields};
use aid_types::Name;
use std::alloc::{AllocError, AllocFailed};
use std::fmt;
use thiserror::Error;

/// What is wrong with the text of a book: the first error that applies. Error 1 comes before all others, then 2 to 4 by the
/// fields in order, within a field 2 before 3 before 4, then 5, and last 6.
#[derive(Debug, Drop, Error)]
pub enum BookError {
    /// 1: the text is no TOML.
    #[error("the text is no TOML: write it as sections, keys and values")]
    NotToml,
    /// 2: a field, by its number, isn't there, or isn't there in some row.
    #[error("field {0}, {key}, is missing: add it", key = BookKey(*.0))]
    Missing(u16),
    /// 3: a field is not of its kind: an integer, a list of so many integers, an array of tables.
    #[error("field {0}, {key}, is of the wrong kind: write {kind}", key = BookKey(*.0), kind = Wanted(*.0))]
    WrongKind(u16),
    /// 4: a number of a field is out of its range, or an array has no table or too many.
    #[error("field {0}, {key}, is out of range: {range}", key = BookKey(*.0), range = Range(*.0))]
    OutOfRange(u16),
    /// 5: a row, counted from 1, of a table, 1 `business`, 2 `age` or 3 `bracket`, does not begin the table as it must, or does
    /// not go on from the row before it.
    #[error("row {1} of {table} does not begin the table, or go on from the row before it, as it must: mend its figures", table = Table(*.0))]
    NotRising(u8, u16),
    /// 6: a key that no book has, with the section or array that it stands in before it.
    #[error("{name} is no key of a book: take it out", name = Shown(.0))]
    Unknown(Name),
    /// Memory ran out.
    #[error("out of memory")]
    NoMemory,
}

impl BookError {
    /// The error's number, 1 to 6. Want of memory has none.
    pub fn number(&self) -> Option<u8>
        ensures { result ≡ error_number self.now }
    {
        match self {
            BookError::NotToml => Some(1),
            BookError::Missing(_) => Some(2),
            BookError::WrongKind(_) => Some(3),
            BookError::OutOfRange(_) => Some(4),
            BookError::NotRising(_, _) => Some(5),
            BookError::Unknown(_) => Some(6),
            BookError::NoMemory => None,
        }
    }
}

impl From<AllocError> for BookError {
    ghost from_gives = { λ _ e. e ≡ NoMemory };

    fn from(_error: AllocError) -> BookError {
        BookError::NoMemory
    }
}

impl<T: Drop> From<AllocFailed<T>> for BookError {
    ghost from_gives = { λ _ e. e ≡ NoMemory };

    fn from(_error: AllocFailed<T>) -> BookError {
        BookError::NoMemory
    }
}

// The field of a number.
fn field_of(number: u16) -> Option<&'static BookField> {
    fields().iter().find(|field| field.number == number)
}

// A field's key, behind its section.
#[derive(Drop)]
struct BookKey(u16);

impl fmt::Display for BookKey {
    fn fmt<W: fmt::Write>(&self, f: &mut fmt::Formatter<W>) -> fmt::Result {
        match field_of(self.0) {
            Some(field) => write!(f, "{}", field.name),
            None => Ok(()),
        }
    }
}

// What is to stand at a field.
#[derive(Drop)]
struct Wanted(u16);

impl fmt::Display for Wanted {
    fn fmt<W: fmt::Write>(&self, f: &mut fmt::Formatter<W>) -> fmt::Result {
        match field_of(self.0) {
            Some(field) => match field.kind {
                Holds::Integer => write!(f, "a whole number"),
                Holds::Integers(count) => write!(f, "a list of {count} whole numbers"),
                Holds::Tables => write!(f, "an array of tables"),
                Holds::Column => write!(f, "a whole number in each row"),
            },
            None => Ok(()),
        }
    }
}

// The range of a field, which for a table is of its rows.
#[derive(Drop)]
struct Range(u16);

impl fmt::Display for Range {
    fn fmt<W: fmt::Write>(&self, f: &mut fmt::Formatter<W>) -> fmt::Result {
        match field_of(self.0) {
            Some(field) => {
                let range = range(field.name);
                let low = range.low;
                match range.high {
                    Highest::Number(high) => match field.kind {
                        Holds::Tables => write!(f, "it has {low} to {high} rows"),
                        _ => write!(f, "it goes from {low} to {high}"),
                    },
                    Highest::Key(key) => write!(f, "it goes from {low} to {}.{key}", field.section),
                }
            }
            None => Ok(()),
        }
    }
}

// The key of a table, by its number.
#[derive(Drop)]
struct Table(u8);

impl fmt::Display for Table {
    fn fmt<W: fmt::Write>(&self, f: &mut fmt::Formatter<W>) -> fmt::Result {
        match self.0 {
            1 => write!(f, "business"),
            2 => write!(f, "age"),
            _ => write!(f, "bracket"),
        }
    }
}

// A name as text, with its control characters and quotes escaped.
#[derive(Drop)]
struct Shown<'a>(&'a Name);

impl<'a> fmt::Display for Shown<'a> {
    fn fmt<W: fmt::Write>(&self, f: &mut fmt::Formatter<W>) -> fmt::Result {
        match std::str::from_utf8(self.0.as_bytes()) {
            Ok(name) => write!(f, "{}", name.escape_debug()),
            Err(_) => Ok(()),
        }
    }
}
