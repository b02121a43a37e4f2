//! The ranges of the fields of a year book, which stand in the table of kinds.
ghost use Rattle.std.specs.Prelude.{◌≡◌};
ghost use Rattle.format_kinds.specs.Kinds.{book_slots};
ghost use Rattle.format_table.specs.Parts.{lines_of, slots_of};
ghost use Rattle.format_books.specs.Ranges.{between, greatest, limit_in as limit_of_line, limit_named as limit_of_name, range_named, range_of, up_to as numbers_to};

use format_kinds::{Kind, table_row};
use format_table::{Field, Limit, Part};

/// The greatest number of a field.
#[derive(Clone, Copy)]
pub enum Highest {
    /// This one.
    Number(i64),
    /// The number at this key of the same section.
    Key(&'static str),
}

/// The least and the greatest number of a field.
#[derive(Clone, Copy)]
pub struct Bounds {
    pub low: i64,
    pub high: Highest,
}

// From the first number to the second.
fn up_to(low: i64, high: i64) -> Bounds
    ensures { between result.low (greatest result.high) ≡ between low (numbers_to high) }
{
    Bounds {
        low,
        high: Highest::Number(high),
    }
}

// What a limit says whatever stands before the number.
fn bounds_of(limit: Limit) -> Bounds
    ensures { between result.low (greatest result.high) ≡ range_of limit }
{
    match limit {
        Limit::Between(low, high) => up_to(low, high),
        Limit::UpToLast(low) => Bounds {
            low,
            high: Highest::Key("maximum"),
        },
        Limit::AboveRow(high) => up_to(0, high),
        Limit::Continues(high) => up_to(0, high),
        Limit::Begins(high) => up_to(0, high),
    }
}

// The parts of a book in the table of kinds.
fn book_parts() -> &'static [Part]
    ensures { slots_of result.now ≡ book_slots }
{
    table_row(Kind::Book).parts
}

// The limit of the first field of this name.
fn limit_in(fields: &[Field], name: &str) -> Option<Limit>
    ensures { result ≡ limit_of_line name.now (lines_of fields.now) }
{
    for field in fields {
        if field.name == name {
            return Some(field.limit);
        }
    }
    None
}

// The limit of the first part of this name, or of the first of a later row.
fn limit_named(parts: &[Part], name: &str) -> Option<Limit>
    ensures { result ≡ limit_of_name name.now (slots_of parts.now) }
{
    for part in parts {
        if part.field.name == name {
            return Some(part.field.limit);
        }
        if let Some(limit) = limit_in(part.later, name) {
            return Some(limit);
        }
    }
    None
}

/// The range of the numbers of a book that have this name.
pub fn range(name: &str) -> Bounds
    ensures { between result.low (greatest result.high) ≡ range_named name.now }
{
    bounds_of(limit_named(book_parts(), name).unwrap_or(Limit::Between(0, 0)))
}
