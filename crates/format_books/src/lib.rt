//! The book of an award year, read from a TOML text.
#![tactic(auto)]

mod error;
mod numbers;
mod ranges;
mod reading;
mod table;
mod tables;
mod unknown;

ghost use Rattle.std.specs.Prelude.{◌≡◌, ◌≢◌, ℕ, List, Ok, Err, IfOk, IfErr};
ghost use Rattle.aid_books.specs.declared.book.Book.{Book as BookRecord};
ghost use Rattle.toml.specs.View.{table_view};
ghost use Rattle.format_kinds.specs.Book.{numbers_of};
ghost use Rattle.format_books.specs.Causes.{IsLeastUnknown, IsMissing, IsNotRising, IsOutOfRange, IsWrongKind, OfTable};
ghost use Rattle.format_books.specs.Text.{numbers_of_table, numbers_of_text};

use crate::numbers::numbers_of_fields;
use crate::reading::{error_of_fields, table_in};
use crate::tables::break_of;
use crate::unknown::least_unknown;
use aid_books::Book;
use aid_types::Name;
pub use error::BookError;
use format_kinds::book_of_numbers;
pub use ranges::{Bounds, Highest, range};
use std::alloc::Global;
pub use table::{BookField, Holds, fields, fields_are_filed};
use toml::Table;

// The book of a text's table.
fn book_of_table(alloc: Global, table: &Table) -> Result<Book, BookError>
    ensures ok { IfOk result (λ b. numbers_of_table (table_view table.now) ≡ Ok (numbers_of b)) }
    ensures err { IfErr result (λ e. e ≢ BookError.NoMemory → numbers_of_table (table_view table.now) ≡ Err e) }
{
    if let Some(error) = error_of_fields(table) {
        return Err(error);
    }
    if let Some(error) = break_of(alloc, table)? {
        return Err(error);
    }
    if let Some(key) = least_unknown(alloc, table)? {
        return Err(BookError::Unknown(Name::new(key)));
    }
    Ok(book_of_numbers(&numbers_of_fields(table)))
}

/// The book that a text gives, or the first thing that is wrong with the text: that it is no TOML, then the fields in
/// order, then the rows of the tables, then the keys that a book doesn't have, the least by its bytes.
pub fn book_of(alloc: Global, text: &[u8]) -> Result<Book, BookError>
    ensures book { IfOk result (λ b. numbers_of_text text.now ≡ Ok (numbers_of b)) }
    ensures only { IfOk result (λ b. (other : BookRecord) → numbers_of_text text.now ≡ Ok (numbers_of other) → other ≡ b) }
    ensures first_error { IfErr result (λ e. e ≢ BookError.NoMemory → numbers_of_text text.now ≡ Err e) }
    // What each error says of the text.
    ensures missing { (field : ℕ) → result ≡ Err (BookError.Missing field) → OfTable (λ t. IsMissing t field) text.now }
    ensures wrong_kind { (field : ℕ) → result ≡ Err (BookError.WrongKind field) → OfTable (λ t. IsWrongKind t field) text.now }
    ensures out_of_range { (field : ℕ) → result ≡ Err (BookError.OutOfRange field) → OfTable (λ t. IsOutOfRange t field) text.now }
    ensures not_rising { (table row : ℕ) → result ≡ Err (BookError.NotRising table row) → OfTable (λ t. IsNotRising t table row) text.now }
    ensures unknown { (name : List ℕ) → result ≡ Err (BookError.Unknown name) → OfTable (λ t. IsLeastUnknown t name) text.now }
{
    let table = table_in(alloc, text)?;
    book_of_table(alloc, &table)
}
