//! The filing of a book's text.
ghost use Rattle.std.specs.Prelude.{◌≡◌, ◌≢◌, Err, IfOk};
ghost use Rattle.aid_types.specs.Ranges.{IsBetween};
ghost use Rattle.format_filings.specs.BookRows.{book_meaning, book_said};

use aid_books::BoxedBook;
use aid_filings::{Filing, What};
use aid_types::{Key, School};
use format_books::{BookError, book_of};
use std::alloc::{AllocError, Global};

/// The filing of a text as the book of this number, or what is wrong with the text. The outer error is want of memory.
#[tactic(auto, unfolding(format_bytes::specs::Numbers::facts_of))]
pub fn book_filing(
    alloc: Global,
    number: u64,
    text: &[u8],
) -> Result<Result<Filing, BookError>, AllocError>
    requires { IsBetween 1 999999999999 number }
    ensures meaning { IfOk result (λ row. book_said row ≡ book_meaning number text.now) }
    ensures error { IfOk result (λ row. row ≢ Err BookError.NoMemory) }
    ensures key { IfOk result (λ row. IfOk row (λ filing. (filing.key.school ≡ 0) × (filing.key.number ≡ number))) }
{
    match book_of(alloc, text) {
        Ok(book) => {
            let book = Box::new(alloc, book)?;
            Ok(Ok(Filing {
                key: Key {
                    school: School(0),
                    number,
                },
                what: What::Book(BoxedBook::new(book)),
            }))
        }
        Err(BookError::NoMemory) => Err(AllocError),
        Err(error) => Ok(Err(error)),
    }
}
