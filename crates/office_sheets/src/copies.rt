//! Copies of filings. Only a book takes memory.
ghost use Rattle.std.specs.Prelude.{◌≡◌, IfOk};

use aid_books::{Ages, Book, BoxedBook, Brackets};
use aid_filings::{Filing, What};
use std::alloc::{AllocError, Global};

/// A copy of a filing. An `Err` is want of memory.
pub fn copy_filing(alloc: Global, filing: &Filing) -> Result<Filing, AllocError>
    ensures { IfOk result (λ copy. copy ≡ filing.now) }
{
    Ok(Filing {
        key: filing.key,
        what: copy_what(alloc, &filing.what)?,
    })
}

// A copy of what is filed.
fn copy_what(alloc: Global, what: &What) -> Result<What, AllocError>
    ensures { IfOk result (λ copy. copy ≡ what.now) }
{
    match what {
        What::Book(book) => Ok(What::Book(copy_boxed(alloc, book)?)),
        What::School(facts) => Ok(What::School(*facts)),
        What::Calendar(facts) => Ok(What::Calendar(*facts)),
        What::Prior(facts) => Ok(What::Prior(*facts)),
        What::Apply(application) => Ok(What::Apply(*application)),
        What::Enroll(facts) => Ok(What::Enroll(*facts)),
        What::Originate(facts) => Ok(What::Originate(*facts)),
        What::Pay(amount) => Ok(What::Pay(*amount)),
        What::Withdraw(facts) => Ok(What::Withdraw(*facts)),
        What::Repay(amount) => Ok(What::Repay(*amount)),
        What::Adjust(amount) => Ok(What::Adjust(*amount)),
        What::Cost(facts) => Ok(What::Cost(*facts)),
        What::Sent(facts) => Ok(What::Sent(*facts)),
        What::Amend(facts) => Ok(What::Amend(*facts)),
    }
}

// A copy of a book in a box.
fn copy_boxed(alloc: Global, book: &BoxedBook) -> Result<BoxedBook, AllocError>
    ensures { IfOk result (λ copy. copy ≡ book.now) }
{
    Ok(BoxedBook::new(Box::new(alloc, copy_book(book.as_book()))?))
}

// A copy of a book.
fn copy_book(book: &Book) -> Book
    ensures { result ≡ book.now }
{
    // The book is valid, as every book is.
    book.valid();
    Book {
        year: book.year,
        pell: book.pell,
        percent: book.percent,
        poverty: book.poverty,
        payroll: book.payroll,
        protection: book.protection,
        employment: book.employment,
        assets: book.assets,
        business: copy_brackets(&book.business),
        age: copy_ages(&book.age),
        schedule: book.schedule,
        bracket: copy_brackets(&book.bracket),
        ceiling: book.ceiling,
    }
}

// A copy of a table of brackets.
fn copy_brackets(brackets: &Brackets) -> Brackets
    ensures { result ≡ brackets.now }
{
    Brackets::from_rows(brackets.as_slice())
}

// A copy of a table by age.
fn copy_ages(ages: &Ages) -> Ages
    ensures { result ≡ ages.now }
{
    Ages::from_rows(ages.as_slice())
}
