//! The text of a year book.
ghost use Rattle.std.specs.Prelude.{◌≡◌, ◌∷◌, ◌++◌, [], OnOk, codes, decimal};
ghost use Rattle.std.specs.List.{concat, flat_map};
ghost use Rattle.sheet_review.specs.BookText.{age_text, book_text, bracket_text, ceiling_text, form_text, sections};

use crate::sections::{
    put_assets, put_employment, put_line, put_payroll, put_pell, put_percents, put_poverty,
    put_protection, put_schedule, put_text,
};
use aid_books::{AgeRow, Book, Bracket};
use itoa::Buffer;
use std::alloc::AllocError;

/// Appends the text of a book, as `book` and `check book` read it: its sections in the order of the fields. An `Err` is want of memory.
pub(crate) fn put_book(book: &Book, out: &mut Vec<u8>) -> Result<(), AllocError>
    ensures { OnOk result (out.new.items ≡ out.old.items ++ book_text book.now) }
{
    put_form(book.ceiling, out)?;
    put_count(b"year = ", book.year.0, out)?;
    put_pell(&book.pell, out)?;
    put_percents(&book.percent, out)?;
    put_poverty(&book.poverty, out)?;
    put_payroll(&book.payroll, out)?;
    put_protection(&book.protection, out)?;
    put_employment(&book.employment, out)?;
    put_assets(&book.assets, out)?;
    put_brackets(b"business", book.business.as_slice(), out)?;
    put_ages(book.age.as_slice(), out)?;
    put_schedule(&book.schedule, out)?;
    put_brackets(b"bracket", book.bracket.as_slice(), out)?;
    put_ceiling(book.ceiling, out)
}

// Appends the form, which is 2 where there is a ceiling.
#[tactic(auto, unfolding(crate::specs::BookText::form_text))]
fn put_form(ceiling: u16, out: &mut Vec<u8>) -> Result<(), AllocError>
    ensures { OnOk result (out.new.items ≡ out.old.items ++ form_text ceiling) }
{
    if ceiling == 0 {
        put_text(b"form = 1\n", out)
    } else {
        put_text(b"form = 2\n", out)
    }
}

// Appends a number behind its key.
fn put_count(key: &[u8], number: u16, out: &mut Vec<u8>) -> Result<(), AllocError>
    ensures { OnOk result (out.new.items ≡ out.old.items ++ concat (key.now ∷ decimal number ∷ codes "\n" ∷ [])) }
{
    put_text(key, out)?;
    put_digits(number, out)?;
    put_text(b"\n", out)
}

// Appends a number as it is.
fn put_digits(number: u16, out: &mut Vec<u8>) -> Result<(), AllocError>
    ensures { OnOk result (out.new.items ≡ out.old.items ++ decimal number) }
{
    let mut digits = Buffer::new();
    put_text(digits.format(number).as_bytes(), out)
}

// Appends the ceiling, where there is one.
#[tactic(auto, unfolding(crate::specs::BookText::ceiling_text))]
fn put_ceiling(ceiling: u16, out: &mut Vec<u8>) -> Result<(), AllocError>
    ensures { OnOk result (out.new.items ≡ out.old.items ++ ceiling_text ceiling) }
{
    if ceiling == 0 {
        return Ok(());
    }
    put_count(b"\n[ceiling]\npercent = ", ceiling, out)
}

// Appends the rows of a table by amount.
fn put_brackets(name: &[u8], rows: &[Bracket], out: &mut Vec<u8>) -> Result<(), AllocError>
    ensures { OnOk result (out.new.items ≡ out.old.items ++ flat_map (bracket_text name.now) rows.now) }
{
    for row in rows {
        put_bracket(name, row, out)?;
    }
    Ok(())
}

// Appends one of them.
fn put_bracket(name: &[u8], row: &Bracket, out: &mut Vec<u8>) -> Result<(), AllocError>
    ensures { OnOk result (out.new.items ≡ out.old.items ++ bracket_text name.now row.now) }
{
    put_text(b"\n[[", out)?;
    put_text(name, out)?;
    put_text(b"]]\n", out)?;
    put_line(b"over", &row.over, out)?;
    put_line(b"base", &row.base, out)?;
    put_line(b"rate", &row.rate, out)
}

// Appends the rows of the table by age.
fn put_ages(rows: &[AgeRow], out: &mut Vec<u8>) -> Result<(), AllocError>
    ensures { OnOk result (out.new.items ≡ out.old.items ++ flat_map age_text rows.now) }
{
    for row in rows {
        put_age(row, out)?;
    }
    Ok(())
}

// Appends one of them.
fn put_age(row: &AgeRow, out: &mut Vec<u8>) -> Result<(), AllocError>
    ensures { OnOk result (out.new.items ≡ out.old.items ++ age_text row.now) }
{
    put_text(b"\n[[age]]\n", out)?;
    put_line(b"from", &row.start, out)?;
    put_line(b"single", &row.single, out)?;
    put_line(b"married", &row.married, out)
}
