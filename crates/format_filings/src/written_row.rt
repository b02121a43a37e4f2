//! The row of a filing.
ghost use Rattle.std.specs.Prelude.{◌≡◌, ◌∷◌, ◌++◌, [], OnOk, map, pos, true};
ghost use Rattle.aid_types.specs.Whole.{whole_text};
ghost use Rattle.format_kinds.specs.Kinds.{slots_of_kind, words_of_programs};
ghost use Rattle.format_bytes.specs.Numbers.{key_numbers};
ghost use Rattle.format_filings.specs.WrittenRows.{behind_commas, row_text, texts_of};
ghost use Rattle.format_filings.specs.Spelled.{are_spelled};

use crate::field::{put_field, put_natural, put_school, put_year};
use aid_filings::{Filing, What};
use aid_types::{Key, Year};
use format_bytes::{kind, numbers_in};
use format_kinds::{Kind, new_layout, table_row};
use std::alloc::AllocError;

/// Appends the row that files a filing, with no line feed: its kind's name, and each number as its field's form writes it.
/// Of a book only the key and the year, since its tables are a text of their own. An `Err` is want of memory.
pub fn put_row(filing: &Filing, out: &mut Vec<u8>) -> Result<(), AllocError>
    ensures row { OnOk result (out.new.items ≡ out.old.items ++ row_text filing.now) }
{
    let kind = kind(&filing.what);
    let numbers = numbers_in(filing);
    out.extend_from_slice(table_row(kind).name.as_bytes())?;
    if let What::Book(book) = &filing.what {
        put_book(&filing.key, book.as_book().year, out)
    } else {
        put_numbers(kind, numbers.as_slice(), out)
    }
}

// Appends what a row tells of a book, each behind a comma.
fn put_book(key: &Key, year: Year, out: &mut Vec<u8>) -> Result<(), AllocError>
    ensures { OnOk result (out.new.items ≡ out.old.items ++ behind_commas (map whole_text (key_numbers key.now ++ pos year ∷ []))) }
{
    put_school(key.school, out)?;
    put_natural(key.number, out)?;
    put_year(year, out)
}

// Appends the numbers of a kind, each behind a comma.
fn put_numbers(kind: Kind, numbers: &[i64], out: &mut Vec<u8>) -> Result<(), AllocError>
    requires { are_spelled (slots_of_kind kind) numbers.now ≡ true }
    ensures { OnOk result (out.new.items ≡ out.old.items ++ behind_commas (texts_of words_of_programs (slots_of_kind kind) numbers.now)) }
{
    let mut layout = new_layout(kind);
    for number in numbers {
        if let Some(field) = layout.next() {
            put_field(field.form, *number, out)?;
            layout.advance(*number);
        }
    }
    Ok(())
}
