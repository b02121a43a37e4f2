//! The line of an error of a book's text.
ghost use Rattle.std.specs.Prelude.{◌≡◌, ◌+◌, ◌≤◌, ◌++◌, IfSome, OnErr, OnOk, codes, decimal, length, vec_capacity, vec_len};
ghost use Rattle.arrayvec.specs.ArrayString.{array_string_len};
ghost use Rattle.format_filings.specs.BookLines.{IsOneLine, book_error_line, details, key_in, shown, shown_key};
ghost use Rattle.format_books.specs.Errors.{error_number};

use arrayvec::ArrayString;
use format_books::BookError;
use itoa::Buffer;
use std::alloc::AllocError;

/// Appends the line of an error: `1 book`, the error's number, and what it names: a field, a table and a row of it, or a key.
/// Each control character of a key, as a line feed, is written as `?`. Want of memory has no line.
#[tactic(auto, using(crate::proofs::LineLemmas::one_line))]
pub fn put_book_error(error: &BookError, out: &mut Vec<u8>) -> Result<(), AllocError>
    ensures ok { OnOk result (out.new.items ≡ out.old.items ++ book_error_line error.now) }
    ensures err { OnErr result (out.new.items ≡ out.old.items) }
    ensures one_line { IfSome (error_number error.now) (λ _. IsOneLine (book_error_line error.now)) }
{
    match error.number() {
        Some(number) => {
            let start = start_of(number, error);
            put_key_line(start.as_str().as_bytes(), key_of(error), out)
        }
        None => Ok(()),
    }
}

// Appends a line that ends with a key, or nothing.
fn put_key_line(start: &[u8], key: &[u8], out: &mut Vec<u8>) -> Result<(), AllocError>
    requires { length start.now ≤ 40 }
    ensures ok { OnOk result (out.new.items ≡ out.old.items ++ (start.now ++ shown_key key.now ++ codes "\n")) }
    ensures err { OnErr result (out.new.items ≡ out.old.items) }
{
    out.reserve(start.len() + key.len() + 1)?;
    out.extend_from_slice(start)?;
    push_key(key, out);
    out.push_reserved(b'\n');
    Ok(())
}

// Appends a key as a line shows it, where there is room for it.
fn push_key(key: &[u8], out: &mut Vec<u8>)
    requires { vec_len out.old + length key.now ≤ vec_capacity out.old }
    ensures items { out.new.items ≡ out.old.items ++ shown_key key.now }
    ensures len { vec_len out.new ≡ vec_len out.old + length key.now }
    ensures capacity { vec_capacity out.new ≡ vec_capacity out.old }
{
    for &byte in key {
        out.push_reserved(shown(byte));
    }
}

// A byte of a key as a line shows it.
fn shown(byte: u8) -> u8
    ensures { result ≡ shown byte }
{
    if byte.is_ascii_control() { b'?' } else { byte }
}

// The key that an error names, where it names one.
fn key_of(error: &BookError) -> &[u8]
    ensures { result.now ≡ key_in error.now }
{
    match error {
        BookError::Unknown(name) => name.as_bytes(),
        _ => &[],
    }
}

// The line of an error as far as the key that it names.
fn start_of(number: u8, error: &BookError) -> ArrayString<40>
    ensures { result.bytes ++ shown_key (key_in error.now) ≡ codes "1 book " ++ decimal number ++ details error.now }
{
    let mut start = ArrayString::<40>::new();
    start.push_str("1 book ");
    push_number(&mut start, u16::from(number));
    match error {
        BookError::NotToml | BookError::NoMemory => (),
        BookError::Missing(field) | BookError::WrongKind(field) | BookError::OutOfRange(field) => {
            push_detail(&mut start, *field);
        }
        BookError::NotRising(table, row) => {
            push_detail(&mut start, u16::from(*table));
            push_detail(&mut start, *row);
        }
        BookError::Unknown(_) => start.push_str(" "),
    }
    start
}

// Appends a number behind a space.
fn push_detail(line: &mut ArrayString<40>, number: u16)
    requires room { array_string_len line.old + 6 ≤ 40 }
    ensures bytes { line.new.bytes ≡ line.old.bytes ++ (codes " " ++ decimal number) }
    ensures len { array_string_len line.new ≤ array_string_len line.old + 6 }
{
    line.push_str(" ");
    push_number(line, number);
}

// Appends a number.
fn push_number(line: &mut ArrayString<40>, number: u16)
    requires room { array_string_len line.old + 5 ≤ 40 }
    ensures bytes { line.new.bytes ≡ line.old.bytes ++ decimal number }
    ensures len { array_string_len line.new ≤ array_string_len line.old + 5 }
{
    let mut digits = Buffer::new();
    line.push_str(digits.format(number));
}
