//! The text of a book.

use format_books::book_of;
use std::io;
use std::io::Read;

/// Reads the text on standard input as a book, so many times over. Prints the book's year, or why the text is none.
pub fn print_book(rt: &HostRuntime, rounds: u32) -> io::Result<()> {
    let mut text = Vec::new(rt.alloc());
    rt.stdin().read_to_end(&mut text)?;
    for _ in 1..rounds {
        let _ = book_of(rt.alloc(), &text);
    }
    match book_of(rt.alloc(), &text) {
        Ok(book) => println!(rt; "{}", book.year.number()),
        Err(error) => println!(rt; "{error}"),
    }
}
