//! A book on the heap, which a contract sees as the book.
ghost use Rattle.std.specs.Prelude.{◌≡◌};

use crate::book::Book;
use std::marker::Model;

/// A book in a box.
#[derive(Drop)]
pub struct BoxedBook {
    book: Box<Book>,
}

impl Model for BoxedBook {
    ghost use Rattle.aid_books.specs.declared.book.Book.{Book};

    ghost Value = { Book };

    ghost view = { λ b. b.book.value };
}

impl BoxedBook {
    /// The book of this box.
    pub fn new(book: Box<Book>) -> Self
        ensures { result ≡ book.value }
    {
        BoxedBook { book }
    }

    /// The book, where it stands.
    pub fn as_book(&self) -> &Book
        ensures { result.now ≡ self.now }
    {
        &self.book
    }
}

impl PartialEq for BoxedBook {
    ghost use Rattle.aid_books.specs.contracts.book.BookPartialEq.TheImpl.{eq-value as book_eq};
    ghost use Rattle.aid_books.specs.contracts.book.BookPartialEq.TheImpl.Laws.{laws-law as book_laws};

    ghost eq = { λ x y. book_eq.it x y };

    ghost laws = { book_laws };

    fn eq(&self, other: &Self) -> bool {
        *self.as_book() == *other.as_book()
    }
}

impl Eq for BoxedBook {
    ghost use Rattle.aid_books.specs.contracts.book.BookEq.TheImpl.Laws.{laws-law as book_laws};

    ghost laws = { book_laws };
}
