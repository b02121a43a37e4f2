//! The award of an application.
ghost use Rattle.std.specs.Prelude.{◌≡◌, ◌≤◌};
ghost use Rattle.office_history.specs.Award.{ceiling_by, scheduled_of};
ghost use Rattle.law_pell.specs.Award.{decision_of};

use aid_books::Book;
use aid_types::Application;
use law_pell::{Ceiling, Decision, ceiling_for, decide};
use law_sai::index;

/// The Scheduled Award in dollars of an application under a book, at most 100,000 (HEA 401(b)).
pub fn award(book: &Book, application: &Application) -> u32
    ensures value { result ≡ scheduled_of book.now application.now }
    ensures at_most { result ≤ 100000 }
{
    decide(book, application, index(book, application).index).scheduled
}

/// The ceiling that decides on an application under a book (HEA 401(b)(1), since Public Law 119-21, section 83001).
pub fn ceiling(book: &Book, application: &Application) -> Ceiling
    ensures { result ≡ ceiling_by book.now application.now }
{
    ceiling_for(book, application, index(book, application).index)
}

/// The decision on an application by its own index (HEA 401(b), 475 to 477).
pub fn decision(book: &Book, application: &Application) -> Decision
    ensures { result ≡ decision_of book.now application.now }
{
    decide(book, application, index(book, application).index)
}
