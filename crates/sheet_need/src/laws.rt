//! A law of worksheets, as the contract of a function that computes nothing.
ghost use Rattle.law_sai.specs.Formulas.{formula};
ghost use Rattle.law_sai.specs.Index.{index_lines};
ghost use Rattle.sheet_need.specs.NeedSums.{HouseholdsAddUp};

use aid_books::Book;
use aid_types::Application;

/// In a household of a worksheet each line with ` = ` tells the signed sum of the lines above it, from the last line without a mark
/// or with ` = ` on.
pub fn households_add_up(book: &Book, a: &Application)
    ensures { HouseholdsAddUp (formula book.now a.now) book.now a.now (index_lines book.now a.now) }
{
    let _ = book;
    let _ = a;
}
