//! The specimen book: a whole year book with figures of the office's own, its text, and
//! a year that is worked on it, for tests of the crates above.
#![tactic(auto)]

mod figures;
mod tables;
mod text;

ghost use Rattle.std.specs.Prelude.{◌≡◌};
ghost use Rattle.specimen.specs.Specimen.{IsSpecimenBook};

use crate::figures::{
    asset_rates, employment, payroll, pell_figures, percents, poverty, protection, schedule,
};
use crate::tables::{ages, brackets, business};
use aid_books::Book;
use aid_types::Year;
pub use text::{BOOK_TEXT, NINE_LINES, NINE_ROWS, YEAR_LINES, YEAR_ROWS};

/// The specimen book of award year 2025-26. Its figures are own, even where one looks published.
#[tactic(auto, unfolding(crate::specs::Specimen::IsSpecimenBook))]
pub fn specimen_book() -> Book
    ensures year { result.year ≡ 2025 }
    ensures figures { IsSpecimenBook result }
{
    Book {
        year: Year(2025),
        pell: pell_figures(),
        percent: percents(),
        poverty: poverty(),
        payroll: payroll(),
        protection: protection(),
        employment: employment(),
        assets: asset_rates(),
        business: business(),
        age: ages(),
        schedule: schedule(),
        bracket: brackets(),
        ceiling: 0,
    }
}
