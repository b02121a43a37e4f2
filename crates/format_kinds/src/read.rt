//! The book of a list of numbers.
ghost use Rattle.std.specs.Prelude.{◌≡◌};
ghost use Rattle.aid_books.specs.declared.book.Book.{Book};
ghost use Rattle.format_kinds.specs.Book.{AreBookNumbers, numbers_of};

use crate::book_parts::{
    asset_rates, ceiling, employment, form, payroll, pell_figures, percents, poverty, protection,
    schedule, year,
};
use crate::section::Section;
use crate::tables::{age, bracket_table, business};
use aid_books::Book;

/// The book whose numbers these are.
pub fn book_of_numbers(numbers: &[i64]) -> Book
    requires { AreBookNumbers numbers.now }
    ensures value { numbers_of result ≡ numbers.now }
    ensures only { (b : Book) → numbers_of b ≡ numbers.now → b ≡ result }
{
    let mut section = Section::new(numbers);
    let form = form(&mut section);
    let year = year(&mut section);
    let pell = pell_figures(&mut section);
    let percent = percents(&mut section);
    let poverty = poverty(&mut section);
    let payroll = payroll(&mut section);
    let protection = protection(&mut section);
    let employment = employment(&mut section);
    let assets = asset_rates(&mut section);
    let business = business(&mut section);
    let age = age(&mut section);
    let schedule = schedule(&mut section);
    let bracket = bracket_table(&mut section, schedule.first_rate);
    let ceiling = ceiling(&mut section, form);
    Book {
        year,
        pell,
        percent,
        poverty,
        payroll,
        protection,
        employment,
        assets,
        business,
        age,
        schedule,
        bracket,
        ceiling,
    }
}
