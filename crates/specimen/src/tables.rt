//! The tables that go by an amount or by age.
ghost use Rattle.std.specs.Prelude.{◌≡◌};
ghost use Rattle.specimen.specs.Specimen.{age_rows, bracket_rows, business_rows};

use aid_books::{AgeRow, Ages, Bracket, Brackets};

#[tactic(auto, unfolding(aid_types::specs::Nearest::half_up))]
pub(crate) fn business() -> Brackets
    ensures { result ≡ business_rows }
{
    Brackets::from_rows(&[
        Bracket {
            over: 0,
            base: 0,
            rate: 4000,
        },
        Bracket {
            over: 165000,
            base: 66000,
            rate: 5000,
        },
        Bracket {
            over: 490000,
            base: 228500,
            rate: 6000,
        },
        Bracket {
            over: 815000,
            base: 423500,
            rate: 10000,
        },
    ])
}

pub(crate) fn ages() -> Ages
    ensures { result ≡ age_rows }
{
    Ages::from_rows(&[
        AgeRow {
            start: 0,
            single: 0,
            married: 0,
        },
        AgeRow {
            start: 26,
            single: 500,
            married: 800,
        },
        AgeRow {
            start: 40,
            single: 2500,
            married: 6000,
        },
        AgeRow {
            start: 65,
            single: 4000,
            married: 10000,
        },
    ])
}

#[tactic(auto, unfolding(aid_types::specs::Nearest::half_up))]
pub(crate) fn brackets() -> Brackets
    ensures { result ≡ bracket_rows }
{
    Brackets::from_rows(&[
        Bracket {
            over: 20500,
            base: 4510,
            rate: 2500,
        },
        Bracket {
            over: 25700,
            base: 5810,
            rate: 2900,
        },
        Bracket {
            over: 30900,
            base: 7318,
            rate: 3400,
        },
        Bracket {
            over: 36200,
            base: 9120,
            rate: 4000,
        },
        Bracket {
            over: 41500,
            base: 11240,
            rate: 4700,
        },
    ])
}
