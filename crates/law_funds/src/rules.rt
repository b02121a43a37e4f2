//! The two rules of awards that the office has.
ghost use Rattle.std.specs.Prelude.{◌≡◌};
ghost use Rattle.law_funds.specs.Answers.{IsAnswer, level as level_of, least as least_of, quarter as quarter_of};

/// The lesser of the need and 1,000 dollars, and nothing where that is below 100.
pub fn level(need: u32, _sai: i32, _intensity: u8) -> u32
    ensures value { result ≡ level_of need }
    ensures answer { IsAnswer need result }
{
    least(need.min(1000))
}

/// A quarter of the need in whole dollars, at most 4,000, and nothing where the quarter is below 100.
pub fn quarter(need: u32, _sai: i32, _intensity: u8) -> u32
    ensures value { result ≡ quarter_of need }
    ensures answer { IsAnswer need result }
{
    least((need / 4).min(4000))
}

// An amount that is awarded only from 100 dollars on.
fn least(amount: u32) -> u32
    ensures { result ≡ least_of amount }
{
    if amount < 100 { 0 } else { amount }
}
