//! The numbers of the limits of a year.
ghost use Rattle.std.specs.Prelude.{◌≡◌, ◌+◌, ◌≤◌, [], ◌∷◌, ◌++◌, length, pos};
ghost use Rattle.format_table.specs.Columns.{year as year_slot};
ghost use Rattle.format_table.specs.Forms.{most_numbers};
ghost use Rattle.law_loans.specs.Ranges.{EachIsDollars};
ghost use Rattle.loans.specs.Kinds.{limits_slots};
ghost use Rattle.loans.specs.Numbers.{dollar_numbers, limits_numbers};
ghost use Rattle.loans.specs.Parts.{FitAnywhere, FitSomewhere, dollar_slots};

use crate::scalar::{dollars_from, number_of_year, year_from};
use aid_types::Year;
use format_table::{Numbers, add_numbers};
use law_loans::LimitFacts;

pub(crate) fn put_limits(limits: &LimitFacts, numbers: &mut Numbers)
    requires room { length numbers.old.items + 17 ≤ most_numbers }
    ensures added { numbers.new.items ≡ numbers.old.items ++ limits_numbers limits.now }
    ensures in_range { FitAnywhere limits_slots (limits_numbers limits.now) }
{
    let year = number_of_year(limits.year);
    add_numbers(&[year], numbers);
    put_dollars(&limits.sub, numbers);
    put_dollars(&limits.dependent, numbers);
    put_dollars(&limits.independent, numbers);
    put_dollars(&[limits.graduate], numbers);
    put_dollars(&limits.aggregate_sub, numbers);
    put_dollars(&limits.aggregate, numbers);
}

fn put_dollars(amounts: &[u32], numbers: &mut Numbers)
    requires room { length numbers.old.items + length amounts.now ≤ most_numbers }
    ensures added { numbers.new.items ≡ numbers.old.items ++ dollar_numbers amounts.now }
    ensures count { length numbers.new.items ≡ length numbers.old.items + length amounts.now }
{
    for &amount in amounts {
        add_numbers(&[i64::from(amount)], numbers);
    }
}

pub(crate) fn limits_of(numbers: &[i64]) -> LimitFacts
    requires in_range { FitSomewhere limits_slots numbers.now }
    ensures value { limits_numbers result ≡ numbers.now }
{
    let (front, back) = numbers.split_at(5);
    let (middle, last) = back.split_at(7);
    let (year, sub) = year_and_sub(front);
    let (dependent, independent, graduate) = annual_of(middle);
    let (aggregate_sub, aggregate) = aggregate_of(last);
    LimitFacts {
        year,
        sub,
        dependent,
        independent,
        graduate,
        aggregate_sub,
        aggregate,
    }
}

fn year_and_sub(numbers: &[i64]) -> (Year, [u32; 4])
    requires in_range { FitSomewhere (year_slot ∷ dollar_slots 4) numbers.now }
    ensures value { (pos result.0 ∷ dollar_numbers result.1) ≡ numbers.now }
    ensures dollars { EachIsDollars result.1 }
    ensures levels { length result.1 ≡ 4 }
{
    let [year, sub_1, sub_2, sub_3, sub_4] = numbers else {
        unreachable!();
    };
    (
        year_from(*year),
        [
            dollars_from(*sub_1),
            dollars_from(*sub_2),
            dollars_from(*sub_3),
            dollars_from(*sub_4),
        ],
    )
}

// The annual limits of all loans: of dependent students, of independent ones, and of graduate students.
fn annual_of(numbers: &[i64]) -> ([u32; 3], [u32; 3], u32)
    requires in_range { FitSomewhere (dollar_slots 7) numbers.now }
    ensures value { dollar_numbers (result.0 ++ result.1 ++ result.2 ∷ []) ≡ numbers.now }
    ensures dollars { EachIsDollars (result.0 ++ result.1 ++ result.2 ∷ []) }
    ensures levels { (length result.0 ≡ 3) × (length result.1 ≡ 3) }
{
    let [
        dependent_1,
        dependent_2,
        dependent_3,
        independent_1,
        independent_2,
        independent_3,
        graduate,
    ] = numbers
    else {
        unreachable!();
    };
    (
        [
            dollars_from(*dependent_1),
            dollars_from(*dependent_2),
            dollars_from(*dependent_3),
        ],
        [
            dollars_from(*independent_1),
            dollars_from(*independent_2),
            dollars_from(*independent_3),
        ],
        dollars_from(*graduate),
    )
}

// The aggregate limits: of subsidized loans, and of all loans.
fn aggregate_of(numbers: &[i64]) -> ([u32; 2], [u32; 3])
    requires in_range { FitSomewhere (dollar_slots 5) numbers.now }
    ensures value { dollar_numbers (result.0 ++ result.1) ≡ numbers.now }
    ensures dollars { EachIsDollars (result.0 ++ result.1) }
    ensures levels { (length result.0 ≡ 2) × (length result.1 ≡ 3) }
{
    let [sub_1, sub_2, all_1, all_2, all_3] = numbers else {
        unreachable!();
    };
    (
        [dollars_from(*sub_1), dollars_from(*sub_2)],
        [
            dollars_from(*all_1),
            dollars_from(*all_2),
            dollars_from(*all_3),
        ],
    )
}
