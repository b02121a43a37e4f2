//! The tables of a book, each a count of rows and then the rows, read from the front of the numbers that are left.
ghost use Rattle.std.specs.Prelude.{◌≡◌, ◌≤◌, ◌*◌, ◌∷◌, ◌++◌, ℕ, ℤ, List, Some, flat_map, length, option_map, pos, slice_get, take};
ghost use Rattle.aid_types.specs.Nearest.{share};
ghost use Rattle.format_kinds.specs.Book.{age_numbers, age_row as age_row_numbers, bracket_numbers, bracket_row as bracket_row_numbers};
ghost use Rattle.format_kinds.specs.Sections.{AreLast, IsNext, age_slots, business_slots};

use crate::section::Section;
use aid_books::{AgeRow, Ages, Bracket, Brackets};

// How many rows follow.
fn count(section: &mut Section) -> usize
    requires { (n : ℕ) × (rest : List ℤ) × (section.old ≡ pos n ∷ rest) }
    ensures { section.old ≡ pos result ∷ section.new }
{
    let [count] = section.take::<1>();
    count as usize
}

fn bracket(section: &mut Section) -> Bracket
    requires { 3 ≤ length section.old }
    ensures { section.old ≡ bracket_row_numbers result ++ section.new }
{
    let [over, base, rate] = section.take::<3>();
    Bracket { over, base, rate }
}

// So many rows of a table by amount.
fn brackets(section: &mut Section, count: usize) -> [Bracket; 16]
    requires few { count ≤ 16 }
    requires left { 3 * count ≤ length section.old }
    ensures numbers { section.old ≡ flat_map bracket_row_numbers (take count result) ++ section.new }
    ensures count { length result ≡ 16 }
{
    let mut rows = [Bracket {
        over: 0,
        base: 0,
        rate: 0,
    }; 16];
    for i in 0..count {
        rows[i] = bracket(section);
    }
    rows
}

fn age_row(section: &mut Section) -> AgeRow
    requires { 3 ≤ length section.old }
    ensures { section.old ≡ age_row_numbers result ++ section.new }
{
    let [start, single, married] = section.take::<3>();
    AgeRow {
        start,
        single,
        married,
    }
}

// So many rows of the table by age.
fn age_rows(section: &mut Section, count: usize) -> [AgeRow; 64]
    requires few { count ≤ 64 }
    requires left { 3 * count ≤ length section.old }
    ensures numbers { section.old ≡ flat_map age_row_numbers (take count result) ++ section.new }
    ensures count { length result ≡ 64 }
{
    let mut rows = [AgeRow {
        start: 0,
        single: 0,
        married: 0,
    }; 64];
    for i in 0..count {
        rows[i] = age_row(section);
    }
    rows
}

pub fn business(section: &mut Section) -> Brackets
    requires { IsNext business_slots section.old }
    ensures numbers { section.old ≡ bracket_numbers result ++ section.new }
    ensures over { option_map (λ row. row.over) (slice_get result 0) ≡ Some (pos 0) }
    ensures base { option_map (λ row. row.base) (slice_get result 0) ≡ Some (pos 0) }
{
    let count = count(section);
    let rows = brackets(section, count);
    Brackets::from_rows(&rows[..count])
}

pub fn age(section: &mut Section) -> Ages
    requires { IsNext age_slots section.old }
    ensures numbers { section.old ≡ age_numbers result ++ section.new }
    ensures start { option_map (λ row. row.start) (slice_get result 0) ≡ Some (pos 0) }
{
    let count = count(section);
    let rows = age_rows(section, count);
    Ages::from_rows(&rows[..count])
}

/// The table `bracket`, the last of a book, where the schedule has this first rate.
pub fn bracket_table(section: &mut Section, first_rate: i64) -> Brackets
    requires { AreLast first_rate section.old }
    ensures numbers { section.old ≡ bracket_numbers result ++ section.new }
    ensures base { option_map (λ row. row.base) (slice_get result 0) ≡ option_map (λ row. share row.over first_rate) (slice_get result 0) }
{
    let count = count(section);
    let rows = brackets(section, count);
    Brackets::from_rows(&rows[..count])
}
