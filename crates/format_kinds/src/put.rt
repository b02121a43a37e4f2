//! The numbers of a book, put behind others.
ghost use Rattle.std.specs.Prelude.{◌≡◌, ◌≤◌, ◌+◌, ◌∷◌, [], ◌++◌, ℤ, List, flat_map, length, pos};
ghost use Rattle.arrayvec.specs.ArrayVec.{array_vec_len};
ghost use Rattle.format_kinds.specs.Book.{age_numbers, age_row, asset_numbers, bracket_numbers, bracket_row, ceiling_numbers, employment_numbers, form_number, numbers_of, payroll_numbers, pell_numbers, percent_numbers, poverty_numbers, protection_numbers, schedule_numbers, size_numbers};
ghost use Rattle.format_table.specs.Forms.{most_numbers};
ghost use Rattle.format_kinds.specs.Kinds.{book_slots};
ghost use Rattle.format_table.specs.Layout.{AreNumbers};

use aid_books::{
    AgeRow, AssetRates, Book, Bracket, BySize, Employment, Payroll, PellFigures, Percents, Poverty,
    Protection, Schedule,
};
use format_table::{Numbers, add_numbers};

fn put_pell_figures(pell: &PellFigures, numbers: &mut Numbers)
    requires { array_vec_len numbers.old + 2 ≤ most_numbers }
    ensures added { numbers.new.items ≡ numbers.old.items ++ pell_numbers pell.now }
    ensures count { array_vec_len numbers.new ≡ array_vec_len numbers.old + 2 }
{
    add_numbers(&[pell.maximum, pell.minimum], numbers);
}

fn put_percents(percent: &Percents, numbers: &mut Numbers)
    requires { array_vec_len numbers.old + 7 ≤ most_numbers }
    ensures added { numbers.new.items ≡ numbers.old.items ++ percent_numbers percent.now }
    ensures count { array_vec_len numbers.new ≡ array_vec_len numbers.old + 7 }
{
    add_numbers(
        &[
            percent.maximum_single,
            percent.maximum_other,
            percent.minimum_dependent_single,
            percent.minimum_dependent_other,
            percent.minimum_single_parent,
            percent.minimum_parent,
            percent.minimum_no_dependents,
        ],
        numbers,
    );
}

fn put_by_size<const FIRST: u8, const COUNT: usize>(
    by_size: &BySize<FIRST, COUNT>,
    numbers: &mut Numbers,
)
    requires { array_vec_len numbers.old + (COUNT + 1) ≤ most_numbers }
    ensures added { numbers.new.items ≡ numbers.old.items ++ size_numbers by_size.now }
    ensures count { array_vec_len numbers.new ≡ array_vec_len numbers.old + (COUNT + 1) }
{
    add_numbers(&by_size.sizes, numbers);
    numbers.push(by_size.extra);
}

fn put_poverty(poverty: &Poverty, numbers: &mut Numbers)
    requires { array_vec_len numbers.old + 27 ≤ most_numbers }
    ensures added { numbers.new.items ≡ numbers.old.items ++ poverty_numbers poverty.now }
    ensures count { array_vec_len numbers.new ≡ array_vec_len numbers.old + 27 }
{
    put_by_size(&poverty.contiguous, numbers);
    put_by_size(&poverty.alaska, numbers);
    put_by_size(&poverty.hawaii, numbers);
}

fn put_payroll(payroll: &Payroll, numbers: &mut Numbers)
    requires { array_vec_len numbers.old + 6 ≤ most_numbers }
    ensures added { numbers.new.items ≡ numbers.old.items ++ payroll_numbers payroll.now }
    ensures count { array_vec_len numbers.new ≡ array_vec_len numbers.old + 6 }
{
    add_numbers(
        &[
            payroll.oasdi_cap,
            payroll.oasdi_rate,
            payroll.medicare_rate,
            payroll.medicare_high,
            payroll.threshold_single,
            payroll.threshold_married,
        ],
        numbers,
    );
}

fn put_protection(protection: &Protection, numbers: &mut Numbers)
    requires { array_vec_len numbers.old + 21 ≤ most_numbers }
    ensures added { numbers.new.items ≡ numbers.old.items ++ protection_numbers protection.now }
    ensures count { array_vec_len numbers.new ≡ array_vec_len numbers.old + 21 }
{
    put_by_size(&protection.parents, numbers);
    add_numbers(
        &[
            protection.dependent_student,
            protection.single_student,
            protection.married_student,
        ],
        numbers,
    );
    put_by_size(&protection.single_parent, numbers);
    put_by_size(&protection.married_parent, numbers);
}

fn put_employment(employment: &Employment, numbers: &mut Numbers)
    requires { array_vec_len numbers.old + 2 ≤ most_numbers }
    ensures added { numbers.new.items ≡ numbers.old.items ++ employment_numbers employment.now }
    ensures count { array_vec_len numbers.new ≡ array_vec_len numbers.old + 2 }
{
    add_numbers(&[employment.cap, employment.rate], numbers);
}

fn put_asset_rates(assets: &AssetRates, numbers: &mut Numbers)
    requires { array_vec_len numbers.old + 4 ≤ most_numbers }
    ensures added { numbers.new.items ≡ numbers.old.items ++ asset_numbers assets.now }
    ensures count { array_vec_len numbers.new ≡ array_vec_len numbers.old + 4 }
{
    add_numbers(
        &[
            assets.parents_rate,
            assets.dependent_rate,
            assets.no_dependents_rate,
            assets.with_dependents_rate,
        ],
        numbers,
    );
}

fn put_bracket(row: &Bracket, numbers: &mut Numbers)
    requires { array_vec_len numbers.old + 3 ≤ most_numbers }
    ensures added { numbers.new.items ≡ numbers.old.items ++ bracket_row row.now }
    ensures count { array_vec_len numbers.new ≡ array_vec_len numbers.old + 3 }
{
    add_numbers(&[row.over, row.base, row.rate], numbers);
}

fn put_brackets(rows: &[Bracket], numbers: &mut Numbers)
    requires few { length rows.now ≤ 16 }
    requires room { array_vec_len numbers.old + 49 ≤ most_numbers }
    ensures added { numbers.new.items ≡ numbers.old.items ++ bracket_numbers rows.now }
    ensures count { array_vec_len numbers.new ≤ array_vec_len numbers.old + 49 }
{
    numbers.push(rows.len() as i64);
    for row in rows {
        put_bracket(row, numbers);
    }
}

fn put_age(row: &AgeRow, numbers: &mut Numbers)
    requires { array_vec_len numbers.old + 3 ≤ most_numbers }
    ensures added { numbers.new.items ≡ numbers.old.items ++ age_row row.now }
    ensures count { array_vec_len numbers.new ≡ array_vec_len numbers.old + 3 }
{
    add_numbers(&[row.start, row.single, row.married], numbers);
}

fn put_ages(rows: &[AgeRow], numbers: &mut Numbers)
    requires few { length rows.now ≤ 64 }
    requires room { array_vec_len numbers.old + 193 ≤ most_numbers }
    ensures added { numbers.new.items ≡ numbers.old.items ++ age_numbers rows.now }
    ensures count { array_vec_len numbers.new ≤ array_vec_len numbers.old + 193 }
{
    numbers.push(rows.len() as i64);
    for row in rows {
        put_age(row, numbers);
    }
}

fn put_schedule(schedule: &Schedule, numbers: &mut Numbers)
    requires { array_vec_len numbers.old + 5 ≤ most_numbers }
    ensures added { numbers.new.items ≡ numbers.old.items ++ schedule_numbers schedule.now }
    ensures count { array_vec_len numbers.new ≡ array_vec_len numbers.old + 5 }
{
    add_numbers(
        &[
            schedule.low_at,
            schedule.low,
            schedule.first_rate,
            schedule.student_rate,
            schedule.lowest_student,
        ],
        numbers,
    );
}

// The form of a book with this ceiling.
fn form_of(ceiling: u16) -> i64
    ensures { result ≡ form_number ceiling }
{
    if ceiling == 0 { 1 } else { 2 }
}

fn put_ceiling(ceiling: u16, numbers: &mut Numbers)
    requires { array_vec_len numbers.old + 1 ≤ most_numbers }
    ensures added { numbers.new.items ≡ numbers.old.items ++ ceiling_numbers ceiling }
    ensures count { array_vec_len numbers.new ≤ array_vec_len numbers.old + 1 }
{
    if ceiling > 0 {
        numbers.push(i64::from(ceiling));
    }
}

/// Puts the numbers of a book.
pub fn put_book(book: &Book, numbers: &mut Numbers)
    requires { array_vec_len numbers.old + 368 ≤ most_numbers }
    ensures added { numbers.new.items ≡ numbers.old.items ++ numbers_of book.now }
    ensures in_range { (earlier : List ℤ) → AreNumbers book_slots earlier (numbers_of book.now) }
    ensures few { length (numbers_of book.now) ≤ 368 }
{
    let form = form_of(book.ceiling);
    add_numbers(&[form, i64::from(book.year.number())], numbers);
    put_pell_figures(&book.pell, numbers);
    put_percents(&book.percent, numbers);
    put_poverty(&book.poverty, numbers);
    put_payroll(&book.payroll, numbers);
    put_protection(&book.protection, numbers);
    put_employment(&book.employment, numbers);
    put_asset_rates(&book.assets, numbers);
    put_brackets(book.business.as_slice(), numbers);
    put_ages(book.age.as_slice(), numbers);
    put_schedule(&book.schedule, numbers);
    put_brackets(book.bracket.as_slice(), numbers);
    put_ceiling(book.ceiling, numbers);
}
