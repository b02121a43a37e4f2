//! The parts of a book, each read from the front of the numbers that are left.
ghost use Rattle.std.specs.Prelude.{◌≡◌, ◌≤◌, ◌+◌, ◌∷◌, [], ◌++◌, length, pos};
ghost use Rattle.aid_types.specs.Ranges.{EachIsAmount, IsWithin};
ghost use Rattle.format_kinds.specs.Book.{AreBookNumbers, asset_numbers, ceiling_numbers, employment_numbers, form_number, payroll_numbers, pell_numbers, percent_numbers, poverty_numbers, protection_numbers, schedule_numbers, size_numbers};
ghost use Rattle.format_kinds.specs.Sections.{AreAmounts, AreEnd, IsNext, asset_slots, employment_slots, payroll_slots, pell_slots, percent_slots, poverty_slots, protection_slots, schedule_slots, year_slots};

use crate::section::Section;
use aid_books::{
    AssetRates, BySize, Employment, Payroll, PellFigures, Percents, Poverty, Protection, Schedule,
};
use aid_types::Year;

pub fn pell_figures(section: &mut Section) -> PellFigures
    requires { IsNext pell_slots section.old }
    ensures { section.old ≡ pell_numbers result ++ section.new }
{
    let [maximum, minimum] = section.take::<2>();
    PellFigures { maximum, minimum }
}

pub fn percents(section: &mut Section) -> Percents
    requires { IsNext percent_slots section.old }
    ensures { section.old ≡ percent_numbers result ++ section.new }
{
    let [
        maximum_single,
        maximum_other,
        minimum_dependent_single,
        minimum_dependent_other,
        minimum_single_parent,
        minimum_parent,
        minimum_no_dependents,
    ] = section.take::<7>();
    Percents {
        maximum_single,
        maximum_other,
        minimum_dependent_single,
        minimum_dependent_other,
        minimum_single_parent,
        minimum_parent,
        minimum_no_dependents,
    }
}

pub fn payroll(section: &mut Section) -> Payroll
    requires { IsNext payroll_slots section.old }
    ensures { section.old ≡ payroll_numbers result ++ section.new }
{
    let [
        oasdi_cap,
        oasdi_rate,
        medicare_rate,
        medicare_high,
        threshold_single,
        threshold_married,
    ] = section.take::<6>();
    Payroll {
        oasdi_cap,
        oasdi_rate,
        medicare_rate,
        medicare_high,
        threshold_single,
        threshold_married,
    }
}

pub fn employment(section: &mut Section) -> Employment
    requires { IsNext employment_slots section.old }
    ensures { section.old ≡ employment_numbers result ++ section.new }
{
    let [cap, rate] = section.take::<2>();
    Employment { cap, rate }
}

pub fn asset_rates(section: &mut Section) -> AssetRates
    requires { IsNext asset_slots section.old }
    ensures { section.old ≡ asset_numbers result ++ section.new }
{
    let [
        parents_rate,
        dependent_rate,
        no_dependents_rate,
        with_dependents_rate,
    ] = section.take::<4>();
    AssetRates {
        parents_rate,
        dependent_rate,
        no_dependents_rate,
        with_dependents_rate,
    }
}

pub fn schedule(section: &mut Section) -> Schedule
    requires { IsNext schedule_slots section.old }
    ensures { section.old ≡ schedule_numbers result ++ section.new }
{
    let [low_at, low, first_rate, student_rate, lowest_student] = section.take::<5>();
    Schedule {
        low_at,
        low,
        first_rate,
        student_rate,
        lowest_student,
    }
}

// So many amounts by size of family, and what each further member adds.
fn by_size<const FIRST: u8, const COUNT: usize>(section: &mut Section) -> BySize<FIRST, COUNT>
    requires { AreAmounts (COUNT + 1) section.old }
    ensures { section.old ≡ size_numbers result ++ section.new }
{
    let sizes = section.take::<COUNT>();
    let [extra] = section.take::<1>();
    BySize { sizes, extra }
}

pub fn poverty(section: &mut Section) -> Poverty
    requires { IsNext poverty_slots section.old }
    ensures { section.old ≡ poverty_numbers result ++ section.new }
{
    let contiguous = by_size(section);
    let alaska = by_size(section);
    let hawaii = by_size(section);
    Poverty {
        contiguous,
        alaska,
        hawaii,
    }
}

// Three amounts.
fn amounts(section: &mut Section) -> [i64; 3]
    requires { AreAmounts 3 section.old }
    ensures numbers { section.old ≡ result ++ section.new }
    ensures in_range { EachIsAmount result }
    ensures count { length result ≡ 3 }
{
    section.take::<3>()
}

pub fn protection(section: &mut Section) -> Protection
    requires { IsNext protection_slots section.old }
    ensures { section.old ≡ protection_numbers result ++ section.new }
{
    let parents = by_size(section);
    let [dependent_student, single_student, married_student] = amounts(section);
    let single_parent = by_size(section);
    let married_parent = by_size(section);
    Protection {
        parents,
        dependent_student,
        single_student,
        married_student,
        single_parent,
        married_parent,
    }
}

/// The form of a book, its first number.
pub fn form(section: &mut Section) -> i64
    requires { AreBookNumbers section.old }
    ensures numbers { section.old ≡ result ∷ section.new }
    ensures in_range { IsWithin (pos 1) (pos 2) result }
{
    let [form] = section.take::<1>();
    form
}

pub fn year(section: &mut Section) -> Year
    requires { IsNext year_slots section.old }
    ensures { section.old ≡ (pos result ∷ []) ++ section.new }
{
    let [year] = section.take::<1>();
    Year(year as u16)
}

/// The ceiling with which a book of this form ends, or 0 where it has none.
pub fn ceiling(section: &mut Section, form: i64) -> u16
    requires { AreEnd form section.old }
    ensures numbers { section.old ≡ ceiling_numbers result }
    ensures form { form ≡ form_number result }
    ensures in_range { result ≤ 9999 }
{
    if form > 1 {
        let [ceiling] = section.take::<1>();
        ceiling as u16
    } else {
        0
    }
}
