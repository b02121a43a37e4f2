//! The sections of a book, written.
ghost use Rattle.std.specs.Prelude.{◌≡◌, ◌++◌, OnOk};
ghost use Rattle.std.specs.List.{flat_map};
ghost use Rattle.aid_types.specs.Whole.{whole_text};
ghost use Rattle.sheet_review.specs.BookText.{assets_text, behind_comma, employment_text, listed, number_line, numbers_line, payroll_text, pell_text, percent_text, poverty_text, protection_text, schedule_text};

use aid_books::{
    AssetRates, Employment, Payroll, PellFigures, Percents, Poverty, Protection, Schedule,
};
use itoa::Buffer;
use std::alloc::AllocError;

/// Appends a text. An `Err` is want of memory, as of all that follows.
pub(crate) fn put_text(text: &[u8], out: &mut Vec<u8>) -> Result<(), AllocError>
    ensures { OnOk result (out.new.items ≡ out.old.items ++ text.now) }
{
    out.extend_from_slice(text)
}

// Appends a number as it is.
fn put_number(number: i64, out: &mut Vec<u8>) -> Result<(), AllocError>
    ensures { OnOk result (out.new.items ≡ out.old.items ++ whole_text number) }
{
    let mut digits = Buffer::new();
    put_text(digits.format(number).as_bytes(), out)
}

/// Appends a key and its number.
pub(crate) fn put_line(key: &[u8], number: &i64, out: &mut Vec<u8>) -> Result<(), AllocError>
    ensures { OnOk result (out.new.items ≡ out.old.items ++ number_line key.now number.now) }
{
    put_text(key, out)?;
    put_text(b" = ", out)?;
    put_number(*number, out)?;
    put_text(b"\n", out)
}

// Appends a key and its numbers.
fn put_numbers(key: &[u8], numbers: &[i64], out: &mut Vec<u8>) -> Result<(), AllocError>
    ensures { OnOk result (out.new.items ≡ out.old.items ++ numbers_line key.now numbers.now) }
{
    put_text(key, out)?;
    put_text(b" = [", out)?;
    put_listed(numbers, out)?;
    put_text(b"]\n", out)
}

// Appends numbers with a comma and a blank between each two.
fn put_listed(numbers: &[i64], out: &mut Vec<u8>) -> Result<(), AllocError>
    ensures { OnOk result (out.new.items ≡ out.old.items ++ listed numbers.now) }
{
    let Some((first, later)) = numbers.split_first() else {
        return Ok(());
    };
    put_number(*first, out)?;
    put_later(later, out)
}

// Appends those behind the first.
fn put_later(numbers: &[i64], out: &mut Vec<u8>) -> Result<(), AllocError>
    ensures { OnOk result (out.new.items ≡ out.old.items ++ flat_map behind_comma numbers.now) }
{
    for number in numbers {
        put_behind_comma(*number, out)?;
    }
    Ok(())
}

// Appends one of them.
#[tactic(auto, unfolding(crate::specs::BookText::behind_comma))]
fn put_behind_comma(number: i64, out: &mut Vec<u8>) -> Result<(), AllocError>
    ensures { OnOk result (out.new.items ≡ out.old.items ++ behind_comma number) }
{
    put_text(b", ", out)?;
    put_number(number, out)
}

/// Appends the awards.
pub(crate) fn put_pell(figures: &PellFigures, out: &mut Vec<u8>) -> Result<(), AllocError>
    ensures { OnOk result (out.new.items ≡ out.old.items ++ pell_text figures.now) }
{
    put_text(b"\n[pell]\n", out)?;
    put_line(b"maximum", &figures.maximum, out)?;
    put_line(b"minimum", &figures.minimum, out)
}

/// Appends the percents of the poverty guideline.
pub(crate) fn put_percents(percents: &Percents, out: &mut Vec<u8>) -> Result<(), AllocError>
    ensures { OnOk result (out.new.items ≡ out.old.items ++ percent_text percents.now) }
{
    put_text(b"\n[percent]\n", out)?;
    put_line(b"maximum_single", &percents.maximum_single, out)?;
    put_line(b"maximum_other", &percents.maximum_other, out)?;
    put_line(
        b"minimum_dependent_single",
        &percents.minimum_dependent_single,
        out,
    )?;
    put_line(
        b"minimum_dependent_other",
        &percents.minimum_dependent_other,
        out,
    )?;
    put_line(
        b"minimum_single_parent",
        &percents.minimum_single_parent,
        out,
    )?;
    put_line(b"minimum_parent", &percents.minimum_parent, out)?;
    put_line(
        b"minimum_no_dependents",
        &percents.minimum_no_dependents,
        out,
    )
}

/// Appends the poverty guidelines.
pub(crate) fn put_poverty(poverty: &Poverty, out: &mut Vec<u8>) -> Result<(), AllocError>
    ensures { OnOk result (out.new.items ≡ out.old.items ++ poverty_text poverty.now) }
{
    put_text(b"\n[poverty]\n", out)?;
    put_numbers(b"contiguous", &poverty.contiguous.sizes, out)?;
    put_line(b"contiguous_extra", &poverty.contiguous.extra, out)?;
    put_numbers(b"alaska", &poverty.alaska.sizes, out)?;
    put_line(b"alaska_extra", &poverty.alaska.extra, out)?;
    put_numbers(b"hawaii", &poverty.hawaii.sizes, out)?;
    put_line(b"hawaii_extra", &poverty.hawaii.extra, out)
}

/// Appends the payroll tax allowance.
pub(crate) fn put_payroll(payroll: &Payroll, out: &mut Vec<u8>) -> Result<(), AllocError>
    ensures { OnOk result (out.new.items ≡ out.old.items ++ payroll_text payroll.now) }
{
    put_text(b"\n[payroll]\n", out)?;
    put_line(b"oasdi_cap", &payroll.oasdi_cap, out)?;
    put_line(b"oasdi_rate", &payroll.oasdi_rate, out)?;
    put_line(b"medicare_rate", &payroll.medicare_rate, out)?;
    put_line(b"medicare_high", &payroll.medicare_high, out)?;
    put_line(b"threshold_single", &payroll.threshold_single, out)?;
    put_line(b"threshold_married", &payroll.threshold_married, out)
}

/// Appends the income protection allowances.
pub(crate) fn put_protection(protection: &Protection, out: &mut Vec<u8>) -> Result<(), AllocError>
    ensures { OnOk result (out.new.items ≡ out.old.items ++ protection_text protection.now) }
{
    put_text(b"\n[protection]\n", out)?;
    put_numbers(b"parents", &protection.parents.sizes, out)?;
    put_line(b"parents_extra", &protection.parents.extra, out)?;
    put_line(b"dependent_student", &protection.dependent_student, out)?;
    put_line(b"single_student", &protection.single_student, out)?;
    put_line(b"married_student", &protection.married_student, out)?;
    put_numbers(b"single_parent", &protection.single_parent.sizes, out)?;
    put_line(b"single_parent_extra", &protection.single_parent.extra, out)?;
    put_numbers(b"married_parent", &protection.married_parent.sizes, out)?;
    put_line(
        b"married_parent_extra",
        &protection.married_parent.extra,
        out,
    )
}

/// Appends the employment expense allowance.
pub(crate) fn put_employment(employment: &Employment, out: &mut Vec<u8>) -> Result<(), AllocError>
    ensures { OnOk result (out.new.items ≡ out.old.items ++ employment_text employment.now) }
{
    put_text(b"\n[employment]\n", out)?;
    put_line(b"cap", &employment.cap, out)?;
    put_line(b"rate", &employment.rate, out)
}

/// Appends the rates of assets.
pub(crate) fn put_assets(rates: &AssetRates, out: &mut Vec<u8>) -> Result<(), AllocError>
    ensures { OnOk result (out.new.items ≡ out.old.items ++ assets_text rates.now) }
{
    put_text(b"\n[assets]\n", out)?;
    put_line(b"parents_rate", &rates.parents_rate, out)?;
    put_line(b"dependent_rate", &rates.dependent_rate, out)?;
    put_line(b"no_dependents_rate", &rates.no_dependents_rate, out)?;
    put_line(b"with_dependents_rate", &rates.with_dependents_rate, out)
}

/// Appends the assessment schedule.
pub(crate) fn put_schedule(schedule: &Schedule, out: &mut Vec<u8>) -> Result<(), AllocError>
    ensures { OnOk result (out.new.items ≡ out.old.items ++ schedule_text schedule.now) }
{
    put_text(b"\n[schedule]\n", out)?;
    put_line(b"low_at", &schedule.low_at, out)?;
    put_line(b"low", &schedule.low, out)?;
    put_line(b"first_rate", &schedule.first_rate, out)?;
    put_line(b"student_rate", &schedule.student_rate, out)?;
    put_line(b"lowest_student", &schedule.lowest_student, out)
}
