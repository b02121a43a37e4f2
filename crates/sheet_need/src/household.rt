//! The lines of the households of a worksheet.
ghost use Rattle.std.specs.Prelude.{◌≡◌, ◌++◌, OnOk};
ghost use Rattle.law_sai.specs.Index.{age as age_of};
ghost use Rattle.sheet_need.specs.NeedEntries.{
  allowance_entries,
  amount as amount_of,
  asset_entries,
  assessed_entries,
  below_zero as below_zero_of,
  dependent_assets as dependent_assets_of,
  dependent_entries,
  employment as employment_of,
  family_entries,
  family_living as family_living_of,
  from_assets as from_assets_of,
  from_assets_above as from_assets_above_of,
  from_income as from_income_of,
  income_entries,
  least_or_share as least_or_share_of,
  own_living as own_living_of,
  parent_entries,
  schedule_entries,
  single_entries,
  worked as worked_of,
  worked_with as worked_with_of,
  worth_entries,
};
ghost use Rattle.sheet_need.specs.NeedLines.{entries_text};
ghost use Rattle.sheet_need.specs.declared.entry.Label.TheVariants.{AdjustedBusiness};
ghost use Rattle.sheet_need.specs.declared.entry.Mark.TheVariants.{Plus};

use crate::entry::{Entry, Figure, Label, Mark, Part};
use crate::lines::put_entries;
use aid_books::Book;
use aid_types::{Application, Side};
use law_sai::{IndexLines, ParentLines};
use std::alloc::AllocError;

/// Appends the lines of the parents of a dependent student. An `Err` is want of memory.
pub(crate) fn put_parents(
    book: &Book,
    a: &Application,
    lines: &IndexLines,
    out: &mut Vec<u8>,
) -> Result<(), AllocError>
    ensures { OnOk result (out.new.items ≡ out.old.items ++ entries_text (parent_entries book.now a.now lines.now)) }
{
    let age = i64::from(a.parent_age);
    let rate = book.assets.parents_rate;
    put_assessed(&a.parents, a.family, age, rate, &lines.parent, out)
}

/// Appends the lines of a dependent student. An `Err` is want of memory.
pub(crate) fn put_dependent(
    book: &Book,
    a: &Application,
    lines: &IndexLines,
    out: &mut Vec<u8>,
) -> Result<(), AllocError>
    ensures { OnOk result (out.new.items ≡ out.old.items ++ entries_text (dependent_entries book.now a.now lines.now)) }
{
    let own = &lines.own;
    put_entries(&income(&a.own, own), out)?;
    put_entries(
        &allowances(own_living(own), below_zero(&lines.parent), own),
        out,
    )?;
    put_entries(&[from_income(book, lines)], out)?;
    put_entries(
        &dependent_assets(&a.own, book.assets.dependent_rate, own),
        out,
    )
}

/// Appends the lines of an independent student without dependents. An `Err` is want of memory.
pub(crate) fn put_single(
    book: &Book,
    a: &Application,
    lines: &IndexLines,
    out: &mut Vec<u8>,
) -> Result<(), AllocError>
    ensures { OnOk result (out.new.items ≡ out.old.items ++ entries_text (single_entries book.now a.now lines.now)) }
{
    let own = &lines.own;
    put_entries(&income(&a.own, own), out)?;
    put_entries(&allowances(own_living(own), employment(own), own), out)?;
    put_entries(&[from_income(book, lines)], out)?;
    put_entries(&worth(&a.own, own), out)?;
    put_entries(
        &assets(age(book, a), book.assets.no_dependents_rate, own),
        out,
    )
}

/// Appends the lines of an independent student with dependents. An `Err` is want of memory.
pub(crate) fn put_family(
    book: &Book,
    a: &Application,
    lines: &IndexLines,
    out: &mut Vec<u8>,
) -> Result<(), AllocError>
    ensures { OnOk result (out.new.items ≡ out.old.items ++ entries_text (family_entries book.now a.now lines.now)) }
{
    let rate = book.assets.with_dependents_rate;
    put_assessed(&a.own, a.family, age(book, a), rate, &lines.own, out)
}

// Appends the lines of a household that the schedule assesses.
fn put_assessed(
    side: &Side,
    family: u8,
    age: i64,
    rate: i64,
    lines: &ParentLines,
    out: &mut Vec<u8>,
) -> Result<(), AllocError>
    ensures { OnOk result (out.new.items ≡ out.old.items ++ entries_text (assessed_entries side.now family age rate lines.now)) }
{
    put_entries(&income(side, lines), out)?;
    put_entries(
        &allowances(family_living(family, lines), employment(lines), lines),
        out,
    )?;
    put_entries(&worth(side, lines), out)?;
    put_entries(&assets(age, rate, lines), out)?;
    put_entries(&schedule(lines), out)
}

// A student's age in the award year, by years alone.
fn age(book: &Book, a: &Application) -> i64
    ensures { result ≡ age_of book.now a.now }
{
    i64::from(book.year.0) - i64::from(a.birth_year)
}

// The amounts of a household's income, and its total income.
fn income(side: &Side, lines: &ParentLines) -> [Entry; 10]
    ensures { result ≡ income_entries side.now lines.now }
{
    [
        amount(Mark::Blank, Label::Agi, side.agi),
        amount(Mark::Plus, Label::Ira, side.ira),
        amount(Mark::Plus, Label::Interest, side.interest),
        amount(Mark::Plus, Label::IraUntaxed, side.ira_untaxed),
        amount(Mark::Plus, Label::Pension, side.pension),
        amount(Mark::Plus, Label::Foreign, side.foreign),
        amount(Mark::Minus, Label::Grants, side.grants),
        amount(Mark::Minus, Label::Credits, side.credits),
        amount(Mark::Minus, Label::WorkStudy, side.work_study),
        worked(Mark::Equals, Label::TotalIncome, lines.total),
    ]
}

// Its allowances, and what they leave.
fn allowances(living: Entry, further: Entry, lines: &ParentLines) -> [Entry; 6]
    ensures { result ≡ allowance_entries living further lines.now }
{
    [
        worked(Mark::Blank, Label::Tax, lines.tax),
        worked(Mark::Plus, Label::Payroll, lines.payroll),
        living,
        further,
        worked(Mark::Equals, Label::Allowances, lines.allowances),
        worked(Mark::Blank, Label::Available, lines.available),
    ]
}

// What is allowed for living, by the size of a family.
fn family_living(family: u8, lines: &ParentLines) -> Entry
    ensures { result ≡ family_living_of family lines.now }
{
    let size = Part::Number(i64::from(family));
    worked_with(Mark::Plus, Label::FamilyProtection, size, lines.protection)
}

// What is allowed for living.
fn own_living(lines: &ParentLines) -> Entry
    ensures { result ≡ own_living_of lines.now }
{
    worked(Mark::Plus, Label::Protection, lines.protection)
}

// What is allowed for employment.
fn employment(lines: &ParentLines) -> Entry
    ensures { result ≡ employment_of lines.now }
{
    worked(Mark::Plus, Label::Employment, lines.employment)
}

// What the parents' adjusted income is below 0.
fn below_zero(parent: &ParentLines) -> Entry
    ensures { result ≡ below_zero_of parent.now }
{
    Entry {
        mark: Mark::Plus,
        label: Label::Shortfall,
        part: Part::Empty,
        figure: Figure::Worked((-i128::from(parent.adjusted)).max(0)),
    }
}

// A student's contribution from income.
fn from_income(book: &Book, lines: &IndexLines) -> Entry
    ensures { result ≡ from_income_of book.now lines.now }
{
    least_or_share(
        book.schedule.lowest_student,
        book.schedule.student_rate,
        lines.from_income,
    )
}

// The least contribution from income, or what a rate takes.
fn least_or_share(lowest: i64, rate: i64, taken: i64) -> Entry
    ensures { result ≡ least_or_share_of lowest rate taken }
{
    if taken == lowest {
        worked(Mark::Blank, Label::LeastFromIncome, taken)
    } else {
        worked_with(Mark::Blank, Label::FromIncome, Part::Rate(rate), taken)
    }
}

// A household's assets, and its net worth.
fn worth(side: &Side, lines: &ParentLines) -> [Entry; 5]
    ensures { result ≡ worth_entries side.now lines.now }
{
    [
        amount(Mark::Blank, Label::Support, side.support),
        amount(Mark::Plus, Label::Cash, side.cash),
        amount(Mark::Plus, Label::Investments, side.investments),
        adjusted_business(lines),
        worked(Mark::Equals, Label::NetWorth, lines.worth),
    ]
}

// The adjusted net worth of a business.
fn adjusted_business(lines: &ParentLines) -> Entry
    ensures { result ≡ amount_of Plus AdjustedBusiness lines.now.business }
{
    Entry {
        mark: Mark::Plus,
        label: Label::AdjustedBusiness,
        part: Part::Empty,
        figure: Figure::Dollars(i128::from(lines.business)),
    }
}

// What is protected of it at an age, and what a rate takes of the rest.
fn assets(age: i64, rate: i64, lines: &ParentLines) -> [Entry; 3]
    ensures { result ≡ asset_entries age rate lines.now }
{
    [
        worked_with(
            Mark::Minus,
            Label::AssetProtection,
            Part::Number(age),
            lines.asset_protection,
        ),
        worked(Mark::Equals, Label::Discretionary, lines.discretionary),
        from_assets_above(rate, lines),
    ]
}

// What a rate takes of assets, and that it takes nothing below 0.
fn from_assets_above(rate: i64, lines: &ParentLines) -> Entry
    ensures { result ≡ from_assets_above_of rate lines.now }
{
    if lines.discretionary < 0 {
        worked(Mark::Blank, Label::NoneFromAssets, lines.from_assets)
    } else {
        from_assets(rate, lines)
    }
}

// What a rate takes of assets.
fn from_assets(rate: i64, lines: &ParentLines) -> Entry
    ensures { result ≡ from_assets_of rate lines.now }
{
    worked_with(
        Mark::Blank,
        Label::FromAssets,
        Part::Rate(rate),
        lines.from_assets,
    )
}

// A dependent student's assets, and what a rate takes of them.
fn dependent_assets(side: &Side, rate: i64, lines: &ParentLines) -> [Entry; 5]
    ensures { result ≡ dependent_assets_of side.now rate lines.now }
{
    [
        amount(Mark::Blank, Label::Cash, side.cash),
        amount(Mark::Plus, Label::Investments, side.investments),
        amount(Mark::Plus, Label::Business, side.business),
        worked(Mark::Equals, Label::NetWorth, lines.worth),
        from_assets(rate, lines),
    ]
}

// What the schedule makes of income and assets.
fn schedule(lines: &ParentLines) -> [Entry; 2]
    ensures { result ≡ schedule_entries lines.now }
{
    [
        worked(Mark::Blank, Label::Adjusted, lines.adjusted),
        worked(Mark::Blank, Label::BySchedule, lines.contribution),
    ]
}

// An amount of the application.
fn amount(mark: Mark, label: Label, dollars: i32) -> Entry
    ensures { result ≡ amount_of mark label dollars }
{
    Entry {
        mark,
        label,
        part: Part::Empty,
        figure: Figure::Dollars(i128::from(dollars)),
    }
}

/// A worked line.
pub(crate) fn worked(mark: Mark, label: Label, number: i64) -> Entry
    ensures { result ≡ worked_of mark label number }
{
    worked_with(mark, label, Part::Empty, number)
}

/// A worked line with something within its words.
pub(crate) fn worked_with(mark: Mark, label: Label, part: Part, number: i64) -> Entry
    ensures { result ≡ worked_with_of mark label part number }
{
    Entry {
        mark,
        label,
        part,
        figure: Figure::Worked(i128::from(number)),
    }
}
