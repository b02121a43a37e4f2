//! The book of an award year: the figures and tables that the Department publishes for it.
ghost use Rattle.std.specs.Prelude.{◌≡◌, ◌≤◌, ◌≤ℤ◌, Some, option_map, pos, slice_get};
ghost use Rattle.aid_types.specs.Nearest.{share};
ghost use Rattle.aid_types.specs.Ranges.{IsAmount, IsFloor, IsPercent, IsRate, IsWithin};

use crate::ages::Ages;
use crate::by_size::{Allowance, Guideline};
use crate::marginal::Brackets;
use aid_types::Year;

/// The greatest and the least Scheduled Award, in dollars.
#[derive(Clone, Copy, PartialEq, Eq)]
pub struct PellFigures {
    pub maximum: i64,
    pub minimum: i64,
    pub ghost maximum_in_range: { IsWithin (pos 1) (pos 99999) maximum },
    pub ghost minimum_in_range: { IsWithin (pos 1) maximum minimum },
}

/// The percents of the poverty guideline up to which a household has a Maximum or a Minimum award (HEA 401(b)).
#[derive(Clone, Copy, PartialEq, Eq)]
pub struct Percents {
    pub maximum_single: i64,
    pub maximum_other: i64,
    pub minimum_dependent_single: i64,
    pub minimum_dependent_other: i64,
    pub minimum_single_parent: i64,
    pub minimum_parent: i64,
    pub minimum_no_dependents: i64,
    pub ghost in_range: { IsPercent maximum_single × IsPercent maximum_other × IsPercent minimum_dependent_single
        × IsPercent minimum_dependent_other × IsPercent minimum_single_parent × IsPercent minimum_parent
        × IsPercent minimum_no_dependents },
}

/// The poverty guidelines of the three regions.
#[derive(Clone, Copy, PartialEq, Eq)]
pub struct Poverty {
    pub contiguous: Guideline,
    pub alaska: Guideline,
    pub hawaii: Guideline,
}

/// The payroll tax allowance (HEA 478(g)): caps and thresholds in dollars, rates in ten-thousandths.
#[derive(Clone, Copy, PartialEq, Eq)]
pub struct Payroll {
    pub oasdi_cap: i64,
    pub oasdi_rate: i64,
    pub medicare_rate: i64,
    pub medicare_high: i64,
    pub threshold_single: i64,
    pub threshold_married: i64,
    pub ghost amounts_in_range: { IsAmount oasdi_cap × IsAmount threshold_single × IsAmount threshold_married },
    pub ghost rates_in_range: { IsRate oasdi_rate × IsRate medicare_rate × IsRate medicare_high },
}

/// The income protection allowances (HEA 478(b)).
#[derive(Clone, Copy, PartialEq, Eq)]
pub struct Protection {
    pub parents: Allowance,
    pub dependent_student: i64,
    pub single_student: i64,
    pub married_student: i64,
    pub single_parent: Allowance,
    pub married_parent: Allowance,
    pub ghost in_range: { IsAmount dependent_student × IsAmount single_student × IsAmount married_student },
}

/// The employment expense allowance (HEA 478(h)): the greatest in dollars, and its rate in ten-thousandths.
#[derive(Clone, Copy, PartialEq, Eq)]
pub struct Employment {
    pub cap: i64,
    pub rate: i64,
    pub ghost in_range: { IsAmount cap × IsRate rate },
}

/// The rates at which assets contribute, in ten-thousandths.
#[derive(Clone, Copy, PartialEq, Eq)]
pub struct AssetRates {
    pub parents_rate: i64,
    pub dependent_rate: i64,
    pub no_dependents_rate: i64,
    pub with_dependents_rate: i64,
    pub ghost in_range: { IsRate parents_rate × IsRate dependent_rate × IsRate no_dependents_rate × IsRate with_dependents_rate },
}

/// The assessment schedule of adjusted available income (HEA 475(e)), beside its brackets: its least value `low`, which
/// stands below `low_at`, the rate below the first bracket, and the student's rate and least contribution from income.
#[derive(Clone, Copy, PartialEq, Eq)]
pub struct Schedule {
    pub low_at: i64,
    pub low: i64,
    pub first_rate: i64,
    pub student_rate: i64,
    pub lowest_student: i64,
    pub ghost in_range: { IsFloor low_at × IsFloor low × IsRate first_rate × IsRate student_rate × IsFloor lowest_student },
}

/// The figures and tables of one award year. Its ceiling is the percent of the Maximum award at which an index has none, or 0
/// where the year has no ceiling.
#[derive(PartialEq, Eq, Drop)]
pub struct Book {
    pub year: Year,
    pub pell: PellFigures,
    pub percent: Percents,
    pub poverty: Poverty,
    pub payroll: Payroll,
    pub protection: Protection,
    pub employment: Employment,
    pub assets: AssetRates,
    pub business: Brackets,
    pub age: Ages,
    pub schedule: Schedule,
    pub bracket: Brackets,
    pub ceiling: u16,
    pub ghost ceiling_in_range: { ceiling ≤ 9999 },
    pub ghost business_over: { option_map (λ row. row.over) (slice_get business 0) ≡ Some (pos 0) },
    pub ghost business_base: { option_map (λ row. row.base) (slice_get business 0) ≡ Some (pos 0) },
    pub ghost age_start: { option_map (λ row. row.start) (slice_get age 0) ≡ Some (pos 0) },
    pub ghost bracket_base: { option_map (λ row. row.base) (slice_get bracket 0) ≡ option_map (λ row. share row.over schedule.first_rate) (slice_get bracket 0) },
}

impl Book {
    ghost use Rattle.aid_books.specs.ValidBook.{IsValidBook};

    /// Says that the book is valid, as its type makes every book. It computes nothing.
    pub fn valid(&self)
        ensures { IsValidBook self.now }
    {
        let _year = self.year.number();
        let _business = self.business.as_slice();
        let _age = self.age.as_slice();
        let _bracket = self.bracket.as_slice();
    }
}
