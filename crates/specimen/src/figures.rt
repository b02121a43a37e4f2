//! The figures that stand in no table.
ghost use Rattle.std.specs.Prelude.{◌≡◌, pos};
ghost use Rattle.specimen.specs.Specimen.{AreAssetRates, ArePercents, IsEmployment, IsPayroll, IsPell, IsPoverty, IsProtection, IsSchedule};

use aid_books::{
    Allowance, AssetRates, Employment, Guideline, Payroll, PellFigures, Percents, Poverty,
    Protection, Schedule,
};

pub(crate) fn pell_figures() -> PellFigures
    ensures { IsPell result }
{
    PellFigures {
        maximum: 7395,
        minimum: 740,
    }
}

pub(crate) fn percents() -> Percents
    ensures { ArePercents result }
{
    Percents {
        maximum_single: 225,
        maximum_other: 175,
        minimum_dependent_single: 325,
        minimum_dependent_other: 275,
        minimum_single_parent: 400,
        minimum_parent: 350,
        minimum_no_dependents: 275,
    }
}

pub(crate) fn poverty() -> Poverty
    ensures { IsPoverty result }
{
    Poverty {
        contiguous: Guideline {
            sizes: [14580, 19720, 24860, 30000, 35140, 40280, 45420, 50560],
            extra: 5140,
        },
        alaska: Guideline {
            sizes: [18210, 24640, 31070, 37500, 43930, 50360, 56790, 63220],
            extra: 6430,
        },
        hawaii: Guideline {
            sizes: [16770, 22680, 28590, 34500, 40410, 46320, 52230, 58140],
            extra: 5910,
        },
    }
}

pub(crate) fn payroll() -> Payroll
    ensures { IsPayroll result }
{
    Payroll {
        oasdi_cap: 168600,
        oasdi_rate: 620,
        medicare_rate: 145,
        medicare_high: 235,
        threshold_single: 200000,
        threshold_married: 250000,
    }
}

pub(crate) fn protection() -> Protection
    ensures { IsProtection result }
{
    Protection {
        parents: Allowance {
            sizes: [28530, 35510, 43870, 51750, 60540],
            extra: 6840,
        },
        dependent_student: 11770,
        single_student: 18310,
        married_student: 29350,
        single_parent: Allowance {
            sizes: [53660, 66800, 82500, 97330, 113840],
            extra: 12860,
        },
        married_parent: Allowance {
            sizes: [42800, 53270, 65810, 77630, 90810],
            extra: 10260,
        },
    }
}

pub(crate) fn employment() -> Employment
    ensures { IsEmployment result }
{
    Employment {
        cap: 4730,
        rate: 3500,
    }
}

pub(crate) fn asset_rates() -> AssetRates
    ensures { AreAssetRates result }
{
    AssetRates {
        parents_rate: 1200,
        dependent_rate: 2000,
        no_dependents_rate: 2000,
        with_dependents_rate: 700,
    }
}

pub(crate) fn schedule() -> Schedule
    ensures figures { IsSchedule result }
    ensures first_rate { result.first_rate ≡ pos 2200 }
{
    Schedule {
        low_at: -6820,
        low: -1500,
        first_rate: 2200,
        student_rate: 5000,
        lowest_student: -1500,
    }
}
