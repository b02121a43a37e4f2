//! Whole applications.
ghost use Rattle.std.specs.Prelude.{◌≤◌};
ghost use Rattle.aid_types.specs.Ranges.{IsAmount, IsBetween, IsIndex, IsSignedAmount};

use crate::households::{applicant, earner, family_of_four, no_lines, nothing};
use aid_types::{Application, Formula, Refusal, Way};
use law_pell::{Decision, ceiling_for, decide};
use law_sai::{IndexLines, ParentLines, fits, formula_of, index};
use specimen::specimen_book;
use std::process::Abort;

// Asserts that an application fits the book and has these lines, and the decision on its index.
fn assert_application(
    rt: &impl Abort,
    a: &Application,
    lines: &IndexLines,
    way: Way,
    scheduled: u32,
)
    requires { IsIndex lines.now.index }
{
    let book = specimen_book();
    assert!(rt; fits(&book, a).is_none());
    assert_eq!(rt; index(&book, a), *lines);
    assert_eq!(rt;
        decide(&book, a, lines.index),
        Decision {
            way,
            scheduled,
            sai: lines.index
        }
    );
}

#[test]
fn dependent_student(rt: HostRuntime) {
    let lines = IndexLines {
        formula: Formula::A,
        parent: ParentLines {
            total: 85_000,
            tax: 5200,
            payroll: 6503,
            protection: 43_870,
            employment: 4730,
            allowances: 60_303,
            available: 24_697,
            business: 0,
            worth: 32_000,
            asset_protection: 6000,
            discretionary: 26_000,
            from_assets: 3120,
            adjusted: 27_817,
            contribution: 6424,
        },
        own: ParentLines {
            total: 6000,
            tax: 0,
            payroll: 459,
            protection: 11_770,
            employment: 0,
            allowances: 12_229,
            available: -6229,
            business: 0,
            worth: 900,
            asset_protection: 0,
            discretionary: 900,
            from_assets: 180,
            adjusted: 0,
            contribution: 0,
        },
        from_income: -1500,
        raw: 5104,
        index: 5104,
    };
    assert_application(&rt, &family_of_four(85_000), &lines, Way::Calculated, 2290);
}

#[test]
fn single_student(rt: HostRuntime) {
    let mut own = earner(20_000, 600);
    own.cash = 1000;
    let lines = IndexLines {
        formula: Formula::B,
        parent: no_lines(),
        own: ParentLines {
            total: 20_000,
            tax: 600,
            payroll: 1530,
            protection: 18_310,
            employment: 0,
            allowances: 20_440,
            available: -440,
            business: 0,
            worth: 1000,
            asset_protection: 0,
            discretionary: 1000,
            from_assets: 200,
            adjusted: 0,
            contribution: 0,
        },
        from_income: -220,
        raw: -20,
        index: -20,
    };
    assert_application(
        &rt,
        &applicant(2000, 1, own, nothing()),
        &lines,
        Way::Maximum,
        7395,
    );
}

#[test]
fn student_with_dependents(rt: HostRuntime) {
    let mut own = earner(60_000, 3000);
    own.investments = 40_000;
    let mut a = applicant(1990, 2, own, nothing());
    a.dependents = true;
    let lines = IndexLines {
        formula: Formula::C,
        parent: no_lines(),
        own: ParentLines {
            total: 60_000,
            tax: 3000,
            payroll: 4590,
            protection: 53_660,
            employment: 4730,
            allowances: 65_980,
            available: -5980,
            business: 0,
            worth: 40_000,
            asset_protection: 500,
            discretionary: 39_500,
            from_assets: 2765,
            adjusted: -3215,
            contribution: -707,
        },
        from_income: 0,
        raw: -707,
        index: -707,
    };
    assert_application(&rt, &a, &lines, Way::Calculated, 7395);
}

// Asserts the index and the award of the family of four with this income of the parents.
fn assert_family_of_four(rt: &impl Abort, agi: i32, sai: i32, scheduled: u32)
    requires { IsSignedAmount agi }
{
    let book = specimen_book();
    let a = family_of_four(agi);
    let found = decide(&book, &a, index(&book, &a).index);
    assert_eq!(rt;
        found,
        Decision {
            way: Way::Calculated,
            scheduled,
            sai
        },
        "at {agi}"
    );
}

#[test]
fn family_of_four_with_more_income(rt: HostRuntime) {
    assert_family_of_four(&rt, 85_000, 5104, 2290);
    assert_family_of_four(&rt, 87_000, 5684, 1710);
}

// Asserts the decision on a dependent student of married parents with this income, three in the family.
fn assert_decision(rt: &impl Abort, agi: i32, index: i32, way: Way, scheduled: u32, sai: i32)
    requires agi_in_range { IsSignedAmount agi }
    requires index_in_range { IsIndex index }
{
    let mut parents = nothing();
    parents.agi = agi;
    let a = applicant(2006, 3, nothing(), parents);
    let wanted = Decision {
        way,
        scheduled,
        sai,
    };
    assert_eq!(rt; decide(&specimen_book(), &a, index), wanted, "at {agi}");
}

// The guideline is 24,860 dollars, 175 percent of it 43,505 and 275 percent 68,365.
#[test]
fn income_against_the_guideline(rt: HostRuntime) {
    assert_decision(&rt, 60_000, 6657, Way::Calculated, 740, 6657);
    assert_decision(&rt, 68_365, 6658, Way::Minimum, 740, 6658);
    assert_decision(&rt, 68_366, 6658, Way::Nothing, 0, 6658);
    assert_decision(&rt, 43_505, 900, Way::Maximum, 7395, 0);
    assert_decision(&rt, 43_505, -900, Way::Maximum, 7395, -900);
    assert_decision(&rt, 43_506, 900, Way::Calculated, 6495, 900);
    assert_decision(&rt, 0, 7000, Way::Minimum, 740, 7000);
    assert_decision(&rt, -5, 7000, Way::Minimum, 740, 7000);
}

// Asserts the decision on such a student with an index of 900, whose household had to file or not.
fn assert_by_filing(
    rt: &impl Abort,
    student_file: bool,
    parents_file: bool,
    bachelor: bool,
    wanted: Decision,
) {
    let mut parents = nothing();
    parents.agi = 43_506;
    let mut a = applicant(2006, 3, nothing(), parents);
    a.student_file = student_file;
    a.parents_file = parents_file;
    a.bachelor = bachelor;
    assert_eq!(rt; decide(&specimen_book(), &a, 900), wanted);
}

#[test]
fn who_had_to_file(rt: HostRuntime) {
    let calculated = Decision {
        way: Way::Calculated,
        scheduled: 6495,
        sai: 900,
    };
    let greatest = Decision {
        way: Way::Maximum,
        scheduled: 7395,
        sai: -1500,
    };
    let none = Decision {
        way: Way::Nothing,
        scheduled: 0,
        sai: 900,
    };
    assert_by_filing(&rt, false, true, false, calculated);
    assert_by_filing(&rt, false, false, false, greatest);
    assert_by_filing(&rt, false, false, true, none);
}

// Asserts the decision on a dependent student of married parents with these incomes, three in the family, in a year whose
// ceiling is so many percent of the greatest award, and what is told of that ceiling.
fn assert_under_ceiling(
    rt: &impl Abort,
    percent: u16,
    agi: i32,
    foreign: i32,
    index: i32,
    wanted: (Way, u32),
    told: (u32, u32),
)
    requires percent_in_range { percent ≤ 9999 }
    requires agi_in_range { IsSignedAmount agi }
    requires foreign_in_range { IsAmount foreign }
    requires index_in_range { IsIndex index }
{
    let mut book = specimen_book();
    book.ceiling = percent;
    let mut parents = nothing();
    parents.agi = agi;
    parents.foreign = foreign;
    let a = applicant(2006, 3, nothing(), parents);
    let found = decide(&book, &a, index);
    assert_eq!(rt;
        (found.way, found.scheduled),
        wanted,
        "at {agi}, {foreign} and {index}"
    );
    let ceiling = ceiling_for(&book, &a, index);
    assert_eq!(rt;
        (ceiling.index, ceiling.bound),
        told,
        "at {agi}, {foreign} and {index}"
    );
}

// Twice 7,395 dollars are 14,790.
#[test]
fn index_at_the_ceiling(rt: HostRuntime) {
    assert_under_ceiling(&rt, 200, 68_365, 0, 14_789, (Way::Minimum, 740), (0, 0));
    assert_under_ceiling(
        &rt,
        200,
        68_365,
        0,
        14_790,
        (Way::Nothing, 0),
        (14_790, 14_790),
    );
    assert_under_ceiling(&rt, 0, 68_365, 0, 14_790, (Way::Minimum, 740), (0, 0));
    assert_under_ceiling(
        &rt,
        200,
        43_505,
        0,
        14_790,
        (Way::Nothing, 0),
        (14_790, 14_790),
    );
    // One percent is 73.95 dollars.
    assert_under_ceiling(&rt, 1, 60_000, 0, 73, (Way::Calculated, 7320), (0, 0));
    assert_under_ceiling(&rt, 1, 60_000, 0, 74, (Way::Nothing, 0), (74, 74));
    assert_under_ceiling(&rt, 1, 60_000, 0, 999_999, (Way::Nothing, 0), (999_999, 74));
}

#[test]
fn foreign_income_under_a_ceiling(rt: HostRuntime) {
    assert_under_ceiling(&rt, 200, 43_505, 0, 900, (Way::Maximum, 7395), (0, 0));
    assert_under_ceiling(&rt, 200, 43_505, 1, 900, (Way::Calculated, 6495), (0, 0));
    assert_under_ceiling(&rt, 0, 43_505, 1, 900, (Way::Maximum, 7395), (0, 0));
    assert_under_ceiling(&rt, 200, 0, 1, 900, (Way::Maximum, 7395), (0, 0));
    assert_under_ceiling(&rt, 0, 0, 1, 900, (Way::Calculated, 6495), (0, 0));
    assert_under_ceiling(&rt, 200, 68_365, 1, 6658, (Way::Nothing, 0), (0, 0));
}

// Asserts that with an index at the ceiling there is no award, whether the household had to file or not, and what is told of
// the ceiling: nothing of a student with a first degree.
fn assert_at_ceiling(rt: &impl Abort, parents_file: bool, bachelor: bool, told: (u32, u32)) {
    let mut book = specimen_book();
    book.ceiling = 200;
    let mut a = applicant(2006, 3, nothing(), nothing());
    a.parents_file = parents_file;
    a.bachelor = bachelor;
    let wanted = Decision {
        way: Way::Nothing,
        scheduled: 0,
        sai: 20_000,
    };
    assert_eq!(rt; decide(&book, &a, 20_000), wanted);
    let ceiling = ceiling_for(&book, &a, 20_000);
    assert_eq!(rt; (ceiling.index, ceiling.bound), told);
}

#[test]
fn ceiling_before_the_ways_and_behind_the_bar(rt: HostRuntime) {
    assert_at_ceiling(&rt, true, false, (20_000, 14_790));
    assert_at_ceiling(&rt, false, false, (20_000, 14_790));
    assert_at_ceiling(&rt, false, true, (0, 0));
}

// Asserts the formula of an application, and that it is refused with these two values, or fits where there are none.
fn assert_fit(
    rt: &impl Abort,
    birth_year: u16,
    family: u8,
    married: bool,
    dependents: bool,
    formula: Formula,
    bounds: Option<(u64, u64)>,
)
    requires born { IsBetween 1900 2099 birth_year }
    requires members { IsBetween 1 30 family }
{
    let mut a = applicant(birth_year, family, nothing(), nothing());
    a.married = married;
    a.dependents = dependents;
    let book = specimen_book();
    let wanted = bounds.map(|(kept, bound)| Refusal {
        rule: 92,
        kept,
        bound,
    });
    assert!(rt;
        formula_of(&book, &a) == formula,
        "of {birth_year}, {family} in the family"
    );
    assert_eq!(rt;
        fits(&book, &a),
        wanted,
        "of {birth_year}, {family} in the family"
    );
}

#[test]
fn applications_that_fit_or_not(rt: HostRuntime) {
    assert_fit(&rt, 2025, 2, false, false, Formula::A, None);
    assert_fit(&rt, 2026, 1, false, false, Formula::A, Some((2026, 2025)));
    assert_fit(&rt, 2002, 2, false, false, Formula::A, None);
    assert_fit(&rt, 2006, 1, false, false, Formula::A, Some((1, 2)));
    assert_fit(&rt, 2001, 2, false, false, Formula::B, Some((2, 1)));
    assert_fit(&rt, 2001, 2, false, true, Formula::C, None);
    assert_fit(&rt, 2000, 2, false, false, Formula::B, Some((2, 1)));
    assert_fit(&rt, 2000, 1, true, false, Formula::B, Some((1, 2)));
    assert_fit(&rt, 2000, 2, true, false, Formula::B, None);
    assert_fit(&rt, 2000, 2, true, true, Formula::C, Some((2, 3)));
    assert_fit(&rt, 2000, 1, false, true, Formula::C, Some((1, 2)));
    assert_fit(&rt, 2000, 30, false, true, Formula::C, None);
}
