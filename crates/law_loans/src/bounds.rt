//! What bounds the loans under a record: its need and its cost, and the limits of its year (34 CFR 685.203).
ghost use Rattle.std.specs.Prelude.{◌≡◌, ◌≤◌, length, Some};
ghost use Rattle.law_loans.specs.Loans.{
  aggregate_sub as aggregate_sub_of,
  aggregate_total as aggregate_total_of,
  annual_sub as annual_sub_of,
  annual_total as annual_total_of,
  at_level as at_level_of,
};
ghost use Rattle.law_loans.specs.Rules.{bounds_under};

use crate::facts::LoanFacts;
use crate::filing::{BorrowerFacts, LimitFacts};

/// The level of a graduate student.
const GRADUATE: u8 = 4;

/// The bounds of a record, in dollars: its need, its annual limits of subsidized and of all loans, its cost, and its aggregate
/// limits of subsidized and of all loans.
#[derive(Clone, Copy)]
pub(crate) struct Bounds {
    pub need: u32,
    pub sub: u32,
    pub total: u32,
    pub cost: u32,
    pub sub_all: u32,
    pub all: u32,
}

impl Bounds {
    /// Those of no record.
    const NONE: Bounds = Bounds {
        need: 0,
        sub: 0,
        total: 0,
        cost: 0,
        sub_all: 0,
        all: 0,
    };
}

/// The amount of a level, of which the first is 1.
fn at_level(amounts: &[u32], level: u8) -> u32
    requires low { 1 ≤ level }
    requires high { level ≤ length amounts.now }
    ensures { result ≡ at_level_of amounts.now level }
{
    amounts[usize::from(level - 1)]
}

/// The annual limit of subsidized loans.
fn annual_sub(limits: &LimitFacts, filed: &BorrowerFacts) -> u32
    ensures { result ≡ annual_sub_of limits.now filed.now }
{
    at_level(&limits.sub, filed.level)
}

/// The annual limit of all loans.
fn annual_total(limits: &LimitFacts, filed: &BorrowerFacts) -> u32
    ensures { result ≡ annual_total_of limits.now filed.now }
{
    if filed.level >= GRADUATE {
        limits.graduate
    } else if filed.independent {
        at_level(&limits.independent, filed.level)
    } else {
        at_level(&limits.dependent, filed.level)
    }
}

/// The aggregate limit of subsidized loans.
fn aggregate_sub(limits: &LimitFacts, filed: &BorrowerFacts) -> u32
    ensures { result ≡ aggregate_sub_of limits.now filed.now }
{
    let [undergraduate, graduate] = limits.aggregate_sub;
    if filed.level < GRADUATE {
        undergraduate
    } else {
        graduate
    }
}

/// The aggregate limit of all loans.
fn aggregate_total(limits: &LimitFacts, filed: &BorrowerFacts) -> u32
    ensures { result ≡ aggregate_total_of limits.now filed.now }
{
    let [dependent, independent, graduate] = limits.aggregate;
    if filed.level >= GRADUATE {
        graduate
    } else if filed.independent {
        independent
    } else {
        dependent
    }
}

/// The bounds of a record by the limits of its year; where these aren't on file, each limit is 0.
pub(crate) fn bounds_of(limits: &Option<LimitFacts>, filed: &BorrowerFacts) -> Bounds
    ensures { result ≡ bounds_under limits.now (Some filed.now) }
{
    match limits {
        Some(limits) => Bounds {
            need: filed.need,
            sub: annual_sub(limits, filed),
            total: annual_total(limits, filed),
            cost: filed.cost,
            sub_all: aggregate_sub(limits, filed),
            all: aggregate_total(limits, filed),
        },
        None => Bounds {
            need: filed.need,
            cost: filed.cost,
            ..Bounds::NONE
        },
    }
}

/// The same where a record is on file; where none is, each bound is 0.
#[tactic(auto, using(crate::proofs::NoRecord::no_record))]
fn bounds_on_file(limits: &Option<LimitFacts>, filed: &Option<BorrowerFacts>) -> Bounds
    ensures { result ≡ bounds_under limits.now filed.now }
{
    match filed {
        Some(filed) => bounds_of(limits, filed),
        None => Bounds::NONE,
    }
}

/// The bounds of the record in force.
pub(crate) fn own_bounds(f: &LoanFacts) -> Bounds
    ensures { result ≡ bounds_under f.now.limits f.now.record }
{
    bounds_on_file(&f.limits, &f.record)
}

/// The bounds of the last record.
pub(crate) fn last_bounds(f: &LoanFacts) -> Bounds
    ensures { result ≡ bounds_under f.now.last_limits f.now.last }
{
    bounds_on_file(&f.last_limits, &f.last)
}
