//! The units that students used before this office.
ghost use Rattle.std.specs.Prelude.{◌≡◌, ◌∷◌, ℕ, List, Option, Some, IfOk, OnOk, reverse};
ghost use Rattle.std.specs.BTreeMap.{get};
ghost use Rattle.std.specs.Ordering.{nat_cmp};
ghost use Rattle.aid_filings.specs.declared.filing.Filing.{Filing as AnyFiling};
ghost use Rattle.office_history.specs.Past.{amount_or, earlier, earliest, prior_in, prior_units};

use aid_filings::{Filing, PriorFacts, What};
use aid_types::Student;
use std::alloc::{AllocError, Global};
use std::collections::BTreeMap;

/// The prior units of each student who has some on file, by the student's number. An `Err` is want of memory.
pub(crate) fn priors(alloc: Global, filings: &[Filing]) -> Result<BTreeMap<u64, u32>, AllocError>
    ensures { IfOk result (λ units. (student : ℕ) → get nat_cmp units student ≡ earliest (λ f. prior_in student f.what) (reverse filings.now)) }
{
    let mut units = BTreeMap::new(alloc);
    for filing in filings {
        put_units(&filing.what, &mut units)?;
    }
    Ok(units)
}

// Adds what a filing tells of prior units, where nothing is known of the student's yet.
fn put_units(what: &What, units: &mut BTreeMap<u64, u32>) -> Result<(), AllocError>
    ensures { OnOk result ((student : ℕ) → get nat_cmp units.new student ≡ earlier (prior_in student what.now) (get nat_cmp units.old student)) }
{
    let What::Prior(prior) = what else {
        return Ok(());
    };
    if units.contains_key(&prior.student.0) {
        return Ok(());
    }
    match units.insert(prior.student.0, prior.units) {
        Ok(_) => Ok(()),
        Err(_) => Err(AllocError),
    }
}

/// The prior units of a student, 0 where there are none.
pub(crate) fn prior_of(units: &BTreeMap<u64, u32>, student: Student) -> u32
    ensures { result ≡ amount_or (get nat_cmp units.now student) }
{
    match units.get(&student.0) {
        Some(&prior) => prior,
        None => 0,
    }
}
