//! What the filings tell, in order and each once.
ghost use Rattle.std.specs.Prelude.{◌≡◌, ◌++◌, IfOk, OnOk, reverse};
ghost use Rattle.std.specs.Option.{option_to_list};
ghost use Rattle.std.specs.Ordering.{nat_cmp};
ghost use Rattle.office_export.specs.InOrder.{in_order};
ghost use Rattle.office_export.specs.Applicants.{applicants as applicants_on};
ghost use Rattle.office_reports.specs.Rows.{lifetime_users as lifetime_users_on, paid_places as paid_places_on, place_order};

use crate::keys::{applicant, lifetime_user, paid_place};
use crate::rows::PaidPlace;
use aid_filings::Filing;
use aid_types::{Student, Year};
use std::alloc::{AllocError, Global};

/// The students with an application in the year, by number. An `Err` is want of memory.
pub(crate) fn applicants(
    alloc: Global,
    filings: &[Filing],
    year: Year,
) -> Result<Vec<Student>, AllocError>
    ensures { IfOk result (λ students. students.items ≡ applicants_on (reverse filings.now) year) }
{
    let mut students = Vec::new(alloc);
    for filing in filings {
        push_told(applicant(filing, year), &mut students)?;
    }
    sort_students(&mut students);
    Ok(students)
}

/// The students with a prior use or a Pell payment, by number. An `Err` is want of memory.
pub(crate) fn lifetime_users(alloc: Global, filings: &[Filing]) -> Result<Vec<Student>, AllocError>
    ensures { IfOk result (λ students. students.items ≡ lifetime_users_on (reverse filings.now)) }
{
    let mut students = Vec::new(alloc);
    for filing in filings {
        push_told(lifetime_user(filing), &mut students)?;
    }
    sort_students(&mut students);
    Ok(students)
}

/// Where students were paid in the year, by school, student and term. An `Err` is want of memory.
pub(crate) fn paid_places(
    alloc: Global,
    filings: &[Filing],
    year: Year,
) -> Result<Vec<PaidPlace>, AllocError>
    ensures { IfOk result (λ places. places.items ≡ paid_places_on (reverse filings.now) year) }
{
    let mut places = Vec::new(alloc);
    for filing in filings {
        push_told(paid_place(filing, year), &mut places)?;
    }
    sort_places(&mut places);
    Ok(places)
}

/// Appends what a filing tells, where it tells something. An `Err` is want of memory.
pub fn push_told<K: Drop>(told: Option<K>, out: &mut Vec<K>) -> Result<(), AllocError>
    ensures { OnOk result (out.new.items ≡ out.old.items ++ option_to_list told) }
{
    if let Some(item) = told {
        out.push(item)?;
    }
    Ok(())
}

/// Sorts students by number, and drops those that come again.
pub fn sort_students(students: &mut Vec<Student>)
    ensures { students.new.items ≡ in_order nat_cmp (reverse students.old.items) }
{
    students.sort_unstable_by_key(|student| student.0);
    students.dedup();
}

// Sorts places, and drops those that come again.
fn sort_places(places: &mut Vec<PaidPlace>)
    ensures { places.new.items ≡ in_order place_order (reverse places.old.items) }
{
    places.sort_unstable_by_key(|place| (place.school.0, place.student.0, place.term));
    places.dedup();
}
