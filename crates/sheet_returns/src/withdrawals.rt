//! The withdrawals from the terms of a school.
ghost use Rattle.std.specs.Prelude.{◌≡◌, IfOk, reverse};
ghost use Rattle.office_export.specs.InOrder.{in_order};
ghost use Rattle.sheet_returns.specs.Withdrawals.{by_due as by_due_on, due_order, withdrawals as withdrawals_on, withdrawn as withdrawn_in};

use crate::rows::Withdrawn;
use aid_filings::{Filing, What};
use aid_types::School;
use office_index::Office;
use office_reports::push_told;
use std::alloc::{AllocError, Global};

/// The withdrawals from a school's terms, the oldest first. An `Err` is want of memory.
pub(crate) fn withdrawals(
    alloc: Global,
    office: &Office,
    school: School,
) -> Result<Vec<Withdrawn>, AllocError>
    ensures { IfOk result (λ list. list.items ≡ reverse (withdrawals_on school office.now.history)) }
{
    let filings = office.filings();
    let mut list = Vec::new(alloc);
    for index in 0..office.front() {
        let told = withdrawn(school, index + 1, &filings[index as usize]);
        push_told(told, &mut list)?;
    }
    Ok(list)
}

// The withdrawal that a filing at a position is, from a term of the school.
fn withdrawn(school: School, position: u32, filing: &Filing) -> Option<Withdrawn>
    ensures { result ≡ withdrawn_in school position filing.now.key filing.now.what }
{
    match &filing.what {
        What::Withdraw(withdrawal) if filing.key.school == school => Some(Withdrawn {
            determined: withdrawal.determined.count(),
            position,
        }),
        _ => None,
    }
}

/// The same by the days on which their returns are due. An `Err` is want of memory.
pub(crate) fn by_due(
    alloc: Global,
    office: &Office,
    school: School,
) -> Result<Vec<Withdrawn>, AllocError>
    ensures { IfOk result (λ list. list.items ≡ by_due_on school office.now.history) }
{
    let mut list = withdrawals(alloc, office, school)?;
    sort_by_due(&mut list);
    Ok(list)
}

// Sorts withdrawals by the day, and those of one day by position.
fn sort_by_due(list: &mut Vec<Withdrawn>)
    ensures { list.new.items ≡ in_order due_order (reverse list.old.items) }
{
    list.sort_unstable_by_key(|at| (at.determined, at.position));
    list.dedup();
}
