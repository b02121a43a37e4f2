//! An office of the first filings of another.
ghost use Rattle.std.specs.Prelude.{◌≡◌, ◌+◌, ◌-◌, ◌≤◌, ◌∷◌, IfOk, OnOk, drop, length};
ghost use Rattle.office_history.specs.Answer.{IsLegal, outcome_of};

use crate::copies::copy_filing;
use aid_filings::{Filing, Outcome};
use office_index::Office;
use std::alloc::{AllocError, Global};

/// An office that has the first filings of another, and no others. Each of them is judged again. An `Err` is want of memory.
pub fn front_of(alloc: Global, office: &Office, front: u32) -> Result<Office, AllocError>
    requires { front ≤ length office.now.history }
    ensures { IfOk result (λ made. made.history ≡ drop (length office.now.history - front) office.now.history) }
{
    let filings = office.filings();
    // The front tells that the history is legal.
    let _front = office.front();
    let mut made = Office::new(alloc);
    made.reserve(front)?;
    for index in 0..front as usize {
        grow(alloc, &filings[index], &mut made)?;
    }
    Ok(made)
}

/// Admits a copy of a filing, and answers its outcome. An `Err` is want of memory for the copy.
pub(crate) fn grow(
    alloc: Global,
    filing: &Filing,
    office: &mut Office,
) -> Result<Outcome, AllocError>
    requires legal { IsLegal (filing.now ∷ office.old.history) }
    requires room { 1 ≤ office.old.spare }
    ensures history { OnOk result (office.new.history ≡ filing.now ∷ office.old.history) }
    ensures spare { OnOk result (office.new.spare + 1 ≡ office.old.spare) }
    ensures outcome { IfOk result (λ outcome. outcome ≡ outcome_of office.old.history filing.now) }
{
    let copy = copy_filing(alloc, filing)?;
    Ok(office.admit(copy))
}
