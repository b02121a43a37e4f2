//! The list of all filings.
ghost use Rattle.std.specs.Prelude.{◌≡◌, ◌+◌, ◌<◌, ◌≤◌, ◌∷◌, ◌++◌, [], IfOk, OnOk, length, reverse, take};
ghost use Rattle.std.specs.List.{concat};
ghost use Rattle.format_filings.specs.WrittenRows.{row_text};
ghost use Rattle.office_sheets.specs.Lists.{clerk_text, list_line, list_lines, list_sheet};

use crate::pieces::{clerk_or_hyphen, put_day_column, put_outcome};
use aid_filings::{Filing, Outcome};
use aid_stamps::{ClerkName, Stamp};
use format_filings::put_row;
use office_index::Office;
use office_reports::{put_count, put_position, put_text};
use std::alloc::{AllocError, Global};

/// All filings, the oldest first: position, the stamp's day and clerk, row and outcome of each, a blank between each two.
/// Behind them stands how many there are. One look-up for each filing. An `Err` is want of memory.
pub fn list(alloc: Global, office: &Office, stamps: &[Stamp]) -> Result<Vec<u8>, AllocError>
    // Each filing has its stamp.
    requires stamped { length stamps.now ≡ length office.now.history }
    ensures { IfOk result (λ text. text.items ≡ list_sheet office.now.history (reverse stamps.now)) }
{
    let filings = office.filings();
    let mut out = Vec::new(alloc);
    for index in 0..office.front() {
        put_line_at(office, filings, stamps, index, &mut out)?;
    }
    put_count(filings.len(), &mut out)?;
    Ok(out)
}

// Adds the line of the filing at an index to those of the filings before it.
fn put_line_at(
    office: &Office,
    filings: &[Filing],
    stamps: &[Stamp],
    index: u32,
    out: &mut Vec<u8>,
) -> Result<(), AllocError>
    requires all { reverse filings.now ≡ office.now.history }
    requires stamped { length stamps.now ≡ length filings.now }
    requires before { out.old.items ≡ concat (list_lines (reverse (take index filings.now)) (reverse (take index stamps.now))) }
    requires inside { index < length filings.now }
    requires few { length filings.now ≤ 1000000 }
    ensures { OnOk result (out.new.items ≡ concat (list_lines (reverse (take (index + 1) filings.now)) (reverse (take (index + 1) stamps.now)))) }
{
    let Some(outcome) = office.outcome(index + 1) else {
        unreachable!();
    };
    let place = index as usize;
    put_list_line(place + 1, &stamps[place], &filings[place], &outcome, out)
}

/// Appends the line of the list of a filing at a position: the position, the stamp's day and clerk, row and outcome, a blank between
/// each two. An `Err` is want of memory.
pub fn put_list_line(
    position: usize,
    stamp: &Stamp,
    filing: &Filing,
    outcome: &Outcome,
    out: &mut Vec<u8>,
) -> Result<(), AllocError>
    ensures { OnOk result (out.new.items ≡ out.old.items ++ list_line position stamp.now filing.now outcome.now) }
{
    put_position(position, out)?;
    put_day_column(stamp.day, b' ', out)?;
    put_clerk(&stamp.clerk, out)?;
    put_row_column(filing, out)?;
    put_outcome(outcome, out)
}

// Appends a clerk's name, or a hyphen where there is none, and a blank.
fn put_clerk(clerk: &ClerkName, out: &mut Vec<u8>) -> Result<(), AllocError>
    ensures { OnOk result (out.new.items ≡ out.old.items ++ clerk_text clerk.now ++ 32 ∷ []) }
{
    put_text(clerk_or_hyphen(clerk.as_bytes()), out)
}

// Appends the row of a filing, and a blank.
fn put_row_column(filing: &Filing, out: &mut Vec<u8>) -> Result<(), AllocError>
    ensures { OnOk result (out.new.items ≡ out.old.items ++ row_text filing.now ++ 32 ∷ []) }
{
    put_row(filing, out)?;
    out.push(b' ')?;
    Ok(())
}
