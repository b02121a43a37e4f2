//! A text that is asked for, as one of the desk's list.
ghost use Rattle.std.specs.Prelude.{◌≡◌, ◌<◌, IfOk, Some, codes, length};
ghost use Rattle.log_rules.specs.Ruled.{history_of, scheme_of};
ghost use Rattle.desk_sheets.specs.Sheets.{text_on as text_on_list, text_upto};

use crate::request::{DeskSheet, DeskSheetRow};
use crate::sealed::{seal_line, seal_lines};
use log_machine::StateMachine;
use log_rules::{Filed, OfficeRules, RuleMachine};
use log_session::Report;
use std::alloc::{AllocError, Global};

/// The text of a row, as one of the desk's list.
#[derive(Drop)]
pub(crate) struct DeskReport {
    pub row: DeskSheetRow,
}

impl<R: OfficeRules> Report<RuleMachine<R>> for DeskReport {
    ghost use Rattle.log_rules.specs.Ruled.{scheme_of};
    ghost use Rattle.desk_sheets.specs.Sheets.{desk_text};

    ghost text = { λ report. desk_text (scheme_of R.ruling) report.row };

    fn write(&self, alloc: Global, machine: &RuleMachine<R>) -> Result<Vec<u8>, AllocError> {
        // The front tells that there are few.
        let _front = machine.front();
        let filings = machine.filings();
        match self.row.upto {
            None => text_on::<R>(alloc, self.row.sheet, filings),
            Some(last) => first_text::<R>(alloc, last, self.row.sheet, filings),
        }
    }
}

// The text on filings.
fn text_on<R: OfficeRules>(
    alloc: Global,
    sheet: DeskSheet,
    filings: &[Filed<R::Entry, R::Outcome>],
) -> Result<Vec<u8>, AllocError>
    requires few { length filings.now < 4294967295 }
    ensures { IfOk result (λ text. text.items ≡ text_on_list (scheme_of R.ruling) sheet (history_of filings.now)) }
{
    match sheet {
        DeskSheet::Seal => seal_line::<R>(alloc, filings),
        DeskSheet::Seals => seal_lines::<R>(alloc, filings),
    }
}

// The text on the first so many of them, where there are as many.
fn first_text<R: OfficeRules>(
    alloc: Global,
    last: u32,
    sheet: DeskSheet,
    filings: &[Filed<R::Entry, R::Outcome>],
) -> Result<Vec<u8>, AllocError>
    requires few { length filings.now < 4294967295 }
    ensures { IfOk result (λ text. text.items ≡ text_upto (scheme_of R.ruling) sheet (Some last) (history_of filings.now)) }
{
    let last = last as usize;
    if last <= filings.len() {
        text_on::<R>(alloc, sheet, &filings[..last])
    } else {
        none_text(alloc)
    }
}

// The text where there are fewer filings.
fn none_text(alloc: Global) -> Result<Vec<u8>, AllocError>
    ensures { IfOk result (λ text. text.items ≡ codes "none\n") }
{
    let mut text = Vec::new(alloc);
    text.extend_from_slice(b"none\n")?;
    Ok(text)
}
