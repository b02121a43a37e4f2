//! A sheet that is asked for, as a text of the office.
ghost use Rattle.std.specs.Prelude.{◌≡◌, ◌-◌, ◌++◌, ◌≤◌, IfOk, drop, length, reverse};
ghost use Rattle.office_reports.specs.Seals.{seal_report};
ghost use Rattle.run_sheets.specs.Texts.{report_on, sheet_on};

use crate::request::{SheetRequest, SheetRow};
use aid_stamps::Stamp;
use log_session::Report;
use office_index::Office;
use office_log::StampedOfficeMachine;
use office_reports::{
    awards, export, lifetimes, returns, seal_line, seal_lines, stamp_lines, standings,
};
use office_sheets::{front_of, list, none_text, payments, quotes, student};
use run_words::ReportRequest;
use sheet_need::need;
use sheet_r2t4::withdrawal;
use sheet_returns::due;
use sheet_review::{book, review};
use std::alloc::{AllocError, Global};

/// The sheet of a row, as a text of the office.
#[derive(Drop)]
pub struct SheetReport {
    pub row: SheetRow,
}

impl Report<StampedOfficeMachine> for SheetReport {
    ghost use Rattle.run_sheets.specs.Texts.{sheet_text};

    ghost text = { λ report. sheet_text report.row };

    fn write(&self, alloc: Global, machine: &StampedOfficeMachine) -> Result<Vec<u8>, AllocError> {
        let office = machine.inner().office();
        let stamps = machine.stamps();
        match self.row.upto {
            None => sheet(alloc, self.row.request, office, stamps),
            Some(last) => {
                if last.number <= office.front() {
                    first_sheet(alloc, last.number, self.row.request, office, stamps)
                } else {
                    none_text(alloc)
                }
            }
        }
    }
}

// The sheet on the first filings of an office.
fn first_sheet(
    alloc: Global,
    front: u32,
    request: SheetRequest,
    office: &Office,
    stamps: &[Stamp],
) -> Result<Vec<u8>, AllocError>
    requires length { length stamps.now ≡ length office.now.history }
    requires front { front ≤ length office.now.history }
    ensures { IfOk result (λ text. text.items
        ≡ sheet_on request (drop (length office.now.history - front) office.now.history) (drop (length office.now.history - front) (reverse stamps.now))) }
{
    let past = front_of(alloc, office, front)?;
    sheet(alloc, request, &past, &stamps[..front as usize])
}

// The sheet on an office.
fn sheet(
    alloc: Global,
    request: SheetRequest,
    office: &Office,
    stamps: &[Stamp],
) -> Result<Vec<u8>, AllocError>
    requires { length stamps.now ≡ length office.now.history }
    ensures { IfOk result (λ text. text.items ≡ sheet_on request office.now.history (reverse stamps.now)) }
{
    match request {
        SheetRequest::List => sealed(list(alloc, office, stamps)?, alloc, office, stamps),
        SheetRequest::Student(of) => {
            let text = student(alloc, office, stamps, of.student)?;
            sealed(text, alloc, office, stamps)
        }
        SheetRequest::Need(of) => {
            let text = need(alloc, office, of.student, of.year)?;
            sealed(text, alloc, office, stamps)
        }
        SheetRequest::Review(of) => {
            let text = review(alloc, office, stamps, of.student, of.year)?;
            sealed(text, alloc, office, stamps)
        }
        SheetRequest::Quotes(of) => quotes(alloc, office, of.school, of.year, of.term),
        SheetRequest::Payments(of) => payments(alloc, office, stamps, of.school, of.year, of.term),
        SheetRequest::Withdrawal(of) => {
            let text = withdrawal(alloc, office, of.school, of.student, of.year, of.term)?;
            sealed(text, alloc, office, stamps)
        }
        SheetRequest::Due(of) => due(alloc, office, of.day, of.school),
        SheetRequest::Returns(of) => sheet_returns::returns(alloc, office, of.school, of.year),
        SheetRequest::Book(of) => {
            let mut text = book(alloc, office, stamps, of.year)?;
            text.extend_from_slice(b"# ")?;
            sealed(text, alloc, office, stamps)
        }
        SheetRequest::Report(request) => report(alloc, request, office, stamps),
    }
}

// A text, and behind it the line of the seal of the list that it shows.
fn sealed(
    mut text: Vec<u8>,
    alloc: Global,
    office: &Office,
    stamps: &[Stamp],
) -> Result<Vec<u8>, AllocError>
    requires { length stamps.now ≡ length office.now.history }
    ensures { IfOk result (λ sheet. sheet.items ≡ text.items ++ seal_report office.now.history (reverse stamps.now)) }
{
    let line = seal_line(alloc, office.filings(), stamps)?;
    text.extend_from_slice(line.as_slice())?;
    Ok(text)
}

// A report on an office.
fn report(
    alloc: Global,
    request: ReportRequest,
    office: &Office,
    stamps: &[Stamp],
) -> Result<Vec<u8>, AllocError>
    requires { length stamps.now ≡ length office.now.history }
    ensures { IfOk result (λ text. text.items ≡ report_on request office.now.history (reverse stamps.now)) }
{
    match request {
        ReportRequest::Standing(of) => standings(alloc, office, of.year),
        ReportRequest::Awards(of) => awards(alloc, office, of.year),
        ReportRequest::Returns(of) => returns(alloc, office, of.year),
        ReportRequest::Lifetime => lifetimes(alloc, office),
        ReportRequest::Stamps => stamp_lines(alloc, stamps),
        ReportRequest::Seal => seal_line(alloc, office.filings(), stamps),
        ReportRequest::Seals => seal_lines(alloc, office.filings(), stamps),
        ReportRequest::Export(of) => export(alloc, office, stamps, of.year),
    }
}
