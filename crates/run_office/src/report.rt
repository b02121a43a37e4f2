// A report that is asked for.
use log_session::Report;
use office_log::StampedOfficeMachine;
use office_reports::{
    awards, export, lifetimes, returns, seal_line, seal_lines, stamp_lines, standings,
};
use run_words::ReportRequest;
use std::alloc::{AllocError, Global};

/// The report that is asked for, as a text of the office.
#[derive(Drop)]
pub struct OfficeReport {
    pub request: ReportRequest,
}

impl Report<StampedOfficeMachine> for OfficeReport {
    ghost use Rattle.run_office.specs.Texts.{report_text};

    ghost text = { λ report. report_text report.request };

    fn write(&self, alloc: Global, machine: &StampedOfficeMachine) -> Result<Vec<u8>, AllocError> {
        let office = machine.inner().office();
        match self.request {
            ReportRequest::Standing(of) => standings(alloc, office, of.year),
            ReportRequest::Awards(of) => awards(alloc, office, of.year),
            ReportRequest::Returns(of) => returns(alloc, office, of.year),
            ReportRequest::Lifetime => lifetimes(alloc, office),
            ReportRequest::Stamps => stamp_lines(alloc, machine.stamps()),
            ReportRequest::Seal => seal_line(alloc, office.filings(), machine.stamps()),
            ReportRequest::Seals => seal_lines(alloc, office.filings(), machine.stamps()),
            ReportRequest::Export(of) => export(alloc, office, machine.stamps(), of.year),
        }
    }
}
