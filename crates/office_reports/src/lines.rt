//! The lines of reports.
ghost use Rattle.std.specs.Prelude.{◌≡◌, ◌∷◌, ◌++◌, [], OnOk, codes};
ghost use Rattle.office_export.specs.Lines.{line_of as columns};
ghost use Rattle.office_reports.specs.Columns.{left, right};
ghost use Rattle.law_terms.specs.Days.{day_text};
ghost use Rattle.office_reports.specs.Lines.{award_line, due_text, lifetime_line, return_line, stamp_line, standing_line};

use crate::columns::{
    put_amount, put_left, put_number, put_percent, put_position, put_school, put_student, put_term,
    put_text, put_whole,
};
use crate::rows::{LifetimeOf, NetOf, ReturnOf, StandingOf};
use crate::table::ReportLine;
use aid_stamps::{ClerkName, Stamp};
use aid_types::{Day, formula_name, program_name, way_name};
use law_terms::put_day;
use std::alloc::AllocError;

impl ReportLine for StandingOf {
    ghost line = { standing_line };

    fn put(&self, out: &mut Vec<u8>) -> Result<(), AllocError> {
        put_student(self.student, out)?;
        put_text(formula_name(self.row.formula).as_bytes(), out)?;
        put_whole(7, self.row.sai, b' ', out)?;
        put_left(10, way_name(self.row.way).as_bytes(), b' ', out)?;
        put_number(6, u64::from(self.row.scheduled), b' ', out)?;
        put_amount(self.row.paid, b' ', out)?;
        put_number(7, u64::from(self.row.used), b'\n', out)
    }
}

impl ReportLine for NetOf {
    ghost line = { award_line };

    fn put(&self, out: &mut Vec<u8>) -> Result<(), AllocError> {
        put_school(self.school, out)?;
        put_student(self.student, out)?;
        put_term(self.term, out)?;
        put_left(5, program_name(self.program).as_bytes(), b' ', out)?;
        put_amount(self.cents, b'\n', out)
    }
}

impl ReportLine for ReturnOf {
    ghost line = { return_line };

    fn put(&self, out: &mut Vec<u8>) -> Result<(), AllocError> {
        put_school(self.school, out)?;
        put_student(self.student, out)?;
        put_term(self.term, out)?;
        put_percent(self.percent, out)?;
        put_amount(self.returned, b' ', out)?;
        put_amount(self.owed, b' ', out)?;
        put_amount(self.post, b' ', out)?;
        put_due(self.due, out)
    }
}

impl ReportLine for LifetimeOf {
    ghost line = { lifetime_line };

    fn put(&self, out: &mut Vec<u8>) -> Result<(), AllocError> {
        put_student(self.student, out)?;
        put_number(7, u64::from(self.prior), b' ', out)?;
        put_number(7, u64::from(self.used), b'\n', out)
    }
}

// Appends the day on which a return is due, or none, and a line feed.
fn put_due(due: Option<Day>, out: &mut Vec<u8>) -> Result<(), AllocError>
    ensures { OnOk result (out.new.items ≡ out.old.items ++ due_text due ++ codes "\n") }
{
    put_due_text(due, out)?;
    out.push(b'\n')?;
    Ok(())
}

// Appends the day on which a return is due, or none.
fn put_due_text(due: Option<Day>, out: &mut Vec<u8>) -> Result<(), AllocError>
    ensures { OnOk result (out.new.items ≡ out.old.items ++ due_text due) }
{
    match due {
        Some(day) => put_day(day, out),
        None => out.extend_from_slice(b"none"),
    }
}

// Appends a day, and a space.
fn put_day_column(day: Day, out: &mut Vec<u8>) -> Result<(), AllocError>
    ensures { OnOk result (out.new.items ≡ out.old.items ++ day_text day ++ 32 ∷ []) }
{
    put_day(day, out)?;
    out.push(b' ')?;
    Ok(())
}

// Appends a clerk's name, and a line feed.
fn put_clerk(clerk: &ClerkName, out: &mut Vec<u8>) -> Result<(), AllocError>
    ensures { OnOk result (out.new.items ≡ out.old.items ++ clerk.now ++ 10 ∷ []) }
{
    out.extend_from_slice(clerk.as_bytes())?;
    out.push(b'\n')?;
    Ok(())
}

/// Appends the line of the stamp at a position, which counts from 1.
pub(crate) fn put_stamp(position: usize, stamp: &Stamp, out: &mut Vec<u8>) -> Result<(), AllocError>
    ensures { OnOk result (out.new.items ≡ out.old.items ++ stamp_line position stamp.now) }
{
    put_position(position, out)?;
    put_day_column(stamp.day, out)?;
    put_clerk(&stamp.clerk, out)
}
