//! The lines of returns.
ghost use Rattle.std.specs.Prelude.{◌≡◌, ◌∷◌, ◌++◌, [], OnOk, decimal};
ghost use Rattle.aid_types.specs.Words.{program_text};
ghost use Rattle.office_reports.specs.Lines.{due_text};
ghost use Rattle.sheet_returns.specs.Lines.{open_line, return_line};

use crate::rows::{OpenReturn, ReturnOfYear};
use aid_types::{Day, Program, Student, Year, program_name};
use office_reports::ReportLine;
use office_sheets::{put_bytes, put_day_column, put_dollars, put_number};
use std::alloc::AllocError;

impl ReportLine for OpenReturn {
    ghost line = { open_line };

    fn put(&self, out: &mut Vec<u8>) -> Result<(), AllocError> {
        put_day_or_none(self.due, out)?;
        put_number(u64::from(self.late), b',', out)?;
        put_student(self.student, out)?;
        put_year(self.year, out)?;
        put_number(u64::from(self.term), b',', out)?;
        put_program(self.program, out)?;
        put_dollars(self.returned, b',', out)?;
        put_dollars(self.sent, b',', out)?;
        put_dollars(self.returned.saturating_sub(self.sent), b',', out)?;
        put_number(u64::from(self.position), b',', out)?;
        put_number(self.number, b'\n', out)
    }
}

impl ReportLine for ReturnOfYear {
    ghost line = { return_line };

    fn put(&self, out: &mut Vec<u8>) -> Result<(), AllocError> {
        put_student(self.student, out)?;
        put_number(u64::from(self.term), b',', out)?;
        put_program(self.program, out)?;
        put_day_column(self.determined, b',', out)?;
        put_day_or_none(self.due, out)?;
        put_dollars(self.returned, b',', out)?;
        put_dollars(self.sent, b',', out)?;
        put_day_or_none(self.last_sent, out)?;
        put_dollars(self.sent_late, b',', out)?;
        put_dollars(self.returned.saturating_sub(self.sent), b',', out)?;
        put_dollars(self.owed, b',', out)?;
        put_dollars(self.repaid, b',', out)?;
        put_number(u64::from(self.position), b',', out)?;
        put_number(self.number, b'\n', out)
    }
}

// Appends a day, or that there is none, and a comma.
fn put_day_or_none(day: Option<Day>, out: &mut Vec<u8>) -> Result<(), AllocError>
    ensures { OnOk result (out.new.items ≡ out.old.items ++ due_text day ++ 44 ∷ []) }
{
    match day {
        Some(day) => put_day_column(day, b',', out),
        None => put_bytes(b"none", b',', out),
    }
}

// Appends a student's number, and a comma.
fn put_student(student: Student, out: &mut Vec<u8>) -> Result<(), AllocError>
    ensures { OnOk result (out.new.items ≡ out.old.items ++ decimal student ++ 44 ∷ []) }
{
    put_number(student.0, b',', out)
}

// Appends a year, and a comma.
fn put_year(year: Year, out: &mut Vec<u8>) -> Result<(), AllocError>
    ensures { OnOk result (out.new.items ≡ out.old.items ++ decimal year ++ 44 ∷ []) }
{
    put_number(u64::from(year.number()), b',', out)
}

// Appends the name of a program, and a comma.
fn put_program(program: Program, out: &mut Vec<u8>) -> Result<(), AllocError>
    ensures { OnOk result (out.new.items ≡ out.old.items ++ program_text program ++ 44 ∷ []) }
{
    put_bytes(program_name(program).as_bytes(), b',', out)
}
