//! The lines of the payments of a term.
ghost use Rattle.std.specs.Prelude.{◌≡◌, ◌∷◌, ◌++◌, [], OnOk, decimal};
ghost use Rattle.aid_types.specs.Words.{program_text};
ghost use Rattle.office_sheets.specs.LedgerLines.{moved_text, movement_text};
ghost use Rattle.office_sheets.specs.Lists.{clerk_text};
ghost use Rattle.office_sheets.specs.PaymentLines.{payment_line};

use crate::ledger_lines::moved_line;
use crate::ledger_rows::{Moved, Movement, movement_word};
use crate::payment_rows::PaymentRow;
use crate::pieces::{clerk_or_hyphen, put_bytes, put_day_column, put_dollars, put_number};
use aid_stamps::ClerkName;
use aid_types::{Program, School, Student, Year, program_name};
use office_reports::ReportLine;
use std::alloc::AllocError;

impl ReportLine for PaymentRow {
    ghost line = { payment_line };

    fn put(&self, out: &mut Vec<u8>) -> Result<(), AllocError> {
        put_number(u64::from(self.position), b',', out)?;
        put_school(self.key.school, out)?;
        put_number(self.key.number, b',', out)?;
        put_kind(self.moved.movement, out)?;
        put_student(self.student, out)?;
        put_year(self.year, out)?;
        put_number(u64::from(self.term), b',', out)?;
        put_program(self.moved.program, out)?;
        put_moved(&self.moved, out)?;
        put_dollars(self.total, b',', out)?;
        put_day_column(self.stamp.day, b',', out)?;
        put_clerk(&self.stamp.clerk, out)
    }
}

// Appends a school's code, and a comma.
fn put_school(school: School, out: &mut Vec<u8>) -> Result<(), AllocError>
    ensures { OnOk result (out.new.items ≡ out.old.items ++ decimal school ++ 44 ∷ []) }
{
    put_number(u64::from(school.0), b',', out)
}

// Appends a student's number, and a comma.
fn put_student(student: Student, out: &mut Vec<u8>) -> Result<(), AllocError>
    ensures { OnOk result (out.new.items ≡ out.old.items ++ decimal student ++ 44 ∷ []) }
{
    put_number(student.0, b',', out)
}

// Appends a year, and a comma.
fn put_year(year: Year, out: &mut Vec<u8>) -> Result<(), AllocError>
    ensures { OnOk result (out.new.items ≡ out.old.items ++ decimal year ++ 44 ∷ []) }
{
    put_number(u64::from(year.0), b',', out)
}

// Appends how money moved, and a comma.
fn put_kind(movement: Movement, out: &mut Vec<u8>) -> Result<(), AllocError>
    ensures { OnOk result (out.new.items ≡ out.old.items ++ movement_text movement ++ 44 ∷ []) }
{
    put_bytes(movement_word(movement).as_bytes(), b',', out)
}

// Appends a program, and a comma.
fn put_program(program: Program, out: &mut Vec<u8>) -> Result<(), AllocError>
    ensures { OnOk result (out.new.items ≡ out.old.items ++ program_text program ++ 44 ∷ []) }
{
    put_bytes(program_name(program).as_bytes(), b',', out)
}

// Appends cents, with a minus where they are taken back, and a comma.
fn put_moved(moved: &Moved, out: &mut Vec<u8>) -> Result<(), AllocError>
    ensures { OnOk result (out.new.items ≡ out.old.items ++ moved_text moved.now.movement moved.now.cents ++ 44 ∷ []) }
{
    let text = moved_line(moved.movement, moved.cents);
    put_bytes(text.as_str().as_bytes(), b',', out)
}

// Appends a clerk's name, or a hyphen where there is none, and a line feed.
fn put_clerk(clerk: &ClerkName, out: &mut Vec<u8>) -> Result<(), AllocError>
    ensures { OnOk result (out.new.items ≡ out.old.items ++ clerk_text clerk.now ++ 10 ∷ []) }
{
    put_bytes(clerk_or_hyphen(clerk.as_bytes()), b'\n', out)
}
