//! The lines of a student's ledger.
ghost use Rattle.std.specs.Prelude.{◌≡◌, ◌∷◌, ◌++◌, [], OnOk, decimal};
ghost use Rattle.office_export.specs.Lines.{line_of};
ghost use Rattle.office_reports.specs.Columns.{left, right};
ghost use Rattle.office_sheets.specs.Lists.{clerk_text};
ghost use Rattle.office_sheets.specs.LedgerLines.{columns_of, ledger_line, moved_text, number_text};
ghost use Rattle.office_sheets.specs.declared.ledger_rows.Told.TheVariants.{Money, Sending};

use crate::ledger_rows::{LedgerRow, Moved, Movement, SentBack, Told, word};
use crate::pieces;
use crate::pieces::{clerk_or_hyphen, put_day_column, put_dollars, put_outcome};
use aid_stamps::ClerkName;
use aid_types::{Year, program_name};
use arrayvec::ArrayString;
use format_rows::push_cents;
use itoa::Buffer;
use office_reports::{
    ReportLine, put_amount, put_left, put_number, put_right, put_school, put_text,
};
use std::alloc::AllocError;

impl ReportLine for LedgerRow {
    ghost line = { ledger_line };

    fn put(&self, out: &mut Vec<u8>) -> Result<(), AllocError> {
        put_number(8, u64::from(self.position), b' ', out)?;
        put_day_column(self.stamp.day, b' ', out)?;
        put_clerk(&self.stamp.clerk, out)?;
        put_school(self.key.school, out)?;
        put_number(12, self.key.number, b' ', out)?;
        put_year(self.year, out)?;
        put_term(self.term, out)?;
        put_left(9, word(&self.told).as_bytes(), b' ', out)?;
        put_told(&self.told, out)
    }
}

// Appends a clerk's name to the left of its column, or a hyphen, and a space.
fn put_clerk(clerk: &ClerkName, out: &mut Vec<u8>) -> Result<(), AllocError>
    ensures { OnOk result (out.new.items ≡ out.old.items ++ left 8 (clerk_text clerk.now) ++ 32 ∷ []) }
{
    put_left(8, clerk_or_hyphen(clerk.as_bytes()), b' ', out)
}

// Appends a number or a hyphen, and a space.
fn put_number_text(number: Option<u16>, out: &mut Vec<u8>) -> Result<(), AllocError>
    ensures { OnOk result (out.new.items ≡ out.old.items ++ number_text number ++ 32 ∷ []) }
{
    match number {
        Some(number) => put_text(Buffer::new().format(number).as_bytes(), out),
        None => put_text(b"-", out),
    }
}

// Appends a year or a hyphen, and a space.
fn put_year(year: Option<Year>, out: &mut Vec<u8>) -> Result<(), AllocError>
    ensures { OnOk result (out.new.items ≡ out.old.items ++ number_text year ++ 32 ∷ []) }
{
    match year {
        Some(year) => put_number_text(Some(year.number()), out),
        None => put_number_text(None, out),
    }
}

// Appends a term or a hyphen, and a space.
fn put_term(term: Option<u8>, out: &mut Vec<u8>) -> Result<(), AllocError>
    ensures { OnOk result (out.new.items ≡ out.old.items ++ number_text term ++ 32 ∷ []) }
{
    match term {
        Some(term) => put_number_text(Some(u16::from(term)), out),
        None => put_number_text(None, out),
    }
}

// Appends the columns behind the word, and a line feed.
fn put_told(told: &Told, out: &mut Vec<u8>) -> Result<(), AllocError>
    ensures { OnOk result (out.new.items ≡ out.old.items ++ line_of (columns_of told.now)) }
{
    match told {
        Told::Prior(units) => put_counted(u64::from(*units), b"units\n", out),
        Told::Application(outcome) => put_outcome(outcome, out),
        Told::Enrollment(credits) => put_counted(u64::from(*credits), b"credits\n", out),
        Told::Cost(dollars) => put_counted(u64::from(*dollars), b"dollars\n", out),
        Told::ChangedCost(dollars) => put_counted(u64::from(*dollars), b"dollars\n", out),
        Told::Withdrawal(outcome) => put_outcome(outcome, out),
        Told::Sending(sent) => put_sending(sent, out),
        Told::Money { moved, net, used } => put_money(moved, *net, *used, out),
    }
}

// Appends a number, a space and what it counts.
fn put_counted(number: u64, counted: &[u8], out: &mut Vec<u8>) -> Result<(), AllocError>
    ensures { OnOk result (out.new.items ≡ out.old.items ++ decimal number ++ 32 ∷ counted.now) }
{
    let mut digits = Buffer::new();
    put_text(digits.format(number).as_bytes(), out)?;
    out.extend_from_slice(counted)
}

// Appends what was sent back of a program, the day and the reference, and a line feed.
fn put_sending(sent: &SentBack, out: &mut Vec<u8>) -> Result<(), AllocError>
    ensures { OnOk result (out.new.items ≡ out.old.items ++ line_of (columns_of (Sending sent.now))) }
{
    put_left(5, program_name(sent.program).as_bytes(), b' ', out)?;
    put_dollars(sent.cents, b' ', out)?;
    put_day_column(sent.day, b' ', out)?;
    pieces::put_number(sent.reference, b'\n', out)
}

// Appends money that moved with the net and the units behind it, and a line feed.
fn put_money(moved: &Moved, net: u64, used: u32, out: &mut Vec<u8>) -> Result<(), AllocError>
    ensures { OnOk result (out.new.items ≡ out.old.items ++ line_of (columns_of (Money moved.now net used))) }
{
    put_left(5, program_name(moved.program).as_bytes(), b' ', out)?;
    put_moved(moved, out)?;
    put_amount(net, b' ', out)?;
    put_number(7, u64::from(used), b'\n', out)
}

// Appends cents to the right of a column of twelve, with a minus where they are taken back, and a space.
fn put_moved(moved: &Moved, out: &mut Vec<u8>) -> Result<(), AllocError>
    ensures { OnOk result (out.new.items ≡ out.old.items ++ right 12 (moved_text moved.now.movement moved.now.cents) ++ 32 ∷ []) }
{
    let text = moved_line(moved.movement, moved.cents);
    put_right(12, text.as_str().as_bytes(), b' ', out)
}

/// Cents, with a minus where they are taken back.
pub(crate) fn moved_line(movement: Movement, cents: u64) -> ArrayString<160>
    ensures { result.bytes ≡ moved_text movement cents }
{
    let mut line = ArrayString::<160>::new();
    match movement {
        Movement::Payment => {}
        Movement::Return | Movement::Repayment | Movement::Adjustment => line.push_str("-"),
    }
    push_cents(&mut line, cents);
    line
}
