//! The worksheet of a withdrawal, written.
ghost use Rattle.std.specs.Prelude.{◌≡◌, ◌≤◌, ◌++◌, OnOk, Some, codes, decimal};
ghost use Rattle.std.specs.List.{flat_map};
ghost use Rattle.office_reports.specs.Columns.{right};
ghost use Rattle.office_reports.specs.Lines.{due_text};
ghost use Rattle.office_reports.specs.Rows.{due_day};
ghost use Rattle.aid_types.specs.Ranges.{EachIsCents};
ghost use Rattle.aid_types.specs.Words.{program_text};
ghost use Rattle.law_terms.specs.Days.{day_text};
ghost use Rattle.law_terms.specs.Terms.{IsLawful};
ghost use Rattle.office_history.specs.Sheets.{CanBeWorkedOut};
ghost use Rattle.sheet_r2t4.specs.ReturnEntries.{entries_on, sent_entries};
ghost use Rattle.sheet_r2t4.specs.ReturnLines.{lines_text};
ghost use Rattle.sheet_r2t4.specs.ReturnSheet.{due_words, heading, places as places_of, return_text, title as title_of};

use crate::entries::{
    charges, days_of_term, disbursed, earned, returned, sent_back, sent_since, since,
};
use crate::lines::{put_blanks, put_digits, put_lines, put_right, put_text, total};
use crate::worked::{WorkedOut, worked_out};
use aid_filings::WithdrawFacts;
use aid_types::{Day, Key, Program, School, Student, Year, program_name};
use law_terms::{due, put_day};
use office_index::Office;
use office_plain::PlainHistory;
use std::alloc::AllocError;

/// Appends the worksheet of the withdrawal at a position, on the filings before it. An `Err` is want of memory.
pub(crate) fn put_return(
    past: &PlainHistory<'_>,
    office: &Office,
    position: u32,
    key: &Key,
    withdrawal: &WithdrawFacts,
    out: &mut Vec<u8>,
) -> Result<(), AllocError>
    requires { CanBeWorkedOut past.now key.now withdrawal.now }
    ensures { OnOk result (out.new.items ≡ out.old.items ++ return_text past.now office.now.history position key.now withdrawal.now) }
{
    let worked = worked_out(past, key, withdrawal);
    put_title(key, withdrawal, out)?;
    put_places(position, key, withdrawal, worked.lines.school, out)?;
    put_heading(out)?;
    put_figures(&worked, office, key, withdrawal, out)
}

// Appends whose sheet it is.
fn put_title(key: &Key, withdrawal: &WithdrawFacts, out: &mut Vec<u8>) -> Result<(), AllocError>
    ensures { OnOk result (out.new.items ≡ out.old.items ++ title_of key.now withdrawal.now) }
{
    put_text(b"Return of funds: student ", out)?;
    put_student(withdrawal.student, out)?;
    put_text(b", school ", out)?;
    put_school(key.school, out)?;
    put_text(b", award year ", out)?;
    put_year(withdrawal.year, out)?;
    put_text(b", term ", out)?;
    put_term(withdrawal.term, out)?;
    put_text(b"\n", out)
}

// Appends a student's number.
fn put_student(student: Student, out: &mut Vec<u8>) -> Result<(), AllocError>
    ensures { OnOk result (out.new.items ≡ out.old.items ++ decimal student) }
{
    put_digits(student.0, out)
}

// Appends a school's code.
fn put_school(school: School, out: &mut Vec<u8>) -> Result<(), AllocError>
    ensures { OnOk result (out.new.items ≡ out.old.items ++ decimal school) }
{
    put_digits(u64::from(school.0), out)
}

// Appends a year.
fn put_year(year: Year, out: &mut Vec<u8>) -> Result<(), AllocError>
    ensures { OnOk result (out.new.items ≡ out.old.items ++ decimal year) }
{
    put_digits(u64::from(year.0), out)
}

// Appends the number of a term.
fn put_term(term: u8, out: &mut Vec<u8>) -> Result<(), AllocError>
    ensures { OnOk result (out.new.items ≡ out.old.items ++ decimal term) }
{
    put_digits(u64::from(term), out)
}

// Appends on which filing it stands, and the days that count, where the school returns so much.
fn put_places(
    position: u32,
    key: &Key,
    withdrawal: &WithdrawFacts,
    school: u64,
    out: &mut Vec<u8>,
) -> Result<(), AllocError>
    ensures { OnOk result (out.new.items ≡ out.old.items ++ places_of position key.now withdrawal.now school) }
{
    put_text(b"withdrawal at ", out)?;
    put_position(position, out)?;
    put_text(b", number ", out)?;
    put_digits(key.number, out)?;
    put_text(b": last day ", out)?;
    put_day(withdrawal.last, out)?;
    put_text(b", determined ", out)?;
    put_day(withdrawal.determined, out)?;
    put_due(school, withdrawal.determined, out)?;
    put_text(b"\n", out)
}

// Appends a position.
fn put_position(position: u32, out: &mut Vec<u8>) -> Result<(), AllocError>
    ensures { OnOk result (out.new.items ≡ out.old.items ++ decimal position) }
{
    put_digits(u64::from(position), out)
}

// Appends the day on which a return is due, where there is something to return.
fn put_due(school: u64, determined: Day, out: &mut Vec<u8>) -> Result<(), AllocError>
    ensures { OnOk result (out.new.items ≡ out.old.items ++ due_words school determined) }
{
    if school == 0 {
        Ok(())
    } else {
        put_due_behind(determined, out)
    }
}

// Appends the day on which a return is due, behind what stands before it.
fn put_due_behind(determined: Day, out: &mut Vec<u8>) -> Result<(), AllocError>
    ensures { OnOk result (out.new.items ≡ out.old.items ++ codes ", return due " ++ due_text (due_day determined)) }
{
    put_text(b", return due ", out)?;
    put_due_day(determined, out)
}

// Appends the day on which a return is due, or none.
fn put_due_day(determined: Day, out: &mut Vec<u8>) -> Result<(), AllocError>
    ensures { OnOk result (out.new.items ≡ out.old.items ++ due_text (due_day determined)) }
{
    match due(determined) {
        Some(day) => put_day(day, out),
        None => put_text(b"none", out),
    }
}

// Appends the heads of the columns.
#[tactic(auto, unfolding(crate::specs::ReturnSheet::heading))]
fn put_heading(out: &mut Vec<u8>) -> Result<(), AllocError>
    ensures { OnOk result (out.new.items ≡ out.old.items ++ heading) }
{
    put_blanks(30, out)?;
    put_programs(&Program::ALL, out)?;
    put_right(11, b"all", out)?;
    put_text(b"\n", out)
}

// Appends the names of programs, each to the right of its column.
fn put_programs(programs: &[Program], out: &mut Vec<u8>) -> Result<(), AllocError>
    ensures { OnOk result (out.new.items ≡ out.old.items ++ flat_map (λ program. right 11 (program_text program)) programs.now) }
{
    for &program in programs {
        put_right(11, program_name(program).as_bytes(), out)?;
    }
    Ok(())
}

// Appends the lines.
fn put_figures(
    worked: &WorkedOut,
    office: &Office,
    key: &Key,
    withdrawal: &WithdrawFacts,
    out: &mut Vec<u8>,
) -> Result<(), AllocError>
    requires lawful { IsLawful worked.now.term }
    requires begun { worked.now.term.first ≤ withdrawal.now.last }
    requires inside { withdrawal.now.last ≤ worked.now.term.last }
    requires cents { EachIsCents worked.now.net }
    ensures { OnOk result (out.new.items ≡ out.old.items ++ lines_text (entries_on (Some worked.now.term) worked.now.net worked.now.lines office.now.history key.now withdrawal.now)) }
{
    let (net, could, lines) = (&worked.net, &withdrawal.could, &worked.lines);
    put_lines(&disbursed(net, could), out)?;
    put_lines(&days_of_term(&worked.term, withdrawal.last), out)?;
    put_lines(&earned(lines), out)?;
    put_lines(&charges(withdrawal.charges, lines.percent), out)?;
    put_lines(&returned(net, could, lines), out)?;
    put_lines(&since(office, key, withdrawal), out)?;
    put_sent(office, key, withdrawal, out)
}

// Appends what the school sent back, and what it has still to send, where it sent anything.
#[tactic(auto, unfolding(crate::specs::ReturnLines::lines_text))]
fn put_sent(
    office: &Office,
    key: &Key,
    withdrawal: &WithdrawFacts,
    out: &mut Vec<u8>,
) -> Result<(), AllocError>
    ensures { OnOk result (out.new.items ≡ out.old.items ++ lines_text (sent_entries office.now.history key.now withdrawal.now)) }
{
    let (gone, part) = sent_back(office, key, withdrawal);
    if total(gone.cents()) == 0 {
        return Ok(());
    }
    put_lines(&sent_since(&gone, &part), out)
}
