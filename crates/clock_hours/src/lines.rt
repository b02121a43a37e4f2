//! The lines that answer rows about clock-hour programs.
ghost use Rattle.std.specs.Prelude.{◌≡◌, ◌+◌, ◌≤◌, ◌<◌, [], ◌∷◌, ◌++◌, IfOk, OnOk, length};
ghost use Rattle.arrayvec.specs.ArrayString.{array_string_len};
ghost use Rattle.aid_types.specs.Percents.{percent_text};
ghost use Rattle.clock_hours.specs.Lines.{answer_line as line_of_answer, clock_line, clock_text};

use crate::answer::ClockAnswer;
use crate::row::ClockForm;
use arrayvec::ArrayString;
use format_rows::{RowError, TextRows, push_cents, push_count, put_error};
use std::alloc::{AllocError, Global};

/// The whole answer to a text of rows: a line for each.
pub fn clock_lines(alloc: Global, text: Vec<u8>) -> Result<Vec<u8>, AllocError>
    requires { length text.items ≤ 16777216 }
    ensures { IfOk result (λ out. out.items ≡ clock_text text.items) }
{
    let mut rows = TextRows::<ClockForm>::new(alloc, text);
    let mut out = Vec::new(alloc);
    for number in 1..=rows.at_most() {
        match rows.next()? {
            Some(row) => put_line(number, &row, &mut out)?,
            None => break,
        }
    }
    Ok(out)
}

// Appends the line of a row.
fn put_line(
    number: u32,
    row: &Result<ClockAnswer, RowError>,
    out: &mut Vec<u8>,
) -> Result<(), AllocError>
    ensures { OnOk result (out.new.items ≡ out.old.items ++ clock_line number row.now) }
{
    match row {
        Ok(answer) => out.extend_from_slice(answer_line(number, answer).as_str().as_bytes()),
        Err(error) => put_error(error, out),
    }
}

// The line of a row that has an answer.
fn answer_line(number: u32, answer: &ClockAnswer) -> ArrayString<160>
    ensures { result.bytes ≡ line_of_answer number answer.now }
{
    let mut line = ArrayString::<160>::new();
    push_count(&mut line, number);
    match answer {
        ClockAnswer::Pay(dollars) => {
            line.push_str(" pay ");
            push_count(&mut line, *dollars);
        }
        ClockAnswer::Returned {
            percent,
            returned,
            owed,
            post,
        } => {
            line.push_str(" returned ");
            push_percent(&mut line, *percent);
            line.push_str(" ");
            push_cents(&mut line, *returned);
            line.push_str(" ");
            push_cents(&mut line, *owed);
            line.push_str(" ");
            push_cents(&mut line, *post);
        }
    }
    line.push_str("\n");
    line
}

// Appends a percent, given in tenths.
fn push_percent(line: &mut ArrayString<160>, tenths: u16)
    requires room { array_string_len line.old + 21 ≤ 160 }
    ensures bytes { line.new.bytes ≡ line.old.bytes ++ percent_text tenths }
    ensures len { array_string_len line.new ≤ array_string_len line.old + 21 }
{
    push_count(line, u32::from(tenths / 10));
    line.push_str(".");
    push_count(line, u32::from(tenths % 10));
}
