//! The lines that answer asks.
ghost use Rattle.std.specs.Prelude.{◌≡◌, ◌+◌, ◌<◌, ◌≤◌, [], ◌∷◌, ◌++◌, IsOk, OnErr, OnOk, codes, decimal, length, vec_capacity, vec_len};
ghost use Rattle.arrayvec.specs.ArrayString.{array_string_len};
ghost use Rattle.aid_types.specs.Cents.{cents_text};
ghost use Rattle.aid_types.specs.Percents.{percent_text};
ghost use Rattle.aid_types.specs.Whole.{whole_text};
ghost use Rattle.format_filings.specs.Replies.{line_of, outcome_text, quote_line, standing_text};

use aid_filings::{Outcome, Response};
use aid_types::{Formula, Way, formula_name, way_name};
use arrayvec::ArrayString;
use format_rows::{push_cents, push_count, push_number, refused_line};
use itoa::Buffer;
use std::alloc::AllocError;

/// Appends the line that answers a row, counted from 1, by the verdict on its filing, where `front` filings stood before
/// it, and nothing at a verdict on no filing. Where the vector has room for 160 more bytes no memory is taken.
pub fn put_answer(
    row: u32,
    front: u32,
    response: &Response,
    out: &mut Vec<u8>,
) -> Result<(), AllocError>
    ensures ok { OnOk result (out.new.items ≡ out.old.items ++ line_of row front response.now) }
    ensures err { OnErr result (out.new.items ≡ out.old.items) }
    ensures room { vec_len out.old + 160 ≤ vec_capacity out.old → IsOk result }
{
    let line = answer_text(row, front, response);
    out.extend_from_slice(line.as_str().as_bytes())
}

/// Appends the line that answers the ask for a quote: the cents, which are whole dollars, in dollars. Where the vector has
/// room for 160 more bytes no memory is taken.
pub fn put_quote(cents: u64, out: &mut Vec<u8>) -> Result<(), AllocError>
    ensures ok { OnOk result (out.new.items ≡ out.old.items ++ quote_line cents) }
    ensures err { OnErr result (out.new.items ≡ out.old.items) }
    ensures room { vec_len out.old + 160 ≤ vec_capacity out.old → IsOk result }
{
    let mut line = ArrayString::<160>::new();
    line.push_str("quote ");
    push_number(&mut line, cents / 100);
    line.push_str("\n");
    out.extend_from_slice(line.as_str().as_bytes())
}

/// An outcome as a line has it.
pub fn outcome_line(outcome: &Outcome) -> ArrayString<160>
    ensures { result.bytes ≡ outcome_text outcome.now }
{
    let mut line = ArrayString::<160>::new();
    push_outcome(&mut line, outcome);
    line
}

// The line of a verdict.
fn answer_text(row: u32, front: u32, response: &Response) -> ArrayString<160>
    ensures { result.bytes ≡ line_of row front response.now }
{
    match response {
        Response::Admit(outcome) => {
            standing_line(row, front, " accepted ", u64::from(front) + 1, outcome)
        }
        Response::Again { position, outcome } => {
            standing_line(row, front, " again ", u64::from(*position), outcome)
        }
        Response::Refused(refusal) => refused_line(row, front, refusal),
        Response::Quoted(_) | Response::Standing(_) => ArrayString::new(),
    }
}

// The line of a filing that stands at a position.
fn standing_line(
    row: u32,
    front: u32,
    answer: &str,
    position: u64,
    outcome: &Outcome,
) -> ArrayString<160>
    requires { length answer.now ≤ 10 }
    ensures { result.bytes ≡ standing_text row front answer.now position outcome.now }
{
    let mut line = ArrayString::<160>::new();
    push_count(&mut line, row);
    line.push_str(" ");
    push_count(&mut line, front);
    line.push_str(answer);
    push_number(&mut line, position);
    line.push_str(" ");
    push_outcome(&mut line, outcome);
    line.push_str("\n");
    line
}

// Appends an outcome.
fn push_outcome(line: &mut ArrayString<160>, outcome: &Outcome)
    requires room { array_string_len line.old + 100 ≤ 160 }
    ensures bytes { line.new.bytes ≡ line.old.bytes ++ outcome_text outcome.now }
    ensures len { array_string_len line.new ≤ array_string_len line.old + 100 }
{
    match outcome {
        Outcome::Noted => line.push_str("noted"),
        Outcome::Indexed {
            formula,
            sai,
            way,
            scheduled,
        } => push_index(line, *formula, *sai, *way, *scheduled),
        Outcome::Paid { paid, used } => push_paid(line, *paid, *used),
        Outcome::Returned {
            percent,
            school,
            owed,
            post,
        } => push_returned(line, *percent, *school, *owed, *post),
    }
}

// Appends the outcome of an application.
fn push_index(line: &mut ArrayString<160>, formula: Formula, sai: i32, way: Way, scheduled: u32)
    requires room { array_string_len line.old + 100 ≤ 160 }
    ensures bytes { line.new.bytes
        ≡ line.old.bytes ++ outcome_text (Outcome.Indexed formula sai way scheduled) }
    ensures len { array_string_len line.new ≤ array_string_len line.old + 100 }
{
    line.push_str("index ");
    line.push_str(formula_name(formula));
    line.push_str(" ");
    push_whole(line, sai);
    line.push_str(" ");
    line.push_str(way_name(way));
    line.push_str(" ");
    push_count(line, scheduled);
}

// Appends the outcome of a payment.
fn push_paid(line: &mut ArrayString<160>, paid: u64, used: u32)
    requires room { array_string_len line.old + 100 ≤ 160 }
    ensures bytes { line.new.bytes ≡ line.old.bytes ++ outcome_text (Outcome.Paid paid used) }
    ensures len { array_string_len line.new ≤ array_string_len line.old + 100 }
{
    line.push_str("paid ");
    push_cents(line, paid);
    line.push_str(" ");
    push_count(line, used);
}

// Appends the outcome of a withdrawal.
fn push_returned(line: &mut ArrayString<160>, percent: u16, school: u64, owed: u64, post: u64)
    requires room { array_string_len line.old + 100 ≤ 160 }
    ensures bytes { line.new.bytes
        ≡ line.old.bytes ++ outcome_text (Outcome.Returned percent school owed post) }
    ensures len { array_string_len line.new ≤ array_string_len line.old + 100 }
{
    line.push_str("returned ");
    push_percent(line, percent);
    line.push_str(" ");
    push_cents(line, school);
    line.push_str(" ");
    push_cents(line, owed);
    line.push_str(" ");
    push_cents(line, post);
}

// Appends a percent, given in tenths.
fn push_percent(line: &mut ArrayString<160>, tenths: u16)
    requires room { array_string_len line.old + 12 ≤ 160 }
    ensures bytes { line.new.bytes ≡ line.old.bytes ++ percent_text tenths }
    ensures len { array_string_len line.new ≤ array_string_len line.old + 12 }
{
    push_count(line, u32::from(tenths / 10));
    line.push_str(".");
    push_digit(line, (tenths % 10) as u8);
}

// Appends a digit.
fn push_digit(line: &mut ArrayString<160>, digit: u8)
    requires digit { digit < 10 }
    requires room { array_string_len line.old + 1 ≤ 160 }
    ensures bytes { line.new.bytes ≡ line.old.bytes ++ (48 + digit) ∷ [] }
    ensures len { array_string_len line.new ≡ array_string_len line.old + 1 }
{
    line.push(char::from(b'0' + digit));
}

// Appends a number that may be negative.
fn push_whole(line: &mut ArrayString<160>, number: i32)
    requires room { array_string_len line.old + 11 ≤ 160 }
    ensures bytes { line.new.bytes ≡ line.old.bytes ++ whole_text number }
    ensures len { array_string_len line.new ≤ array_string_len line.old + 11 }
{
    let mut digits = Buffer::new();
    line.push_str(digits.format(number));
}
