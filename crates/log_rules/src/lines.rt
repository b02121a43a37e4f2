//! The lines that answer rows.
ghost use Rattle.std.specs.Prelude.{◌≡◌, ◌+◌, ◌≤◌, ◌++◌, IsOk, OnErr, OnOk, length, vec_capacity, vec_len};
ghost use Rattle.log_rules.specs.Lines.{line_of, standing_text};

use crate::{OutcomeText, RuleResponse};
use arrayvec::ArrayString;
use format_rows::{push_count, push_number, refused_line};
use std::alloc::AllocError;

/// Appends the line that answers a row, counted from 1, by the verdict on its filing, where `front` filings stood before it. Where the
/// vector has room for 160 more bytes no memory is taken.
pub fn put_answer<R: OutcomeText>(
    row: u32,
    front: u32,
    response: &RuleResponse<R::Outcome>,
    out: &mut Vec<u8>,
) -> Result<(), AllocError>
    ensures ok { OnOk result (out.new.items ≡ out.old.items ++ line_of R.outcome_text row front response.now) }
    ensures err { OnErr result (out.new.items ≡ out.old.items) }
    ensures room { vec_len out.old + 160 ≤ vec_capacity out.old → IsOk result }
{
    let line = answer_text::<R>(row, front, response);
    out.extend_from_slice(line.as_str().as_bytes())
}

// The line of a verdict.
fn answer_text<R: OutcomeText>(
    row: u32,
    front: u32,
    response: &RuleResponse<R::Outcome>,
) -> ArrayString<160>
    ensures { result.bytes ≡ line_of R.outcome_text row front response.now }
{
    match response {
        RuleResponse::Admit(outcome) => {
            standing_line::<R>(row, front, " accepted ", u64::from(front) + 1, outcome)
        }
        RuleResponse::Again { position, outcome } => {
            standing_line::<R>(row, front, " again ", u64::from(*position), outcome)
        }
        RuleResponse::Refused(refusal) => refused_line(row, front, refusal),
    }
}

// The line of a filing that stands at a position.
fn standing_line<R: OutcomeText>(
    row: u32,
    front: u32,
    answer: &str,
    position: u64,
    outcome: &R::Outcome,
) -> ArrayString<160>
    requires { length answer.now ≤ 10 }
    ensures { result.bytes ≡ standing_text row front answer.now position (R.outcome_text outcome.now) }
{
    let mut line = ArrayString::<160>::new();
    push_count(&mut line, row);
    line.push_str(" ");
    push_count(&mut line, front);
    line.push_str(answer);
    push_number(&mut line, position);
    line.push_str(" ");
    R::push_outcome(outcome, &mut line);
    line.push_str("\n");
    line
}
