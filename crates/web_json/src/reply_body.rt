//! The bodies of replies.
ghost use Rattle.std.specs.Prelude.{◌≡◌, ◌++◌, IfOk, OnOk, codes, decimal};
ghost use Rattle.aid_types.specs.Whole.{whole_text};
ghost use Rattle.aid_types.specs.Words.{way_text};
ghost use Rattle.web_json.specs.Forms.{text_for};
ghost use Rattle.web_json.specs.Replies.{answer_body as answer_text, fault_body as fault_text, filed_body as filed_text, quoted_body as quoted_text, refused_body as refused_text, standing_body as standing_text, undecided_text};

use aid_filings::{Outcome, Response, StandingRow};
use aid_types::{Refusal, formula_name, way_name};
use format_filings::outcome_line;
use itoa::Buffer;
use log_machine::LogReply;
use std::alloc::{AllocError, Global};

/// The body that gives the reply of a turn. An `Err` is want of memory.
pub fn text_of(alloc: Global, reply: &LogReply<Response>) -> Result<Vec<u8>, AllocError>
    ensures { IfOk result (λ text. text.items ≡ text_for reply.now) }
{
    match reply {
        LogReply::Answered { response, front } => answer_body(alloc, response, *front),
        LogReply::DiskFault { undecided } => fault_body(alloc, *undecided),
        LogReply::NoMemory => no_memory_body(alloc),
    }
}

// The body of an answer, where so many filings stood before it.
fn answer_body(alloc: Global, response: &Response, front: u32) -> Result<Vec<u8>, AllocError>
    ensures { IfOk result (λ body. body.items ≡ answer_text response.now front) }
{
    match response {
        Response::Admit(outcome) => {
            filed_body(alloc, "accepted", u64::from(front) + 1, front, outcome)
        }
        Response::Again { position, outcome } => {
            filed_body(alloc, "again", u64::from(*position), front, outcome)
        }
        Response::Refused(refusal) => refused_body(alloc, refusal, front),
        Response::Quoted(cents) => quoted_body(alloc, *cents, front),
        Response::Standing(row) => standing_body(alloc, row, front),
    }
}

fn no_memory_body(alloc: Global) -> Result<Vec<u8>, AllocError>
    ensures { IfOk result (λ body. body.items ≡ codes "{\"answer\":\"no memory\"}") }
{
    let mut body = Vec::new(alloc);
    put_text("{\"answer\":\"no memory\"}", &mut body)?;
    Ok(body)
}

// The body of a filing that stands at a position.
fn filed_body(
    alloc: Global,
    answer: &str,
    position: u64,
    front: u32,
    outcome: &Outcome,
) -> Result<Vec<u8>, AllocError>
    ensures { IfOk result (λ body. body.items ≡ filed_text answer.now position front outcome.now) }
{
    let mut body = Vec::new(alloc);
    put_text("{\"answer\":\"", &mut body)?;
    put_text(answer, &mut body)?;
    put_number("\",\"front\":", u64::from(front), &mut body)?;
    put_text(",\"outcome\":\"", &mut body)?;
    put_text(outcome_line(outcome).as_str(), &mut body)?;
    put_number("\",\"position\":", position, &mut body)?;
    put_text("}", &mut body)?;
    Ok(body)
}

// The body of a refusal.
fn refused_body(alloc: Global, refusal: &Refusal, front: u32) -> Result<Vec<u8>, AllocError>
    ensures { IfOk result (λ body. body.items ≡ refused_text refusal.now front) }
{
    let mut body = Vec::new(alloc);
    put_number(
        "{\"answer\":\"refused\",\"bound\":",
        refusal.bound,
        &mut body,
    )?;
    put_number(",\"front\":", u64::from(front), &mut body)?;
    put_number(",\"kept\":", refusal.kept, &mut body)?;
    put_number(",\"rule\":", u64::from(refusal.rule), &mut body)?;
    put_text("}", &mut body)?;
    Ok(body)
}

// The body of a quote.
fn quoted_body(alloc: Global, cents: u64, front: u32) -> Result<Vec<u8>, AllocError>
    ensures { IfOk result (λ body. body.items ≡ quoted_text cents front) }
{
    let mut body = Vec::new(alloc);
    put_number("{\"answer\":\"quoted\",\"cents\":", cents, &mut body)?;
    put_number(",\"front\":", u64::from(front), &mut body)?;
    put_text("}", &mut body)?;
    Ok(body)
}

// The body of where a student stands.
fn standing_body(alloc: Global, row: &StandingRow, front: u32) -> Result<Vec<u8>, AllocError>
    ensures { IfOk result (λ body. body.items ≡ standing_text row.now front) }
{
    let mut body = Vec::new(alloc);
    put_text("{\"answer\":\"standing\",\"formula\":\"", &mut body)?;
    put_text(formula_name(row.formula), &mut body)?;
    put_number("\",\"front\":", u64::from(front), &mut body)?;
    put_award(row, &mut body)?;
    put_use(row, &mut body)?;
    put_text("\"}", &mut body)?;
    Ok(body)
}

// Appends the award of a standing.
fn put_award(row: &StandingRow, out: &mut Vec<u8>) -> Result<(), AllocError>
    ensures { OnOk result (out.new.items
        ≡ out.old.items ++ codes ",\"paid\":" ++ decimal row.now.paid ++ codes ",\"sai\":" ++ whole_text row.now.sai
        ++ codes ",\"scheduled\":" ++ decimal row.now.scheduled) }
{
    put_number(",\"paid\":", row.paid, out)?;
    put_whole(",\"sai\":", row.sai, out)?;
    put_number(",\"scheduled\":", u64::from(row.scheduled), out)
}

// Appends the application of a standing, the lifetime units and the way to the award.
fn put_use(row: &StandingRow, out: &mut Vec<u8>) -> Result<(), AllocError>
    ensures { OnOk result (out.new.items
        ≡ out.old.items ++ codes ",\"transaction\":" ++ decimal row.now.transaction ++ codes ",\"used\":" ++ decimal row.now.used
        ++ codes ",\"way\":\"" ++ way_text row.now.way) }
{
    put_number(",\"transaction\":", u64::from(row.transaction), out)?;
    put_number(",\"used\":", u64::from(row.used), out)?;
    put_text(",\"way\":\"", out)?;
    put_text(way_name(row.way), out)
}

// The body of a disk that failed.
fn fault_body(alloc: Global, undecided: Option<u32>) -> Result<Vec<u8>, AllocError>
    ensures { IfOk result (λ body. body.items ≡ fault_text undecided) }
{
    let mut body = Vec::new(alloc);
    put_undecided(
        "{\"answer\":\"disk fault\",\"undecided\":",
        undecided,
        &mut body,
    )?;
    put_text("}", &mut body)?;
    Ok(body)
}

// Appends a text, and the position that is undecided behind it.
fn put_undecided(before: &str, undecided: Option<u32>, out: &mut Vec<u8>) -> Result<(), AllocError>
    ensures { OnOk result (out.new.items ≡ out.old.items ++ before.now ++ undecided_text undecided) }
{
    put_text(before, out)?;
    match undecided {
        Some(position) => put_text(Buffer::new().format(position), out),
        None => put_text("null", out),
    }
}

// Appends a text, and a number behind it.
fn put_number(before: &str, number: u64, out: &mut Vec<u8>) -> Result<(), AllocError>
    ensures { OnOk result (out.new.items ≡ out.old.items ++ before.now ++ decimal number) }
{
    put_text(before, out)?;
    put_text(Buffer::new().format(number), out)
}

// Appends a text, and a number behind it that may be negative.
fn put_whole(before: &str, number: i32, out: &mut Vec<u8>) -> Result<(), AllocError>
    ensures { OnOk result (out.new.items ≡ out.old.items ++ before.now ++ whole_text number) }
{
    put_text(before, out)?;
    put_text(Buffer::new().format(number), out)
}

// Appends a text.
fn put_text(text: &str, out: &mut Vec<u8>) -> Result<(), AllocError>
    ensures { OnOk result (out.new.items ≡ out.old.items ++ text.now) }
{
    out.extend_from_slice(text.as_bytes())
}
