//! The texts of responses.
ghost use Rattle.std.specs.Prelude.{◌≡◌, ◌++◌, length, IfOk, OnOk};
ghost use Rattle.web_session.specs.Responses.{status_line, length_lines, closing_line, response_of, failure_of};

use crate::Status;
use itoa::Buffer;
use std::alloc::{AllocError, Global};
use std::marker::Model;

/// What is answered to a request: a status and a body.
#[derive(Drop)]
pub struct Answer {
    status: Status,
    text: Vec<u8>,
}

impl Model for Answer {
    ghost use Rattle.web_session.specs.Responses.{Answer as Said};

    ghost Value = { Said };

    ghost view = { λ a. record { status = a.status; text = a.text.items } };
}

impl Answer {
    /// An answer with this body.
    pub fn new(status: Status, text: Vec<u8>) -> Self
        ensures { result ≡ record { status = status; text = text.items } }
    {
        Answer { status, text }
    }

    /// The response that gives the answer. An `Err` is want of memory.
    pub fn response(&self, alloc: Global, closes: bool) -> Result<Vec<u8>, AllocError>
        ensures { IfOk result (λ out. out.items ≡ response_of closes self.now) }
    {
        let text = self.text.as_slice();
        let mut out = Vec::new(alloc);
        put_status(self.status, &mut out)?;
        put_length(text.len(), &mut out)?;
        put_closing(closes, &mut out)?;
        out.extend_from_slice(text)?;
        Ok(out)
    }
}

/// The answer of a status alone. An `Err` is want of memory.
pub fn failure(alloc: Global, status: Status) -> Result<Answer, AllocError>
    ensures { IfOk result (λ answer. answer ≡ failure_of status) }
{
    let mut text = Vec::new(alloc);
    text.extend_from_slice(b"{\"error\":")?;
    text.extend_from_slice(Buffer::new().format(status.code()).as_bytes())?;
    text.push(b'}')?;
    Ok(Answer { status, text })
}

// Appends the line of a status.
fn put_status(status: Status, out: &mut Vec<u8>) -> Result<(), AllocError>
    ensures { OnOk result (out.new.items ≡ out.old.items ++ status_line status) }
{
    out.extend_from_slice(b"HTTP/1.1 ")?;
    out.extend_from_slice(Buffer::new().format(status.code()).as_bytes())?;
    out.push(b' ')?;
    out.extend_from_slice(status.phrase().as_bytes())?;
    out.extend_from_slice(b"\r\n")
}

// Appends the lines of the body's length and kind.
fn put_length(length: usize, out: &mut Vec<u8>) -> Result<(), AllocError>
    ensures { OnOk result (out.new.items ≡ out.old.items ++ length_lines length) }
{
    out.extend_from_slice(b"Content-Length: ")?;
    out.extend_from_slice(Buffer::new().format(length).as_bytes())?;
    out.extend_from_slice(b"\r\nContent-Type: application/json\r\n")
}

// Appends the line that says that the response is the last, where it is, and the empty line.
fn put_closing(closes: bool, out: &mut Vec<u8>) -> Result<(), AllocError>
    ensures { OnOk result (out.new.items ≡ out.old.items ++ closing_line closes) }
{
    if closes {
        out.extend_from_slice(b"Connection: close\r\n\r\n")
    } else {
        out.extend_from_slice(b"\r\n")
    }
}
