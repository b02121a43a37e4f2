//! What the head block of a request says.
ghost use Rattle.std.specs.Prelude.{◌≡◌, ◌≤◌, ℕ, List, length, map, min, All, IfSome, IfNone, IfOk, IsTrue, codes, option_map};
ghost use Rattle.std.specs.List.{list_all, list_any};
ghost use Rattle.std.specs.Char.{is_ascii_digit};
ghost use Rattle.std.specs.Str.Parse.{digits_value};
ghost use Rattle.httparse.specs.Spans.{IsRequestWithin, IsHeaderWithin, IsWithin, header_bytes, span_bytes};
ghost use Rattle.httparse.specs.Grammar.{RequestHead};
ghost use Rattle.web_session.specs.Calls.{the_routes};
ghost use Rattle.web_session.specs.Heads.{IsHead, IsHeadAt, HasNoHead, head_lines, is_named, values, is_closing, number_said, capped, IsSaidNext, length_said, asks_more, body_length, said_of, Judges};

use crate::Status;
use crate::call::{ApiCall, Route, call_of, is_same};
use httparse::Status as Parse;
use httparse::spans::{EMPTY_HEADER_SPAN, HeaderSpan, RequestSpans, Span, parse_request};
use matchit::Router;

/// What the head of a request says: what it calls for, or the status of the first check that it doesn't pass, how many
/// bytes its body has, and whether the response to it is the connection's last.
#[derive(Clone, Copy, PartialEq, Eq)]
pub struct Head {
    pub call: Result<ApiCall, Status>,
    pub length: usize,
    pub closes: bool,
}

const MOST_LINES: usize = 66;

const MOST_FIELDS: usize = 64;

/// A body has at most so many bytes.
pub const BODY_LIMIT: u64 = 65_536;

// The lines of a head block, counted from its first byte that is neither CR nor LF.
fn count_lines(block: &[u8]) -> usize
    ensures { result ≡ head_lines block.now }
{
    let mut rest = block;
    while let [b'\r' | b'\n', after @ ..] = rest {
        rest = after;
    }
    rest.iter().filter(|b| **b == b'\n').count()
}

// The parts of the head that the whole block is, where it has no more fields than there is room for.
fn head_of(block: &[u8], headers: &mut [HeaderSpan]) -> Option<RequestSpans>
    ensures within { IfSome result (IsRequestWithin block.now headers.new) }
    ensures head { IfSome result (IsHeadAt block.now headers.new) }
    ensures none { IfNone result (HasNoHead (length headers.old) block.now) }
{
    match parse_request(block, headers) {
        Ok(Parse::Complete(head)) if head.len == block.len() => Some(head),
        _ => None,
    }
}

// The parts of the head that the whole block is, for a block of at most 66 lines: `None` exactly where it is no head.
fn whole_head(block: &[u8], headers: &mut [HeaderSpan; MOST_FIELDS]) -> Option<RequestSpans>
    requires { head_lines block.now ≤ 66 }
    ensures within { IfSome result (IsRequestWithin block.now headers.new) }
    ensures head { IfSome result (IsHeadAt block.now headers.new) }
    ensures none { IfNone result ((h : RequestHead) → ¬ (IsHead block.now h)) }
{
    head_of(block, headers)
}

// Whether a field has that name.
fn has_name(block: &[u8], field: HeaderSpan, name: &[u8]) -> bool
    requires { IsHeaderWithin (length block.now) field }
    ensures { result ≡ is_named name.now (header_bytes block.now field) }
{
    field.name.of(block).eq_ignore_ascii_case(name)
}

// Whether one of the fields has that name.
fn has_field(block: &[u8], fields: &[HeaderSpan], name: &[u8]) -> bool
    requires { All (IsHeaderWithin (length block.now)) fields.now }
    ensures { result ≡ list_any (is_named name.now) (map (header_bytes block.now) fields.now) }
{
    let mut rest = fields;
    while let [field, after @ ..] = rest {
        if has_name(block, *field, name) {
            return true;
        }
        rest = after;
    }
    false
}

// Whether the head asks for what isn't done here.
fn asks_more(block: &[u8], fields: &[HeaderSpan]) -> bool
    requires { All (IsHeaderWithin (length block.now)) fields.now }
    ensures { result ≡ asks_more (map (header_bytes block.now) fields.now) }
{
    has_field(block, fields, b"transfer-encoding")
        || has_field(block, fields, b"content-encoding")
        || has_field(block, fields, b"expect")
}

// Whether a field says that the response is the connection's last.
fn is_closing(block: &[u8], field: HeaderSpan) -> bool
    requires { IsHeaderWithin (length block.now) field }
    ensures { result ≡ is_closing (header_bytes block.now field) }
{
    has_name(block, field, b"connection") && field.value.of(block).eq_ignore_ascii_case(b"close")
}

// Whether one of the fields says so.
fn says_close(block: &[u8], fields: &[HeaderSpan]) -> bool
    requires { All (IsHeaderWithin (length block.now)) fields.now }
    ensures { result ≡ list_any is_closing (map (header_bytes block.now) fields.now) }
{
    let mut rest = fields;
    while let [field, after @ ..] = rest {
        if is_closing(block, *field) {
            return true;
        }
        rest = after;
    }
    false
}

fn are_digits(text: &[u8]) -> bool
    ensures { result ≡ list_all is_ascii_digit text.now }
{
    text.iter().all(|c| c.is_ascii_digit())
}

fn value(digits: &[u8]) -> u64
    requires { IsTrue (list_all is_ascii_digit digits.now) }
    ensures { result ≡ min (digits_value 10 digits.now) u64.MAX }
{
    let mut value: u64 = 0;
    for digit in digits {
        value = value
            .saturating_mul(10)
            .saturating_add(u64::from(*digit - b'0'));
    }
    value
}

// The number that digits spell, or the greatest `u64` where it is greater.
fn number_of(text: &[u8]) -> Option<u64>
    ensures { result ≡ option_map (λ n. min n u64.MAX) (number_said text.now) }
{
    if !text.is_empty() && are_digits(text) {
        Some(value(text))
    } else {
        None
    }
}

// How long the body is said to be by the fields up to this one.
fn next_said(block: &[u8], field: HeaderSpan, said: Option<u64>) -> Result<Option<u64>, Status>
    requires { IsHeaderWithin (length block.now) field }
    ensures { (rest : List (List ℕ × List ℕ)) → IsSaidNext u64.MAX said (header_bytes block.now field) rest result }
{
    if !has_name(block, field, b"content-length") {
        return Ok(said);
    }
    match number_of(field.value.of(block)) {
        Some(number) if said.is_none() => Ok(Some(number)),
        _ => Err(Status::BadRequest),
    }
}

// How long the body is said to be, up to the greatest `u64`.
fn length_said(block: &[u8], fields: &[HeaderSpan]) -> Result<Option<u64>, Status>
    requires { All (IsHeaderWithin (length block.now)) fields.now }
    ensures { result ≡ capped u64.MAX (length_said (values (codes "content-length") (map (header_bytes block.now) fields.now))) }
{
    let mut said = None;
    let mut rest = fields;
    while let [field, after @ ..] = rest {
        said = next_said(block, *field, said)?;
        rest = after;
    }
    Ok(said)
}

// The length of the body, or the status of the first check that the head doesn't pass.
fn body_length(block: &[u8], fields: &[HeaderSpan], posts: bool) -> Result<usize, Status>
    requires { All (IsHeaderWithin (length block.now)) fields.now }
    ensures { result
        ≡ body_length (length_said (values (codes "content-length") (map (header_bytes block.now) fields.now))) (asks_more (map (header_bytes block.now) fields.now)) posts }
{
    let said = length_said(block, fields)?;
    if asks_more(block, fields) {
        return Err(Status::NotImplemented);
    }
    match said {
        Some(length) if length > BODY_LIMIT => Err(Status::ContentTooLarge),
        Some(length) => Ok(length as usize),
        None if posts => Err(Status::LengthRequired),
        None => Ok(0),
    }
}

// What a head with these parts says.
fn said(
    router: &Router<Route>,
    block: &[u8],
    parts: RequestSpans,
    fields: &[HeaderSpan],
) -> Result<Head, Status>
    requires routes { router.now ≡ the_routes }
    requires method { IsWithin (length block.now) parts.method }
    requires target { IsWithin (length block.now) parts.path }
    requires fields { All (IsHeaderWithin (length block.now)) fields.now }
    ensures { result
        ≡ said_of (span_bytes block.now parts.method) (span_bytes block.now parts.path) parts.version (map (header_bytes block.now) fields.now) }
{
    let method = parts.method.of(block);
    let length = body_length(block, fields, is_same(method, b"POST"))?;
    Ok(Head {
        call: call_of(router, method, parts.path.of(block)),
        length,
        closes: parts.version == 0 || says_close(block, fields),
    })
}

/// What a head block says, or the status of the first check that it doesn't pass: 431 for more than 66 lines, 400 where
/// it is no head or its Content-Length is no number or stands there twice, 501 for a Transfer-Encoding, Content-Encoding
/// or Expect field, 413 for a body of more than 65,536 bytes, 411 for a POST that doesn't say how long its body is.
pub fn read_head(router: &Router<Route>, block: &[u8]) -> Result<Head, Status>
    requires { router.now ≡ the_routes }
    ensures said { Judges block.now result }
    ensures short { IfOk result (λ head. head.length ≤ 65536) }
{
    if count_lines(block) > MOST_LINES {
        return Err(Status::HeadTooLarge);
    }
    let mut fields = [EMPTY_HEADER_SPAN; MOST_FIELDS];
    let Some(parts) = whole_head(block, &mut fields) else {
        return Err(Status::BadRequest);
    };
    said(router, block, parts, &fields[..parts.headers])
}
