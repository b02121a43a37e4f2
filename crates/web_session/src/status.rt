//! The statuses of responses.
ghost use Rattle.std.specs.Prelude.{◌≡◌, ◌<◌, ◌≤◌};
ghost use Rattle.web_session.specs.Statuses.{code_of, phrase_at, phrase_of};

use http::StatusCode;

/// The status of a response (RFC 9110, 15; RFC 6585, 5; RFC 4918, 11.5).
#[derive(Clone, Copy, Debug, PartialEq, Eq)]
pub enum Status {
    /// 200.
    Okay,
    /// 201.
    Created,
    /// 400: the head is none, its Content-Length is no number or stands there twice, or the body is no ask.
    BadRequest,
    /// 404: the target is no route.
    NotFound,
    /// 405: the route has another method.
    MethodNotAllowed,
    /// 411: a POST doesn't say how long its body is.
    LengthRequired,
    /// 413: the body has more than 65,536 bytes.
    ContentTooLarge,
    /// 422: the office refuses.
    Unprocessable,
    /// 431: the head block has more than 16,384 bytes or more than 66 lines.
    HeadTooLarge,
    /// 501: the head asks for what isn't done here.
    NotImplemented,
    /// 503: the disk refused a call.
    Unavailable,
    /// 507: there is no memory.
    NoStorage,
}

impl Status {
    /// Its three digits.
    pub fn code(self) -> u16
        ensures { result ≡ code_of self }
    {
        match self {
            Status::Okay => 200,
            Status::Created => 201,
            Status::BadRequest => 400,
            Status::NotFound => 404,
            Status::MethodNotAllowed => 405,
            Status::LengthRequired => 411,
            Status::ContentTooLarge => 413,
            Status::Unprocessable => 422,
            Status::HeadTooLarge => 431,
            Status::NotImplemented => 501,
            Status::Unavailable => 503,
            Status::NoStorage => 507,
        }
    }

    /// Its phrase.
    pub fn phrase(self) -> &'static str
        ensures { result.now ≡ phrase_of self }
    {
        phrase_of_code(self.code())
    }
}

// The phrase of a code, and none where it has none.
fn phrase_of_code(code: u16) -> &'static str
    requires low { 100 ≤ code }
    requires high { code < 1000 }
    ensures { result.now ≡ phrase_at code }
{
    let Ok(status) = StatusCode::from_u16(code) else {
        return "";
    };
    match status.canonical_reason() {
        Some(phrase) => phrase,
        None => "",
    }
}
