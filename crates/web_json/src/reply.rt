//! The status of the reply of a turn.
ghost use Rattle.std.specs.Prelude.{◌≡◌};
ghost use Rattle.web_json.specs.Forms.{answer_status as answer_status_for, status_for};

use aid_filings::Response;
use log_machine::LogReply;
use web_session::Status;

// The status of a verdict.
fn answer_status(response: &Response) -> Status
    ensures { result ≡ answer_status_for response.now }
{
    match response {
        Response::Admit(_) => Status::Created,
        Response::Again { .. } | Response::Quoted(_) | Response::Standing(_) => Status::Okay,
        Response::Refused(_) => Status::Unprocessable,
    }
}

/// The status of the reply that a turn gives.
pub fn status_of(reply: &LogReply<Response>) -> Status
    ensures { result ≡ status_for reply.now }
{
    match reply {
        LogReply::Answered { response, front: _ } => answer_status(response),
        LogReply::DiskFault { .. } => Status::Unavailable,
        LogReply::NoMemory => Status::NoStorage,
    }
}
