//! What a request asks of the office.
ghost use Rattle.std.specs.Prelude.{◌≡◌, IfOk, option_and_then, option_map};
ghost use Rattle.aid_filings.specs.declared.reply.Operation.{Operation as OperationData};
ghost use Rattle.web_json.specs.Bodies.{filing_of_body};
ghost use Rattle.web_json.specs.Filings.{filing_with};
ghost use Rattle.web_json.specs.Forms.{ask_in};

use crate::{BodyError, filing_of};
use aid_filings::Operation;
use aid_types::School;
use std::alloc::{AllocError, Global};
use web_session::ApiCall;

// The filing of a body under a school, as an ask.
fn filing_ask(alloc: Global, school: School, body: &[u8]) -> Result<Option<Operation>, AllocError>
    ensures { IfOk result (λ operation. operation ≡ option_map OperationData.File (option_and_then filing_with (filing_of_body school body.now))) }
{
    match filing_of(alloc, school, body) {
        Ok(filing) => Ok(Some(Operation::File(filing))),
        Err(BodyError::NotFiling) => Ok(None),
        Err(BodyError::NoMemory) => Err(AllocError),
    }
}

/// What a call asks: the filing of its body under the school of its target, or what its target alone says. `Ok(None)`: the
/// body is no filing. An `Err` is want of memory.
pub fn ask_of(alloc: Global, call: ApiCall, body: &[u8]) -> Result<Option<Operation>, AllocError>
    ensures { IfOk result (λ operation. operation ≡ ask_in call body.now) }
{
    match call {
        ApiCall::File { school } => filing_ask(alloc, school, body),
        ApiCall::Quote {
            school,
            student,
            year,
            term,
        } => Ok(Some(Operation::Quote {
            school,
            student,
            year,
            term,
        })),
        ApiCall::Standing { student, year } => Ok(Some(Operation::Standing { student, year })),
    }
}
