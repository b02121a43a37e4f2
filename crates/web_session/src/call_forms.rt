//! The forms of asks and replies.
ghost use Rattle.std.specs.Prelude.{◌≡◌, IfOk};
ghost use Rattle.web_session.specs.Asks.{Scheme};

use crate::{ApiCall, Status};
use std::alloc::{AllocError, Global};

/// How asks are read from requests, and replies written.
pub trait Api {
    /// What is asked.
    type Operation: Drop;

    /// What is replied.
    type Reply: Drop;

    /// What a request asks, and what is answered by a reply.
    ghost scheme: { Scheme Self.Operation Self.Reply };

    /// The ask of a request with this body, where there is one. An `Err` is want of memory.
    fn read(
        alloc: Global,
        call: ApiCall,
        body: &[u8],
    ) -> Result<Option<Self::Operation>, AllocError>
        ensures { IfOk result (λ operation. operation ≡ scheme.ask_of call body.now) };

    /// The status of a reply.
    fn status(reply: &Self::Reply) -> Status
        ensures { result ≡ scheme.status reply.now };

    /// The body that gives a reply. An `Err` is want of memory.
    fn write(alloc: Global, reply: &Self::Reply) -> Result<Vec<u8>, AllocError>
        ensures { IfOk result (λ text. text.items ≡ scheme.text reply.now) };
}
