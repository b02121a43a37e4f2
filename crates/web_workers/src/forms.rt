//! How the asks of a docket are read from requests, and its replies written.
ghost use Rattle.std.specs.Prelude.{◌≡◌, IfOk, IsTrue};
ghost use Rattle.web_workers.specs.NewEntry.{TellsFaults, is_added};
ghost use Rattle.web_session.specs.Asks.{Scheme};

use log_machine::{LogReply, SingleEntryMachine, StateMachine};
use std::alloc::{AllocError, Global};
use std::marker::PhantomData;
use web_session::{Api, ApiCall, Status};

/// How the asks of a docket are read from requests, and its replies written.
pub trait MachineApi<R: SingleEntryMachine> {
    ghost use Rattle.log_machine.specs.declared.reply.LogReply.{LogReply};
    ghost use Rattle.web_session.specs.declared.status.Status.TheVariants.{Created};

    /// What a request asks, and what is answered by a reply.
    ghost scheme: { Scheme R.Operation (LogReply R.Response) };

    /// The ask of a request with this body, where there is one. An `Err` is want of memory.
    fn read(alloc: Global, call: ApiCall, body: &[u8]) -> Result<Option<R::Operation>, AllocError>
        ensures { IfOk result (λ operation. operation ≡ scheme.ask_of call body.now) };

    /// The status of a reply.
    fn status(reply: &LogReply<R::Response>) -> Status
        ensures { result ≡ scheme.status reply.now };

    /// The body that gives a reply. An `Err` is want of memory.
    fn write(alloc: Global, reply: &LogReply<R::Response>) -> Result<Vec<u8>, AllocError>
        ensures { IfOk result (λ text. text.items ≡ scheme.text reply.now) };

    /// 503 is answered just where the disk failed, and 507 just where there was no memory.
    ghost unavailable: { TellsFaults scheme };

    /// 201 is answered only where the ask's own entry was added.
    ghost created: { (reply : LogReply R.Response) → scheme.status reply ≡ Created → IsTrue (is_added R.adds reply) };
}

/// The forms of a docket's asks and replies. No value of it is made.
pub struct ApiOf<R, T> {
    marker: PhantomData<(R, T)>,
}

impl<R: SingleEntryMachine, T: MachineApi<R>> Api for ApiOf<R, T> {
    type Operation = R::Operation;

    type Reply = LogReply<R::Response>;

    ghost scheme = { T.scheme };

    fn read(alloc: Global, call: ApiCall, body: &[u8]) -> Result<Option<R::Operation>, AllocError> {
        T::read(alloc, call, body)
    }

    fn status(reply: &LogReply<R::Response>) -> Status {
        T::status(reply)
    }

    fn write(alloc: Global, reply: &LogReply<R::Response>) -> Result<Vec<u8>, AllocError> {
        T::write(alloc, reply)
    }
}
