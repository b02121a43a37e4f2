//! A worker behind a port: it serves the connections of the port one after the other.
ghost use Rattle.std.specs.Prelude.{◌≡◌, ◌+◌, ◌≤◌, ◌<◌, ◌^◌, [], ℕ, None, Some, false};
ghost use Rattle.log_stamps.specs.Rows.{semantics_under, own_under};
ghost use Rattle.web_workers.specs.Workers.{HoldsHandle, Works, worker_of};

use crate::serving::serve_all;
use crate::{MachineApi, WebEnd};
use aid_stamps::Stamp;
use io_traits::Disk;
use log_desks::{SharedList, Since};
use log_lock::{LockHandle, LockedState, TicketLock};
use log_machine::{Filed, SingleEntryMachine, StateMachine};
use log_stamps::{Stampable, StampedEntry, StampedMachine};
use std::alloc::Global;
use std::marker::Model;
use std::sync::Wait;
use web_session::Acceptor;

/// A worker behind a port. It has a number and a pass of the lock while the lock is open.
#[derive(Drop)]
pub struct Worker<R: SingleEntryMachine, P: Acceptor> {
    number: u32,
    port: P,
    served: u32,
    starved: bool,
    ended: WebEnd,
    handle: Option<LockHandle<Filed<R::Entry>>>,
}

impl<R: SingleEntryMachine, P: Acceptor> Model for Worker<R, P> {
    ghost use Rattle.web_workers.specs.Workers.{WorkerView};

    ghost Value = { WorkerView R.Entry P };

    ghost view = { λ d. record {
      number = d.number;
      port = d.port;
      served = d.served;
      starved = d.starved;
      ended = d.ended;
      handle = d.handle;
    } };
}

impl<R: SingleEntryMachine, P: Acceptor> Worker<R, P> {
    /// A worker behind this port.
    pub fn new(port: P) -> Worker<R, P>
        ensures { result ≡ worker_of port }
    {
        Worker {
            number: 0,
            port,
            served: 0,
            starved: false,
            ended: WebEnd::Open,
            handle: None,
        }
    }

    // Takes a number and a pass of the lock.
    pub(crate) fn give(&mut self, number: u32, handle: LockHandle<Filed<R::Entry>>)
        ensures { self.new ≡ record { number = number; port = self.old.port; served = 0; starved = false; ended = WebEnd.Open; handle = Some handle } }
    {
        self.number = number;
        self.served = 0;
        self.starved = false;
        self.ended = WebEnd::Open;
        self.handle = Some(handle);
    }

    // Gives its pass back.
    pub(crate) fn take(&mut self) -> Option<LockHandle<Filed<R::Entry>>>
        ensures handle { result ≡ self.old.handle }
        ensures rest { self.new ≡ record self.old { handle = None } }
    {
        self.handle.take()
    }

    /// Its port alone.
    pub fn into_port(self) -> P
        ensures { result ≡ self.port }
    {
        self.port
    }

    /// Its port.
    pub fn port(&self) -> &P
        ensures { result.now ≡ self.now.port }
    {
        &self.port
    }

    /// How it ended.
    pub fn ended(&self) -> WebEnd
        ensures { result ≡ self.now.ended }
    {
        self.ended
    }

    /// Whether a session ended for want of memory.
    pub fn is_starved(&self) -> bool
        ensures { result ≡ self.now.starved }
    {
        self.starved
    }
}

impl<R: Stampable + SingleEntryMachine, P: Acceptor> Worker<StampedMachine<R>, P> {
    /// Serves so many connections of the port, one after the other, each by turns of the lock, and files all their asks
    /// under this stamp. It ends early only where the port fails.
    pub fn work<D: Disk, M: Since, T: MachineApi<R>, H: Wait>(
        &mut self,
        rt: &H,
        alloc: Global,
        turns: &TicketLock<SharedList<D, StampedMachine<R>, M>>,
        sessions: u32,
        stamp: Stamp,
    )
        requires { HoldsHandle turns.now.id self.old }
        ensures { Works (semantics_under stamp R.semantics) (own_under stamp R.own) T.scheme P.tells P.faults turns.now.id sessions self.old self.new }
    {
        let Some(handle) = self.handle.take() else {
            return;
        };
        let (handle, count) = serve_all::<D, R, M, T, P, H>(
            rt,
            alloc,
            turns,
            handle,
            self.number,
            &stamp,
            &mut self.port,
            sessions,
        );
        self.served = count.served;
        self.starved = count.starved;
        self.ended = count.ended;
        self.handle = Some(handle);
    }
}
