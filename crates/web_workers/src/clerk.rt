//! One connection is served by the turns of one pass.
ghost use Rattle.std.specs.Prelude.{◌≡◌, ◌≢◌, ◌≤◌};
ghost use Rattle.io_traits.specs.Faults.{Rose};
ghost use Rattle.web_session.specs.Exchange.{ServesNear};
ghost use Rattle.web_session.specs.ConnectionState.{IsHonest};
ghost use Rattle.log_stamps.specs.Rows.{semantics_under, own_under};
ghost use Rattle.web_workers.specs.Clerks.{HandleAnswers, HandleReaches};

use crate::{ApiOf, MachineApi};
use aid_stamps::Stamp;
use io_traits::Disk;
use log_desks::{Poster, SharedList, Since};
use log_lock::{LockHandle, LockedState, TicketLock};
use log_machine::{Filed, LogReply, RowName, RowOperation, SingleEntryMachine, StateMachine};
use log_stamps::{Stampable, StampedEntry, StampedMachine, StampedOperation};
use std::alloc::Global;
use std::marker::Model;
use std::sync::Wait;
use web_session::{Connection, End, Handler, serve};

// The clerk of one connection. Each ask is a turn of the lock, under one name and one stamp, and is posted before it, as is the
// one behind it, where that has come.
#[derive(Drop)]
struct LockHandler<'a, D: Disk, R: Stampable + SingleEntryMachine, M: Since, H> {
    rt: &'a H,
    turns: &'a TicketLock<SharedList<D, StampedMachine<R>, M>>,
    handle: LockHandle<Filed<StampedEntry<R::Entry>>>,
    by: RowName,
    stamp: Stamp,
    poster: Poster,
}

impl<'a, D: Disk, R: Stampable + SingleEntryMachine, M: Since, H> Model
    for LockHandler<'a, D, R, M, H> {
    ghost use Rattle.std.specs.Prelude.{◌≡◌};
    ghost use Rattle.web_workers.specs.Clerks.{StampedHandler};

    ghost Value = { StampedHandler R.Entry };

    ghost view = { λ c. record { by = c.by; handle = c.handle; stamp = c.stamp } };

    ghost invariant = { λ c. c.handle.lock ≡ c.turns.now.id };
}

impl<'a, D: Disk, R: Stampable + SingleEntryMachine, M: Since, H> LockHandler<'a, D, R, M, H> {
    // The pass.
    fn into_pass(self) -> LockHandle<Filed<StampedEntry<R::Entry>>>
        ensures { result ≡ self.entry.handle }
    {
        self.handle
    }
}

// An ask under a stamp, where there is one.
fn under<A: Drop>(operation: Option<A>, stamp: &Stamp) -> Option<StampedOperation<A>> {
    match operation {
        Some(operation) => Some(StampedOperation {
            operation,
            stamp: *stamp,
        }),
        None => None,
    }
}

impl<'a, D: Disk, R: Stampable + SingleEntryMachine, M: Since, T: MachineApi<R>, H: Wait> Handler<
    ApiOf<R, T>,
> for LockHandler<'a, D, R, M, H> {
    ghost use Rattle.web_workers.specs.Clerks.{AsksUnder, stamped_faults};
    ghost use Rattle.web_session.specs.declared.status.Status.TheVariants.{Unavailable};

    ghost asked = { AsksUnder R.semantics R.own };

    ghost faults = { stamped_faults };

    fn handle(
        &mut self,
        operation: R::Operation,
        next: Option<R::Operation>,
    ) -> LogReply<R::Response>
        ensures asked { AsksUnder R.semantics R.own self.old operation result self.new }
        ensures later { stamped_faults self.old ≤ stamped_faults self.new }
        ensures cause { T.scheme.status result ≡ Unavailable → Rose (stamped_faults self.old) (stamped_faults self.new) }
    {
        let operation = StampedOperation {
            operation,
            stamp: self.stamp,
        };
        let next = under(next, &self.stamp);
        self.turns.approach();
        self.poster.post(self.rt, self.turns, self.by.desk, &operation, next.as_ref());
        let operation = RowOperation {
            operation,
            by: self.by,
        };
        self.turns.submit(self.rt, &mut self.handle, operation)
    }
}

/// Serves a connection: each ask is a turn of the lock by this pass, under this name and this stamp, and what joins has the
/// stamp. It gives the pass back, and says how the session ended.
pub fn serve_desk<
    D: Disk,
    R: Stampable + SingleEntryMachine,
    M: Since,
    T: MachineApi<R>,
    L: Connection,
    H: Wait,
>(
    rt: &H,
    alloc: Global,
    turns: &TicketLock<SharedList<D, StampedMachine<R>, M>>,
    handle: LockHandle<Filed<StampedEntry<R::Entry>>>,
    by: RowName,
    stamp: Stamp,
    link: &mut L,
) -> (LockHandle<Filed<StampedEntry<R::Entry>>>, End)
    requires { handle.lock ≡ turns.now.id }
    ensures exchange { IsHonest (L.tells link.old)
        → ServesNear (HandleAnswers (semantics_under stamp R.semantics) (own_under stamp R.own) T.scheme) 10000 (L.tells link.old).left (L.tells link.new).left (record { by = by; handle = handle }) (record { by = by; handle = result.0 }) (L.tells link.old).text (L.tells link.new).text result.1 }
    ensures reached { HandleReaches (semantics_under stamp R.semantics) (own_under stamp R.own) T.scheme (record { by = by; handle = handle }) (record { by = by; handle = result.0 }) }
    ensures later { L.faults link.old ≤ L.faults link.new }
    ensures cause { result.1 ≡ End.ConnectionFault → Rose (L.faults link.old) (L.faults link.new) }
    ensures unmoved { result.1 ≢ End.ConnectionFault → L.faults link.new ≡ L.faults link.old }
    ensures lock { result.0.lock ≡ handle.lock }
    ensures share { result.0.allowance ≡ handle.allowance }
    ensures opening { result.0.opening ≡ handle.opening }
{
    let mut clerk = LockHandler {
        rt,
        turns,
        handle,
        by,
        stamp,
        poster: Poster::new(alloc),
    };
    let end = serve::<ApiOf<R, T>, LockHandler<D, R, M, H>, L>(alloc, &mut clerk, link);
    (clerk.into_pass(), end)
}
