//! The connections of one port, one after the other.
ghost use Rattle.std.specs.Prelude.{◌≡◌, ◌≤◌, ◌||◌, IfSome, IfNone, None};
ghost use Rattle.io_traits.specs.Faults.{Rose};
ghost use Rattle.log_stamps.specs.Rows.{semantics_under, own_under};
ghost use Rattle.web_workers.specs.Sessions.{FailsNext, Served, ServesNext, is_starved_end};
ghost use Rattle.web_workers.specs.Workers.{HasStopped};

use crate::{MachineApi, WebEnd, serve_desk};
use aid_stamps::Stamp;
use io_traits::Disk;
use log_desks::{SharedList, Since};
use log_lock::{LockHandle, LockedState, TicketLock};
use log_machine::{Filed, RowName, SingleEntryMachine, StateMachine};
use log_stamps::{Stampable, StampedEntry, StampedMachine};
use std::alloc::Global;
use std::sync::Wait;
use web_session::{Acceptor, End};

// How many connections were served, whether a session of them ended for want of memory, and how that ended.
#[derive(Clone, Copy)]
pub struct ServedCount {
    pub served: u32,
    pub starved: bool,
    pub ended: WebEnd,
}

// Whether a session ended for want of memory, this one or one before it.
fn is_starved(before: bool, end: End) -> bool
    ensures { result ≡ (before || is_starved_end end) }
{
    before || matches!(end, End::NoMemory)
}

// Serves the next connection of the port, and hands it back. `None`: the port failed.
fn serve_next<
    D: Disk,
    R: Stampable + SingleEntryMachine,
    M: Since,
    T: MachineApi<R>,
    P: Acceptor,
    H: Wait,
>(
    rt: &H,
    alloc: Global,
    turns: &TicketLock<SharedList<D, StampedMachine<R>, M>>,
    handle: LockHandle<Filed<StampedEntry<R::Entry>>>,
    by: RowName,
    stamp: Stamp,
    port: &mut P,
) -> (LockHandle<Filed<StampedEntry<R::Entry>>>, Option<End>)
    requires { handle.lock ≡ turns.now.id }
    ensures served { IfSome result.1 (λ end. ServesNext (semantics_under stamp R.semantics) (own_under stamp R.own) T.scheme by handle result.0 (P.tells port.old) (P.tells port.new) end) }
    ensures failed { IfNone result.1 (FailsNext handle result.0 (P.tells port.old) (P.tells port.new)) }
    ensures cause { IfNone result.1 (Rose (P.faults port.old) (P.faults port.new)) }
    ensures unmoved { IfSome result.1 (λ end. P.faults port.new ≡ P.faults port.old) }
    ensures later { P.faults port.old ≤ P.faults port.new }
    ensures lock { result.0.lock ≡ handle.lock }
    ensures share { result.0.allowance ≡ handle.allowance }
    ensures opening { result.0.opening ≡ handle.opening }
{
    let Ok(mut link) = port.next() else {
        return (handle, None);
    };
    let (handle, end) = serve_desk::<D, R, M, T, P::Connection, H>(
        rt, alloc, turns, handle, by, stamp, &mut link,
    );
    port.done(link);
    (handle, Some(end))
}

// Serves so many connections of the port, or as many as come.
pub fn serve_all<
    D: Disk,
    R: Stampable + SingleEntryMachine,
    M: Since,
    T: MachineApi<R>,
    P: Acceptor,
    H: Wait,
>(
    rt: &H,
    alloc: Global,
    turns: &TicketLock<SharedList<D, StampedMachine<R>, M>>,
    handle: LockHandle<Filed<StampedEntry<R::Entry>>>,
    number: u32,
    stamp: &Stamp,
    port: &mut P,
    sessions: u32,
) -> (LockHandle<Filed<StampedEntry<R::Entry>>>, ServedCount)
    requires { handle.lock ≡ turns.now.id }
    ensures served { Served (semantics_under stamp.now R.semantics) (own_under stamp.now R.own) T.scheme number handle result.0 (P.tells port.old) (P.tells port.new) result.1.served result.1.starved }
    ensures stopped { HasStopped result.1.ended result.1.served sessions (P.faults port.old) (P.faults port.new) }
    ensures later { P.faults port.old ≤ P.faults port.new }
    ensures lock { result.0.lock ≡ handle.lock }
    ensures share { result.0.allowance ≡ handle.allowance }
    ensures opening { result.0.opening ≡ handle.opening }
{
    let mut handle = handle;
    let mut served = 0;
    let mut starved = false;
    while served < sessions {
        let by = RowName {
            desk: number,
            row: served + 1,
        };
        let (back, ended) = serve_next::<D, R, M, T, P, H>(
            rt, alloc, turns, handle, by, *stamp, port,
        );
        handle = back;
        let Some(end) = ended else {
            let count = ServedCount {
                served,
                starved,
                ended: WebEnd::AcceptorFault,
            };
            return (handle, count);
        };
        starved = is_starved(starved, end);
        served += 1;
    }
    let count = ServedCount {
        served,
        starved,
        ended: WebEnd::Done,
    };
    (handle, count)
}
