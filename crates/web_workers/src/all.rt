//! All ports at once.
ghost use Rattle.std.specs.Prelude.{◌≡◌, ◌≤◌, ◌<◌, ℕ, [], None, Option, IfOk, IfErr, reverse, slice_index_or, length};
ghost use Rattle.io_traits.specs.DiskState.{IsHonest};
ghost use Rattle.log_machine.specs.Kept.{IsSound};
ghost use Rattle.log_machine.specs.declared.names.RowName.{RowName};
ghost use Rattle.log_stamps.specs.Stamped.{stamped_scheme};
ghost use Rattle.log_stamps.specs.Rows.{semantics_under, own_under};
ghost use Rattle.web_workers.specs.Workers.{WorkerView, HasServed, HoldsHandle, Works};
ghost use Rattle.log_desks.specs.Shares.{stand_of, IsBegun, IsReached};
ghost use Rattle.log_stamps.specs.declared.entry.StampedEntry.{StampedEntry};

use crate::{MachineApi, Worker, close_workers, open_workers};
use aid_stamps::Stamp;
use io_traits::Disk;
use log_desks::{SharedList, Since};
use log_lock::TicketLock;
use log_machine::{Log, RowName, SingleEntryMachine, StateMachine};
use log_stamps::{Stampable, StampedMachine};
use std::alloc::Global;
use std::sync::Wait;
use std::thread::{Threads, for_each_mut};
use web_session::Acceptor;

/// At most so many workers serve at once.
const MOST_WORKERS: usize = 16;

// Each worker serves the connections of its port, each in a thread of its own where one can be made.
fn work_all<
    D: Disk + Send,
    R: Stampable + SingleEntryMachine + Send,
    M: Since + Send + Sync,
    T: MachineApi<R> + Send,
    P: Acceptor + Send,
    H: Threads + Wait + Sync,
>(
    rt: &H,
    alloc: Global,
    turns: &TicketLock<SharedList<D, StampedMachine<R>, M>>,
    sessions: u32,
    stamp: &Stamp,
    workers: &mut [Worker<StampedMachine<R>, P>],
)
where
    R::Entry: Send,
    R::Operation: Send,
    R::Response: Send,
    R::Ruling: Send,
    P::Connection: Send,
    requires { (k : ℕ) (d : WorkerView (StampedEntry R.Entry) P) → k < length workers.old → HoldsHandle turns.now.id (slice_index_or workers.old k d) }
    ensures works { (k : ℕ) (d : WorkerView (StampedEntry R.Entry) P) → k < length workers.old → Works (semantics_under stamp.now R.semantics) (own_under stamp.now R.own) T.scheme P.tells P.faults turns.now.id sessions (slice_index_or workers.old k d) (slice_index_or workers.new k d) }
    ensures workers { length workers.new ≡ length workers.old }
{
    let each = move |_place: usize, worker: &mut Worker<StampedMachine<R>, P>|
        requires { HoldsHandle turns.now.id worker.now }
        ensures { Works (semantics_under stamp.entry.now R.semantics) (own_under stamp.entry.now R.own) T.scheme P.tells P.faults turns.entry.now.id sessions worker.entry.now worker.exit.now }
    { worker.work::<D, M, T, H>(rt, alloc, turns, sessions, *stamp) };
    for_each_mut(rt, workers, MOST_WORKERS, &each);
}

/// Serves so many connections of each port, by turns of one lock over the list: the ports at once, where threads can be
/// made, and the connections of one port one after the other. All their asks are filed under this one stamp. It gives the list
/// back, and the rows that filed its newest entries, the oldest first. Where there is no memory for the lock the list comes back
/// alone.
pub fn serve_ports<
    D: Disk + Send,
    R: Stampable + SingleEntryMachine + Send,
    M: Since + Send + Sync,
    T: MachineApi<R> + Send,
    P: Acceptor + Send,
    H: Threads + Wait + Sync,
>(
    rt: &H,
    alloc: Global,
    kept: Log<D, StampedMachine<R>>,
    sessions: u32,
    stamp: Stamp,
    workers: &mut [Worker<StampedMachine<R>, P>],
) -> Result<(Log<D, StampedMachine<R>>, Vec<RowName>), Log<D, StampedMachine<R>>>
where
    R::Entry: Send,
    R::Operation: Send,
    R::Response: Send,
    R::Ruling: Send,
    P::Connection: Send,
    requires few { length workers.old < 64 }
    requires decided { kept.pending ≡ None }
    requires begun { IsBegun D.Disk M.moment M.already kept.disk }
    ensures served { IfOk result (λ closed. (waiting : Option RowName) × HasServed (semantics_under stamp R.semantics) (own_under stamp R.own) T.scheme P.tells P.faults sessions (stand_of kept.history None [] None (D.faults kept.disk) (D.tells kept.disk).honest)
        (stand_of closed.0.history closed.0.pending (reverse closed.1.items) waiting (D.faults closed.0.disk) (D.tells closed.0.disk).honest) workers.old workers.new) }
    ensures reached { IfOk result (λ closed. IsReached D.Disk (stamped_scheme R.stamped R.scheme) M.moment M.already (stand_of kept.history None [] None (D.faults kept.disk) (D.tells kept.disk).honest) closed.0.disk closed.0.history closed.0.pending) }
    ensures sound { IfOk result (λ closed. IsHonest (D.tells closed.0.disk) → IsSound (stamped_scheme R.stamped R.scheme) (D.tells closed.0.disk) closed.0.history closed.0.pending) }
    ensures workers { length workers.new ≡ length workers.old }
    ensures same { IfErr result (λ back. workers.new ≡ workers.old) }
    ensures disk { IfErr result (λ back. back.disk ≡ kept.disk) }
{
    match open_workers::<D, StampedMachine<R>, M, P>(alloc, kept, workers) {
        Ok((turns, rest)) => {
            work_all::<D, R, M, T, P, H>(rt, alloc, &turns, sessions, &stamp, workers);
            Ok(close_workers(turns, rest, workers).into_parts())
        }
        Err(kept) => Err(kept),
    }
}
