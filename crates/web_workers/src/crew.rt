//! Desks behind ports get passes of one lock, and give them back.
ghost use Rattle.std.specs.Prelude.{◌≡◌, ◌<◌, ◌≤◌, ◌+◌, [], ℕ, None, IfOk, IfErr, length, get_or};
ghost use Rattle.std.specs.List.{All};
ghost use Rattle.log_desks.specs.Desks.{IsFresh, IsJoined};
ghost use Rattle.log_desks.specs.Shares.{stand_of, IsBegun, IsReached};
ghost use Rattle.web_workers.specs.Workers.{AreReady, IsReady, HasEnded, HaveFoundRoom, Gathers, Ran, all_shown};

use crate::Worker;
use io_traits::Disk;
use log_desks::{SharedList, Since};
use log_lock::{LockHandle, LockedState, TicketLock};
use log_machine::{Filed, Log, SingleEntryMachine, StateMachine};
use std::alloc::Global;
use web_session::Acceptor;

// Hands a part of the pass to the worker, with its number, and gives back the rest.
fn hand_out<D: Disk, R: SingleEntryMachine, M: Since, P: Acceptor>(
    turns: &TicketLock<SharedList<D, R, M>>,
    first: LockHandle<Filed<R::Entry>>,
    number: u32,
    worker: &mut Worker<R, P>,
) -> LockHandle<Filed<R::Entry>>
    requires fresh { IsFresh turns.now.id first.opening first }
    requires share { 1 < first.allowance }
    ensures fresh { IsFresh turns.now.id first.opening result }
    ensures share { result.allowance + 1 ≡ first.allowance }
    ensures room { result.room ≡ first.room }
    ensures ready { IsReady turns.now.id first.opening number worker.old worker.new }
{
    let (rest, part) = turns.split(first, 1);
    worker.give(number, part);
    rest
}

/// Hands a part of the pass to each worker, numbers them from 1, and gives back the rest.
pub(crate) fn deal<D: Disk, R: SingleEntryMachine, M: Since, P: Acceptor>(
    turns: &TicketLock<SharedList<D, R, M>>,
    first: LockHandle<Filed<R::Entry>>,
    workers: &mut [Worker<R, P>],
) -> LockHandle<Filed<R::Entry>>
    requires few { length workers.old < 64 }
    requires fresh { IsFresh turns.now.id first.opening first }
    requires share { length workers.old < first.allowance }
    ensures fresh { IsFresh turns.now.id first.opening result }
    ensures share { result.allowance + length workers.old ≡ first.allowance }
    ensures room { result.room ≡ first.room }
    ensures ready { AreReady turns.now.id first.opening (length workers.old) workers.old workers.new }
    ensures workers { length workers.new ≡ length workers.old }
{
    let mut handle = first;
    for i in 0..workers.len() {
        handle = hand_out(turns, handle, i as u32 + 1, &mut workers[i]);
    }
    handle
}

/// Begins a lock over the list, makes room for an operation of each worker, and hands each worker a number and a pass. It gives
/// the rest of the lock's passes back. Where there is no memory the list comes back as it was. Behind that room each operation
/// asks for what it needs.
pub fn open_workers<D: Disk, R: SingleEntryMachine, M: Since, P: Acceptor>(
    alloc: Global,
    kept: Log<D, R>,
    workers: &mut [Worker<R, P>],
) -> Result<(TicketLock<SharedList<D, R, M>>, LockHandle<Filed<R::Entry>>), Log<D, R>>
    requires few { length workers.old < 64 }
    requires decided { kept.pending ≡ None }
    requires begun { IsBegun D.Disk M.moment M.already kept.disk }
    ensures opening { IfOk result (λ r. r.1.opening ≡ stand_of kept.history None [] None (D.faults kept.disk) (D.tells kept.disk).honest) }
    ensures fresh { IfOk result (λ r. IsFresh r.0.id r.1.opening r.1) }
    ensures all { IfOk result (λ r. r.1.allowance + length workers.new ≡ r.0.handles) }
    ensures room { IfOk result (λ r. length workers.old ≤ r.1.room) }
    ensures ready { IfOk result (λ r. AreReady r.0.id r.1.opening (length workers.old) workers.old workers.new) }
    ensures workers { length workers.new ≡ length workers.old }
    ensures same { IfErr result (λ back. workers.new ≡ workers.old) }
    ensures disk { IfErr result (λ back. back.disk ≡ kept.disk) }
    ensures history { IfErr result (λ back. back.history ≡ kept.history) }
    ensures pending { IfErr result (λ back. back.pending ≡ None) }
{
    let mut shared = SharedList::new(alloc, kept);
    if shared.reserve(workers.len() as u32).is_err() {
        return Err(shared.into_parts().0);
    }
    match TicketLock::new(alloc, shared, workers.len() as u32 + 1) {
        Err((_, shared)) => Err(shared.into_parts().0),
        Ok((turns, first)) => {
            let rest = deal(&turns, first, workers);
            Ok((turns, rest))
        }
    }
}

// Takes the worker's pass back.
fn take_back<D: Disk, R: SingleEntryMachine, M: Since, P: Acceptor>(
    turns: &TicketLock<SharedList<D, R, M>>,
    handle: &mut LockHandle<Filed<R::Entry>>,
    worker: &mut Worker<R, P>,
)
    requires lock { handle.old.lock ≡ turns.now.id }
    requires ended { HasEnded turns.now.id handle.old.opening worker.old }
    ensures joined { IsJoined handle.old handle.new worker.old.handle }
    ensures same { worker.new ≡ record worker.old { handle = None } }
{
    if let Some(other) = worker.take() {
        turns.join(handle, other);
    }
}

/// Takes each worker's pass back.
pub(crate) fn collect<D: Disk, R: SingleEntryMachine, M: Since, P: Acceptor>(
    turns: &TicketLock<SharedList<D, R, M>>,
    rest: LockHandle<Filed<R::Entry>>,
    workers: &mut [Worker<R, P>],
) -> LockHandle<Filed<R::Entry>>
    requires fresh { IsFresh turns.now.id rest.opening rest }
    requires ended { All (HasEnded turns.now.id rest.opening) workers.old }
    ensures gathers { Gathers turns.now.id rest.opening result workers.old }
    ensures share { result.allowance ≡ rest.allowance + length workers.old }
    ensures room { result.room ≡ rest.room }
    ensures workers { length workers.new ≡ length workers.old }
    ensures same { all_shown workers.new ≡ all_shown workers.old }
{
    let mut handle = rest;
    for i in 0..workers.len() {
        take_back(turns, &mut handle, &mut workers[i]);
    }
    handle
}

/// Takes each worker's pass back, and ends the lock. What the list has then is what the workers' turns did.
pub fn close_workers<D: Disk, R: SingleEntryMachine, M: Since, P: Acceptor>(
    turns: TicketLock<SharedList<D, R, M>>,
    rest: LockHandle<Filed<R::Entry>>,
    workers: &mut [Worker<R, P>],
) -> SharedList<D, R, M>
    requires fresh { IsFresh turns.id rest.opening rest }
    requires all { rest.allowance + length workers.old ≡ turns.handles }
    requires ended { All (HasEnded turns.id rest.opening) workers.old }
    ensures ran { Ran rest.opening (stand_of result.history result.pending result.log result.waiting (D.faults result.disk) (D.tells result.disk).honest) workers.old }
    ensures found_room { HaveFoundRoom rest.room workers.old }
    ensures reached { IsReached D.Disk R.scheme M.moment M.already rest.opening result.disk result.history result.pending }
    ensures workers { length workers.new ≡ length workers.old }
    ensures same { all_shown workers.new ≡ all_shown workers.old }
{
    let handle = collect(&turns, rest, workers);
    turns.close(handle)
}
