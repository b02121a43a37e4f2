// Desks get passes of one lock, and give them back.
ghost use Rattle.std.specs.Prelude.{◌≡◌, ◌<◌, ◌+◌, [], None, IfOk, IfErr, length};
ghost use Rattle.std.specs.List.{All};
ghost use Rattle.log_desks.specs.Desks.{IsFresh, IsReady, HasEnded, IsJoined, Gathers, Ran, shown_of, all_shown};
ghost use Rattle.io_traits.specs.DiskState.{IsHonest};
ghost use Rattle.log_desks.specs.Shares.{stand_of, IsBegun, IsReached};

use crate::{Desk, DeskEnd, SharedList, Since};
use io_traits::Disk;
use log_lock::{LockHandle, LockedState, TicketLock};
use log_machine::{Filed, Log, Rows, SingleEntryMachine, StateMachine};
use std::alloc::Global;

// Hands a part of the pass to the desk, and gives back the rest.
fn hand_out<D: Disk, R: SingleEntryMachine, M: Since, L: Rows<R>>(
    turns: &TicketLock<SharedList<D, R, M>>,
    first: LockHandle<Filed<R::Entry>>,
    desk: &mut Desk<R, L>,
) -> LockHandle<Filed<R::Entry>>
    requires fresh { IsFresh turns.now.id first.opening first }
    requires share { 1 < first.allowance }
    requires open { desk.old.ended ≡ DeskEnd.Open }
    ensures fresh { IsFresh turns.now.id first.opening result }
    ensures share { result.allowance + 1 ≡ first.allowance }
    ensures ready { IsReady turns.now.id first.opening desk.new }
    ensures same { shown_of desk.new ≡ shown_of desk.old }
{
    let (rest, part) = turns.split(first, 1);
    desk.give(part);
    rest
}

/// Hands a part of the pass to each desk, and gives back the rest.
pub(crate) fn deal<D: Disk, R: SingleEntryMachine, M: Since, L: Rows<R>>(
    turns: &TicketLock<SharedList<D, R, M>>,
    first: LockHandle<Filed<R::Entry>>,
    desks: &mut [Desk<R, L>],
) -> LockHandle<Filed<R::Entry>>
    requires fresh { IsFresh turns.now.id first.opening first }
    requires share { length desks.old < first.allowance }
    requires open { All (λ d. d.ended ≡ DeskEnd.Open) desks.old }
    ensures fresh { IsFresh turns.now.id first.opening result }
    ensures share { result.allowance + length desks.old ≡ first.allowance }
    ensures ready { All (IsReady turns.now.id first.opening) desks.new }
    ensures same { all_shown desks.new ≡ all_shown desks.old }
{
    let mut handle = first;
    for i in 0..desks.len() {
        handle = hand_out(turns, handle, &mut desks[i]);
    }
    handle
}

// How many turns these desks may take, on a list of so many entries.
fn turns_of<R: SingleEntryMachine, L: Rows<R>>(desks: &[Desk<R, L>], front: u32) -> u32 {
    let mut all: u32 = 0;
    for desk in desks {
        all = all.saturating_add(desk.at_most());
    }
    all.min(L::most().saturating_sub(front))
}

/// Begins a lock over the list, makes room for what the desks may add, and hands each desk a pass. It gives the rest of
/// the lock's passes back. Where there is no memory the list comes back as it was.
pub fn open_desks<D: Disk, R: SingleEntryMachine, M: Since, L: Rows<R>>(
    alloc: Global,
    kept: Log<D, R>,
    desks: &mut [Desk<R, L>],
) -> Result<(TicketLock<SharedList<D, R, M>>, LockHandle<Filed<R::Entry>>), Log<D, R>>
    requires few { length desks.old < 64 }
    requires decided { kept.pending ≡ None }
    requires begun { IsBegun D.Disk M.moment M.already kept.disk }
    requires open { All (λ d. d.ended ≡ DeskEnd.Open) desks.old }
    ensures opening { IfOk result (λ r. r.1.opening ≡ stand_of kept.history None [] None (D.faults kept.disk) (D.tells kept.disk).honest) }
    ensures fresh { IfOk result (λ r. IsFresh r.0.id r.1.opening r.1) }
    ensures all { IfOk result (λ r. r.1.allowance + length desks.new ≡ r.0.handles) }
    ensures ready { IfOk result (λ r. All (IsReady r.0.id r.1.opening) desks.new) }
    ensures same { all_shown desks.new ≡ all_shown desks.old }
    ensures desks { length desks.new ≡ length desks.old }
    ensures disk { IfErr result (λ back. back.disk ≡ kept.disk) }
    ensures history { IfErr result (λ back. back.history ≡ kept.history) }
    ensures pending { IfErr result (λ back. back.pending ≡ None) }
{
    let turns = turns_of(desks, kept.machine().front());
    let mut shared = SharedList::new(alloc, kept);
    if shared.reserve(turns).is_err() {
        return Err(shared.into_parts().0);
    }
    match TicketLock::new(alloc, shared, desks.len() as u32 + 1) {
        Err((_, shared)) => Err(shared.into_parts().0),
        Ok((turns, first)) => {
            let rest = deal(&turns, first, desks);
            Ok((turns, rest))
        }
    }
}

// Takes the desk's pass back.
fn take_back<D: Disk, R: SingleEntryMachine, M: Since, L: Rows<R>>(
    turns: &TicketLock<SharedList<D, R, M>>,
    handle: &mut LockHandle<Filed<R::Entry>>,
    desk: &mut Desk<R, L>,
)
    requires lock { handle.old.lock ≡ turns.now.id }
    requires ended { HasEnded turns.now.id handle.old.opening desk.old }
    ensures joined { IsJoined handle.old handle.new desk.old.handle }
    ensures same { desk.new ≡ record desk.old { handle = None } }
{
    if let Some(other) = desk.take() {
        turns.join(handle, other);
    }
}

/// Takes each desk's pass back.
pub(crate) fn collect<D: Disk, R: SingleEntryMachine, M: Since, L: Rows<R>>(
    turns: &TicketLock<SharedList<D, R, M>>,
    rest: LockHandle<Filed<R::Entry>>,
    desks: &mut [Desk<R, L>],
) -> LockHandle<Filed<R::Entry>>
    requires fresh { IsFresh turns.now.id rest.opening rest }
    requires ended { All (HasEnded turns.now.id rest.opening) desks.old }
    ensures gathers { Gathers turns.now.id rest.opening result desks.old }
    ensures share { result.allowance ≡ rest.allowance + length desks.old }
    ensures same { all_shown desks.new ≡ all_shown desks.old }
{
    let mut handle = rest;
    for i in 0..desks.len() {
        take_back(turns, &mut handle, &mut desks[i]);
    }
    handle
}

/// Takes each desk's pass back, and ends the lock. What the list has then is what the desks filed.
pub fn close_desks<D: Disk, R: SingleEntryMachine, M: Since, L: Rows<R>>(
    turns: TicketLock<SharedList<D, R, M>>,
    rest: LockHandle<Filed<R::Entry>>,
    desks: &mut [Desk<R, L>],
) -> SharedList<D, R, M>
    requires fresh { IsFresh turns.id rest.opening rest }
    requires all { rest.allowance + length desks.old ≡ turns.handles }
    requires ended { All (HasEnded turns.id rest.opening) desks.old }
    ensures ran { Ran rest.opening (stand_of result.history result.pending result.log result.waiting (D.faults result.disk) (D.tells result.disk).honest) desks.old }
    ensures reached { IsReached D.Disk R.scheme M.moment M.already rest.opening result.disk result.history result.pending }
    ensures same { all_shown desks.new ≡ all_shown desks.old }
{
    let handle = collect(&turns, rest, desks);
    turns.close(handle)
}
