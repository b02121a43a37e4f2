// Desks that file in one counter, each in a thread of its own where one can be made.
ghost use Rattle.std.specs.Prelude.{◌≡◌, ◌<◌, ◌≤◌, ◌+◌, ◌-◌, length, None, IfOk, MatchResult};
ghost use Rattle.log_lock.specs.Passes.{Closes};
ghost use Rattle.lock_tests.specs.Desks.{HasHandle, AllHavePasses};

use crate::counter::{Answer, Counter, Device};
use log_lock::{LockHandle, TicketLock};
use std::alloc::Global;
use std::sync::Wait;
use std::thread::{Threads, for_each_mut};

/// What one desk has: its pass while the lock is open, what it asks, and what it was answered.
#[derive(Drop)]
pub struct Desk {
    pub handle: Option<LockHandle<u64>>,
    pub operation: u64,
    pub answer: Option<Answer>,
}

/// Hands a pass to the desk.
fn hand_out<D: Device>(
    turns: &TicketLock<Counter<D>>,
    first: LockHandle<u64>,
    desk: &mut Desk,
) -> LockHandle<u64>
    requires lock { first.lock ≡ turns.now.id }
    requires share { 1 < first.allowance }
    ensures lock { result.lock ≡ turns.now.id }
    ensures share { result.allowance + 1 ≡ first.allowance }
    ensures dealt { HasHandle turns.now.id desk.new }
{
    let (rest, part) = turns.split(first, 1);
    desk.handle = Some(part);
    rest
}

/// Hands a pass to each desk, and keeps the rest.
fn deal<D: Device>(
    turns: &TicketLock<Counter<D>>,
    first: LockHandle<u64>,
    desks: &mut [Desk],
) -> LockHandle<u64>
    requires lock { first.lock ≡ turns.now.id }
    requires share { length desks.old < first.allowance }
    ensures lock { result.lock ≡ turns.now.id }
    ensures share { result.allowance + length desks.old ≡ first.allowance }
    ensures dealt { AllHavePasses turns.now.id desks.new }
    ensures desks { length desks.new ≡ length desks.old }
{
    let mut handle = first;
    for i in 0..desks.len() {
        handle = hand_out(turns, handle, &mut desks[i]);
    }
    handle
}

/// The desk's ask, by its pass.
fn file<D: Device, R: Wait>(rt: &R, turns: &TicketLock<Counter<D>>, desk: &mut Desk)
    requires { HasHandle turns.now.id desk.old }
    ensures { HasHandle turns.now.id desk.new }
{
    if let Some(handle) = &mut desk.handle {
        desk.answer = Some(turns.submit(rt, handle, desk.operation));
    }
}

/// Each desk's ask, each in a thread of its own where one can be made.
fn file_all<D: Device + Drop + Send, R: Threads + Wait + Sync>(
    rt: &R,
    turns: &TicketLock<Counter<D>>,
    desks: &mut [Desk],
)
    requires { AllHavePasses turns.now.id desks.old }
    ensures handles { AllHavePasses turns.now.id desks.new }
    ensures desks { length desks.new ≡ length desks.old }
{
    let each = move |_place: usize, desk: &mut Desk|
        requires { HasHandle turns.now.id desk.now }
        ensures { HasHandle turns.entry.now.id desk.exit.now }
    { file(rt, turns, desk) };
    for_each_mut(rt, desks, 64, &each);
}

/// Takes the desk's pass back.
fn take_back<D: Device>(
    turns: &TicketLock<Counter<D>>,
    handle: &mut LockHandle<u64>,
    desk: &mut Desk,
)
    requires lock { handle.old.lock ≡ turns.now.id }
    requires handle { HasHandle turns.now.id desk.old }
    ensures lock { handle.new.lock ≡ turns.now.id }
    ensures share { handle.new.allowance ≡ handle.old.allowance + 1 }
{
    if let Some(other) = desk.handle.take() {
        turns.join(handle, other);
    }
}

/// Takes each desk's pass back.
fn collect<D: Device>(
    turns: &TicketLock<Counter<D>>,
    rest: LockHandle<u64>,
    desks: &mut [Desk],
) -> LockHandle<u64>
    requires lock { rest.lock ≡ turns.now.id }
    requires handles { AllHavePasses turns.now.id desks.old }
    ensures lock { result.lock ≡ turns.now.id }
    ensures share { result.allowance ≡ rest.allowance + length desks.old }
{
    let mut handle = rest;
    for i in 0..desks.len() {
        take_back(turns, &mut handle, &mut desks[i]);
    }
    handle
}

/// Files what each desk asks, and gives the state back, also where there is no memory.
pub fn run<D: Device + Drop + Send, R: Threads + Wait + Sync>(
    rt: &R,
    alloc: Global,
    state: Counter<D>,
    desks: &mut [Desk],
) -> Result<Counter<D>, Counter<D>>
    requires few { length desks.old < 64 }
    requires decided { state.waiting ≡ None }
{
    let handles = desks.len() as u32 + 1;
    match TicketLock::new(alloc, state, handles) {
        Err((_, state)) => Err(state),
        Ok((turns, first)) => {
            let rest = deal(&turns, first, desks);
            file_all(rt, &turns, desks);
            let handle = collect(&turns, rest, desks);
            Ok(turns.close(handle))
        }
    }
}
