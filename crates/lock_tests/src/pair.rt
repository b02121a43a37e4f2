// Two threads that file in one counter.
ghost use Rattle.std.specs.Prelude.{◌≡◌, ◌≤◌, ◌++◌, ℕ, None, Contains, IfOk, reverse};
ghost use Rattle.log_lock.specs.Passes.{StandsAt};
ghost use Rattle.lock_tests.specs.Counts.{accepted};
ghost use Rattle.lock_tests.specs.Desks.{IsHandleOf};

use crate::counter::{Answer, Counter, Device};
use log_lock::{LockHandle, TicketLock};
use std::alloc::Global;
use std::sync::Wait;
use std::thread::{Threads, join};

/// One ask, by a pass that comes back.
fn file_one<D: Device, R: Wait>(
    rt: &R,
    turns: &TicketLock<Counter<D>>,
    handle: LockHandle<u64>,
    operation: u64,
) -> (LockHandle<u64>, Answer)
    requires { IsHandleOf turns.now.id handle }
    ensures handle { IsHandleOf turns.now.id result.0 }
    ensures mine { result.0.mine ≡ handle.mine ++ accepted result.1 operation }
{
    let mut handle = handle;
    let answer = turns.submit(rt, &mut handle, operation);
    (handle, answer)
}

/// Two asks, each in a thread of its own where one can be made, and what each was answered: an ask that was accepted stands
/// at its position in the list.
pub fn file_two<D: Device + Drop + Send, R: Threads + Wait + Sync>(
    rt: &R,
    alloc: Global,
    state: Counter<D>,
    one: u64,
    other: u64,
) -> Result<(Counter<D>, Answer, Answer), Counter<D>>
    requires { state.waiting ≡ None }
    ensures snapshot { IfOk result (λ r. (entry : ℕ × ℕ) → Contains (accepted r.1 one ++ accepted r.2 other) entry → StandsAt (reverse r.0.log.items) entry) }
{
    match TicketLock::new(alloc, state, 2) {
        Err((_, state)) => Err(state),
        Ok((turns, first)) => {
            let (mine, theirs) = turns.split(first, 1);
            let lock = &turns;
            let ((mut handle, here), (rest, there)) = join(
                rt,
                move || -> (LockHandle<u64>, Answer)
                    requires { IsHandleOf lock.now.id mine }
                    ensures handle { IsHandleOf lock.entry.now.id result.0 }
                    ensures mine { result.0.mine ≡ mine.mine ++ accepted result.1 one }
                { file_one(rt, lock, mine, one) },
                move || -> (LockHandle<u64>, Answer)
                    requires { IsHandleOf lock.now.id theirs }
                    ensures handle { IsHandleOf lock.entry.now.id result.0 }
                    ensures mine { result.0.mine ≡ theirs.mine ++ accepted result.1 other }
                { file_one(rt, lock, theirs, other) },
            );
            turns.join(&mut handle, rest);
            Ok((turns.close(handle), here, there))
        }
    }
}

/// One ask, by a pass that another one meets then. That one sees what the first has seen, and is joined with it.
pub fn file_and_meet<D: Device, R: Wait>(
    rt: &R,
    alloc: Global,
    state: Counter<D>,
    operation: u64,
) -> Result<(Counter<D>, Answer), Counter<D>>
    requires { state.waiting ≡ None }
{
    match TicketLock::new(alloc, state, 2) {
        Err((_, state)) => Err(state),
        Ok((turns, first)) => {
            let (mut handle, mut other) = turns.split(first, 1);
            let answer = turns.submit(rt, &mut other, operation);
            turns.meet(&mut handle, &mut other);
            turns.join(&mut handle, other);
            Ok((turns.close(handle), answer))
        }
    }
}
