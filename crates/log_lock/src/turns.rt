// The lock and its passes.
ghost use Rattle.std.specs.Prelude.{◌≡◌, ◌⊎◌, ◌<◌, ◌≤◌, ◌+◌, ◌-◌, ◌++◌, [], None, IfOk, IfErr};
ghost use Rattle.log_lock.specs.Passes.{IsOlder, TakesSubmit, Closes};
ghost use Rattle.log_lock.specs.Turning.{wants_in};

use crate::LockedState;
use crate::board::Board;
use crate::sleepers::Sleepers;
use crate::view::{Ticketed, View};
use atomic_table::{Badge, Table};
use std::alloc::{AllocError, Global};
use std::marker::{Brand, Model};
use std::mem;
use std::sync::Wait;

/// A pass of a lock over a list of these entries, with an allowance of at least 1. Contracts see what it knows. It takes
/// no memory, and may go to another thread.
#[derive(Drop)]
pub struct LockHandle<E> {
    badge: Badge<View<E>>,
}

impl<E> Model for LockHandle<E> {
    ghost use Rattle.log_lock.specs.Passes.{Known};
    ghost use Rattle.log_lock.specs.Views.{IsOneResting, known_of};

    ghost Value = { Known E };

    ghost view = { λ p. known_of p.badge.table_id p.badge.views };

    ghost invariant = { λ p. IsOneResting p.badge.views };
}

/// A ticket lock over a state. Passes take turns in the order in which they drew their numbers. Contracts see which lock
/// it is, and for how many passes.
pub struct TicketLock<T: LockedState> {
    pub(crate) table: Table<Option<T>, View<T::Entry>, u32, Ticketed<T>, Global>,
    pub(crate) sleepers: Sleepers,
    pub(crate) board: Board<T::Hint>,
}

impl<T: LockedState> Model for TicketLock<T> {
    ghost use Rattle.std.specs.Prelude.{◌≡◌, ◌≤◌};
    ghost use Rattle.log_lock.specs.Passes.{Lock};

    ghost Value = { Lock };

    ghost view = { λ t. record { id = t.table.shared.table_id; handles = t.table.shared.key } };

    ghost invariant = { λ t. (t.table.shared.table_id.words ≡ 2) × (t.table.shared.table_id.slots ≡ 1) × (1 ≤ t.table.shared.key) × (t.table.shared.key ≤ 64) };
}

impl<T: LockedState> TicketLock<T> {
    /// A lock over the state, for that many passes, with the first of them, which may be split. The state comes back
    /// where there is no memory.
    pub fn new(
        alloc: Global,
        state: T,
        handles: u32,
    ) -> Result<(TicketLock<T>, LockHandle<T::Entry>), (AllocError, T)>
        requires handles { (1 ≤ handles) × (handles ≤ 64) }
        requires decided { (T.snapshot state).pending ≡ None }
        requires reached { T.reached (T.snapshot state) state }
        ensures lock { IfOk result (λ r. (r.0.id ≡ r.1.lock) × (r.0.handles ≡ handles)) }
        ensures first { IfOk result (λ r. r.1 ≡ record {
          lock = r.1.lock;
          allowance = handles;
          opening = T.snapshot state;
          room = T.room state;
          seen = (T.snapshot state).list;
          mine = [];
          settled = [];
          left = [];
          faults = 0;
          wants = 0;
          turns = 0;
        }) }
        ensures state { IfErr result (λ e. e.1 ≡ state) }
    {
        let Ok(sleepers) = Sleepers::new(alloc) else {
            return Err((AllocError, state));
        };
        let Ok(board) = Board::new(alloc) else {
            return Err((AllocError, state));
        };
        match Table::vacant(alloc, &[0, 0], 1, &handles) {
            Err(error) => Err((error, state)),
            Ok((table, mut seat)) => {
                let turns = TicketLock {
                    table,
                    sleepers,
                    board,
                };
                turns.bring(&mut seat, state);
                Ok((
                    turns,
                    LockHandle {
                        badge: seat.into_badge(),
                    },
                ))
            }
        }
    }

    /// Leaves a note for the turns to come: each is told what was left before it, in the order in which it was left, and no
    /// later turn is told it again. Where the board is full the note is dropped. Nothing that is promised rests on notes.
    pub fn post<R: Wait>(&self, rt: &R, note: T::Hint) {
        self.board.leave(rt, note);
    }

    /// One turn of the state, once the pass is served. Its reply is the state's own, on a list whose older part is what
    /// the pass had seen.
    pub fn submit<R: Wait>(
        &self,
        rt: &R,
        handle: &mut LockHandle<T::Entry>,
        operation: T::Operation,
    ) -> T::Reply
        requires { handle.old.lock ≡ self.now.id }
        ensures turned { TakesSubmit (T.own operation) (T.says result) (λ before after. T.meets before operation result after) handle.old handle.new }
        ensures wants { handle.new.wants ≡ handle.old.wants + wants_in (T.wants result) }
        ensures seen { IsOlder handle.old.seen handle.new.seen }
        ensures lock { handle.new.lock ≡ handle.old.lock }
        ensures share { handle.new.allowance ≡ handle.old.allowance }
        ensures opening { handle.new.opening ≡ handle.old.opening }
    {
        let mut seat = mem::replace(&mut handle.badge, Badge::blank()).into_seat();
        let reply = self.submit_in_turn(rt, &mut seat, operation);
        handle.badge = seat.into_badge();
        reply
    }

    /// Cuts a part of the allowance off, for a new pass that has seen as much.
    pub fn split(
        &self,
        handle: LockHandle<T::Entry>,
        share: u32,
    ) -> (LockHandle<T::Entry>, LockHandle<T::Entry>)
        requires lock { handle.lock ≡ self.now.id }
        requires share { (1 ≤ share) × (share < handle.allowance) }
        ensures rest { result.0 ≡ record handle { allowance = handle.allowance - share } }
        ensures part { result.1 ≡ record handle { allowance = share; mine = []; settled = []; left = []; faults = 0; wants = 0; turns = 0 } }
    {
        let LockHandle { badge } = handle;
        let mut seat = badge.into_seat();
        let part = self.cut::<Brand>(&mut seat, share);
        (
            LockHandle {
                badge: seat.into_badge(),
            },
            LockHandle {
                badge: part.into_badge(),
            },
        )
    }

    /// Takes in all that another pass has. Of the two lists that they have seen each is the older part of the one that
    /// the pass then has seen.
    pub fn join(&self, handle: &mut LockHandle<T::Entry>, other: LockHandle<T::Entry>)
        requires { (handle.old.lock ≡ self.now.id) × (other.lock ≡ self.now.id) }
        ensures both { handle.new ≡ record handle.old {
          allowance = handle.old.allowance + other.allowance;
          seen = handle.new.seen;
          mine = handle.old.mine ++ other.mine;
          settled = handle.old.settled ++ other.settled;
          left = handle.old.left ++ other.left;
          faults = handle.old.faults + other.faults;
          wants = handle.old.wants + other.wants;
          turns = handle.old.turns + other.turns;
        } }
        ensures seen { IsOlder handle.old.seen handle.new.seen × IsOlder other.seen handle.new.seen }
        ensures longer { (handle.new.seen ≡ handle.old.seen) ⊎ (handle.new.seen ≡ other.seen) }
    {
        let LockHandle { badge } = other;
        let mut seat = mem::replace(&mut handle.badge, Badge::blank()).into_seat();
        self.take_in(&mut seat, badge.into_seat());
        handle.badge = seat.into_badge();
    }

    /// The pass sees what another one has seen, which stays as it was.
    pub fn meet(&self, handle: &mut LockHandle<T::Entry>, other: &mut LockHandle<T::Entry>)
        requires { (handle.old.lock ≡ self.now.id) × (other.old.lock ≡ self.now.id) }
        ensures other { other.new ≡ other.old }
        ensures same { handle.new ≡ record handle.old { seen = handle.new.seen } }
        ensures seen { IsOlder handle.old.seen handle.new.seen × IsOlder other.old.seen handle.new.seen }
        ensures longer { (handle.new.seen ≡ handle.old.seen) ⊎ (handle.new.seen ≡ other.old.seen) }
    {
        let mut seat = mem::replace(&mut handle.badge, Badge::blank()).into_seat();
        let mut other_seat = mem::replace(&mut other.badge, Badge::blank()).into_seat();
        let copy = self.cut::<Brand>(&mut other_seat, 0);
        self.take_in(&mut seat, copy);
        handle.badge = seat.into_badge();
        other.badge = other_seat.into_badge();
    }

    /// Ends the lock by the one pass that is left, and gives the state back.
    pub fn close(self, handle: LockHandle<T::Entry>) -> T
        requires lock { handle.lock ≡ self.id }
        requires all { handle.allowance ≡ self.handles }
        ensures closes { Closes handle (T.snapshot result) }
        ensures reached { T.reached handle.opening result }
    {
        let TicketLock {
            table,
            sleepers: _,
            board: _,
        } = self;
        let LockHandle { badge } = handle;
        let mut closed = table.close_with(badge.into_seat());
        let state = closed.take(0);
        closed.free();
        state.unwrap()
    }
}
