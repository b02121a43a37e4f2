// What the seats of the lock's table have, and what each step tells.
ghost use Rattle.std.specs.Prelude.{ℕ};
ghost use Rattle.log_lock.specs.Views.{newcomer, with_less, with_part, with_other};
ghost use Rattle.log_lock.specs.Rule.{LockRule, takes_empty, brings, draws, looks, ends, learns};

use crate::{LockedState, Snapshot};
use atomic_table::{Join, Play, Seat, Split, TableRule};
use std::collections::LinkedList;
use std::marker::{Brand, PhantomData};

// What a seat has. No value of it is made.
pub struct View<E> {
    // How the state stood when the lock was made with it.
    pub opening: Option<Snapshot<E>>,
    // For how many turns it had room then.
    pub room: u64,
    // The list that was seen, and after a join also the other's.
    pub seen: LinkedList<E>,
    pub also: LinkedList<E>,
    // The entries that its turns admitted of their own asks, settled of earlier ones, and newly left pending, each with its
    // position.
    pub mine: LinkedList<(u64, E)>,
    pub settled: LinkedList<(u64, E)>,
    pub left: LinkedList<(u64, E)>,
    // How many replies told of a fault.
    pub faults: u64,
    // How many told of want of memory, and how many turns it took.
    pub wants: u64,
    pub turns: u64,
    // Its part of the lock's passes.
    pub allowance: u64,
    // The number that it holds, and the stand of the state that it was served, with the room of that.
    pub number: Option<u64>,
    pub base: Option<Snapshot<E>>,
    pub held: u64,
}

// A seat in the table of a lock over such a state.
pub(crate) type SeatOf<T> = Seat<Option<T>, View<<T as LockedState>::Entry>>;

// The rule of the lock's table.
pub struct Ticketed<T> {
    marker: PhantomData<T>,
}

impl<T: LockedState> TableRule<Option<T>, View<T::Entry>, u32> for Ticketed<T> {
    ghost holds = { LockRule T.snapshot T.reached T.room };

    ghost first = { newcomer };
}

// The first seat takes the empty slot.
pub struct TakeEmpty;

impl<T, E> Play<Option<T>, View<E>> for TakeEmpty {
    ghost then = { takes_empty };
}

// It gives the slot back with the state.
pub struct Bring<T> {
    marker: PhantomData<T>,
}

impl<T: LockedState> Play<Option<T>, View<T::Entry>> for Bring<T> {
    ghost then = { brings T.snapshot T.reached T.room };
}

// A seat draws a number.
pub struct Draw;

impl<T, E> Play<Option<T>, View<E>> for Draw {
    ghost then = { draws };
}

// A seat looks at the number that is served.
pub struct Look<T> {
    marker: PhantomData<T>,
}

impl<T: LockedState> Play<Option<T>, View<T::Entry>> for Look<T> {
    ghost then = { looks T.snapshot T.reached T.room };
}

// What a call picks: how many faults the reply tells of, and how often of want of memory.
pub trait Ending {
    ghost faults: { ℕ };

    ghost wants: { ℕ };
}

impl Ending for Brand {
    ghost faults = { 0 };

    ghost wants = { 0 };
}

// A seat ends its turn.
pub struct End<T, N> {
    marker: PhantomData<(T, N)>,
}

impl<T: LockedState, N: Ending> Play<Option<T>, View<T::Entry>> for End<T, N> {
    ghost then = { ends T.snapshot T.reached T.room N.faults N.wants };
}

// A seat learns which of its two lists is the longer one.
pub struct Learn;

impl<T, E> Play<Option<T>, View<E>> for Learn {
    ghost then = { learns };
}

// What a call picks: how much of the allowance is cut off.
pub trait Sharing {
    ghost share: { ℕ };
}

impl Sharing for Brand {
    ghost share = { 0 };
}

// A part of the allowance is cut off.
pub struct Cut<N> {
    marker: PhantomData<N>,
}

impl<E, N: Sharing> Split<View<E>> for Cut<N> {
    ghost left = { with_less N.share };

    ghost right = { with_part N.share };
}

// A seat takes in all that another one has.
pub struct Glue;

impl<E> Join<View<E>> for Glue {
    ghost both = { with_other };

    ghost spent = { newcomer 0 };
}
