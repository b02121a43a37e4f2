// The steps of the seats of a lock's table, one after the other as its calls need them.
ghost use Rattle.std.specs.Prelude.{◌≡◌, ◌+◌, ◌<◌, ◌≤◌, ◌%◌, ◌^◌, ◌==◌, [], ◌∷◌, ℕ, Some, None, MatchBool};
ghost use Rattle.log_lock.specs.Turning.{TakesRoom, faults_in, wants_in};
ghost use Rattle.log_lock.specs.declared.turned.Snapshot.{Snapshot};
ghost use Rattle.log_lock.specs.Passes.{IsOlder, TakesSubmit};
ghost use Rattle.log_lock.specs.Views.{newcomer, bringer, begun, known, with_less, with_part, with_other, with_longer};
ghost use Rattle.log_lock.specs.Rule.{IsIdle, IsDone, IsServedAfter, IsWaiting, HasEnded, HasGone};

use crate::board::MOST_NOTES;
use crate::view::{Bring, Cut, Draw, End, Ending, Glue, Learn, Look, SeatOf, Sharing, TakeEmpty};
use crate::{LockedState, TicketLock};
use std::marker::Brand;
use std::sync::Wait;
use std::thread::yield_now;

// How often a seat looks whether the lock is free before it draws a number: so often in all, so often where no turn ends meanwhile,
// and so often at first without leaving the processor to others.
const LOOKS_BEFORE_DRAWING: u32 = 200;

const LOOKS_AT_ONE_TURN: u32 = 40;

const LOOKS_AT_FIRST: u32 = 20;

// How often a seat whose turn is the next looks before it leaves the processor to others between looks: a short turn ends in
// that time.
const LOOKS_BUSY: u32 = 100;

// How often a seat whose turn comes later looks before it sleeps.
const LOOKS_BEFORE_SLEEP: u32 = 20;

impl<T: LockedState> TicketLock<T> {
    // Brings the state into the slot.
    pub(crate) fn bring(&self, seat: &mut SeatOf<T>, state: T)
        requires lock { seat.old.table_id ≡ self.now.id }
        requires first { seat.old.me ≡ (newcomer self.now.handles, []) }
        requires decided { (T.snapshot state).pending ≡ None }
        requires reached { T.reached (T.snapshot state) state }
        ensures lock { seat.new.table_id ≡ seat.old.table_id }
        ensures begun { seat.new.me ≡ (begun self.now.handles (T.snapshot state) (T.room state), []) }
    {
        self.table.shared.load::<TakeEmpty>(seat, 0);
        let before = self.table.shared.exchange(seat, 0, Some(state));
        let None = before else { unreachable!() };
        self.begin(seat);
    }

    // Gives the slot back with the state, and the lock is open.
    fn begin(&self, seat: &mut SeatOf<T>)
        requires lock { seat.old.table_id ≡ self.now.id }
        requires first { (x : T) × (seat.old.me ≡ (bringer self.now.handles, (0, Some x) ∷ [])) × ((T.snapshot x).pending ≡ None) × T.reached (T.snapshot x) x }
        ensures lock { seat.new.table_id ≡ seat.old.table_id }
        ensures begun { (x : T) → seat.old.me.1 ≡ (0, Some x) ∷ [] → seat.new.me ≡ (begun self.now.handles (T.snapshot x) (T.room x), []) }
    {
        self.table.shared.load::<Bring<T>>(seat, 0);
    }

    /// Waits a while for the lock to be free: to be called before a turn, and before what is posted for the turns before it. A
    /// number that a seat has drawn whose thread doesn't run holds up all behind it, so where threads are more than processors
    /// few numbers should be out; and where a turn is long, as over a disk, who waits should have drawn one, so that the turn
    /// may go by its note. The wait ends, so each seat draws in the end.
    pub fn approach(&self) {
        let mut seen = self.table.shared.peek(1);
        let mut unchanged: u32 = 0;
        for looks in 0..LOOKS_BEFORE_DRAWING {
            let served = self.table.shared.peek(1);
            if served == self.table.shared.peek(0) {
                break;
            }
            unchanged = if served == seen {
                unchanged.saturating_add(1)
            } else {
                0
            };
            if unchanged > LOOKS_AT_ONE_TURN {
                break;
            }
            seen = served;
            if looks >= LOOKS_AT_FIRST {
                yield_now();
            }
        }
    }

    // Draws a number.
    fn draw(&self, seat: &mut SeatOf<T>) -> u64
        requires lock { seat.old.table_id ≡ self.now.id }
        requires idle { IsIdle seat.old.me }
        requires share { 1 ≤ seat.old.me.0.allowance }
        ensures lock { seat.new.table_id ≡ seat.old.table_id }
        ensures number { (k : ℕ) × (result ≡ k % 2 ^ 64) × (seat.new.me ≡ (record seat.old.me.0 { number = Some k }, [])) }
    {
        self.table.shared.fetch_add::<Draw>(seat, 0, 1)
    }

    // Looks at the number that is served, and takes the state into the seat where it is this seat's.
    fn look(&self, seat: &mut SeatOf<T>, number: u64) -> u64
        requires lock { seat.old.table_id ≡ self.now.id }
        requires waiting { IsWaiting number seat.old.me }
        ensures lock { seat.new.table_id ≡ seat.old.table_id }
        ensures served { MatchBool (result == number) (IsServedAfter T.snapshot T.reached T.room seat.old.me seat.new.me) (seat.new.me ≡ seat.old.me) }
    {
        self.table.shared.load::<Look<T>>(seat, 1)
    }

    // Waits until the seat is served. While its turn isn't the next, it sleeps after some looks. The seat whose turn is the
    // next stays awake, since a turn is short beside a waking.
    fn wait<R: Wait>(&self, rt: &R, seat: &mut SeatOf<T>, number: u64)
        requires lock { seat.old.table_id ≡ self.now.id }
        requires waiting { IsWaiting number seat.old.me }
        ensures lock { seat.new.table_id ≡ seat.old.table_id }
        ensures served { IsServedAfter T.snapshot T.reached T.room seat.old.me seat.new.me }
    {
        let mut looks = 0;
        for _ in rt.forever() {
            let served = self.look(seat, number);
            if served == number {
                break;
            }
            if number.wrapping_sub(served) == 1 {
                if looks < LOOKS_BUSY {
                    looks += 1;
                } else {
                    yield_now();
                }
            } else if looks < LOOKS_BEFORE_SLEEP {
                looks += 1;
            } else {
                self.rest(rt, number);
                looks = 0;
            }
        }
    }

    // Sleeps, where the turn with this number comes later than the next, until it is the next. No wake is lost: the seat tells
    // that it is about to sleep and then looks once more, and the turn before the next one counts on and then asks whether it
    // sleeps. All threads see these steps in one order, so the seat finds the new number, or the turn finds it asleep or
    // about to be.
    fn rest<R: Wait>(&self, rt: &R, number: u64) {
        self.sleepers.announce(number);
        let served = self.table.shared.peek(1);
        if number.wrapping_sub(served) >= 2 {
            self.sleepers.sleep(rt, number);
        }
    }

    // Tells the state what was left on the board, as far as a full board goes.
    fn tell<R: Wait>(&self, rt: &R, state: &mut T)
        ensures same { T.snapshot state.new ≡ T.snapshot state.old }
        ensures room { T.room state.new ≡ T.room state.old }
        ensures reaches { (start : Snapshot T.Entry) → T.reached start state.old → T.reached start state.new }
    {
        for _ in 0..MOST_NOTES {
            let Some(note) = self.board.next(rt) else {
                break;
            };
            state.hint(note);
        }
    }

    // Takes the state out of the seat's slot, tells it what was left on the board, has it take its turn, and puts it back.
    fn serve<R: Wait>(&self, rt: &R, seat: &mut SeatOf<T>, operation: T::Operation) -> T::Reply
        requires lock { seat.old.table_id ≡ self.now.id }
        requires served { (x : T) × (seat.old.me.1 ≡ (0, Some x) ∷ []) }
        ensures lock { seat.new.table_id ≡ seat.old.table_id }
        ensures view { seat.new.me.0 ≡ seat.old.me.0 }
        ensures turned { (x : T) → seat.old.me.1 ≡ (0, Some x) ∷ [] → (y : T) × HasGone (T.own operation) (T.says result) (T.snapshot x) (T.snapshot y)
            × T.meets (T.snapshot x) operation result (T.snapshot y) × ((start : Snapshot T.Entry) → T.reached start x → T.reached start y)
            × TakesRoom (wants_in (T.wants result)) (T.room x) (T.room y) × (seat.new.me.1 ≡ (0, Some y) ∷ []) }
    {
        let taken = self.table.shared.exchange(seat, 0, None);
        let Some(mut state) = taken else {
            unreachable!()
        };
        self.tell(rt, &mut state);
        let reply = state.submit(operation);
        let before = self.table.shared.exchange(seat, 0, Some(state));
        let None = before else { unreachable!() };
        reply
    }

    // Ends the turn, and wakes the seat whose turn is the next from now on. The one that is served now is awake: it was woken
    // when its turn became the next, or hasn't slept.
    fn end<N: Ending>(&self, seat: &mut SeatOf<T>, reply: &T::Reply)
        requires picked { (N.faults ≡ faults_in (T.says reply.now)) × (N.wants ≡ wants_in (T.wants reply.now)) }
        requires lock { seat.old.table_id ≡ self.now.id }
        requires done { (x : T) × (base : _) × IsDone T.snapshot T.reached T.room (faults_in (T.says reply.now)) (wants_in (T.wants reply.now)) x base seat.old.me }
        ensures lock { seat.new.table_id ≡ seat.old.table_id }
        ensures ended { HasEnded T.snapshot T.reached T.room (faults_in (T.says reply.now)) (wants_in (T.wants reply.now)) seat.old.me seat.new.me }
    {
        let number = self.table.shared.fetch_add::<End<T, N>>(seat, 1, 1);
        self.sleepers.wake(number.wrapping_add(2));
    }

    // A whole turn of a seat.
    pub(crate) fn submit_in_turn<R: Wait>(
        &self,
        rt: &R,
        seat: &mut SeatOf<T>,
        operation: T::Operation,
    ) -> T::Reply
        requires lock { seat.old.table_id ≡ self.now.id }
        requires idle { IsIdle seat.old.me }
        requires share { 1 ≤ seat.old.me.0.allowance }
        ensures lock { seat.new.table_id ≡ seat.old.table_id }
        ensures idle { IsIdle seat.new.me }
        ensures share { seat.new.me.0.allowance ≡ seat.old.me.0.allowance }
        ensures turned { TakesSubmit (T.own operation) (T.says result) (λ before after. T.meets before operation result after) (known self.now.id seat.old.me.0) (known self.now.id seat.new.me.0) }
        ensures wants { seat.new.me.0.wants ≡ seat.old.me.0.wants + wants_in (T.wants result) }
    {
        let number = self.draw(seat);
        self.wait(rt, seat, number);
        let reply = self.serve(rt, seat, operation);
        self.end::<Brand>(seat, &reply);
        reply
    }

    // Cuts a part of the allowance off, for a new seat.
    pub(crate) fn cut<N: Sharing>(&self, seat: &mut SeatOf<T>, share: u32) -> SeatOf<T>
        requires picked { N.share ≡ share }
        requires lock { seat.old.table_id ≡ self.now.id }
        requires idle { IsIdle seat.old.me }
        requires share { share < seat.old.me.0.allowance }
        ensures lock { (seat.new.table_id ≡ seat.old.table_id) × (result.table_id ≡ seat.old.table_id) }
        ensures rest { seat.new.me ≡ (with_less share seat.old.me.0, []) }
        ensures part { result.me ≡ (with_part share seat.old.me.0, []) }
    {
        self.table.shared.split_seat::<Cut<N>>(seat)
    }

    // Takes in all that another seat has.
    fn glue(&self, seat: &mut SeatOf<T>, other: SeatOf<T>)
        requires lock { (seat.old.table_id ≡ self.now.id) × (other.table_id ≡ self.now.id) }
        requires idle { IsIdle seat.old.me × IsIdle other.me }
        ensures lock { seat.new.table_id ≡ seat.old.table_id }
        ensures both { seat.new.me ≡ (with_other seat.old.me.0 other.me.0, []) }
    {
        self.table.shared.join_seat::<Glue>(seat, other);
    }

    // Looks which of the two lists that the seat has seen is the longer one.
    fn learn(&self, seat: &mut SeatOf<T>)
        requires lock { seat.old.table_id ≡ self.now.id }
        requires idle { IsIdle seat.old.me }
        ensures lock { seat.new.table_id ≡ seat.old.table_id }
        ensures view { seat.new.me ≡ (with_longer seat.old.me.0, []) }
        ensures older { IsOlder seat.old.me.0.seen seat.new.me.0.seen × IsOlder seat.old.me.0.also seat.new.me.0.seen }
    {
        self.table.shared.load::<Learn>(seat, 0);
    }

    // Takes in all that another seat has, and then has seen the longer list.
    pub(crate) fn take_in(&self, seat: &mut SeatOf<T>, other: SeatOf<T>)
        requires lock { (seat.old.table_id ≡ self.now.id) × (other.table_id ≡ self.now.id) }
        requires idle { IsIdle seat.old.me × IsIdle other.me }
        ensures lock { seat.new.table_id ≡ seat.old.table_id }
        ensures both { seat.new.me ≡ (with_longer (with_other seat.old.me.0 other.me.0), []) }
        ensures older { IsOlder seat.old.me.0.seen seat.new.me.0.seen × IsOlder other.me.0.seen seat.new.me.0.seen }
    {
        self.glue(seat, other);
        self.learn(seat);
    }
}
