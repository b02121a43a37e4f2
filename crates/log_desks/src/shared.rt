// A kept list as a state that takes turns.
ghost use Rattle.std.specs.Prelude.{◌≡◌, ◌+◌, ◌≤◌, ◌<◌, ◌^◌, [], None, Bool, ℕ, List, OnOk, OnErr, IsOk, reverse, vec_len, vec_capacity, length};
ghost use Rattle.io_traits.specs.DiskState.{IsHonest};
ghost use Rattle.log_machine.specs.Kept.{IsSound};
ghost use Rattle.log_machine.specs.Submits.{with_entry};
ghost use Rattle.log_desks.specs.Notes.{Notes};
ghost use Rattle.log_desks.specs.Shares.{places_of_row};

use crate::WaitingRow;
use crate::waiting::Waiting;
use io_traits::Disk;
use log_lock::LockedState;
use log_machine::{Filed, Log, LogReply, RowName, RowOperation, SingleEntryMachine, StateMachine};
use std::alloc::{AllocError, Global};
use std::marker::{Brand, Model, PhantomData};

/// Where the sharing of a list began. No value of it is made: the call that shares a list picks it.
pub trait Since {
    ghost use Rattle.std.specs.Prelude.{ℕ, List};

    /// The moment of the disk then.
    ghost moment: { ℕ };

    /// Whether a crash may have left these bytes up to then, at some moment from that one on.
    ghost already: { ℕ → List ℕ → Type 0 };
}

impl Since for Brand {
    ghost moment = { 0 };

    ghost already = { λ t file. Unit {0} };
}

/// A kept list over which desks take turns. It notes which rows filed the entries that joined it since it was made.
#[derive(Drop)]
pub struct SharedList<D: Disk, R: SingleEntryMachine, M: Since> {
    kept: Log<D, R>,
    // The rows that filed them, the oldest first.
    log: Vec<RowName>,
    // The row whose entry is undecided.
    waiting: Option<RowName>,
    // The rows whose turns come. Nothing that is promised rests on them.
    next: Waiting,
    since: PhantomData<M>,
}

impl<D: Disk, R: SingleEntryMachine, M: Since> Model for SharedList<D, R, M> {
    ghost use Rattle.std.specs.Prelude.{◌+◌, ◌-◌, min, reverse, vec_len, vec_capacity};
    ghost use Rattle.log_desks.specs.Shares.{Shared, AreBoth, places_of_row};

    ghost Value = { Shared D R.Entry };

    ghost view = { λ s. record {
      disk = s.kept.disk;
      history = s.kept.history;
      pending = s.kept.pending;
      room = min s.kept.room (vec_capacity s.log - (vec_len s.log + places_of_row s.waiting));
      log = reverse s.log.items;
      waiting = s.waiting;
    } };

    ghost invariant = { λ s. AreBoth s.kept.pending s.waiting };
}

// What was undecided is settled: the row that waited for it is noted.
fn note_settled(log: &mut Vec<RowName>, waiting: &mut Option<RowName>)
    requires { vec_len log.old + places_of_row waiting.old ≤ vec_capacity log.old }
    ensures log { reverse log.new.items ≡ with_entry waiting.old (reverse log.old.items) }
    ensures waiting { waiting.new ≡ None }
    ensures room { vec_len log.new ≡ vec_len log.old + places_of_row waiting.old }
    ensures capacity { vec_capacity log.new ≡ vec_capacity log.old }
{
    if let Some(by) = waiting.take() {
        log.push_reserved(by);
    }
}

// Notes what a row's reply says of the rows that filed entries.
fn note<R: SingleEntryMachine>(
    log: &mut Vec<RowName>,
    waiting: &mut Option<RowName>,
    front: u32,
    by: RowName,
    reply: &LogReply<R::Response>,
)
    requires room { vec_len log.old + places_of_row waiting.old + 1 ≤ vec_capacity log.old }
    requires few { front + 1 < 2 ^ 32 }
    ensures notes { Notes R.adds by front reply.now (reverse log.old.items) waiting.old (reverse log.new.items) waiting.new }
    ensures room { vec_len log.new + places_of_row waiting.new ≤ vec_len log.old + places_of_row waiting.old + 1 }
    ensures capacity { vec_capacity log.new ≡ vec_capacity log.old }
{
    match reply {
        LogReply::Answered { response, front: _ } => {
            note_settled(log, waiting);
            if R::is_added(response) {
                log.push_reserved(by);
            }
        }
        LogReply::DiskFault { undecided: None } => note_settled(log, waiting),
        LogReply::DiskFault {
            undecided: Some(position),
        } => {
            if waiting.is_none() || *position != front + 1 {
                note_settled(log, waiting);
                *waiting = Some(by);
            }
        }
        LogReply::NoMemory => {}
    }
}

impl<D: Disk, R: SingleEntryMachine, M: Since> SharedList<D, R, M> {
    /// Shares a list of which nothing is undecided. Its file is made longer ahead of its records, since of a turn it isn't known
    /// for certain what comes next. Room is taken for the rows that wait, where there is memory for it.
    pub fn new(alloc: Global, mut kept: Log<D, R>) -> SharedList<D, R, M>
        requires { kept.pending ≡ None }
        ensures disk { result.disk ≡ kept.disk }
        ensures history { result.history ≡ kept.history }
        ensures pending { result.pending ≡ None }
        ensures log { result.log ≡ [] }
        ensures waiting { result.waiting ≡ None }
    {
        kept.allow_lengthening();
        SharedList {
            kept,
            log: Vec::new(alloc),
            waiting: None,
            next: Waiting::new(alloc),
            since: PhantomData,
        }
    }

    /// Makes room for so many turns. An `Err` is want of memory, and leaves all as it was.
    pub fn reserve(&mut self, n: u32) -> Result<(), AllocError>
        ensures disk { self.new.disk ≡ self.old.disk }
        ensures history { self.new.history ≡ self.old.history }
        ensures pending { self.new.pending ≡ self.old.pending }
        ensures log { self.new.log ≡ self.old.log }
        ensures waiting { self.new.waiting ≡ self.old.waiting }
        ensures room { OnOk result (n ≤ self.new.room) }
        ensures no_less { self.old.room ≤ self.new.room }
    {
        self.log.reserve(n as usize + 2)?;
        self.kept.reserve(n)
    }

    /// Ends the sharing. It gives the list back, and the rows that filed the newest entries, the oldest first.
    pub fn into_parts(self) -> (Log<D, R>, Vec<RowName>)
        ensures disk { result.0.disk ≡ self.disk }
        ensures history { result.0.history ≡ self.history }
        ensures pending { result.0.pending ≡ self.pending }
        ensures room { self.room ≤ result.0.room }
        ensures log { reverse result.1.items ≡ self.log }
        ensures sound { IsHonest (D.tells self.disk) → IsSound R.scheme (D.tells self.disk) self.history self.pending }
    {
        let SharedList {
            kept,
            log,
            waiting: _,
            next: _,
            since: _,
        } = self;
        kept.sound();
        (kept, log)
    }
}

impl<D: Disk, R: SingleEntryMachine, M: Since> LockedState for SharedList<D, R, M> {
    ghost use Rattle.log_machine.specs.Names.{filed_by};
    ghost use Rattle.log_desks.specs.Notes.{says_of};
    ghost use Rattle.log_desks.specs.Shares.{stand_of, wants_memory, IsReached, IsTurn};

    type Operation = RowOperation<R::Operation>;

    type Reply = LogReply<R::Response>;

    type Entry = Filed<R::Entry>;

    type Hint = WaitingRow;

    ghost snapshot = { λ s. stand_of s.history s.pending s.log s.waiting (D.faults s.disk) (D.tells s.disk).honest };

    ghost own = { λ operation. filed_by (R.own operation.operation) operation.by };

    ghost says = { says_of R.adds };

    ghost meets = { λ old operation reply new. IsTurn R.semantics old operation.operation reply new };

    ghost reached = { λ start s. IsReached D.Disk R.scheme M.moment M.already start s.disk s.history s.pending };

    ghost room = { λ s. s.room };

    ghost wants = { wants_memory };

    fn submit(&mut self, operation: RowOperation<R::Operation>) -> LogReply<R::Response> {
        let places = usize::from(self.waiting.is_some());
        if self.log.reserve(places + 1).is_err() {
            return LogReply::NoMemory;
        }
        let RowOperation { operation, by } = operation;
        let front = self.kept.machine().front();
        self.next.begin(by.desk);
        let reply = self.kept.submit_guessing(operation, self.next.bytes());
        note::<R>(&mut self.log, &mut self.waiting, front, by, &reply);
        reply
    }

    fn hint(&mut self, row: WaitingRow) {
        self.next.hint(row);
    }
}
