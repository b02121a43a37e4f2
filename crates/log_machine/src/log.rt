// The docket and its journal: asks are answered in turns.
ghost use Rattle.std.specs.Prelude.{◌≡◌, ◌⊎◌, ◌+◌, ◌≤◌, ◌<◌, ◌^◌, ◌∷◌, [], ℕ, List, false, length, None, Some, IsSome, IsTrue, IsOk, IfOk, IfErr, OnOk, OnErr};
ghost use Rattle.io_traits.specs.Faults.{Rose};
ghost use Rattle.io_traits.specs.DiskState.{IsHonest, EachMoment, EachImage, IsQuiet, IsRead};
ghost use Rattle.log_journal.specs.Head.{IsBorn, IsForeign, IsOld};
ghost use Rattle.log_journal.specs.Stands.{IsUnborn};
ghost use Rattle.log_journal.specs.Founded.{UnbornOrEmpty};

use crate::reading::read_opening;
use crate::writing::lengthen_and_put;
use crate::{Decided, LogReply, NewEntry, StateMachine};
use io_traits::{CAPACITY, Disk, PayloadBuffer};
use log_journal::{FoundError, Journal, OpenError, PutError};
use std::alloc::{AllocError, Global};
use std::marker::Model;

/// Why no list was founded.
#[derive(Clone, Copy, Debug, PartialEq, Eq)]
pub enum FoundFault {
    /// A journal stands there already, of this version or of the one before.
    Exists,
    /// The file is neither a journal of one of these versions nor a file in which one may be founded.
    NotJournal,
    /// The disk refused a call.
    DiskFault,
    /// There is no memory. Nothing was written.
    NoMemory,
}

/// A list over a journal. At most one entry is undecided: a fault left it on the disk, and not known to stand. Over an
/// honest disk each image recovers the list, or the list with the undecided entry, at any time.
#[derive(Drop)]
pub struct Log<D: Disk, R: StateMachine> {
    machine: R,
    journal: Journal<D>,
    // The entry that is undecided. One of the docket's spare places is its own.
    pending: Option<NewEntry<R::Entry, R::Ruling>>,
    room: PayloadBuffer,
    // What the next ask may add.
    ahead: PayloadBuffer,
}

impl<D: Disk, R: StateMachine> Model for Log<D, R> {
    ghost use Rattle.std.specs.Prelude.{◌-◌, IfSome};
    ghost use Rattle.log_journal.specs.Journal.{journal_disk};
    ghost use Rattle.log_machine.specs.NewEntry.{entry_of};
    ghost use Rattle.log_machine.specs.Kept.{Kept, IsWhole, places_of};

    ghost Value = { Kept D R.Entry };

    ghost view = { λ k. record {
      disk = journal_disk k.journal;
      history = R.history k.machine;
      pending = entry_of k.pending;
      room = R.spare k.machine - places_of (entry_of k.pending);
    } };

    ghost invariant = { λ k. IsWhole D.Disk R.scheme k.journal (R.history k.machine) (R.spare k.machine) (entry_of k.pending)
        × IfSome k.pending (λ a. R.IsRuling (R.history k.machine) a.entry a.ruling) };
}

impl<D: Disk, R: StateMachine> Log<D, R> {
    ghost use Rattle.log_machine.specs.Recovers.{Recovers, RecoversEither};
    ghost use Rattle.log_machine.specs.Faulty.{IsFaultyAt};
    ghost use Rattle.log_machine.specs.Submits.{Answers, Submits, MayRecover, RecoversOnWay, with_entry, after_ask, is_fault, IsKeptOr};
    ghost use Rattle.log_machine.specs.Kept.{IsSound};

    /// Founds a list without entries, in a file of fewer than 17 bytes, whatever they are, or of 17 bytes whose first
    /// isn't 1.
    pub fn found(alloc: Global, disk: D) -> Result<Self, (FoundFault, D)>
        ensures honest { IfOk result (λ kept. (D.tells kept.disk).honest ≡ (D.tells disk).honest) }
        ensures honest_err { IfErr result (λ e. (D.tells e.1).honest ≡ (D.tells disk).honest) }

        // Each answer comes by the bytes. A refusal by them, and one for want of memory, writes nothing.
        ensures unborn { IsHonest (D.tells disk) → OnOk result (IsUnborn (D.tells disk).reads) }
        ensures exists { IsHonest (D.tells disk)
            → IfErr result (λ e. e.0 ≡ FoundFault.Exists → (IsBorn R.scheme.header (D.tells disk).reads ⊎ IsOld R.scheme.header (D.tells disk).reads)
            × IsRead (D.tells disk) (D.tells e.1)) }
        ensures foreign { IsHonest (D.tells disk)
            → IfErr result (λ e. e.0 ≡ FoundFault.NotJournal → IsForeign R.scheme.header (D.tells disk).reads × IsRead (D.tells disk) (D.tells e.1)) }
        ensures no_memory { IfErr result (λ e. e.0 ≡ FoundFault.NoMemory → e.1 ≡ disk) }

        // Only a file in which a journal may be founded is written, whatever the answer.
        ensures untouched { IsHonest (D.tells disk)
            → IfErr result (λ e. IsUnborn (D.tells disk).reads ⊎ IsRead (D.tells disk) (D.tells e.1)) }

        ensures empty { IfOk result (λ kept. kept.history ≡ []) }
        ensures decided { IfOk result (λ kept. kept.pending ≡ None) }
        ensures sound { IsHonest (D.tells disk) → IfOk result (λ kept. IsSound R.scheme (D.tells kept.disk) kept.history kept.pending) }
        ensures quiet { IsHonest (D.tells disk) → IfOk result (λ kept. IsQuiet (D.tells kept.disk)) }

        // At every moment every image is unborn or stands for no entries, where each one is or does as the call begins.
        ensures moments { IsHonest (D.tells disk) → EachImage (D.tells disk) (UnbornOrEmpty R.scheme.header)
            → IfOk result (λ kept. EachMoment (D.tells disk) (D.tells kept.disk) (UnbornOrEmpty R.scheme.header)) }
        ensures moments_err { IsHonest (D.tells disk) → EachImage (D.tells disk) (UnbornOrEmpty R.scheme.header)
            → IfErr result (λ e. EachMoment (D.tells disk) (D.tells e.1) (UnbornOrEmpty R.scheme.header)) }

        ensures later { IfOk result (λ kept. D.faults disk ≤ D.faults kept.disk) }
        ensures later_err { IfErr result (λ e. D.faults disk ≤ D.faults e.1) }
        ensures cause { IfErr result (λ e. e.0 ≡ FoundFault.DiskFault → Rose (D.faults disk) (D.faults e.1)) }

        // Every other answer comes without a fault.
        ensures unmoved { IfOk result (λ kept. D.faults kept.disk ≡ D.faults disk) }
        ensures unmoved_err { IfErr result (λ e. (e.0 ≡ FoundFault.DiskFault) ⊎ (D.faults e.1 ≡ D.faults disk)) }
    {
        let Ok(room) = PayloadBuffer::new(alloc) else {
            return Err((FoundFault::NoMemory, disk));
        };
        let Ok(ahead) = PayloadBuffer::new(alloc) else {
            return Err((FoundFault::NoMemory, disk));
        };
        match log_journal::found(disk, R::header()) {
            Ok(journal) => Ok(Log {
                machine: R::new(alloc),
                journal,
                pending: None,
                room,
                ahead,
            }),
            Err((FoundError::Exists, disk)) => Err((FoundFault::Exists, disk)),
            Err((FoundError::NotJournal, disk)) => Err((FoundFault::NotJournal, disk)),
            Err((FoundError::DiskFault, disk)) => Err((FoundFault::DiskFault, disk)),
        }
    }

    /// Opens a list from the file that was left. It is judged record by record: its bytes, its spelling, its legality,
    /// then the next; `Damaged` names the gate of the first that fails. What stands past the closed gate is cut off.
    pub fn recover(alloc: Global, disk: D) -> Result<Self, (OpenError, D)>
        ensures honest { IfOk result (λ kept. (D.tells kept.disk).honest ≡ (D.tells disk).honest) }
        ensures honest_err { IfErr result (λ e. (D.tells e.1).honest ≡ (D.tells disk).honest) }

        // The list is what the bytes stand for.
        ensures recovers { IsHonest (D.tells disk) → IfOk result (λ kept. Recovers R.scheme (D.tells disk).reads kept.history) }
        ensures decided { IfOk result (λ kept. kept.pending ≡ None) }
        ensures sound { IsHonest (D.tells disk) → IfOk result (λ kept. IsSound R.scheme (D.tells kept.disk) kept.history kept.pending) }
        ensures quiet { IsHonest (D.tells disk) → IfOk result (λ kept. IsQuiet (D.tells kept.disk)) }
        // The moment doesn't fall, whatever images there are.
        ensures elapsed { IsHonest (D.tells disk) → IfOk result (λ kept. (D.tells disk).moment ≤ (D.tells kept.disk).moment) }

        // Each refusal but for the disk and for memory comes by the bytes, and writes nothing.
        ensures no_office { IsHonest (D.tells disk)
            → IfErr result (λ e. e.0 ≡ OpenError.NoOffice → IsUnborn (D.tells disk).reads) }
        ensures foreign { IsHonest (D.tells disk)
            → IfErr result (λ e. e.0 ≡ OpenError.NotJournal → IsForeign R.scheme.header (D.tells disk).reads) }
        ensures old { IsHonest (D.tells disk)
            → IfErr result (λ e. e.0 ≡ OpenError.OldVersion → IsOld R.scheme.header (D.tells disk).reads) }
        ensures damaged { IsHonest (D.tells disk)
            → IfErr result (λ e. (place : ℕ) → e.0 ≡ OpenError.Damaged place
            → IsBorn R.scheme.header (D.tells disk).reads × IsFaultyAt R.scheme (D.tells disk).reads place) }
        ensures complete { IsHonest (D.tells disk) → (history : List R.Entry) → Recovers R.scheme (D.tells disk).reads history
            → IfErr result (λ e. (e.0 ≡ OpenError.NoMemory) ⊎ (e.0 ≡ OpenError.DiskFault)) }
        ensures unwritten { IsHonest (D.tells disk)
            → IfErr result (λ e. (e.0 ≡ OpenError.DiskFault → ⊥) → IsRead (D.tells disk) (D.tells e.1)) }
        // Only a file that recovers a list is written, whatever the answer.
        ensures untouched { IsHonest (D.tells disk)
            → IfErr result (λ e. ((history : List R.Entry) × Recovers R.scheme (D.tells disk).reads history) ⊎ IsRead (D.tells disk) (D.tells e.1)) }

        // Where every image recovers a list, as on a quiet disk, each one at each moment does.
        ensures moments { IsHonest (D.tells disk) → (history : List R.Entry)
            → EachImage (D.tells disk) (λ file. Recovers R.scheme file history)
            → IfOk result (λ kept. EachMoment (D.tells disk) (D.tells kept.disk) (λ file. Recovers R.scheme file history)) }
        ensures moments_err { IsHonest (D.tells disk) → (history : List R.Entry)
            → EachImage (D.tells disk) (λ file. Recovers R.scheme file history)
            → IfErr result (λ e. EachMoment (D.tells disk) (D.tells e.1) (λ file. Recovers R.scheme file history)) }

        ensures later { IfOk result (λ kept. D.faults disk ≤ D.faults kept.disk) }
        ensures later_err { IfErr result (λ e. D.faults disk ≤ D.faults e.1) }
        ensures cause { IfErr result (λ e. e.0 ≡ OpenError.DiskFault → Rose (D.faults disk) (D.faults e.1)) }

        // Every other answer comes without a fault.
        ensures unmoved { IfOk result (λ kept. D.faults kept.disk ≡ D.faults disk) }
        ensures unmoved_err { IfErr result (λ e. (e.0 ≡ OpenError.DiskFault) ⊎ (D.faults e.1 ≡ D.faults disk)) }
    {
        let Ok(mut room) = PayloadBuffer::new(alloc) else {
            return Err((OpenError::NoMemory, disk));
        };
        let Ok(ahead) = PayloadBuffer::new(alloc) else {
            return Err((OpenError::NoMemory, disk));
        };
        let (machine, opening) = read_opening::<D, R>(alloc, disk, &mut room)?;
        let journal = opening.ready()?;
        Ok(Log {
            machine,
            journal,
            pending: None,
            room,
            ahead,
        })
    }

    /// Makes room for so many turns. An `Err` is want of memory, which `u32::MAX` turns beside an undecided entry always
    /// are, and leaves all as it was.
    pub fn reserve(&mut self, n: u32) -> Result<(), AllocError>
        ensures history { self.new.history ≡ self.old.history }
        ensures pending { self.new.pending ≡ self.old.pending }
        ensures disk { self.new.disk ≡ self.old.disk }
        ensures room { OnOk result (n ≤ self.new.room) }
        ensures no_less { self.old.room ≤ self.new.room }
        ensures succeeds { n ≤ self.old.room → IsOk result }
        ensures same_room { OnErr result (self.new.room ≡ self.old.room) }
        ensures sound { IsHonest (D.tells self.old.disk) → IsSound R.scheme (D.tells self.new.disk) self.new.history self.new.pending }
    {
        let places = u32::from(self.pending.is_some());
        let Some(all) = n.checked_add(places) else {
            return Err(AllocError);
        };
        self.machine.reserve(all)
    }

    /// Answers an ask. An entry that is undecided is settled first: it is admitted. Then the ask is judged, and an entry
    /// that it adds is put into the journal before it is acknowledged.
    ///
    /// `DiskFault` names the position of the entry that is undecided then, if one is. `NoMemory` leaves all as it was.
    pub fn submit(&mut self, operation: R::Operation) -> LogReply<R::Response>
        // The reply is the answer on the list after settling, and this and what is undecided after are what it says.
        ensures submit { Submits R.semantics self.old.history self.old.pending operation result self.new.history self.new.pending }

        // What a crash leaves, after the turn and at every moment of it: by the ask, and by what the turn left.
        ensures honest { (D.tells self.new.disk).honest ≡ (D.tells self.old.disk).honest }
        ensures sound { IsHonest (D.tells self.old.disk) → IsSound R.scheme (D.tells self.new.disk) self.new.history self.new.pending }
        ensures moments { IsHonest (D.tells self.old.disk) → EachMoment (D.tells self.old.disk) (D.tells self.new.disk)
            (MayRecover R.scheme R.semantics self.old.history self.old.pending operation) }
        ensures way { IsHonest (D.tells self.old.disk) → EachMoment (D.tells self.old.disk) (D.tells self.new.disk)
            (RecoversOnWay R.scheme self.old.history self.old.pending self.new.history self.new.pending) }

        // Want of memory comes only where no room is left, and before any call of the disk.
        ensures no_memory { result ≡ LogReply.NoMemory → self.new ≡ self.old }
        ensures memory { result ≡ LogReply.NoMemory → self.old.room ≡ 0 }
        ensures room { self.old.room ≤ self.new.room + 1 }
        ensures later { D.faults self.old.disk ≤ D.faults self.new.disk }
        ensures cause { IsTrue (is_fault result) → Rose (D.faults self.old.disk) (D.faults self.new.disk) }
        ensures unmoved { is_fault result ≡ false → D.faults self.new.disk ≡ D.faults self.old.disk }
    {
        self.ahead.clear();
        self.prepared_submit(operation)
    }

    /// The same turn. Where the ask that will likely follow is known, what it may add is written ahead by this turn's last
    /// sync: if it is added so by the next turn, that takes one sync in place of two.
    pub fn submit_ahead<'a>(
        &'a mut self,
        operation: R::Operation,
        next: Option<&'a R::Operation>,
    ) -> LogReply<R::Response>
        ensures submit { Submits R.semantics self.old.history self.old.pending operation result self.new.history self.new.pending }
        ensures honest { (D.tells self.new.disk).honest ≡ (D.tells self.old.disk).honest }
        ensures sound { IsHonest (D.tells self.old.disk) → IsSound R.scheme (D.tells self.new.disk) self.new.history self.new.pending }
        ensures moments { IsHonest (D.tells self.old.disk) → EachMoment (D.tells self.old.disk) (D.tells self.new.disk)
            (MayRecover R.scheme R.semantics self.old.history self.old.pending operation) }
        ensures way { IsHonest (D.tells self.old.disk) → EachMoment (D.tells self.old.disk) (D.tells self.new.disk)
            (RecoversOnWay R.scheme self.old.history self.old.pending self.new.history self.new.pending) }
        ensures no_memory { result ≡ LogReply.NoMemory → self.new ≡ self.old }
        ensures memory { result ≡ LogReply.NoMemory → self.old.room ≡ 0 }
        ensures room { self.old.room ≤ self.new.room + 1 }
        ensures later { D.faults self.old.disk ≤ D.faults self.new.disk }
        ensures cause { IsTrue (is_fault result) → Rose (D.faults self.old.disk) (D.faults self.new.disk) }
        ensures unmoved { is_fault result ≡ false → D.faults self.new.disk ≡ D.faults self.old.disk }
    {
        self.look_ahead(next);
        self.prepared_submit(operation)
    }

    /// The same turn. Where somebody waits with an entry that will likely follow, its spelling is written ahead by this turn's
    /// last sync, as `turn_ahead` does it. Any bytes may be given: they count for nothing until a turn adds their entry.
    pub fn submit_guessing(
        &mut self,
        operation: R::Operation,
        guess: &[u8],
    ) -> LogReply<R::Response>
        ensures submit { Submits R.semantics self.old.history self.old.pending operation result self.new.history self.new.pending }
        ensures honest { (D.tells self.new.disk).honest ≡ (D.tells self.old.disk).honest }
        ensures sound { IsHonest (D.tells self.old.disk) → IsSound R.scheme (D.tells self.new.disk) self.new.history self.new.pending }
        ensures moments { IsHonest (D.tells self.old.disk) → EachMoment (D.tells self.old.disk) (D.tells self.new.disk)
            (MayRecover R.scheme R.semantics self.old.history self.old.pending operation) }
        ensures way { IsHonest (D.tells self.old.disk) → EachMoment (D.tells self.old.disk) (D.tells self.new.disk)
            (RecoversOnWay R.scheme self.old.history self.old.pending self.new.history self.new.pending) }
        ensures no_memory { result ≡ LogReply.NoMemory → self.new ≡ self.old }
        ensures memory { result ≡ LogReply.NoMemory → self.old.room ≡ 0 }
        ensures room { self.old.room ≤ self.new.room + 1 }
        ensures later { D.faults self.old.disk ≤ D.faults self.new.disk }
        ensures cause { IsTrue (is_fault result) → Rose (D.faults self.old.disk) (D.faults self.new.disk) }
        ensures unmoved { is_fault result ≡ false → D.faults self.new.disk ≡ D.faults self.old.disk }
    {
        self.take_guess(guess);
        self.prepared_submit(operation)
    }

    // The turn, once what may be written ahead is in its room.
    fn prepared_submit(&mut self, operation: R::Operation) -> LogReply<R::Response>
        ensures submit { Submits R.semantics self.old.history self.old.pending operation result self.new.history self.new.pending }
        ensures honest { (D.tells self.new.disk).honest ≡ (D.tells self.old.disk).honest }
        ensures sound { IsHonest (D.tells self.old.disk) → IsSound R.scheme (D.tells self.new.disk) self.new.history self.new.pending }
        ensures moments { IsHonest (D.tells self.old.disk) → EachMoment (D.tells self.old.disk) (D.tells self.new.disk)
            (MayRecover R.scheme R.semantics self.old.history self.old.pending operation) }
        ensures way { IsHonest (D.tells self.old.disk) → EachMoment (D.tells self.old.disk) (D.tells self.new.disk)
            (RecoversOnWay R.scheme self.old.history self.old.pending self.new.history self.new.pending) }
        ensures no_memory { result ≡ LogReply.NoMemory → self.new ≡ self.old }
        ensures memory { result ≡ LogReply.NoMemory → self.old.room ≡ 0 }
        ensures room { self.old.room ≤ self.new.room + 1 }
        ensures later { D.faults self.old.disk ≤ D.faults self.new.disk }
        ensures cause { IsTrue (is_fault result) → Rose (D.faults self.old.disk) (D.faults self.new.disk) }
        ensures unmoved { is_fault result ≡ false → D.faults self.new.disk ≡ D.faults self.old.disk }
    {
        if self.reserve(1).is_err() {
            return LogReply::NoMemory;
        }
        if self.settle().is_err() {
            return LogReply::DiskFault {
                undecided: Some(self.machine.front() + 1),
            };
        }
        self.answer(operation)
    }

    /// From now on the disk's file is made longer ahead of its records, by zeros that stand for nothing. So a sync takes less
    /// time, and the file doesn't end right behind its last record. Nothing is done yet.
    pub fn allow_lengthening(&mut self)
        ensures { self.new ≡ self.old }
    {
        self.journal.allow_lengthening();
    }

    // Puts a guess into the room of what is written ahead, where it fits.
    fn take_guess(&mut self, guess: &[u8])
        ensures { self.new ≡ self.old }
    {
        self.ahead.clear();
        if guess.len() <= CAPACITY {
            self.ahead.append(guess);
        }
    }

    // Puts what the next ask may add into its room, or empties that room.
    fn look_ahead(&mut self, next: Option<&R::Operation>)
        ensures { self.new ≡ self.old }
    {
        match next {
            Some(operation) => R::encode_expected(operation, &mut self.ahead),
            None => self.ahead.clear(),
        }
    }

    // Settles what is undecided.
    fn settle(&mut self) -> Result<(), PutError>
        ensures list { OnOk result (self.new.history ≡ with_entry self.old.pending self.old.history) }
        ensures decided { OnOk result (self.new.pending ≡ None) }
        ensures list_err { OnErr result (self.new.history ≡ self.old.history) }
        ensures pending_err { OnErr result (self.new.pending ≡ self.old.pending) }
        ensures some { OnErr result (IsSome self.old.pending) }
        ensures room { self.new.room ≡ self.old.room }
        ensures honest { (D.tells self.new.disk).honest ≡ (D.tells self.old.disk).honest }
        ensures moments { IsHonest (D.tells self.old.disk) → EachMoment (D.tells self.old.disk) (D.tells self.new.disk)
            (RecoversEither R.scheme self.old.history (with_entry self.old.pending self.old.history)) }
        ensures later { D.faults self.old.disk ≤ D.faults self.new.disk }
        ensures cause { OnErr result (Rose (D.faults self.old.disk) (D.faults self.new.disk)) }
        ensures unmoved { OnOk result (D.faults self.new.disk ≡ D.faults self.old.disk) }
    {
        if self.pending.is_none() {
            return Ok(());
        }
        self.journal.settle()?;
        if let Some(added) = self.pending.take() {
            self.machine.admit(added.entry, added.ruling);
        }
        Ok(())
    }

    // Answers an ask where nothing is undecided.
    fn answer(&mut self, operation: R::Operation) -> LogReply<R::Response>
        requires decided { self.old.pending ≡ None }
        requires room { 1 ≤ self.old.room }
        ensures answers { Answers R.semantics self.old.history operation result self.new.history self.new.pending }
        ensures honest { (D.tells self.new.disk).honest ≡ (D.tells self.old.disk).honest }
        ensures sound { IsHonest (D.tells self.old.disk) → IsSound R.scheme (D.tells self.new.disk) self.new.history self.new.pending }
        ensures moments { IsHonest (D.tells self.old.disk) → EachMoment (D.tells self.old.disk) (D.tells self.new.disk)
            (RecoversEither R.scheme self.old.history (after_ask R.semantics self.old.history operation)) }
        ensures way { IsHonest (D.tells self.old.disk) → EachMoment (D.tells self.old.disk) (D.tells self.new.disk)
            (RecoversEither R.scheme self.old.history (with_entry self.new.pending self.new.history)) }
        ensures room { self.old.room ≤ self.new.room + 1 }
        ensures later { D.faults self.old.disk ≤ D.faults self.new.disk }
        ensures cause { IsTrue (is_fault result) → Rose (D.faults self.old.disk) (D.faults self.new.disk) }
        ensures unmoved { is_fault result ≡ false → D.faults self.new.disk ≡ D.faults self.old.disk }
    {
        let front = self.machine.front();
        let Decided { response, added } = self.machine.judge(operation);
        match added {
            Some(added) => self.keep(added, response, front),
            None => LogReply::Answered { response, front },
        }
    }

    // Keeps an entry that is to be admitted, and then gives the verdict that adds it.
    fn keep(
        &mut self,
        added: NewEntry<R::Entry, R::Ruling>,
        response: R::Response,
        front: u32,
    ) -> LogReply<R::Response>
        requires decided { self.old.pending ≡ None }
        requires room { 1 ≤ self.old.room }
        requires front { front ≡ length self.old.history }
        requires few { front + 1 < 2 ^ 32 }
        requires admitted { IsTrue (R.scheme.admits self.old.history added.entry) }
        requires ruled { R.IsRuling self.old.history added.entry added.ruling }
        ensures kept { IsKeptOr added.entry response front self.old.history result self.new.history self.new.pending }
        ensures honest { (D.tells self.new.disk).honest ≡ (D.tells self.old.disk).honest }
        ensures sound { IsHonest (D.tells self.old.disk) → IsSound R.scheme (D.tells self.new.disk) self.new.history self.new.pending }
        ensures moments { IsHonest (D.tells self.old.disk) → EachMoment (D.tells self.old.disk) (D.tells self.new.disk)
            (RecoversEither R.scheme self.old.history (added.entry ∷ self.old.history)) }
        ensures way { IsHonest (D.tells self.old.disk) → EachMoment (D.tells self.old.disk) (D.tells self.new.disk)
            (RecoversEither R.scheme self.old.history (with_entry self.new.pending self.new.history)) }
        ensures room { self.old.room ≤ self.new.room + 1 }
        ensures later { D.faults self.old.disk ≤ D.faults self.new.disk }
        ensures cause { IsTrue (is_fault result) → Rose (D.faults self.old.disk) (D.faults self.new.disk) }
        ensures unmoved { is_fault result ≡ false → D.faults self.new.disk ≡ D.faults self.old.disk }
    {
        R::encode(&added.entry, &mut self.room);
        match lengthen_and_put(&mut self.journal, self.room.bytes(), self.ahead.bytes()) {
            Ok(()) => {
                self.machine.admit(added.entry, added.ruling);
                LogReply::Answered { response, front }
            }
            Err(PutError::DiskFault { undecided: false }) => LogReply::DiskFault {
                undecided: None,
            },
            Err(PutError::DiskFault { undecided: true }) => {
                self.pending = Some(added);
                LogReply::DiskFault {
                    undecided: Some(front + 1),
                }
            }
        }
    }

    /// The docket: the entries that stand, without one that is undecided. It takes no memory.
    pub fn machine(&self) -> &R
        ensures { R.history result.now ≡ self.now.history }
    {
        &self.machine
    }

    /// What a crash now may leave. Nothing is done.
    pub fn sound(&self)
        ensures { IsHonest (D.tells self.now.disk) → IsSound R.scheme (D.tells self.now.disk) self.now.history self.now.pending }
    {
        let _ = &self.journal;
    }

    /// Gives the disk back. It makes no call on it, and takes no memory.
    pub fn into_disk(self) -> D
        ensures disk { result ≡ self.disk }
        ensures sound { IsHonest (D.tells result) → IsSound R.scheme (D.tells result) self.history self.pending }
    {
        let Log {
            machine: _,
            journal,
            pending: _,
            room: _,
            ahead: _,
        } = self;
        journal.into_disk()
    }
}
