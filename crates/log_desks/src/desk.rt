// A desk: its rows, its lines, and its pass of the lock.
ghost use Rattle.std.specs.Prelude.{◌≡◌, ◌+◌, ◌<◌, ◌^◌, [], None, Some, length, option_copied};
ghost use Rattle.log_lock.specs.declared.turned.Snapshot.{Snapshot};
ghost use Rattle.log_machine.specs.declared.names.Filed.{Filed as FiledEntry};
ghost use Rattle.log_desks.specs.Desks.{IsReady, Works};
ghost use Rattle.log_desks.specs.DeskTexts.{end_row, stop_at};

use crate::filing::file_rows;
use crate::{DeskEnd, DeskStop, EntryCopies, Poster, SharedList, Since};
use io_traits::{Disk, SyncPoint};
use log_lock::{LockHandle, LockedState, TicketLock};
use log_machine::{Filed, RowName, Rows, SingleEntryMachine, StateMachine};
use std::alloc::Global;
use std::marker::Model;
use std::sync::Wait;

/// A desk with the rows of its input. It has a pass of the lock while the lock is open, files its rows once, and keeps
/// its lines.
#[derive(Drop)]
pub struct Desk<R: SingleEntryMachine, L: Rows<R>> {
    number: u32,
    prefix: Vec<u8>,
    rows: L,
    text: Vec<u8>,
    poster: Poster,
    answered: u32,
    ended: DeskEnd,
    // What the row may add at which it stopped.
    last: Option<R::Entry>,
    handle: Option<LockHandle<Filed<R::Entry>>>,
}

impl<R: SingleEntryMachine, L: Rows<R>> Model for Desk<R, L> {
    ghost use Rattle.std.specs.Prelude.{◌≡◌, ◌+◌, ◌<◌, ◌^◌, [], length};
    ghost use Rattle.log_desks.specs.Desks.{DeskView};
    ghost use Rattle.log_desks.specs.declared.stop.DeskEnd.TheVariants.{Open};

    ghost Value = { DeskView R.Entry L };

    ghost view = { λ d. record {
      number = d.number;
      prefix = d.prefix.items;
      rows = d.rows;
      text = d.text.items;
      answered = d.answered;
      ended = d.ended;
      last = d.last;
      handle = d.handle;
    } };

    ghost invariant = { λ d. (d.answered + 1 < 2 ^ 32) × (d.ended ≡ Open → (length (L.left d.rows) + 1 < 2 ^ 32) × (d.text.items ≡ [])) };
}

impl<R: SingleEntryMachine, L: Rows<R>> Desk<R, L> {
    /// A desk with these rows, which writes the prefix before each of its lines.
    pub fn new(alloc: Global, number: u32, prefix: Vec<u8>, rows: L) -> Desk<R, L>
        requires { length (L.left rows) + 1 < 2 ^ 32 }
        ensures { result ≡ record {
          number = number;
          prefix = prefix.items;
          rows = rows;
          text = [];
          answered = 0;
          ended = DeskEnd.Open;
          last = None;
          handle = None;
        } }
    {
        Desk {
            number,
            prefix,
            rows,
            text: Vec::new(alloc),
            poster: Poster::new(alloc),
            answered: 0,
            ended: DeskEnd::Open,
            last: None,
            handle: None,
        }
    }

    /// At most so many rows are left.
    pub fn at_most(&self) -> u32 {
        self.rows.at_most()
    }

    // Takes a pass of the lock.
    pub(crate) fn give(&mut self, handle: LockHandle<Filed<R::Entry>>)
        ensures { self.new ≡ record self.old { handle = Some handle } }
    {
        self.handle = Some(handle);
    }

    // Gives its pass back.
    pub(crate) fn take(&mut self) -> Option<LockHandle<Filed<R::Entry>>>
        ensures handle { result ≡ self.old.handle }
        ensures rest { self.new ≡ record self.old { handle = None } }
    {
        self.handle.take()
    }

    /// Its lines so far.
    pub fn text(&self) -> &[u8]
        ensures { result.now ≡ self.now.text }
    {
        self.text.as_slice()
    }

    /// What it writes before each of its lines.
    pub fn prefix(&self) -> &[u8]
        ensures { result.now ≡ self.now.prefix }
    {
        self.prefix.as_slice()
    }

    /// The row behind those that it answered.
    pub fn end_row(&self) -> RowName
        ensures { result ≡ end_row self.now }
    {
        RowName {
            desk: self.number,
            row: self.answered + 1,
        }
    }

    /// The row at which it stopped, and why, where it did.
    pub fn stopped(&self) -> Option<(RowName, DeskStop)>
        ensures { result ≡ stop_at self.now.number self.now.answered self.now.ended }
    {
        match self.ended {
            DeskEnd::Stopped(stop) => Some((self.end_row(), stop)),
            _ => None,
        }
    }

    /// What the row files at which it stopped, where that is kept.
    pub fn last(&self) -> Option<&R::Entry>
        ensures { option_copied result ≡ self.now.last }
    {
        self.last.as_ref()
    }

    /// How many rows it answered, and how it ended.
    pub fn ended(&self) -> (u32, DeskEnd)
        ensures answered { result.0 ≡ self.now.answered }
        ensures ended { result.1 ≡ self.now.ended }
    {
        (self.answered, self.ended)
    }

    /// Files the rows, each in a turn of the lock, from the first to the last or to a stop. Of the row at which it stops a
    /// copy of what it may add is kept.
    pub fn work<D: Disk, M: Since, C: EntryCopies<R>, G: SyncPoint, H: Wait>(
        &mut self,
        rt: &H,
        turns: &TicketLock<SharedList<D, R, M>>,
        gate: &G,
    )
        requires { (opening : Snapshot (FiledEntry R.Entry)) × IsReady turns.now.id opening self.old }
        ensures { Works R.semantics R.own C.copied L.texts L.left turns.now.id self.old self.new }
    {
        let Some(mut handle) = self.handle.take() else {
            return;
        };
        let (answered, ended, last) = file_rows::<D, R, M, L, C, G, H>(
            rt,
            turns,
            gate,
            &mut handle,
            self.number,
            &self.prefix,
            &mut self.rows,
            &mut self.poster,
            &mut self.text,
        );
        self.answered = answered;
        self.ended = ended;
        self.last = last;
        self.handle = Some(handle);
    }
}
