// A docket whose entries carry stamps.
ghost use Rattle.std.specs.Prelude.{◌≡◌, ◌+◌, ◌≤◌, ◌<◌, ◌∷◌, ℕ, List, length, reverse};
ghost use Rattle.log_journal.specs.declared.header.Header.{Header};
ghost use Rattle.log_stamps.specs.Entries.{entries, nth_stamp, stamp_at, stamps_of};
ghost use Rattle.log_stamps.specs.Stamped.{stamped_added};

use crate::{StampedEntry, StampedOperation};
use aid_stamps::Stamp;
use io_traits::PayloadBuffer;
use log_journal::Header;
use log_machine::{Decided, DecodeError, NewEntry, StateMachine};
use std::alloc::{AllocError, Global};
use std::marker::Model;

/// A docket whose entries may carry stamps: a spelling of its own leaves room for one.
pub trait Stampable: StateMachine {
    /// The header of its journal once each entry has a stamp.
    ghost stamped: { Header };

    /// That header. It takes no memory.
    fn stamped_header() -> Header
        ensures { result ≡ stamped };

    /// A stamp has 37 bytes at most, and a payload 8,192.
    ghost short: { (entry : Self.Entry) → Self.scheme.IsEntry entry → length (Self.scheme.spelling entry) ≤ 8155 };
}

/// A docket whose entries carry stamps. The docket below judges and spells what is stamped, and sees no stamp.
#[derive(Drop)]
pub struct StampedMachine<R: Stampable> {
    inner: R,
    stamps: Vec<Stamp>,
    spare: u32,
}

impl<R: Stampable> Model for StampedMachine<R> {
    ghost use Rattle.std.specs.Prelude.{◌≡◌, ◌+◌, ◌≤◌, length, reverse, vec_len, vec_capacity};
    ghost use Rattle.log_stamps.specs.Held.{Held};

    ghost Value = { Held R };

    ghost view = { λ s. record { inner = s.inner; stamps = reverse s.stamps.items; spare = s.spare } };

    ghost invariant = { λ s. (length s.stamps.items ≡ length (R.history s.inner)) × (s.spare ≤ R.spare s.inner)
        × (vec_len s.stamps + s.spare ≤ vec_capacity s.stamps) };
}

// What an ask adds, with its stamp.
fn with_stamp<E: Drop, R: Drop>(
    added: Option<NewEntry<E, R>>,
    stamp: Stamp,
) -> Option<NewEntry<StampedEntry<E>, R>>
    ensures { result ≡ stamped_added stamp added }
{
    match added {
        Some(NewEntry { entry, ruling }) => Some(NewEntry {
            entry: StampedEntry { entry, stamp },
            ruling,
        }),
        None => None,
    }
}

// The stamp at a position among these, which counts from 1.
fn stamp_among(stamps: &[Stamp], position: u32) -> Option<Stamp>
    ensures { result ≡ nth_stamp stamps.now position }
{
    if position == 0 {
        return None;
    }
    stamps.get(position as usize - 1).copied()
}

impl<R: Stampable> StampedMachine<R> {
    /// The docket below, which has the entries alone.
    pub fn inner(&self) -> &R
        ensures { R.history result.now ≡ entries (⟦<StampedMachine<R> as StateMachine>⟧.history self.now) }
    {
        &self.inner
    }

    /// The stamps of the entries, the oldest first.
    pub fn stamps(&self) -> &[Stamp]
        ensures { result.now ≡ reverse (stamps_of (⟦<StampedMachine<R> as StateMachine>⟧.history self.now)) }
    {
        self.stamps.as_slice()
    }

    /// The stamp of the entry at a position, which counts from 1 at the oldest.
    pub fn stamp(&self, position: u32) -> Option<Stamp>
        ensures { result ≡ stamp_at (⟦<StampedMachine<R> as StateMachine>⟧.history self.now) position }
    {
        stamp_among(self.stamps.as_slice(), position)
    }
}

impl<R: Stampable> StateMachine for StampedMachine<R> {
    ghost use Rattle.log_stamps.specs.Entries.{stamped};
    ghost use Rattle.log_stamps.specs.Stamped.{stamped_scheme, stamped_semantics};
    ghost use Rattle.log_stamps.specs.StampedLaws.{keepable as is_keepable, alone as is_alone, added_admitted as added_is_admitted};

    type Entry = StampedEntry<R::Entry>;

    type Ruling = R::Ruling;

    type Operation = StampedOperation<R::Operation>;

    type Response = R::Response;

    ghost scheme = { stamped_scheme R.stamped R.scheme };

    ghost semantics = { stamped_semantics R.semantics };

    ghost IsRuling = { λ past entry ruling. R.IsRuling (entries past) entry.entry ruling };

    ghost history = { λ machine. stamped (R.history machine.inner) machine.stamps };

    ghost spare = { λ machine. machine.spare };

    ghost keepable = { is_keepable R.stamped R.scheme R.short };

    ghost alone = { is_alone R.stamped R.scheme R.alone };

    ghost none_legal = { R.none_legal };

    ghost admitted_legal = { λ past entry. R.admitted_legal (entries past) entry.entry };

    ghost legal_admitted = { λ past entry. R.legal_admitted (entries past) entry.entry };

    ghost legal_past = { λ past entry. R.legal_past (entries past) entry.entry };

    ghost added_admitted = { added_is_admitted R.stamped R.scheme R.semantics R.added_admitted };

    fn header() -> Header {
        R::stamped_header()
    }

    fn new(alloc: Global) -> Self {
        StampedMachine {
            inner: R::new(alloc),
            stamps: Vec::new(alloc),
            spare: 0,
        }
    }

    fn front(&self) -> u32 {
        self.inner.front()
    }

    fn reserve(&mut self, n: u32) -> Result<(), AllocError> {
        if n <= self.spare {
            return Ok(());
        }
        self.inner.reserve(n)?;
        self.stamps.reserve(n as usize)?;
        self.spare = n;
        Ok(())
    }

    fn judge(
        &self,
        operation: StampedOperation<R::Operation>,
    ) -> Decided<StampedEntry<R::Entry>, R::Ruling, R::Response> {
        let StampedOperation { operation, stamp } = operation;
        let Decided { response, added } = self.inner.judge(operation);
        Decided {
            response,
            added: with_stamp(added, stamp),
        }
    }

    fn rule(&self, entry: &StampedEntry<R::Entry>) -> Option<R::Ruling> {
        self.inner.rule(&entry.entry)
    }

    fn admit(&mut self, entry: StampedEntry<R::Entry>, ruling: R::Ruling) {
        let StampedEntry { entry, stamp } = entry;
        self.inner.admit(entry, ruling);
        self.stamps.push_reserved(stamp);
        self.spare -= 1;
    }

    fn encode(entry: &StampedEntry<R::Entry>, room: &mut PayloadBuffer) {
        R::encode(&entry.entry, room);
        entry.stamp.put_front(room);
    }

    fn encode_expected(operation: &StampedOperation<R::Operation>, room: &mut PayloadBuffer) {
        R::encode_expected(&operation.operation, room);
        let foreseen = room.bytes().len();
        if 0 < foreseen && foreseen <= 8155 {
            operation.stamp.put_front(room);
        }
    }

    fn decode(alloc: Global, bytes: &[u8]) -> Result<StampedEntry<R::Entry>, DecodeError> {
        let Ok((stamp, rest)) = Stamp::read(bytes) else {
            return Err(DecodeError::NotEntry);
        };
        match R::decode(alloc, rest) {
            Ok(entry) => Ok(StampedEntry { entry, stamp }),
            Err(fault) => Err(fault),
        }
    }
}
