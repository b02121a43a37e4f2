// A journal is read record by record, and nothing is written before all of it was read.
ghost use Rattle.std.specs.Prelude.{◌≡◌, ◌⊎◌, ◌+◌, ◌*◌, ◌≤◌, ◌^◌, ◌++◌, [], ◌∷◌, ℕ, length, None, Some, MatchOption, OnOk, OnErr, IfOk, IfErr, IfSome, IfNone};
ghost use Rattle.io_traits.specs.Faults.{Rose};
ghost use Rattle.io_traits.specs.DiskState.{IsHonest, EachMoment, EachImage, IsQuiet, IsRead};
ghost use Rattle.log_journal.specs.Stands.{Payloads, StandsFor, EndsBehind, gate_place};
ghost use Rattle.log_journal.specs.declared.header.Header.{Header};
ghost use Rattle.log_journal.specs.Piece.{IsPieceOf};

use crate::Journal;
use crate::piece::Piece;
use crate::record::{Record, read_record};
use io_traits::{Disk, Failed, PayloadBuffer, trim};

/// Why a journal can't be opened.
#[derive(Clone, Copy, Debug, PartialEq, Eq)]
pub enum OpenError {
    /// No journal was founded in the file, or its founding didn't end.
    NoOffice,
    /// The file is no journal with the header that was asked for.
    NotJournal,
    /// The file is a journal of the version that the header names as the one before.
    OldVersion,
    /// What stands at this place is no record and no closed gate.
    Damaged(u64),
    /// The disk refused a call.
    DiskFault,
    /// There is no memory. No call of this crate answers it; it is there for what is built on a journal.
    NoMemory,
}

/// A journal that is being read.
#[derive(Drop)]
pub struct Opening<D: Disk> {
    disk: D,
    piece: Piece,
    // The place of the next gate.
    gate: u64,
    count: u64,
    ended: bool,
    refusal: Option<OpenError>,
    ghost gate_bound: { gate ≤ 16 + 8197 * count },
    ghost count_bound: { count ≤ gate },
    ghost end_bound: { gate ≤ 2 ^ 63 + 8197 },
    ghost piece_is: { IsHonest (D.tells disk) → IsPieceOf piece (D.tells disk).reads },
}

impl<D: Disk> Opening<D> {
    ghost use Rattle.log_journal.specs.Opening.{HasGiven, HasAll, HasEnded, IsDamagedAt, IsGateRefusal, opening_disk, opening_count, opening_refusal};
    ghost use Rattle.log_journal.specs.Journal.{Keeps, IsDecided, journal_disk, journal_count};

    // A journal of which nothing was read yet.
    pub(crate) fn new(disk: D) -> Self
        ensures disk { result.disk ≡ disk }
        ensures gate { result.gate ≡ 16 }
        ensures count { result.count ≡ 0 }
        ensures refusal { result.refusal ≡ None }
    {
        Opening {
            disk,
            piece: Piece::none(),
            gate: 16,
            count: 0,
            ended: false,
            refusal: None,
        }
    }

    /// Puts the next payload into the room, and answers the place of its gate, or `None` at the first gate that
    /// isn't open. After a refusal each later call gives the same refusal. It writes nothing, and takes no memory.
    pub fn next(&mut self, room: &mut PayloadBuffer) -> Result<Option<u64>, OpenError>
        ensures honest { (D.tells (opening_disk self.new)).honest ≡ (D.tells (opening_disk self.old)).honest }
        ensures told { IsHonest (D.tells (opening_disk self.old))
            → IsRead (D.tells (opening_disk self.old)) (D.tells (opening_disk self.new)) }

        // Which answer comes is a matter of the bytes.
        ensures given { IsHonest (D.tells (opening_disk self.old))
            → (header : Header) (payloads : Payloads) → HasGiven D.Disk header self.old payloads
            → IfOk result (λ found. MatchOption found (HasAll D.Disk header self.new payloads)
            (λ place. (place ≡ gate_place payloads) × HasGiven D.Disk header self.new (payloads ++ room.new ∷ []))) }
        ensures damaged { IsHonest (D.tells (opening_disk self.old))
            → (header : Header) (payloads : Payloads) → HasGiven D.Disk header self.old payloads
            → opening_refusal self.old ≡ None
            → IfErr result (λ e. (e ≡ OpenError.DiskFault)
            ⊎ ((place : ℕ) × (e ≡ OpenError.Damaged place) × IsDamagedAt header place (D.tells (opening_disk self.old)).reads payloads)) }

        ensures ended { IfOk result (λ found. IfNone found (HasEnded self.new)) }
        ensures count { IfOk result (λ found. MatchOption found (opening_count self.new ≡ opening_count self.old)
            (λ place. opening_count self.new ≡ opening_count self.old + 1)) }
        ensures open { OnOk result (opening_refusal self.new ≡ None) }
        ensures refused { IfErr result (λ e. opening_refusal self.new ≡ Some e) }
        ensures repeats { IfSome (opening_refusal self.old) (λ e. result ≡ Err e) }
        ensures refusals { opening_refusal self.old ≡ None → IfErr result (λ e. IsGateRefusal e) }
        ensures later { D.faults (opening_disk self.old) ≤ D.faults (opening_disk self.new) }
        ensures cause { opening_refusal self.old ≡ None → IfErr result (λ e. e ≡ OpenError.DiskFault
            → Rose (D.faults (opening_disk self.old)) (D.faults (opening_disk self.new))) }

        // Every other answer comes without a fault.
        ensures unmoved { OnOk result (D.faults (opening_disk self.new) ≡ D.faults (opening_disk self.old)) }
        ensures unmoved_err { IfErr result (λ e. (e ≡ OpenError.DiskFault)
            ⊎ (D.faults (opening_disk self.new) ≡ D.faults (opening_disk self.old))) }
    {
        if let Some(e) = self.refusal {
            return Err(e);
        }
        match read_record(&mut self.disk, &mut self.piece, self.gate, room) {
            Ok(Record::Whole(size)) => {
                let place = self.gate;
                self.gate += size + 5;
                self.count += 1;
                Ok(Some(place))
            }
            Ok(Record::Closed) => {
                self.ended = true;
                Ok(None)
            }
            Ok(Record::Broken) => {
                let e = OpenError::Damaged(self.gate);
                self.refusal = Some(e);
                Err(e)
            }
            Err(Failed) => {
                self.refusal = Some(OpenError::DiskFault);
                Err(OpenError::DiskFault)
            }
        }
    }

    /// Cuts off what stands past the closed gate, where anything does, and syncs. It takes no memory.
    pub fn ready(self) -> Result<Journal<D>, (OpenError, D)>
        requires ended { HasEnded self }
        requires stands { IsHonest (D.tells (opening_disk self))
            → (header : Header) × ((payloads : Payloads) × HasAll D.Disk header self payloads) }

        ensures honest { IfOk result (λ journal. (D.tells (journal_disk journal)).honest ≡ (D.tells (opening_disk self)).honest) }
        ensures honest_err { IfErr result (λ e. (D.tells e.1).honest ≡ (D.tells (opening_disk self)).honest) }
        ensures kept { IsHonest (D.tells (opening_disk self))
            → (header : Header) (payloads : Payloads) → HasAll D.Disk header self payloads
            → IfOk result (λ journal. Keeps D.Disk header journal payloads) }
        ensures quiet { IsHonest (D.tells (opening_disk self))
            → IfOk result (λ journal. IsQuiet (D.tells (journal_disk journal))) }

        // The moment doesn't fall, whatever images there are.
        ensures elapsed { IsHonest (D.tells (opening_disk self))
            → IfOk result (λ journal. (D.tells (opening_disk self)).moment ≤ (D.tells (journal_disk journal)).moment) }

        // Nothing stands past the closed gate.
        ensures trimmed { IsHonest (D.tells (opening_disk self))
            → (header : Header) (payloads : Payloads) → HasAll D.Disk header self payloads
            → IfOk result (λ journal. EndsBehind payloads (D.tells (journal_disk journal)).reads) }

        // Where every image stands for the payloads, as on a quiet disk, each one at each moment does.
        ensures moments { IsHonest (D.tells (opening_disk self))
            → (header : Header) (payloads : Payloads) → HasAll D.Disk header self payloads
            → EachImage (D.tells (opening_disk self)) (λ file. StandsFor header file payloads)
            → IfOk result (λ journal. EachMoment (D.tells (opening_disk self)) (D.tells (journal_disk journal)) (λ file. StandsFor header file payloads)) }
        ensures moments_err { IsHonest (D.tells (opening_disk self))
            → (header : Header) (payloads : Payloads) → HasAll D.Disk header self payloads
            → EachImage (D.tells (opening_disk self)) (λ file. StandsFor header file payloads)
            → IfErr result (λ e. EachMoment (D.tells (opening_disk self)) (D.tells e.1) (λ file. StandsFor header file payloads)) }

        ensures refusal { IfErr result (λ e. e.0 ≡ OpenError.DiskFault) }
        ensures count { IfOk result (λ journal. journal_count journal ≡ opening_count self) }
        ensures decided { IfOk result (λ journal. IsDecided journal) }
        ensures later { IfOk result (λ journal. D.faults (opening_disk self) ≤ D.faults (journal_disk journal)) }
        ensures later_err { IfErr result (λ e. D.faults (opening_disk self) ≤ D.faults e.1) }
        ensures cause { IfErr result (λ e. Rose (D.faults (opening_disk self)) (D.faults e.1)) }
        ensures unmoved { IfOk result (λ journal. D.faults (journal_disk journal) ≡ D.faults (opening_disk self)) }
    {
        let Opening {
            disk,
            piece: _,
            gate,
            count,
            ended: _,
            refusal: _,
        } = self;
        let mut disk = disk;
        match trim(&mut disk, gate + 1) {
            Ok(()) => Ok(Journal::at(disk, gate, count)),
            Err(Failed) => Err((OpenError::DiskFault, disk)),
        }
    }

    /// Gives the disk back, at any time, also after a refusal. It makes no call on it, and takes no memory.
    pub fn into_disk(self) -> D
        ensures { result ≡ opening_disk self }
    {
        let Opening {
            disk,
            piece: _,
            gate: _,
            count: _,
            ended: _,
            refusal: _,
        } = self;
        disk
    }
}
