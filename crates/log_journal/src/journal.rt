// Records behind gates. A payload is on the disk before its gate is opened, by a write of its own.
ghost use Rattle.std.specs.Prelude.{◌≡◌, ◌⊎◌, ◌+◌, ◌*◌, ◌<◌, ◌≤◌, ◌^◌, ◌++◌, [], ◌∷◌, List, ℕ, true, false, length, None, OnOk, OnErr, IfErr};
ghost use Rattle.std.specs.Option.{ForSome};
ghost use Rattle.io_traits.specs.Faults.{Rose};
ghost use Rattle.io_traits.specs.DiskState.{IsHonest, EachMoment, EachImage, IsKept, IsKeptWrite, IsWrite, overwrite};
ghost use Rattle.log_journal.specs.Ahead.{block_of, HasNext};
ghost use Rattle.log_journal.specs.Stands.{Payloads, StandsFor, IsPayload, BeforeOrWith, EndsBehind, WithGateOpen, body_of, gate_place};
ghost use Rattle.log_journal.specs.declared.header.Header.{Header};

use crate::ahead::{Ahead, MOST_AHEAD, part_ahead};
use io_traits::{CAPACITY, Disk, Failed, write_kept};

const OPEN: u8 = 1;

const CLOSED: u8 = 0;

// The bytes of a record besides its payload's: a gate and the length.
const AROUND: u64 = 5;

// How far a file is made longer at a time.
const ZEROS: [u8; 4096] = [0; 4096];

/// Why a payload isn't known to stand.
#[derive(Clone, Copy, Debug, PartialEq, Eq)]
pub enum PutError {
    /// The disk refused a call. Where the payload was on the disk by then, it is undecided whether it stands.
    DiskFault { undecided: bool },
}

/// Payloads on a disk, each in a record behind a gate of its own.
#[derive(Drop)]
pub struct Journal<D: Disk> {
    disk: D,
    // The place of the closed gate behind the payloads.
    gate: u64,
    count: u64,
    // The length of the payload that is undecided.
    undecided: Option<usize>,
    // The payload behind the closed gate that was written ahead. It counts for nothing until it is put.
    ahead: Ahead,
    // How far the file was made longer, where it is to be.
    lengthened: Option<u64>,
    ghost gate_bound: { gate ≤ 16 + 8197 * count },
    ghost undecided_bound: { ForSome undecided (λ n. (n ≤ 8192) × (count < 2 ^ 32)) },
}

// The length, the payload and a closed gate behind it.
fn fill(block: &mut [u8], payload: &[u8])
    requires fits { length payload.now ≤ 8192 }
    requires size { length block.old ≡ length payload.now + 5 }
    ensures { block.new ≡ body_of payload.now ++ 0 ∷ [] }
{
    let n = payload.len();
    block[..4].copy_from_slice(&(n as u32).to_le_bytes());
    block[4..n + 4].copy_from_slice(payload);
    block[n + 4] = CLOSED;
}

// Writes a payload behind a closed gate, for good, and a closed gate behind it.
fn write_record<D: Disk>(disk: &mut D, gate: u64, payload: &[u8]) -> Result<(), Failed>
    requires fits { length payload.now ≤ 8192 }
    requires end { gate + 1 < 2 ^ 64 }
    requires inside { IsHonest (D.tells disk.old) → gate + 1 ≤ length (D.tells disk.old).reads }
    ensures honest { (D.tells disk.new).honest ≡ (D.tells disk.old).honest }
    ensures told { IsHonest (D.tells disk.old)
        → IsKeptWrite (gate + 1) (length payload.now + 5) (D.tells disk.old) (D.tells disk.new) }
    ensures done { IsHonest (D.tells disk.old)
        → OnOk result (IsKept (overwrite (gate + 1) (body_of payload.now ++ 0 ∷ []) (D.tells disk.old).reads) (D.tells disk.new)) }
    ensures later { D.faults disk.old ≤ D.faults disk.new }
    ensures cause { OnErr result (Rose (D.faults disk.old) (D.faults disk.new)) }
    ensures unmoved { OnOk result (D.faults disk.new ≡ D.faults disk.old) }
{
    let size = payload.len() + 5;
    let mut block = [0; CAPACITY + 5];
    fill(&mut block[..size], payload);
    write_kept(disk, gate + 1, &block[..size])
}

// Writes a payload behind a closed gate, where there is one, and a closed gate behind it. No sync keeps them yet.
fn write_ahead<D: Disk>(disk: &mut D, gate: u64, next: &[u8]) -> Result<(), Failed>
    requires fits { length next.now ≤ 512 }
    requires end { gate + 1 < 2 ^ 64 }
    requires inside { IsHonest (D.tells disk.old) → gate + 1 ≤ length (D.tells disk.old).reads }
    ensures honest { (D.tells disk.new).honest ≡ (D.tells disk.old).honest }
    ensures told { IsHonest (D.tells disk.old)
        → IsWrite (gate + 1) (length (block_of next.now)) (D.tells disk.old) (D.tells disk.new) }
    ensures done { IsHonest (D.tells disk.old)
        → OnOk result ((D.tells disk.new).reads ≡ overwrite (gate + 1) (block_of next.now) (D.tells disk.old).reads) }
    ensures later { D.faults disk.old ≤ D.faults disk.new }
    ensures cause { OnErr result (Rose (D.faults disk.old) (D.faults disk.new)) }
    ensures unmoved { OnOk result (D.faults disk.new ≡ D.faults disk.old) }
{
    if next.is_empty() {
        return Ok(());
    }
    let size = next.len() + 5;
    let mut block = [0; MOST_AHEAD + 5];
    fill(&mut block[..size], next);
    disk.write_at(gate + 1, &block[..size])
}

impl<D: Disk> Journal<D> {
    ghost use Rattle.log_journal.specs.Journal.{Keeps, MayKeep, MayLengthen, IsDecided, HasUndecided, journal_ahead, journal_disk, journal_count};

    // A journal whose gate stands at that place, behind so many payloads.
    pub(crate) fn at(disk: D, gate: u64, count: u64) -> Self
        requires { gate ≤ 16 + 8197 * count }
        ensures disk { result.disk ≡ disk }
        ensures gate { result.gate ≡ gate }
        ensures count { result.count ≡ count }
        ensures decided { result.undecided ≡ None }
        ensures ahead { result.ahead ≡ [] }
    {
        Journal {
            disk,
            gate,
            count,
            undecided: None,
            ahead: Ahead::none(),
            lengthened: None,
        }
    }

    /// From now on `lengthen` makes the file longer, which does nothing before. It takes no memory.
    pub fn allow_lengthening(&mut self)
        ensures disk { journal_disk self.new ≡ journal_disk self.old }
        ensures kept { (header : Header) (before : Payloads) → Keeps D.Disk header self.old before → Keeps D.Disk header self.new before }
        ensures may_keep { (header : Header) (before : Payloads) (payload : List ℕ)
            → MayKeep D.Disk header self.old before payload → MayKeep D.Disk header self.new before payload }
        ensures count { journal_count self.new ≡ journal_count self.old }
        ensures decided { IsDecided self.old → IsDecided self.new }
        ensures undecided { HasUndecided self.old → HasUndecided self.new }
    {
        self.lengthened = Some(0);
    }

    /// Makes the file longer, where that is allowed: by 4,096 zeros behind the closed gate and what was written ahead, unless
    /// payloads of so many bytes surely end before the zeros that were written so far. They stand for nothing: a sync of bytes
    /// inside a file takes less time than one of a file that got longer. Where they can't be written, the file is made no longer
    /// from then on. It takes no memory.
    pub fn lengthen(&mut self, size: usize) -> Result<(), Failed>
        requires decided { IsDecided self.old }
        requires size { size ≤ 16384 }
        requires room { journal_count self.old < 2 ^ 32 }
        requires stands { IsHonest (D.tells (journal_disk self.old))
            → (header : Header) × ((before : Payloads) × Keeps D.Disk header self.old before) }

        // Where it isn't allowed nothing is done, and where it is, no more than that is written. After a fault it isn't.
        ensures unasked { ¬ (MayLengthen self.old) → self.new ≡ self.old }
        ensures tried_once { OnErr result (¬ (MayLengthen self.new)) }
        ensures within { IsHonest (D.tells (journal_disk self.old))
            → (header : Header) (before : Payloads) → Keeps D.Disk header self.old before
            → (end : ℕ) → EachImage (D.tells (journal_disk self.old)) (λ file. length file ≤ end)
            → gate_place before + 1 + length (block_of (journal_ahead self.old)) + 4096 ≤ end
            → EachImage (D.tells (journal_disk self.new)) (λ file. length file ≤ end) }

        ensures honest { (D.tells (journal_disk self.new)).honest ≡ (D.tells (journal_disk self.old)).honest }
        ensures kept { IsHonest (D.tells (journal_disk self.old))
            → (header : Header) (before : Payloads) → Keeps D.Disk header self.old before
            → Keeps D.Disk header self.new before }
        ensures moments { IsHonest (D.tells (journal_disk self.old))
            → (header : Header) (before : Payloads) → Keeps D.Disk header self.old before
            → EachMoment (D.tells (journal_disk self.old)) (D.tells (journal_disk self.new)) (λ file. StandsFor header file before) }
        ensures count { journal_count self.new ≡ journal_count self.old }
        ensures decided { IsDecided self.new }
        ensures later { D.faults (journal_disk self.old) ≤ D.faults (journal_disk self.new) }
        ensures cause { OnErr result (Rose (D.faults (journal_disk self.old)) (D.faults (journal_disk self.new))) }
        ensures unmoved { OnOk result (D.faults (journal_disk self.new) ≡ D.faults (journal_disk self.old)) }
    {
        let Some(lengthened) = self.lengthened else {
            return Ok(());
        };
        let end = self.gate + 1 + self.ahead.block_size();
        if end + size as u64 + 2 * AROUND <= lengthened {
            return Ok(());
        }
        if self.disk.write_at(end, &ZEROS).is_err() {
            self.lengthened = None;
            return Err(Failed);
        }
        self.lengthened = Some(end + ZEROS.len() as u64);
        Ok(())
    }

    /// Keeps a payload, by a write and a sync of its record, unless that was written ahead, and a write and a sync of its gate. After a fault that
    /// leaves it undecided, `settle` comes first. It takes no memory.
    pub fn put(&mut self, payload: &[u8]) -> Result<(), PutError>
        requires decided { IsDecided self.old }
        requires payload { IsPayload payload.now }
        requires room { journal_count self.old < 2 ^ 32 }
        requires stands { IsHonest (D.tells (journal_disk self.old))
            → (header : Header) × ((before : Payloads) × Keeps D.Disk header self.old before) }

        ensures honest { (D.tells (journal_disk self.new)).honest ≡ (D.tells (journal_disk self.old)).honest }
        ensures kept { IsHonest (D.tells (journal_disk self.old))
            → (header : Header) (before : Payloads) → Keeps D.Disk header self.old before
            → OnOk result (Keeps D.Disk header self.new (before ++ payload.now ∷ [])) }
        ensures before { IsHonest (D.tells (journal_disk self.old))
            → (header : Header) (before : Payloads) → Keeps D.Disk header self.old before
            → IfErr result (λ e. e ≡ PutError.DiskFault false → Keeps D.Disk header self.new before) }
        ensures undecided { IsHonest (D.tells (journal_disk self.old))
            → (header : Header) (before : Payloads) → Keeps D.Disk header self.old before
            → IfErr result (λ e. e ≡ PutError.DiskFault true → MayKeep D.Disk header self.new before payload.now) }

        // At every moment of the call every image stands for the payloads before, or for them with this one; where it isn't put, for those before.
        ensures moments { IsHonest (D.tells (journal_disk self.old))
            → (header : Header) (before : Payloads) → Keeps D.Disk header self.old before
            → EachMoment (D.tells (journal_disk self.old)) (D.tells (journal_disk self.new)) (BeforeOrWith header before payload.now) }
        ensures not_put { IsHonest (D.tells (journal_disk self.old))
            → (header : Header) (before : Payloads) → Keeps D.Disk header self.old before
            → IfErr result (λ e. e ≡ PutError.DiskFault false
            → EachMoment (D.tells (journal_disk self.old)) (D.tells (journal_disk self.new)) (λ file. StandsFor header file before)) }

        // Where the file ends right behind the closed gate, so does every image once the payload is on the disk.
        ensures ends { IsHonest (D.tells (journal_disk self.old))
            → (header : Header) (before : Payloads) → Keeps D.Disk header self.old before
            → EndsBehind before (D.tells (journal_disk self.old)).reads
            → OnOk result (EachImage (D.tells (journal_disk self.new)) (EndsBehind (before ++ payload.now ∷ []))) }
        ensures ends_undecided { IsHonest (D.tells (journal_disk self.old))
            → (header : Header) (before : Payloads) → Keeps D.Disk header self.old before
            → EndsBehind before (D.tells (journal_disk self.old)).reads
            → IfErr result (λ e. e ≡ PutError.DiskFault true
            → EachImage (D.tells (journal_disk self.new)) (EndsBehind (before ++ payload.now ∷ []))) }

        // Nothing is written past the closed gate that stands behind the payload.
        ensures within { IsHonest (D.tells (journal_disk self.old))
            → (header : Header) (before : Payloads) → Keeps D.Disk header self.old before
            → (end : ℕ) → EachImage (D.tells (journal_disk self.old)) (λ file. length file ≤ end)
            → gate_place (before ++ payload.now ∷ []) + 1 ≤ end
            → EachImage (D.tells (journal_disk self.new)) (λ file. length file ≤ end) }

        ensures count { OnOk result (journal_count self.new ≡ journal_count self.old + 1) }
        ensures decided { OnOk result (IsDecided self.new) }
        ensures count_err { OnErr result (journal_count self.new ≡ journal_count self.old) }
        ensures decided_err { IfErr result (λ e. e ≡ PutError.DiskFault false → IsDecided self.new) }
        ensures undecided_err { IfErr result (λ e. e ≡ PutError.DiskFault true → HasUndecided self.new) }
        ensures later { D.faults (journal_disk self.old) ≤ D.faults (journal_disk self.new) }
        ensures cause { OnErr result (Rose (D.faults (journal_disk self.old)) (D.faults (journal_disk self.new))) }
        ensures unmoved { OnOk result (D.faults (journal_disk self.new) ≡ D.faults (journal_disk self.old)) }
    {
        self.put_ahead(payload, &[])
    }

    /// The same put. `next`, where it isn't empty, is the payload that will likely be put after it: where it has at most
    /// 512 bytes it is written ahead, behind a closed gate, before this one's gate is opened, and the sync that keeps the gate keeps
    /// it too. A put of a payload that was written ahead takes this one sync. Where the next one can't be written, this one isn't
    /// put, and nothing is undecided. It takes no memory.
    pub fn put_ahead(&mut self, payload: &[u8], next: &[u8]) -> Result<(), PutError>
        requires decided { IsDecided self.old }
        requires payload { IsPayload payload.now }
        requires room { journal_count self.old < 2 ^ 32 }
        requires stands { IsHonest (D.tells (journal_disk self.old))
            → (header : Header) × ((before : Payloads) × Keeps D.Disk header self.old before) }

        ensures honest { (D.tells (journal_disk self.new)).honest ≡ (D.tells (journal_disk self.old)).honest }
        ensures kept { IsHonest (D.tells (journal_disk self.old))
            → (header : Header) (before : Payloads) → Keeps D.Disk header self.old before
            → OnOk result (Keeps D.Disk header self.new (before ++ payload.now ∷ [])) }
        ensures before { IsHonest (D.tells (journal_disk self.old))
            → (header : Header) (before : Payloads) → Keeps D.Disk header self.old before
            → IfErr result (λ e. e ≡ PutError.DiskFault false → Keeps D.Disk header self.new before) }
        ensures undecided { IsHonest (D.tells (journal_disk self.old))
            → (header : Header) (before : Payloads) → Keeps D.Disk header self.old before
            → IfErr result (λ e. e ≡ PutError.DiskFault true → MayKeep D.Disk header self.new before payload.now) }

        // At every moment of the call every image stands for the payloads before, or for them with this one; where it isn't put, for those before.
        ensures moments { IsHonest (D.tells (journal_disk self.old))
            → (header : Header) (before : Payloads) → Keeps D.Disk header self.old before
            → EachMoment (D.tells (journal_disk self.old)) (D.tells (journal_disk self.new)) (BeforeOrWith header before payload.now) }
        ensures not_put { IsHonest (D.tells (journal_disk self.old))
            → (header : Header) (before : Payloads) → Keeps D.Disk header self.old before
            → IfErr result (λ e. e ≡ PutError.DiskFault false
            → EachMoment (D.tells (journal_disk self.old)) (D.tells (journal_disk self.new)) (λ file. StandsFor header file before)) }

        // Where the file ends right behind the closed gate and nothing is written ahead, so does every image once the payload is on the disk.
        ensures alone { IsHonest (D.tells (journal_disk self.old)) → next.now ≡ []
            → (header : Header) (before : Payloads) → Keeps D.Disk header self.old before
            → EndsBehind before (D.tells (journal_disk self.old)).reads
            → OnOk result (EachImage (D.tells (journal_disk self.new)) (EndsBehind (before ++ payload.now ∷ []))) }
        ensures alone_undecided { IsHonest (D.tells (journal_disk self.old)) → next.now ≡ []
            → (header : Header) (before : Payloads) → Keeps D.Disk header self.old before
            → EndsBehind before (D.tells (journal_disk self.old)).reads
            → IfErr result (λ e. e ≡ PutError.DiskFault true
            → EachImage (D.tells (journal_disk self.new)) (EndsBehind (before ++ payload.now ∷ []))) }

        // Nothing is written past the closed gate that stands behind the payload and the next one.
        ensures ends { IsHonest (D.tells (journal_disk self.old))
            → (header : Header) (before : Payloads) → Keeps D.Disk header self.old before
            → (end : ℕ) → EachImage (D.tells (journal_disk self.old)) (λ file. length file ≤ end)
            → gate_place (before ++ payload.now ∷ []) + 1 + length (block_of next.now) ≤ end
            → EachImage (D.tells (journal_disk self.new)) (λ file. length file ≤ end) }

        ensures count { OnOk result (journal_count self.new ≡ journal_count self.old + 1) }
        ensures decided { OnOk result (IsDecided self.new) }
        ensures count_err { OnErr result (journal_count self.new ≡ journal_count self.old) }
        ensures decided_err { IfErr result (λ e. e ≡ PutError.DiskFault false → IsDecided self.new) }
        ensures undecided_err { IfErr result (λ e. e ≡ PutError.DiskFault true → HasUndecided self.new) }
        ensures later { D.faults (journal_disk self.old) ≤ D.faults (journal_disk self.new) }
        ensures cause { OnErr result (Rose (D.faults (journal_disk self.old)) (D.faults (journal_disk self.new))) }
        ensures unmoved { OnOk result (D.faults (journal_disk self.new) ≡ D.faults (journal_disk self.old)) }
    {
        let next = part_ahead(next);
        if self.stage_with_next(payload, next).is_err() {
            return Err(PutError::DiskFault { undecided: false });
        }
        self.undecided = Some(payload.len());
        self.open(next)
    }

    /// Opens the gate of the undecided payload, again. It takes no memory.
    pub fn settle(&mut self) -> Result<(), PutError>
        requires undecided { HasUndecided self.old }
        requires stands { IsHonest (D.tells (journal_disk self.old))
            → (header : Header) × ((before : Payloads) × ((payload : List ℕ) × MayKeep D.Disk header self.old before payload)) }

        ensures honest { (D.tells (journal_disk self.new)).honest ≡ (D.tells (journal_disk self.old)).honest }
        ensures kept { IsHonest (D.tells (journal_disk self.old))
            → (header : Header) (before : Payloads) (payload : List ℕ) → MayKeep D.Disk header self.old before payload
            → OnOk result (Keeps D.Disk header self.new (before ++ payload ∷ [])) }
        ensures still { IsHonest (D.tells (journal_disk self.old))
            → (header : Header) (before : Payloads) (payload : List ℕ) → MayKeep D.Disk header self.old before payload
            → OnErr result (MayKeep D.Disk header self.new before payload) }

        // At every moment of the call every image stands for the payloads with the undecided one or without.
        ensures moments { IsHonest (D.tells (journal_disk self.old))
            → (header : Header) (before : Payloads) (payload : List ℕ) → MayKeep D.Disk header self.old before payload
            → EachMoment (D.tells (journal_disk self.old)) (D.tells (journal_disk self.new)) (BeforeOrWith header before payload) }

        // The file gets no longer.
        ensures length { IsHonest (D.tells (journal_disk self.old))
            → OnOk result (length (D.tells (journal_disk self.new)).reads ≡ length (D.tells (journal_disk self.old)).reads) }
        ensures lengths { IsHonest (D.tells (journal_disk self.old)) → (n : ℕ)
            → EachImage (D.tells (journal_disk self.old)) (λ file. length file ≡ n)
            → EachImage (D.tells (journal_disk self.new)) (λ file. length file ≡ n) }

        ensures refusal { IfErr result (λ e. e ≡ PutError.DiskFault true) }
        ensures count { OnOk result (journal_count self.new ≡ journal_count self.old + 1) }
        ensures decided { OnOk result (IsDecided self.new) }
        ensures count_err { OnErr result (journal_count self.new ≡ journal_count self.old) }
        ensures undecided_err { OnErr result (HasUndecided self.new) }
        ensures later { D.faults (journal_disk self.old) ≤ D.faults (journal_disk self.new) }
        ensures cause { OnErr result (Rose (D.faults (journal_disk self.old)) (D.faults (journal_disk self.new))) }
        ensures unmoved { OnOk result (D.faults (journal_disk self.new) ≡ D.faults (journal_disk self.old)) }
    {
        self.open(&[])
    }

    // Sees to it that a payload stands behind the closed gate for good: either it was written ahead, or it is written now.
    fn stage(&mut self, payload: &[u8]) -> Result<(), Failed>
        requires payload { IsPayload payload.now }
        requires room { journal_count self.old < 2 ^ 32 }
        requires stands { IsHonest (D.tells (journal_disk self.old))
            → (header : Header) × ((before : Payloads) × Keeps D.Disk header self.old before) }
        ensures honest { (D.tells (journal_disk self.new)).honest ≡ (D.tells (journal_disk self.old)).honest }
        ensures staged { IsHonest (D.tells (journal_disk self.old))
            → (header : Header) (before : Payloads) → Keeps D.Disk header self.old before
            → OnOk result (EachImage (D.tells (journal_disk self.new)) (WithGateOpen header before payload.now)) }
        ensures still { IsHonest (D.tells (journal_disk self.old))
            → (header : Header) (before : Payloads) → Keeps D.Disk header self.old before
            → Keeps D.Disk header self.new before }
        ensures ahead { (self.new.ahead ≡ payload.now) ⊎ (self.new.ahead ≡ []) }
        ensures moments { IsHonest (D.tells (journal_disk self.old))
            → (header : Header) (before : Payloads) → Keeps D.Disk header self.old before
            → EachMoment (D.tells (journal_disk self.old)) (D.tells (journal_disk self.new)) (λ file. StandsFor header file before) }
        ensures ends { IsHonest (D.tells (journal_disk self.old))
            → (end : ℕ) → EachImage (D.tells (journal_disk self.old)) (λ file. length file ≤ end)
            → self.old.gate + length payload.now + 6 ≤ end
            → EachImage (D.tells (journal_disk self.new)) (λ file. length file ≤ end) }
        ensures alone { IsHonest (D.tells (journal_disk self.old))
            → (header : Header) (before : Payloads) → Keeps D.Disk header self.old before
            → EndsBehind before (D.tells (journal_disk self.old)).reads
            → OnOk result (EachImage (D.tells (journal_disk self.new)) (EndsBehind (before ++ payload.now ∷ []))) }
        ensures same { (self.new.gate ≡ self.old.gate) × (self.new.count ≡ self.old.count) × (self.new.undecided ≡ self.old.undecided) }
        ensures later { D.faults (journal_disk self.old) ≤ D.faults (journal_disk self.new) }
        ensures cause { OnErr result (Rose (D.faults (journal_disk self.old)) (D.faults (journal_disk self.new))) }
        ensures unmoved { OnOk result (D.faults (journal_disk self.new) ≡ D.faults (journal_disk self.old)) }
    {
        if self.ahead.bytes() == payload {
            return Ok(());
        }
        self.ahead.set(&[]);
        write_record(&mut self.disk, self.gate, payload)
    }

    // Stages a payload, and writes the next one ahead, behind the closed gate that stands behind it, where there is one.
    fn stage_with_next(&mut self, payload: &[u8], next: &[u8]) -> Result<(), Failed>
        requires payload { IsPayload payload.now }
        requires next { length next.now ≤ 512 }
        requires room { journal_count self.old < 2 ^ 32 }
        requires stands { IsHonest (D.tells (journal_disk self.old))
            → (header : Header) × ((before : Payloads) × Keeps D.Disk header self.old before) }
        ensures honest { (D.tells (journal_disk self.new)).honest ≡ (D.tells (journal_disk self.old)).honest }
        ensures staged { IsHonest (D.tells (journal_disk self.old))
            → (header : Header) (before : Payloads) → Keeps D.Disk header self.old before
            → OnOk result (EachImage (D.tells (journal_disk self.new)) (WithGateOpen header before payload.now)) }
        ensures next { IsHonest (D.tells (journal_disk self.old))
            → (header : Header) (before : Payloads) → Keeps D.Disk header self.old before
            → OnOk result (HasNext header before payload.now next.now (D.tells (journal_disk self.new)).reads) }
        ensures still { IsHonest (D.tells (journal_disk self.old))
            → (header : Header) (before : Payloads) → Keeps D.Disk header self.old before
            → OnErr result (Keeps D.Disk header self.new before) }
        ensures moments { IsHonest (D.tells (journal_disk self.old))
            → (header : Header) (before : Payloads) → Keeps D.Disk header self.old before
            → EachMoment (D.tells (journal_disk self.old)) (D.tells (journal_disk self.new)) (λ file. StandsFor header file before) }
        ensures ends { IsHonest (D.tells (journal_disk self.old))
            → (header : Header) (before : Payloads) → Keeps D.Disk header self.old before
            → (end : ℕ) → EachImage (D.tells (journal_disk self.old)) (λ file. length file ≤ end)
            → gate_place (before ++ payload.now ∷ []) + 1 + length (block_of next.now) ≤ end
            → EachImage (D.tells (journal_disk self.new)) (λ file. length file ≤ end) }
        ensures alone { IsHonest (D.tells (journal_disk self.old)) → next.now ≡ []
            → (header : Header) (before : Payloads) → Keeps D.Disk header self.old before
            → EndsBehind before (D.tells (journal_disk self.old)).reads
            → OnOk result (EachImage (D.tells (journal_disk self.new)) (EndsBehind (before ++ payload.now ∷ []))) }
        ensures same { (self.new.gate ≡ self.old.gate) × (self.new.count ≡ self.old.count) × (self.new.undecided ≡ self.old.undecided) }
        ensures later { D.faults (journal_disk self.old) ≤ D.faults (journal_disk self.new) }
        ensures cause { OnErr result (Rose (D.faults (journal_disk self.old)) (D.faults (journal_disk self.new))) }
        ensures unmoved { OnOk result (D.faults (journal_disk self.new) ≡ D.faults (journal_disk self.old)) }
    {
        self.stage(payload)?;
        let behind = self.gate + payload.len() as u64 + AROUND;
        write_ahead(&mut self.disk, behind, next)
    }

    // Opens the gate of the undecided payload, behind which this one was written ahead, where there is one. The sync keeps both.
    fn open(&mut self, next: &[u8]) -> Result<(), PutError>
        requires undecided { HasUndecided self.old }
        requires next { length next.now ≤ 512 }
        requires stands { IsHonest (D.tells (journal_disk self.old))
            → (header : Header) × ((before : Payloads) × ((payload : List ℕ) × MayKeep D.Disk header self.old before payload)) }
        ensures honest { (D.tells (journal_disk self.new)).honest ≡ (D.tells (journal_disk self.old)).honest }
        ensures kept { IsHonest (D.tells (journal_disk self.old))
            → (header : Header) (before : Payloads) (payload : List ℕ) → MayKeep D.Disk header self.old before payload
            → HasNext header before payload next.now (D.tells (journal_disk self.old)).reads
            → OnOk result (Keeps D.Disk header self.new (before ++ payload ∷ [])) }
        ensures still { IsHonest (D.tells (journal_disk self.old))
            → (header : Header) (before : Payloads) (payload : List ℕ) → MayKeep D.Disk header self.old before payload
            → OnErr result (MayKeep D.Disk header self.new before payload) }
        ensures moments { IsHonest (D.tells (journal_disk self.old))
            → (header : Header) (before : Payloads) (payload : List ℕ) → MayKeep D.Disk header self.old before payload
            → EachMoment (D.tells (journal_disk self.old)) (D.tells (journal_disk self.new)) (BeforeOrWith header before payload) }

        // No image gets longer or shorter.
        ensures lengths { IsHonest (D.tells (journal_disk self.old))
            → (file : List ℕ) → (D.tells (journal_disk self.new)).image file
            → (old : List ℕ) × (D.tells (journal_disk self.old)).image old × (length file ≡ length old) }
        ensures length { IsHonest (D.tells (journal_disk self.old))
            → OnOk result (length (D.tells (journal_disk self.new)).reads ≡ length (D.tells (journal_disk self.old)).reads) }
        ensures refusal { IfErr result (λ e. e ≡ PutError.DiskFault true) }
        ensures count { OnOk result (journal_count self.new ≡ journal_count self.old + 1) }
        ensures decided { OnOk result (IsDecided self.new) }
        ensures count_err { OnErr result (journal_count self.new ≡ journal_count self.old) }
        ensures undecided_err { OnErr result (HasUndecided self.new) }
        ensures later { D.faults (journal_disk self.old) ≤ D.faults (journal_disk self.new) }
        ensures cause { OnErr result (Rose (D.faults (journal_disk self.old)) (D.faults (journal_disk self.new))) }
        ensures unmoved { OnOk result (D.faults (journal_disk self.new) ≡ D.faults (journal_disk self.old)) }
    {
        if let Some(n) = self.undecided {
            if write_kept(&mut self.disk, self.gate, &[OPEN]).is_err() {
                return Err(PutError::DiskFault { undecided: true });
            }
            self.gate += n as u64 + AROUND;
            self.count += 1;
            self.undecided = None;
            self.ahead.set(next);
        }
        Ok(())
    }

    /// Gives the disk back. It makes no call on it, and takes no memory.
    pub fn into_disk(self) -> D
        ensures { result ≡ journal_disk self }
    {
        let Journal {
            disk,
            gate: _,
            count: _,
            undecided: _,
            ahead: _,
            lengthened: _,
        } = self;
        disk
    }
}
