//! A list from the payloads of a journal.
ghost use Rattle.std.specs.Prelude.{◌≡◌, ◌⊎◌, ◌+◌, ◌≤◌, ◌<◌, ◌^◌, ◌∷◌, [], ℕ, ⊤, List, length, None, IfOk, IfErr, IfNone, OnOk, OnErr, MatchBool, MatchOption};
ghost use Rattle.io_traits.specs.Faults.{Rose};
ghost use Rattle.io_traits.specs.DiskState.{IsHonest, IsRead};
ghost use Rattle.log_journal.specs.Opening.{HasGiven, HasAll, HasEnded, opening_disk, opening_count, opening_refusal};
ghost use Rattle.log_journal.specs.Head.{IsBorn, IsForeign, IsOld};
ghost use Rattle.log_journal.specs.Stands.{IsUnborn, gate_place};
ghost use Rattle.log_machine.specs.Recovers.{Recovers, payloads_of, AreEntries};
ghost use Rattle.log_machine.specs.Faulty.{IsFaultyAt};
ghost use Rattle.log_machine.specs.Reading.{HasRead, IsReadRefusal};

use crate::{DecodeError, StateMachine};
use io_traits::{Disk, PayloadBuffer};
use log_journal::{OpenError, Opening};
use std::alloc::Global;

// The next entry, with the place of its gate.
fn take_next<D: Disk, R: StateMachine>(
    alloc: Global,
    opening: &mut Opening<D>,
    room: &mut PayloadBuffer,
) -> Result<Option<(u64, R::Entry)>, OpenError>
    requires open { opening_refusal opening.old ≡ None }
    ensures honest { (D.tells (opening_disk opening.new)).honest ≡ (D.tells (opening_disk opening.old)).honest }
    ensures told { IsHonest (D.tells (opening_disk opening.old))
        → IsRead (D.tells (opening_disk opening.old)) (D.tells (opening_disk opening.new)) }
    ensures given { IsHonest (D.tells (opening_disk opening.old)) → (history : List R.Entry)
        → HasGiven D.Disk R.scheme.header opening.old (payloads_of R.scheme.spelling history)
        → IfOk result (λ next. MatchOption next (HasAll D.Disk R.scheme.header opening.new (payloads_of R.scheme.spelling history))
        (λ found. (found.0 ≡ gate_place (payloads_of R.scheme.spelling history)) × R.scheme.IsEntry found.1
        × HasGiven D.Disk R.scheme.header opening.new (payloads_of R.scheme.spelling (found.1 ∷ history)))) }
    ensures damaged { IsHonest (D.tells (opening_disk opening.old)) → (history : List R.Entry)
        → HasGiven D.Disk R.scheme.header opening.old (payloads_of R.scheme.spelling history) → AreEntries R.scheme.IsEntry history → R.scheme.IsLegal history
        → IfErr result (λ e. (place : ℕ) → e ≡ OpenError.Damaged place → IsFaultyAt R.scheme (D.tells (opening_disk opening.old)).reads place) }
    ensures ended { IfOk result (λ next. IfNone next (HasEnded opening.new)) }
    ensures count { IfOk result (λ next. MatchOption next (opening_count opening.new ≡ opening_count opening.old)
        (λ found. opening_count opening.new ≡ opening_count opening.old + 1)) }
    ensures open { OnOk result (opening_refusal opening.new ≡ None) }
    ensures refusals { IfErr result IsReadRefusal }
    ensures later { D.faults (opening_disk opening.old) ≤ D.faults (opening_disk opening.new) }
    ensures cause { IfErr result (λ e. e ≡ OpenError.DiskFault → Rose (D.faults (opening_disk opening.old)) (D.faults (opening_disk opening.new))) }
    ensures unmoved { OnOk result (D.faults (opening_disk opening.new) ≡ D.faults (opening_disk opening.old)) }
    ensures unmoved_err { IfErr result (λ e. (e ≡ OpenError.DiskFault) ⊎ (D.faults (opening_disk opening.new) ≡ D.faults (opening_disk opening.old))) }
{
    let Some(place) = opening.next(room)? else {
        return Ok(None);
    };
    match R::decode(alloc, room.bytes()) {
        Ok(entry) => Ok(Some((place, entry))),
        Err(DecodeError::NotEntry) => Err(OpenError::Damaged(place)),
        Err(DecodeError::NoMemory) => Err(OpenError::NoMemory),
    }
}

// Admits an entry that stands behind those of the docket, or refuses it at its place.
fn admit_read<R: StateMachine>(
    machine: &mut R,
    place: u64,
    entry: R::Entry,
) -> Result<(), OpenError>
    ensures admitted { OnOk result (R.history machine.new ≡ entry ∷ R.history machine.old) }
    ensures unchanged { OnErr result (R.history machine.new ≡ R.history machine.old) }
    ensures refused { IfErr result (λ e. (e ≡ OpenError.NoMemory)
        ⊎ ((e ≡ OpenError.Damaged place) × (R.scheme.IsLegal (entry ∷ R.history machine.old) → ⊥))) }
    ensures legal { R.scheme.IsLegal (R.history machine.old) → R.scheme.IsLegal (R.history machine.new) }
    ensures range { R.spare machine.old < 2 ^ 32 → R.spare machine.new < 2 ^ 32 }
{
    if machine.reserve(1).is_err() {
        return Err(OpenError::NoMemory);
    }
    let Some(ruling) = machine.rule(&entry) else {
        return Err(OpenError::Damaged(place));
    };
    machine.admit(entry, ruling);
    Ok(())
}

// Takes the next entry into the docket, and says whether there was one.
fn admit_next<D: Disk, R: StateMachine>(
    alloc: Global,
    opening: &mut Opening<D>,
    machine: &mut R,
    room: &mut PayloadBuffer,
) -> Result<bool, OpenError>
    requires open { opening_refusal opening.old ≡ None }
    ensures honest { (D.tells (opening_disk opening.new)).honest ≡ (D.tells (opening_disk opening.old)).honest }
    ensures told { IsHonest (D.tells (opening_disk opening.old))
        → IsRead (D.tells (opening_disk opening.old)) (D.tells (opening_disk opening.new)) }
    ensures given { IsHonest (D.tells (opening_disk opening.old)) → HasRead D.Disk R.scheme opening.old (R.history machine.old)
        → IfOk result (λ more. MatchBool more (HasRead D.Disk R.scheme opening.new (R.history machine.new))
        (HasAll D.Disk R.scheme.header opening.new (payloads_of R.scheme.spelling (R.history machine.new)) × AreEntries R.scheme.IsEntry (R.history machine.new))) }
    ensures damaged { IsHonest (D.tells (opening_disk opening.old)) → HasRead D.Disk R.scheme opening.old (R.history machine.old)
        → R.scheme.IsLegal (R.history machine.old)
        → IfErr result (λ e. (place : ℕ) → e ≡ OpenError.Damaged place → IsFaultyAt R.scheme (D.tells (opening_disk opening.old)).reads place) }
    ensures ended { IfOk result (λ more. MatchBool more ⊤ (HasEnded opening.new)) }
    ensures count { opening_count opening.old ≡ length (R.history machine.old) → OnOk result (opening_count opening.new ≡ length (R.history machine.new)) }
    ensures grows { IfOk result (λ more. MatchBool more (length (R.history machine.new) ≡ length (R.history machine.old) + 1) (R.history machine.new ≡ R.history machine.old)) }
    ensures legal { R.scheme.IsLegal (R.history machine.old) → R.scheme.IsLegal (R.history machine.new) }
    ensures range { R.spare machine.old < 2 ^ 32 → R.spare machine.new < 2 ^ 32 }
    ensures open { OnOk result (opening_refusal opening.new ≡ None) }
    ensures refusals { IfErr result IsReadRefusal }
    ensures later { D.faults (opening_disk opening.old) ≤ D.faults (opening_disk opening.new) }
    ensures cause { IfErr result (λ e. e ≡ OpenError.DiskFault → Rose (D.faults (opening_disk opening.old)) (D.faults (opening_disk opening.new))) }
    ensures unmoved { OnOk result (D.faults (opening_disk opening.new) ≡ D.faults (opening_disk opening.old)) }
    ensures unmoved_err { IfErr result (λ e. (e ≡ OpenError.DiskFault) ⊎ (D.faults (opening_disk opening.new) ≡ D.faults (opening_disk opening.old))) }
{
    match take_next::<D, R>(alloc, opening, room)? {
        None => Ok(false),
        Some((place, entry)) => {
            admit_read(machine, place, entry)?;
            Ok(true)
        }
    }
}

/// Takes the entries of a journal into a docket that has none, up to the first gate that isn't open.
pub(crate) fn read_all<D: Disk, R: StateMachine>(
    alloc: Global,
    opening: &mut Opening<D>,
    machine: &mut R,
    room: &mut PayloadBuffer,
) -> Result<(), OpenError>
    requires open { opening_refusal opening.old ≡ None }
    requires begun { R.history machine.old ≡ [] }
    requires counted { opening_count opening.old ≡ 0 }
    requires range { R.spare machine.old < 2 ^ 32 }
    requires given { IsHonest (D.tells (opening_disk opening.old)) → HasGiven D.Disk R.scheme.header opening.old [] }
    ensures honest { (D.tells (opening_disk opening.new)).honest ≡ (D.tells (opening_disk opening.old)).honest }
    ensures told { IsHonest (D.tells (opening_disk opening.old))
        → IsRead (D.tells (opening_disk opening.old)) (D.tells (opening_disk opening.new)) }
    ensures all { IsHonest (D.tells (opening_disk opening.old))
        → OnOk result (HasAll D.Disk R.scheme.header opening.new (payloads_of R.scheme.spelling (R.history machine.new))) }
    ensures entries { IsHonest (D.tells (opening_disk opening.old)) → OnOk result (AreEntries R.scheme.IsEntry (R.history machine.new)) }
    ensures legal { R.scheme.IsLegal (R.history machine.new) }
    ensures damaged { IsHonest (D.tells (opening_disk opening.old))
        → IfErr result (λ e. (place : ℕ) → e ≡ OpenError.Damaged place → IsFaultyAt R.scheme (D.tells (opening_disk opening.old)).reads place) }
    ensures ended { OnOk result (HasEnded opening.new) }
    ensures count { OnOk result (opening_count opening.new ≡ length (R.history machine.new)) }
    ensures range { R.spare machine.new < 2 ^ 32 }
    ensures refusals { IfErr result IsReadRefusal }
    ensures later { D.faults (opening_disk opening.old) ≤ D.faults (opening_disk opening.new) }
    ensures cause { IfErr result (λ e. e ≡ OpenError.DiskFault → Rose (D.faults (opening_disk opening.old)) (D.faults (opening_disk opening.new))) }
    ensures unmoved { OnOk result (D.faults (opening_disk opening.new) ≡ D.faults (opening_disk opening.old)) }
    ensures unmoved_err { IfErr result (λ e. (e ≡ OpenError.DiskFault) ⊎ (D.faults (opening_disk opening.new) ≡ D.faults (opening_disk opening.old))) }
{
    while admit_next(alloc, opening, machine, room)? {}
    Ok(())
}

/// Reads the list of a journal whole, up to the first gate that isn't open, and writes nothing.
pub(crate) fn read_opening<D: Disk, R: StateMachine>(
    alloc: Global,
    disk: D,
    room: &mut PayloadBuffer,
) -> Result<(R, Opening<D>), (OpenError, D)>
    ensures honest { IfOk result (λ r. (D.tells (opening_disk r.1)).honest ≡ (D.tells disk).honest) }
    ensures honest_err { IfErr result (λ e. (D.tells e.1).honest ≡ (D.tells disk).honest) }
    ensures told { IsHonest (D.tells disk) → IfOk result (λ r. IsRead (D.tells disk) (D.tells (opening_disk r.1))) }
    ensures told_err { IsHonest (D.tells disk) → IfErr result (λ e. IsRead (D.tells disk) (D.tells e.1)) }
    ensures all { IsHonest (D.tells disk)
        → IfOk result (λ r. HasAll D.Disk R.scheme.header r.1 (payloads_of R.scheme.spelling (R.history r.0))) }
    ensures recovers { IsHonest (D.tells disk) → IfOk result (λ r. Recovers R.scheme (D.tells disk).reads (R.history r.0)) }
    ensures legal { IfOk result (λ r. R.scheme.IsLegal (R.history r.0)) }
    ensures no_office { IsHonest (D.tells disk)
        → IfErr result (λ e. e.0 ≡ OpenError.NoOffice → IsUnborn (D.tells disk).reads) }
    ensures foreign { IsHonest (D.tells disk)
        → IfErr result (λ e. e.0 ≡ OpenError.NotJournal → IsForeign R.scheme.header (D.tells disk).reads) }
    ensures old { IsHonest (D.tells disk)
        → IfErr result (λ e. e.0 ≡ OpenError.OldVersion → IsOld R.scheme.header (D.tells disk).reads) }
    ensures damaged { IsHonest (D.tells disk)
        → IfErr result (λ e. (place : ℕ) → e.0 ≡ OpenError.Damaged place
        → IsBorn R.scheme.header (D.tells disk).reads × IsFaultyAt R.scheme (D.tells disk).reads place) }
    ensures complete { IsHonest (D.tells disk) → (history : List R.Entry) → Recovers R.scheme (D.tells disk).reads history
        → IfErr result (λ e. (e.0 ≡ OpenError.NoMemory) ⊎ (e.0 ≡ OpenError.DiskFault)) }
    ensures ended { IfOk result (λ r. HasEnded r.1) }
    ensures count { IfOk result (λ r. opening_count r.1 ≡ length (R.history r.0)) }
    ensures range { IfOk result (λ r. R.spare r.0 < 2 ^ 32) }
    ensures later { IfOk result (λ r. D.faults disk ≤ D.faults (opening_disk r.1)) }
    ensures later_err { IfErr result (λ e. D.faults disk ≤ D.faults e.1) }
    ensures cause { IfErr result (λ e. e.0 ≡ OpenError.DiskFault → Rose (D.faults disk) (D.faults e.1)) }
    ensures unmoved { IfOk result (λ r. D.faults (opening_disk r.1) ≡ D.faults disk) }
    ensures unmoved_err { IfErr result (λ e. (e.0 ≡ OpenError.DiskFault) ⊎ (D.faults e.1 ≡ D.faults disk)) }
{
    let mut opening = log_journal::recover(disk, R::header())?;
    let mut machine = R::new(alloc);
    if let Err(error) = read_all(alloc, &mut opening, &mut machine, room) {
        return Err((error, opening.into_disk()));
    }
    Ok((machine, opening))
}

/// Reads the list of a journal whole, each entry judged, and writes nothing. The entries are judged as `Log::recover`
/// judges them, with the same refusals.
pub fn read<D: Disk, R: StateMachine>(alloc: Global, disk: D) -> Result<(R, D), (OpenError, D)>
    ensures honest { IfOk result (λ r. (D.tells r.1).honest ≡ (D.tells disk).honest) }
    ensures honest_err { IfErr result (λ e. (D.tells e.1).honest ≡ (D.tells disk).honest) }

    // The list is what the bytes stand for.
    ensures recovers { IsHonest (D.tells disk) → IfOk result (λ r. Recovers R.scheme (D.tells disk).reads (R.history r.0)) }
    ensures legal { IfOk result (λ r. R.scheme.IsLegal (R.history r.0)) }

    // Each refusal but for the disk and for memory comes by the bytes.
    ensures no_office { IsHonest (D.tells disk)
        → IfErr result (λ e. e.0 ≡ OpenError.NoOffice → IsUnborn (D.tells disk).reads) }
    ensures foreign { IsHonest (D.tells disk)
        → IfErr result (λ e. e.0 ≡ OpenError.NotJournal → IsForeign R.scheme.header (D.tells disk).reads) }
    ensures old { IsHonest (D.tells disk)
        → IfErr result (λ e. e.0 ≡ OpenError.OldVersion → IsOld R.scheme.header (D.tells disk).reads) }
    ensures damaged { IsHonest (D.tells disk)
        → IfErr result (λ e. (place : ℕ) → e.0 ≡ OpenError.Damaged place
        → IsBorn R.scheme.header (D.tells disk).reads × IsFaultyAt R.scheme (D.tells disk).reads place) }
    ensures complete { IsHonest (D.tells disk) → (history : List R.Entry) → Recovers R.scheme (D.tells disk).reads history
        → IfErr result (λ e. (e.0 ≡ OpenError.NoMemory) ⊎ (e.0 ≡ OpenError.DiskFault)) }

    // Nothing is written, whatever the answer.
    ensures told { IsHonest (D.tells disk) → IfOk result (λ r. IsRead (D.tells disk) (D.tells r.1)) }
    ensures told_err { IsHonest (D.tells disk) → IfErr result (λ e. IsRead (D.tells disk) (D.tells e.1)) }

    ensures later { IfOk result (λ r. D.faults disk ≤ D.faults r.1) }
    ensures later_err { IfErr result (λ e. D.faults disk ≤ D.faults e.1) }
    ensures cause { IfErr result (λ e. e.0 ≡ OpenError.DiskFault → Rose (D.faults disk) (D.faults e.1)) }

    // Every other answer comes without a fault.
    ensures unmoved { IfOk result (λ r. D.faults r.1 ≡ D.faults disk) }
    ensures unmoved_err { IfErr result (λ e. (e.0 ≡ OpenError.DiskFault) ⊎ (D.faults e.1 ≡ D.faults disk)) }
{
    let Ok(mut room) = PayloadBuffer::new(alloc) else {
        return Err((OpenError::NoMemory, disk));
    };
    let (machine, opening) = read_opening::<D, R>(alloc, disk, &mut room)?;
    Ok((machine, opening.into_disk()))
}
