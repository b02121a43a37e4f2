// What differs between two journals is told.
ghost use Rattle.std.specs.Prelude.{◌≡◌, ◌⊎◌, ◌≤◌, ◌++◌, List, IsTrue, IfOk};
ghost use Rattle.aid_filings.specs.declared.filing.Filing.{Filing};
ghost use Rattle.io_traits.specs.DiskState.{IsHonest, IsRead};
ghost use Rattle.io_traits.specs.Faults.{Rose};
ghost use Rattle.log_runs.specs.Ends.{Moved};
ghost use Rattle.log_stamps.specs.declared.entry.StampedEntry.{StampedEntry as AnyEntry};
ghost use Rattle.office_amends.specs.Changes.{changes_text};
ghost use Rattle.office_log.specs.Openable.{IsOffice};
ghost use Rattle.office_log.specs.Recovers.{Recovers};
ghost use Rattle.run_builds.specs.Comparisons.{Compares, Comparing};
ghost use Rattle.run_builds.specs.Ends.{is_new_stop, is_old_stop};

use crate::ending::ChangesEnd;
use crate::source::read_list;
use io_traits::{Disk, Sink};
use log_machine::StateMachine;
use office_log::StampedOfficeMachine;
use std::alloc::{AllocError, Global};

// What differs between two lists.
fn told(
    alloc: Global,
    old: &StampedOfficeMachine,
    new: &StampedOfficeMachine,
) -> Result<Vec<u8>, AllocError>
    ensures { IfOk result (λ text. text.items
        ≡ changes_text (⟦<StampedOfficeMachine as StateMachine>⟧.history old.now) (⟦<StampedOfficeMachine as StateMachine>⟧.history new.now)) }
{
    let old_stamps = old.stamps();
    let new_stamps = new.stamps();
    office_amends::changes(
        alloc,
        old.inner().office(),
        old_stamps,
        new.inner().office(),
        new_stamps,
    )
}

// All but what is written.
fn read_and_compare<A: Disk, B: Disk>(alloc: Global, old: A, new: B) -> (ChangesEnd, Vec<u8>, A, B)
    ensures compares { Compares A.Disk B.Disk old new result.0 result.1.items }
    ensures old_read { IsHonest (A.tells old) → IsRead (A.tells old) (A.tells result.2) }
    ensures new_read { IsHonest (B.tells new) → IsRead (B.tells new) (B.tells result.3) }
    ensures old_honest { (A.tells result.2).honest ≡ (A.tells old).honest }
    ensures new_honest { (B.tells result.3).honest ≡ (B.tells new).honest }
    ensures old_cause { Moved (is_old_stop result.0) (A.faults old, A.faults result.2) }
    ensures new_cause { Moved (is_new_stop result.0) (B.faults new, B.faults result.3) }
    ensures old_later { A.faults old ≤ A.faults result.2 }
    ensures new_later { B.faults new ≤ B.faults result.3 }
{
    let (old_list, old) = match read_list(alloc, old) {
        Ok((list, old)) => (list, old),
        Err((fault, old)) => return (ChangesEnd::Old(fault), Vec::new(alloc), old, new),
    };
    let (new_list, new) = match read_list(alloc, new) {
        Ok((list, new)) => (list, new),
        Err((fault, new)) => return (ChangesEnd::New(fault), Vec::new(alloc), old, new),
    };
    match told(alloc, &old_list, &new_list) {
        Ok(text) => (ChangesEnd::Told, text, old, new),
        Err(_) => (ChangesEnd::NoMemory, Vec::new(alloc), old, new),
    }
}

/// Tells what differs between two journals, key by key: what either has of each key under which they don't have the same filing under
/// the same stamp; and how many keys are the same and how many differ. Both are read whole, and neither is written.
///
/// The status is 0 where the text was written, whether anything differs or not; 4 where it couldn't be written, 5 where a disk failed,
/// 6 where a file is no office of version 2, 7 where it is damaged or its list isn't legal, and 9 where there is no memory. At each but
/// 0 and 4 the last line is that of the fault, and where it is the old journal's, the line in front says so.
pub fn changes<A: Disk, B: Disk, K: Sink>(alloc: Global, old: A, new: B, out: &mut K) -> (u8, A, B)
    // All that a comparison does, by how it ends: the text, the counts and the status.
    ensures comparing { Comparing A.Disk B.Disk K.Sink
        (record { old = (A.faults old, A.faults result.1); new = (B.faults new, B.faults result.2); sink = (K.faults out.old, K.faults out.new) })
        old new out.old out.new result.0 }

    // Neither journal is written.
    ensures old_read { IsHonest (A.tells old) → IsRead (A.tells old) (A.tells result.1) }
    ensures new_read { IsHonest (B.tells new) → IsRead (B.tells new) (B.tells result.2) }

    // At 0 the text tells what differs between the lists of the two.
    ensures shown { (past : List (AnyEntry Filing)) (now : List (AnyEntry Filing)) → result.0 ≡ 0 → IsHonest (A.tells old) → Recovers (A.tells old).reads past
        → IsHonest (B.tells new) → Recovers (B.tells new).reads now → IsTrue (K.honest out.old) → K.text out.new ≡ K.text out.old ++ changes_text past now }

    // Where no count rose, two undamaged journals give 0, if there is memory.
    ensures complete { IsOffice (A.tells old) → IsOffice (B.tells new)
        → ¬ (Rose (A.faults old) (A.faults result.1)) → ¬ (Rose (B.faults new) (B.faults result.2)) → ¬ (Rose (K.faults out.old) (K.faults out.new))
        → (result.0 ≡ 0) ⊎ (result.0 ≡ 9) }

    ensures old_later { A.faults old ≤ A.faults result.1 }
    ensures new_later { B.faults new ≤ B.faults result.2 }
    ensures sink_later { K.faults out.old ≤ K.faults out.new }
    ensures old_honest { (A.tells result.1).honest ≡ (A.tells old).honest }
    ensures new_honest { (B.tells result.2).honest ≡ (B.tells new).honest }
    ensures sink_honest { K.honest out.new ≡ K.honest out.old }
{
    let (end, text, old, new) = read_and_compare(alloc, old, new);
    (end.tell(text.as_slice(), out), old, new)
}
