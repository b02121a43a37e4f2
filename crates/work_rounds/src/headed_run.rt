// A run of a round.
ghost use Rattle.std.specs.Prelude.{◌≡◌, ◌⊎◌, ◌≤◌, List, Result, length};
ghost use Rattle.io_traits.specs.Faults.{Rose};
ghost use Rattle.io_traits.specs.DiskState.{EachImage, EachMoment, IsHonest};
ghost use Rattle.log_machine.specs.Recovers.{Recovers};
ghost use Rattle.log_runs.specs.Counts.{Shows};
ghost use Rattle.log_runs.specs.Ends.{IsShort, Moved};
ghost use Rattle.log_runs.specs.Lists.{IsListAt};
ghost use Rattle.log_runs.specs.Statuses.{ended_file, is_disk_fault, is_read_fault, is_write_fault};
ghost use Rattle.log_session.specs.declared.stop.SessionStop.{SessionStop};
ghost use Rattle.work_rounds.specs.Fronts.{HeadedStands, RecoversHeaded};
ghost use Rattle.work_rounds.specs.Headed.{HeadedSession};
ghost use Rattle.work_rounds.specs.HeadedRounds.{RanRound};

use crate::{RoundPlan, file_headed_round};
use io_traits::{Disk, Sink, Source};
use log_machine::StateMachine;
use log_runs::{RunStop, end, ended_filing};
use std::alloc::Global;

// Files a round, up to how it ends.
fn do_round<D: Disk, S: Source, K: Sink, R: StateMachine, P: RoundPlan<R>>(
    alloc: Global,
    disk: D,
    plan: &P,
    input: &mut S,
    out: &mut K,
) -> (Result<(), RunStop>, D)
    ensures does { (ended : Result (Unit {0}) SessionStop) × (result.0 ≡ ended_file ended)
        × HeadedSession D.Disk R.scheme R.semantics P.Rows.texts (P.plans plan.now) 16777216 disk result.1
        (record { honest = S.honest input.old; before = S.left input.old; after = S.left input.new })
        (record { honest = K.honest out.old; before = K.text out.old; after = K.text out.new }) ended }
    ensures source { Moved (is_read_fault result.0) (S.faults input.old, S.faults input.new) }
    ensures sink { Moved (is_write_fault result.0) (K.faults out.old, K.faults out.new) }
    ensures disk { Moved (is_disk_fault result.0) (D.faults disk, D.faults result.1) }
    ensures source_later { S.faults input.old ≤ S.faults input.new }
    ensures sink_later { K.faults out.old ≤ K.faults out.new }
    ensures disk_later { D.faults disk ≤ D.faults result.1 }
    ensures source_honest { S.honest input.new ≡ S.honest input.old }
    ensures sink_honest { K.honest out.new ≡ K.honest out.old }
    ensures disk_honest { (D.tells result.1).honest ≡ (D.tells disk).honest }
{
    let (ended, disk) = file_headed_round::<D, S, K, R, P>(alloc, disk, plan, input, out);
    (ended_filing(ended), disk)
}

/// Files a round into the list of the disk's file, and answers the status and the disk as it is then. The whole input is read before
/// the journal is, the heading is written before the first ask is filed, and the line of an ask before the next is filed.
///
/// The status is 0 where all was done, 3 where a read failed, 4 where a write failed, 5 where the disk failed, 6 where the file is no
/// list, 7 where it is damaged, 8 where the input has more than `INPUT_LIMIT` bytes, and 9 where there is no memory. At each but 0
/// and 4 the last line of the text names the fault.
pub fn run_headed_round<D: Disk, S: Source, K: Sink, R: StateMachine, P: RoundPlan<R>>(
    alloc: Global,
    disk: D,
    plan: &P,
    input: &mut S,
    out: &mut K,
) -> (u8, D)
    // All that a run does, by how it ended: the text, the disk at every moment, the counts, and the status.
    ensures ran { RanRound D.Disk K.Sink R.scheme R.semantics P.Rows.texts (P.plans plan.now)
        (record { source = (S.faults input.old, S.faults input.new); sink = (K.faults out.old, K.faults out.new); disk = (D.faults disk, D.faults result.1) })
        disk result.1 (record { honest = S.honest input.old; before = S.left input.old; after = S.left input.new }) out.old out.new result.0 }

    // Whatever a run comes to, each image at each moment of it recovers the list before it, or that with what some asks in front of
    // a plan add; where it was done, with what all asks of a plan add.
    ensures moments { (past : List R.Entry) → IsHonest (D.tells disk) → EachImage (D.tells disk) (λ file. Recovers R.scheme file past)
        → EachMoment (D.tells disk) (D.tells result.1)
        (RecoversHeaded R.scheme R.semantics (P.plans plan.now) (record { honest = S.honest input.old; before = S.left input.old; after = S.left input.new }) past) }
    ensures stands { (past : List R.Entry) → result.0 ≡ 0 → IsHonest (D.tells disk) → Recovers R.scheme (D.tells disk).reads past
        → HeadedStands R.scheme R.semantics (P.plans plan.now) (record { honest = S.honest input.old; before = S.left input.old; after = S.left input.new }) past (D.tells result.1) }

    // 3, 4 and 5 come only where the count of the source, the sink or the disk rose, and no fault is passed over.
    ensures shows { Shows (record { source = (S.faults input.old, S.faults input.new); sink = (K.faults out.old, K.faults out.new); disk = (D.faults disk, D.faults result.1) }) result.0 }

    // Where no count rose, a round over a list that isn't damaged is done, if there is memory.
    ensures complete { IsShort (S.honest input.old) (length (S.left input.old)) → IsListAt R.scheme (D.tells disk)
        → ¬ (Rose (S.faults input.old) (S.faults input.new)) → ¬ (Rose (K.faults out.old) (K.faults out.new)) → ¬ (Rose (D.faults disk) (D.faults result.1))
        → (result.0 ≡ 0) ⊎ (result.0 ≡ 9) }

    ensures source_later { S.faults input.old ≤ S.faults input.new }
    ensures sink_later { K.faults out.old ≤ K.faults out.new }
    ensures disk_later { D.faults disk ≤ D.faults result.1 }
    ensures source_honest { S.honest input.new ≡ S.honest input.old }
    ensures sink_honest { K.honest out.new ≡ K.honest out.old }
    ensures disk_honest { (D.tells result.1).honest ≡ (D.tells disk).honest }
{
    let (ended, disk) = do_round::<D, S, K, R, P>(alloc, disk, plan, input, out);
    (end(ended, out), disk)
}
