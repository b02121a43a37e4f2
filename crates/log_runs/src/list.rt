// A run of `found`, or of `file`, over any list.
ghost use Rattle.std.specs.Prelude.{◌≡◌, ◌⊎◌, ◌≤◌, false, None, Some, List, length};
ghost use Rattle.io_traits.specs.Faults.{Rose};
ghost use Rattle.io_traits.specs.DiskState.{EachImage, EachMoment, IsHonest};
ghost use Rattle.log_machine.specs.Recovers.{Recovers};
ghost use Rattle.log_runs.specs.Counts.{Shows};
ghost use Rattle.log_runs.specs.Ends.{Moved};
ghost use Rattle.log_runs.specs.Lists.{CanBeDone, DoesList, MayRecoverList, RanList, StandsList, StoodBefore, reads_input};
ghost use Rattle.log_runs.specs.Statuses.{is_disk_fault, is_read_fault, is_write_fault};
ghost use Rattle.log_runs.specs.declared.list.ListCommand.{ListCommand as CommandData};

use crate::ending::end;
use crate::stop::{RunStop, ended_filing, ended_founding};
use io_traits::{Disk, Sink, Source};
use log_machine::{RowFormat, StateMachine};
use log_session::{file, found};
use std::alloc::Global;

/// What the words of a run over a list say.
#[derive(Clone, Copy, PartialEq, Eq)]
pub enum ListCommand {
    /// A list without entries is founded in the disk's file.
    Found,
    /// The rows of the input are filed into the list of the disk's file.
    File,
}

// Does what a command says, up to how it ends.
fn do_command<D: Disk, S: Source, K: Sink, R: StateMachine, F: RowFormat<R>>(
    alloc: Global,
    command: ListCommand,
    disk: D,
    forms: &F,
    input: &mut S,
    out: &mut K,
) -> (Result<(), RunStop>, D)
    ensures does { DoesList D.Disk R.scheme R.semantics F.Rows.texts (F.Rows.rows_of forms.now) disk result.1
        (record { honest = S.honest input.old; before = S.left input.old; after = S.left input.new })
        (record { honest = K.honest out.old; before = K.text out.old; after = K.text out.new }) command result.0 }
    ensures unread { reads_input (Some command) ≡ false → input.new ≡ input.old }
    ensures source { Moved (is_read_fault result.0) (S.faults input.old, S.faults input.new) }
    ensures sink { Moved (is_write_fault result.0) (K.faults out.old, K.faults out.new) }
    ensures disk { Moved (is_disk_fault result.0) (D.faults disk, D.faults result.1) }
    ensures source_later { S.faults input.old ≤ S.faults input.new }
    ensures sink_later { K.faults out.old ≤ K.faults out.new }
    ensures disk_later { D.faults disk ≤ D.faults result.1 }
    ensures source_honest { S.honest input.new ≡ S.honest input.old }
    ensures sink_honest { K.honest out.new ≡ K.honest out.old }
    ensures disk_honest { (D.tells result.1).honest ≡ (D.tells disk).honest }
{
    match command {
        ListCommand::Found => {
            let (ended, disk) = found::<D, K, R>(alloc, disk, b"founded\n", out);
            (ended_founding(ended), disk)
        }
        ListCommand::File => {
            let (ended, disk) = file::<D, S, K, R, F>(alloc, disk, forms, input, out);
            (ended_filing(ended), disk)
        }
    }
}

/// Does what a command says over the disk's file, and answers the status and the disk as it is then. Without a command, where the
/// words of a run are none, nothing is read and no call is made on the disk.
///
/// The status is 0 where all was done, 2 without a command, 3 where a read failed, 4 where a write failed, 5 where the disk failed,
/// 6 where the file is none for the command, 7 where it is damaged, 8 where the input has more than `INPUT_LIMIT` bytes, and 9 where
/// there is no memory. At each but 0 and 4 the last line of the text names the fault.
pub fn run_list<D: Disk, S: Source, K: Sink, R: StateMachine, F: RowFormat<R>>(
    alloc: Global,
    command: Option<ListCommand>,
    disk: D,
    forms: &F,
    input: &mut S,
    out: &mut K,
) -> (u8, D)
    // All that a run does, by how it ended: the text, the disk at every moment, the counts, and the status.
    ensures ran { RanList D.Disk K.Sink R.scheme R.semantics F.Rows.texts (F.Rows.rows_of forms.now)
        (record { source = (S.faults input.old, S.faults input.new); sink = (K.faults out.old, K.faults out.new); disk = (D.faults disk, D.faults result.1) })
        disk result.1 (record { honest = S.honest input.old; before = S.left input.old; after = S.left input.new }) out.old out.new command result.0 }
    // The input is read by `file` alone.
    ensures unread { reads_input command ≡ false → input.new ≡ input.old }

    // Whatever a run comes to, each image at each moment of it recovers the list before it, with what some rows in front of the
    // input's add; where it was done, with what all of them add.
    ensures moments { (past : List R.Entry) → IsHonest (D.tells disk) → EachImage (D.tells disk) (λ file. Recovers R.scheme file past)
        → EachMoment (D.tells disk) (D.tells result.1)
        (MayRecoverList R.scheme R.semantics F.Rows.texts (F.Rows.rows_of forms.now) command (record { honest = S.honest input.old; before = S.left input.old; after = S.left input.new }) past) }
    ensures stands { (it : CommandData) (past : List R.Entry) → command ≡ Some it → result.0 ≡ 0 → IsHonest (D.tells disk) → StoodBefore R.scheme it (D.tells disk).reads past
        → StandsList R.scheme R.semantics F.Rows.texts (F.Rows.rows_of forms.now) it (record { honest = S.honest input.old; before = S.left input.old; after = S.left input.new }) past (D.tells result.1) }

    // 3, 4 and 5 come only where the count of the source, the sink or the disk rose, and no fault is passed over.
    ensures shows { Shows (record { source = (S.faults input.old, S.faults input.new); sink = (K.faults out.old, K.faults out.new); disk = (D.faults disk, D.faults result.1) }) result.0 }

    // Where no count rose, a command that can be done is done, if there is memory.
    ensures complete { (it : CommandData) → command ≡ Some it → CanBeDone R.scheme it (S.honest input.old) (length (S.left input.old)) (D.tells disk)
        → ¬ (Rose (S.faults input.old) (S.faults input.new)) → ¬ (Rose (K.faults out.old) (K.faults out.new)) → ¬ (Rose (D.faults disk) (D.faults result.1))
        → (result.0 ≡ 0) ⊎ (result.0 ≡ 9) }

    ensures source_later { S.faults input.old ≤ S.faults input.new }
    ensures sink_later { K.faults out.old ≤ K.faults out.new }
    ensures disk_later { D.faults disk ≤ D.faults result.1 }
    ensures source_honest { S.honest input.new ≡ S.honest input.old }
    ensures sink_honest { K.honest out.new ≡ K.honest out.old }
    ensures disk_honest { (D.tells result.1).honest ≡ (D.tells disk).honest }
{
    match command {
        Some(command) => {
            let (ended, disk) = do_command::<D, S, K, R, F>(
                alloc, command, disk, forms, input, out,
            );
            (end(ended, out), disk)
        }
        None => (end(Err(RunStop::Usage), out), disk),
    }
}
