//! A run of many desks over a list under rules: each has an input of its own, and files its rows while the others file theirs.
ghost use Rattle.std.specs.Prelude.{◌≡◌, ◌⊎◌, List, ℕ};
ghost use Rattle.io_traits.specs.Faults.{Rose};
ghost use Rattle.log_desk_runs.specs.DesksDone.{CanFile, MovedAt, NoneRose};
ghost use Rattle.log_machine.specs.Recovers.{Recovers};
ghost use Rattle.log_lock.specs.Turning.{RoseBy};
ghost use Rattle.log_rules.specs.Ruled.{scheme_of};
ghost use Rattle.run_rules.specs.Desks.{RanRuledDesks, reads_of};
ghost use Rattle.run_rules.specs.Runs.{table_rows};

use crate::copies::FilingEntryCopies;
use io_traits::{Disk, Sink, Source, SyncPoint};
use log_desk_runs::{DeskSource, run_desks_on};
use log_rules::{OutcomeText, RuleMachine, TableRowFormat, TableRows};
use log_session::{ReadStop, read_rows};
use std::alloc::Global;
use std::sync::Wait;
use std::thread::Threads;

/// What a desk reads its rows from.
#[derive(Drop)]
pub struct RuleDeskInput<S> {
    pub input: S,
}

impl<S: Source, R: OutcomeText> DeskSource<RuleMachine<R>> for RuleDeskInput<S> {
    ghost use Rattle.run_rules.specs.Desks.{reads_of};

    type RowFormat = TableRowFormat<R>;

    type Rows = TableRows<R>;

    ghost reads = { reads_of S.Source };

    fn read(&mut self, alloc: Global) -> Result<TableRows<R>, ReadStop> {
        let forms = TableRowFormat::<R>::new();
        read_rows::<S, RuleMachine<R>, TableRowFormat<R>>(alloc, &forms, &mut self.input)
    }
}

/// Files what the desks' inputs have into the list of the disk's file, and answers the status and the disk as it is then. All
/// inputs are read, in desk order, before the journal is opened; then each desk files its rows in order, while the others file
/// theirs. When the last has ended the lines of each desk are written, in desk order, and then a line for each filing that was
/// admitted, by position, with the row that filed it.
///
/// The status is 2 where there is no desk or more than 16, and 3, 4, 5, 6, 7, 8 and 9 as that of `run_ruled`. After the desks have
/// filed it is 4 where a write failed, else 5 where a desk had a fault of the disk, else 9 where one had no memory, else 0.
pub fn run_ruled_desks<
    D: Disk + Send,
    S: Source,
    G: SyncPoint + Sync,
    K: Sink,
    H: Threads + Wait + Sync,
    R: OutcomeText,
>(rt: &H, alloc: Global, desks: &mut [RuleDeskInput<S>], disk: D, gate: &G, out: &mut K) -> (u8, D)
where
    R: Send,
    R::Index: Send,
    R::Entry: Copy + Send,
    R::Outcome: Send,
    // What a file recovers is one list at most, and is within the law.
    ensures within { (file : List ℕ) (history : List R.Entry) → Recovers (scheme_of R.ruling) file history → R.IsWithin history }
    ensures one { (file : List ℕ) (history other : List R.Entry) → Recovers (scheme_of R.ruling) file history → Recovers (scheme_of R.ruling) file other → history ≡ other }

    // All that a run of desks does, by how it ended: the text, the disk, the counts, and the status.
    ensures ran { RanRuledDesks R R.Index R.ruling R.code_of R.numbers_of R.outcome_text (table_rows R.words R.key R.kinds) D.Disk S.Source K.Sink disk result.1 desks.old desks.new out.old out.new result.0 }

    // Where no count rose, desks that can file are done, if there is memory.
    ensures complete { CanFile (scheme_of R.ruling) (reads_of {R = R} S.Source) desks.old (D.tells disk) → NoneRose (reads_of {R = R} S.Source) desks.old desks.new → ¬ (Rose (K.faults out.old) (K.faults out.new))
        → ¬ (RoseBy 1 (D.faults disk) (D.faults result.1)) → (result.0 ≡ 0) ⊎ (result.0 ≡ 9) }
    ensures disk_honest { (D.tells result.1).honest ≡ (D.tells disk).honest }

    // The disk's count rose where the status is 5, and stood still at every other one but 4.
    ensures disk { MovedAt result.0 (D.faults disk) (D.faults result.1) }
{
    run_desks_on::<D, RuleMachine<R>, RuleDeskInput<S>, FilingEntryCopies<R>, G, K, H>(
        rt, alloc, desks, disk, gate, out,
    )
}
