// A run of many desks: each has an input of its own, and files its rows while the others file theirs.
ghost use Rattle.std.specs.Prelude.{◌≡◌, ◌⊎◌, ◌++◌, ℕ, IsTrue, List, map};
ghost use Rattle.std.specs.List.{All};
ghost use Rattle.io_traits.specs.Faults.{Rose};
ghost use Rattle.aid_filings.specs.declared.filing.Filing.{Filing};
ghost use Rattle.io_traits.specs.DiskState.{EachImage, IsHonest};
ghost use Rattle.run_claims.specs.AtOnce.{RanAtOnce};
ghost use Rattle.run_claims.specs.Filed.{rows_in};
ghost use Rattle.run_claims.specs.Office.{Recovers};
ghost use Rattle.log_lock.specs.Turning.{RoseBy};
ghost use Rattle.log_desk_runs.specs.DesksDone.{MovedAt};
ghost use Rattle.run_office.specs.RanDesks.{CanFile, NoneRose, RanDesks};
ghost use Rattle.log_stamps.specs.declared.entry.StampedEntry.{StampedEntry};

use crate::copies::FilingEntryCopies;
use aid_stamps::Stamp;
use io_traits::{Disk, Sink, Source, SyncPoint};
use log_desk_runs::{DeskSource, run_desks_on};
use log_session::{ReadStop, read_rows};
use log_stamps::{StampedRowFormat, StampedRows};
use office_log::StampedOfficeMachine;
use run_rows::{DeskRowFormat, DeskRows};
use std::alloc::Global;
use std::sync::Wait;
use std::thread::Threads;

/// What a desk reads its rows from, and the stamp under which it files them.
#[derive(Drop)]
pub struct DeskInput<S> {
    pub input: S,
    pub stamp: Stamp,
}

impl<S: Source> DeskSource<StampedOfficeMachine> for DeskInput<S> {
    ghost use Rattle.run_office.specs.RanDesks.{reads_of};

    type RowFormat = StampedRowFormat<DeskRowFormat>;

    type Rows = StampedRows<DeskRows>;

    ghost reads = { reads_of S.Source };

    fn read(&mut self, alloc: Global) -> Result<StampedRows<DeskRows>, ReadStop> {
        let forms = StampedRowFormat {
            forms: DeskRowFormat,
            stamp: self.stamp,
        };
        read_rows::<S, StampedOfficeMachine, StampedRowFormat<DeskRowFormat>>(
            alloc,
            &forms,
            &mut self.input,
        )
    }
}

/// Files what the desks' inputs have into the office of the disk's file, and answers the status and the disk as it is
/// then. All inputs are read, in desk order, before the journal is opened; then each desk files its rows in order under
/// its own stamp, while the others file theirs. When the last has ended the lines of each desk are written, in desk order,
/// and then a line for each filing that was admitted, by position, with the row that filed it. Where no row was answered as
/// accepted there it is the first row, by desk, that files the same under the same stamp and at which a desk ended with
/// this position in doubt. So the row's desk has the stamp of the filing that stands there.
///
/// The status is 2 where there is no desk or more than 16, and 3, 4, 5, 6, 7, 8 and 9 as that of `run`. After the desks
/// have filed it is 4 where a write failed, else 5 where a desk had a fault of the disk, else 9 where one had no memory,
/// else 0.
pub fn run_desks<D: Disk + Send, S: Source, G: SyncPoint + Sync, K: Sink, H: Threads + Wait + Sync>(
    rt: &H,
    alloc: Global,
    desks: &mut [DeskInput<S>],
    disk: D,
    gate: &G,
    out: &mut K,
) -> (u8, D)
    // The headline, in few words. Over an honest disk each image of which recovers a history, each row of a desk with a line was
    // answered on a history that goes on from what the desk had seen; what the desks' rows added joins the history, none is lost
    // and none is made up; and each image then recovers it, or, where the status isn't 0, it and the filing of one row more.
    ensures headline { (past : List (StampedEntry Filing)) → IsHonest (D.tells disk) → All (λ i. IsTrue (S.honest i.input)) desks.old → IsTrue (K.honest out.old) → EachImage (D.tells disk) (λ file. Recovers file past)
        → (text : List ℕ) × (K.text out.new ≡ K.text out.old ++ text) × RanAtOnce (map (λ i. (i.stamp, rows_in (S.left i.input))) desks.old) past (D.tells disk) (D.tells result.1) text result.0 }

    // All that a run of desks does, by how it ended: the text, the disk, the counts, and the status.
    ensures ran { RanDesks D.Disk S.Source K.Sink disk result.1 desks.old desks.new out.old out.new result.0 }

    // Where no count rose, desks that can file are done, if there is memory.
    ensures complete { CanFile S.Source desks.old (D.tells disk) → NoneRose S.Source desks.old desks.new → ¬ (Rose (K.faults out.old) (K.faults out.new))
        → ¬ (RoseBy 1 (D.faults disk) (D.faults result.1)) → (result.0 ≡ 0) ⊎ (result.0 ≡ 9) }
    ensures disk_honest { (D.tells result.1).honest ≡ (D.tells disk).honest }

    // The disk's count rose where the status is 5, and stood still at every other one but 4.
    ensures disk { MovedAt result.0 (D.faults disk) (D.faults result.1) }
{
    run_desks_on::<D, StampedOfficeMachine, DeskInput<S>, FilingEntryCopies, G, K, H>(
        rt, alloc, desks, disk, gate, out,
    )
}
