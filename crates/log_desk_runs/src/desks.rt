// A run of many desks: each has an input of its own, and files its rows while the others file theirs.
ghost use Rattle.std.specs.Prelude.{◌≡◌, ◌≢◌, ◌⊎◌, ◌≤◌, ◌<◌, ◌+◌, ◌-◌, ◌++◌, [], ℕ, List, false, true, None, Err, Option, IfOk, IfErr, OnOk, slice_index_or, length, reverse, take};
ghost use Rattle.std.specs.List.{All};
ghost use Rattle.io_traits.specs.Faults.{Rose};
ghost use Rattle.io_traits.specs.DiskState.{IsHonest};
ghost use Rattle.log_machine.specs.Kept.{IsSound};
ghost use Rattle.log_machine.specs.declared.names.Filed.{Filed};
ghost use Rattle.log_session.specs.Sessions.{IsUnread};
ghost use Rattle.log_lock.specs.Turning.{RoseBy};
ghost use Rattle.log_lock.specs.declared.turned.Snapshot.{Snapshot};
ghost use Rattle.log_desks.specs.Desks.{DeskView, IsReady, HasEnded, Works};
ghost use Rattle.log_desks.specs.Shares.{stand_of, IsBegun, IsReached};
ghost use Rattle.log_machine.specs.declared.names.RowName.{RowName};
ghost use Rattle.log_runs.specs.Ends.{EndsWith};
ghost use Rattle.log_desk_runs.specs.DeskTexts.{admitted_text, desks_status as desks_status_of, desks_text};
ghost use Rattle.log_desk_runs.specs.DesksDone.{CanFile, MovedAt, NoneRose};
ghost use Rattle.log_desk_runs.specs.Names.{names_of};
ghost use Rattle.log_desk_runs.specs.RanDesksOn.{AreFew, AreNew, AreRead, FilesAll, HasFiled, IsUnreadAt, Joins, RanDesksOn};

use crate::desk_lines::{desk_prefix, desks_status, put_all};
use crate::{DeskSource, EntryMatch};
use io_traits::{Disk, Sink, SyncPoint};
use log_desks::{Desk, DeskEnd, EntryCopies, SharedList, Since, close_desks, open_desks};
use log_lock::TicketLock;
use log_machine::{Log, RowName, Rows, SingleEntryMachine, StateMachine};
use log_runs::{RunStop, WRITE_FAILED, end_with};
use log_session::{FileStop, ReadStop, open};
use std::alloc::Global;
use std::marker::Brand;
use std::sync::Wait;
use std::thread::{Threads, for_each_mut};

/// At most so many desks file at once.
pub const MOST_DESKS: usize = 16;

// Reads the input of a desk, and makes the desk behind the others.
fn read_desk<R: SingleEntryMachine, I: DeskSource<R>>(
    alloc: Global,
    number: u32,
    input: &mut I,
    desks: &mut Vec<Desk<R, I::Rows>>,
) -> Result<(), ReadStop>
    ensures desk { OnOk result (Joins I.Rows.left number (I.Rows.rows_of (I.reads.forms input.old) (I.reads.left input.old)) (record { honest = I.reads.honest input.old; before = I.reads.left input.old; after = I.reads.left input.new }) desks.old.items desks.new.items) }
    ensures unread { IfErr result (λ stop. IsUnread stop 16777216 (record { honest = I.reads.honest input.old; before = I.reads.left input.old; after = I.reads.left input.new })) }
    ensures cause { result ≡ Err ReadStop.Read → Rose (I.reads.faults input.old) (I.reads.faults input.new) }
    ensures unmoved { OnOk result (I.reads.faults input.new ≡ I.reads.faults input.old) }
    ensures unmoved_err { IfErr result (λ stop. stop ≢ ReadStop.Read → I.reads.faults input.new ≡ I.reads.faults input.old) }
{
    let rows = match input.read(alloc) {
        Ok(rows) => rows,
        Err(stop) => return Err(stop),
    };
    let Ok(prefix) = desk_prefix(alloc, number) else {
        return Err(ReadStop::NoMemory);
    };
    match desks.push(Desk::new(alloc, number, prefix, rows)) {
        Ok(()) => Ok(()),
        Err(_) => Err(ReadStop::NoMemory),
    }
}

// Reads the input of each desk, in desk order, to the last or to one that can't be read.
fn read_desks<R: SingleEntryMachine, I: DeskSource<R>>(
    alloc: Global,
    inputs: &mut [I],
) -> Result<Vec<Desk<R, I::Rows>>, ReadStop>
    requires { length inputs.old ≤ 16 }
    ensures desks { IfOk result (λ desks. AreRead I.Rows.left I.Rows.rows_of I.reads (length inputs.old) inputs.old inputs.new desks.items) }
    ensures unread { IfErr result (λ stop. IsUnreadAt I.reads stop inputs.old inputs.new) }
{
    let mut desks = Vec::new(alloc);
    for i in 0..inputs.len() {
        match read_desk::<R, I>(alloc, i as u32 + 1, &mut inputs[i], &mut desks) {
            Ok(()) => {}
            Err(stop) => return Err(stop),
        }
    }
    Ok(desks)
}

// Each desk files its rows, each in a thread of its own where one can be made.
fn work_all<
    D: Disk + Send,
    R: SingleEntryMachine + Send,
    M: Since + Send + Sync,
    L: Rows<R> + Send,
    C: EntryCopies<R> + Send,
    G: SyncPoint + Sync,
    H: Threads + Wait + Sync,
>(rt: &H, turns: &TicketLock<SharedList<D, R, M>>, gate: &G, desks: &mut [Desk<R, L>])
where
    R::Entry: Send,
    R::Operation: Send,
    R::Response: Send,
    R::Ruling: Send,
    L::Error: Send,
    L::RowFormat: Send,
    requires { (opening : Snapshot (Filed R.Entry)) × All (IsReady turns.now.id opening) desks.old }
    ensures ended { (opening : Snapshot (Filed R.Entry)) → All (IsReady turns.now.id opening) desks.old → All (HasEnded turns.now.id opening) desks.new }
    ensures works { (k : ℕ) (d : DeskView R.Entry L) → k < length desks.old → Works R.semantics R.own C.copied L.texts L.left turns.now.id (slice_index_or desks.old k d) (slice_index_or desks.new k d) }
    ensures desks { length desks.new ≡ length desks.old }
{
    let each = move |_place: usize, desk: &mut Desk<R, L>|
        requires { (opening : Snapshot (Filed R.Entry)) × IsReady turns.now.id opening desk.now }
        ensures { Works R.semantics R.own C.copied L.texts L.left turns.entry.now.id desk.entry.now desk.exit.now }
    { desk.work::<D, M, C, G, H>(rt, turns, gate) };
    for_each_mut(rt, desks, MOST_DESKS, &each);
}

// Files what each desk has into the list, and gives it back with the rows that filed its newest entries, the oldest first.
fn file_all<
    D: Disk + Send,
    R: SingleEntryMachine + Send,
    M: Since + Send + Sync,
    L: Rows<R> + Send,
    C: EntryCopies<R> + Send,
    G: SyncPoint + Sync,
    H: Threads + Wait + Sync,
>(
    rt: &H,
    alloc: Global,
    kept: Log<D, R>,
    gate: &G,
    desks: &mut [Desk<R, L>],
) -> Result<(Log<D, R>, Vec<RowName>), Log<D, R>>
where
    R::Entry: Send,
    R::Operation: Send,
    R::Response: Send,
    R::Ruling: Send,
    L::Error: Send,
    L::RowFormat: Send,
    requires few { length desks.old ≤ 16 }
    requires decided { kept.pending ≡ None }
    requires begun { IsBegun D.Disk M.moment M.already kept.disk }
    requires open { All (λ d. d.ended ≡ DeskEnd.Open) desks.old }
    ensures ran { IfOk result (λ closed. (waiting : Option RowName) × HasFiled R.semantics R.own C.copied L.texts L.left (stand_of kept.history None [] None (D.faults kept.disk) (D.tells kept.disk).honest)
        (stand_of closed.0.history closed.0.pending (reverse closed.1.items) waiting (D.faults closed.0.disk) (D.tells closed.0.disk).honest) desks.old desks.new) }
    ensures reached { IfOk result (λ closed. IsReached D.Disk R.scheme M.moment M.already (stand_of kept.history None [] None (D.faults kept.disk) (D.tells kept.disk).honest) closed.0.disk closed.0.history closed.0.pending) }
    ensures sound { IfOk result (λ closed. IsHonest (D.tells closed.0.disk) → IsSound R.scheme (D.tells closed.0.disk) closed.0.history closed.0.pending) }
    ensures disk { IfErr result (λ back. back.disk ≡ kept.disk) }
{
    match open_desks::<D, R, M, L>(alloc, kept, desks) {
        Ok((turns, rest)) => {
            work_all::<D, R, M, L, C, G, H>(rt, &turns, gate, desks);
            Ok(close_desks(turns, rest, desks).into_parts())
        }
        Err(kept) => Err(kept),
    }
}

// Writes what the desks did, and gives the status.
fn tell<R: SingleEntryMachine, L: Rows<R>, C: EntryMatch<R>, K: Sink>(
    desks: &[Desk<R, L>],
    front: u32,
    rows: &[RowName],
    out: &mut K,
) -> u8
    ensures { EndsWith K.Sink (desks_text desks.now ++ admitted_text (front + 1) (names_of C.same desks.now (front + 1) rows.now)) (desks_status_of desks.now) out.old out.new result }
{
    match put_all::<R, L, C, K>(desks, front, rows, out) {
        Ok(()) => desks_status(desks),
        Err(_) => WRITE_FAILED,
    }
}

// Writes what the desks did, behind so many entries that stood before, and gives the status and the disk.
fn close<D: Disk, R: SingleEntryMachine, L: Rows<R>, C: EntryMatch<R>, K: Sink>(
    kept: Log<D, R>,
    log: &[RowName],
    desks: &[Desk<R, L>],
    front: u32,
    out: &mut K,
) -> (u8, D)
    ensures ends { EndsWith K.Sink (desks_text desks.now ++ admitted_text (front + 1) (names_of C.same desks.now (front + 1) (reverse (take (length kept.history - front) (reverse log.now))))) (desks_status_of desks.now)
        out.old out.new result.0 }
    ensures disk { result.1 ≡ kept.disk }
{
    let added = kept.machine().front().saturating_sub(front) as usize;
    let rows = &log[log.len().saturating_sub(added)..];
    (
        tell::<R, L, C, K>(desks, front, rows, out),
        kept.into_disk(),
    )
}

// Since this moment of a disk there is no other.
fn only_now<D: Disk>()
    ensures { (disk : D) (file : List ℕ) → IsHonest (D.tells disk) → (D.tells disk).image_since (D.tells disk).moment file → (D.tells disk).image file }
{}

// Opens the list of the disk's file, files what the desks have, and writes what they did.
fn file_read<
    D: Disk + Send,
    R: SingleEntryMachine + Send,
    L: Rows<R> + Send,
    C: EntryMatch<R> + Send,
    G: SyncPoint + Sync,
    K: Sink,
    H: Threads + Wait + Sync,
>(rt: &H, alloc: Global, desks: &mut [Desk<R, L>], disk: D, gate: &G, out: &mut K) -> (u8, D)
where
    R::Entry: Send,
    R::Operation: Send,
    R::Response: Send,
    R::Ruling: Send,
    L::Error: Send,
    L::RowFormat: Send,
    requires { AreNew desks.old }
    ensures { FilesAll R.scheme R.semantics R.own C.copied C.same L.texts L.left D.Disk K.Sink disk result.1 desks.old out.old out.new result.0 }
{
    let kept = match open::<D, R>(alloc, disk) {
        Ok(kept) => kept,
        Err((error, disk)) => return (end_with(RunStop::File(error.into()), out), disk),
    };
    let front = kept.machine().front();
    only_now::<D>();
    match file_all::<D, R, Brand, L, C, G, H>(rt, alloc, kept, gate, desks) {
        Ok((kept, log)) => close::<D, R, L, C, K>(kept, &log, desks, front, out),
        Err(kept) => {
            let starved = RunStop::File(FileStop::NoMemory.into());
            (end_with(starved, out), kept.into_disk())
        }
    }
}

// Whether so many desks file at once.
fn can_file(count: usize) -> bool
    ensures no { result ≡ false → AreFew count → ⊥ }
    ensures yes { result ≡ true → AreFew count }
{
    0 < count && count <= MOST_DESKS
}

/// Files what the desks' inputs have into the list of the disk's file, and answers the status and the disk as it is then. All
/// inputs are read, in desk order, before the journal is opened; then each desk files its rows in order, while the others file
/// theirs. When the last has ended the lines of each desk are written, in desk order, and then a line for each entry that was
/// added, by position, with the row that filed it. Where no row was answered as accepted there it is the first row, by desk,
/// that files the same and at which a desk ended with this position in doubt.
///
/// The status is 2 where there is no desk or more than 16, 3 where a read failed, 6 where the file is none for the list, 7 where
/// it is damaged, 8 where an input has more than `INPUT_LIMIT` bytes; 5 where the disk failed as the list was opened, and 9 where
/// there was no memory up to then. After the desks have filed it is 4 where a write failed, else 5 where a desk had a fault of the disk,
/// else 9 where one had no memory, else 0.
pub fn run_desks_on<
    D: Disk + Send,
    R: SingleEntryMachine + Send,
    I: DeskSource<R>,
    C: EntryMatch<R> + Send,
    G: SyncPoint + Sync,
    K: Sink,
    H: Threads + Wait + Sync,
>(rt: &H, alloc: Global, inputs: &mut [I], disk: D, gate: &G, out: &mut K) -> (u8, D)
where
    R::Entry: Send,
    R::Operation: Send,
    R::Response: Send,
    R::Ruling: Send,
    I::Rows: Send,
    I::RowFormat: Send,
    <I::Rows as Rows<R>>::Error: Send,
    // All that a run of desks does, by how it ended: the text, the disk, the counts, and the status.
    ensures ran { RanDesksOn R.scheme R.semantics R.own C.copied C.same I.Rows.texts I.Rows.left I.Rows.rows_of I.reads D.Disk K.Sink disk result.1 inputs.old inputs.new out.old out.new result.0 }

    // Where no count rose, desks that can file are done, if there is memory.
    ensures complete { CanFile R.scheme I.reads inputs.old (D.tells disk) → NoneRose I.reads inputs.old inputs.new → ¬ (Rose (K.faults out.old) (K.faults out.new))
        → ¬ (RoseBy 1 (D.faults disk) (D.faults result.1)) → (result.0 ≡ 0) ⊎ (result.0 ≡ 9) }
    ensures disk_honest { (D.tells result.1).honest ≡ (D.tells disk).honest }

    // The disk's count rose where the status is 5, and stood still at every other one but 4.
    ensures disk { MovedAt result.0 (D.faults disk) (D.faults result.1) }
{
    if !can_file(inputs.len()) {
        return (end_with(RunStop::Usage, out), disk);
    }
    match read_desks::<R, I>(alloc, inputs) {
        Ok(mut crew) => {
            file_read::<D, R, I::Rows, C, G, K, H>(rt, alloc, &mut crew, disk, gate, out)
        }
        Err(unread) => (end_with(RunStop::File(unread.into()), out), disk),
    }
}
