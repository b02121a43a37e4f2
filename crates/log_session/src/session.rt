// The input is read whole, the journal is opened, and the rows are filed.
ghost use Rattle.std.specs.Prelude.{◌≡◌, ◌≢◌, ◌≤◌, ◌<◌, ◌^◌, false, Option, Ok, Err, IsTrue, IfOk, IfErr, OnOk, length};
ghost use Rattle.io_traits.specs.Faults.{Rose};
ghost use Rattle.io_traits.specs.DiskState.{IsHonest};
ghost use Rattle.log_session.specs.Edges.{IsReadWhole};
ghost use Rattle.log_session.specs.Sessions.{IsUnread, Opens, Session, is_disk_fault};

use crate::{FileStop, ReadStop, SessionStop, file_rows, open};
use io_traits::{Disk, ReadError, Sink, Source, read_to_limit};
use log_machine::{RowFormat, Rows, StateMachine};
use std::alloc::Global;

/// The greatest length of an input, in bytes.
pub const INPUT_LIMIT: usize = 16_777_216;

/// Reads the whole input.
pub fn read_input<S: Source>(alloc: Global, input: &mut S) -> Result<Vec<u8>, ReadStop>
    ensures short { IfOk result (λ read. length read.items ≤ 16777216) }
    ensures bytes { IfOk result (λ read. IsTrue (S.honest input.old) → read.items ≡ S.left input.old) }
    ensures whole { OnOk result (IsReadWhole INPUT_LIMIT (record { honest = S.honest input.old; before = S.left input.old; after = S.left input.new })) }
    ensures unread { IfErr result (λ stop. IsUnread stop INPUT_LIMIT (record { honest = S.honest input.old; before = S.left input.old; after = S.left input.new })) }
    ensures cause { result ≡ Err ReadStop.Read → Rose (S.faults input.old) (S.faults input.new) }
    ensures unmoved { OnOk result (S.faults input.new ≡ S.faults input.old) }
    ensures unmoved_err { IfErr result (λ stop. stop ≢ ReadStop.Read → S.faults input.new ≡ S.faults input.old) }
    ensures later { S.faults input.old ≤ S.faults input.new }
    ensures honest { S.honest input.new ≡ S.honest input.old }
{
    match read_to_limit(alloc, input, INPUT_LIMIT) {
        Ok(read) => Ok(read),
        Err(ReadError::Failed) => Err(ReadStop::Read),
        Err(ReadError::TooLong) => Err(ReadStop::TooLong),
        Err(ReadError::NoMemory) => Err(ReadStop::NoMemory),
    }
}

/// Reads the whole input, and begins to read its rows.
pub fn read_rows<S: Source, R: StateMachine, F: RowFormat<R>>(
    alloc: Global,
    forms: &F,
    input: &mut S,
) -> Result<F::Rows, ReadStop>
    ensures rows { IfOk result (λ rows. IsTrue (S.honest input.old) → F.Rows.left rows ≡ F.Rows.rows_of forms.now (S.left input.old)) }
    ensures few { IfOk result (λ rows. length (F.Rows.left rows) ≤ 16777217) }
    ensures whole { OnOk result (IsReadWhole INPUT_LIMIT (record { honest = S.honest input.old; before = S.left input.old; after = S.left input.new })) }
    ensures unread { IfErr result (λ stop. IsUnread stop INPUT_LIMIT (record { honest = S.honest input.old; before = S.left input.old; after = S.left input.new })) }
    ensures cause { result ≡ Err ReadStop.Read → Rose (S.faults input.old) (S.faults input.new) }
    ensures unmoved { OnOk result (S.faults input.new ≡ S.faults input.old) }
    ensures unmoved_err { IfErr result (λ stop. stop ≢ ReadStop.Read → S.faults input.new ≡ S.faults input.old) }
    ensures later { S.faults input.old ≤ S.faults input.new }
    ensures honest { S.honest input.new ≡ S.honest input.old }
{
    let text = match read_input(alloc, input) {
        Ok(text) => text,
        Err(stop) => return Err(stop),
    };
    match forms.read(alloc, text) {
        Ok(rows) => Ok(rows),
        Err(_) => Err(ReadStop::NoMemory),
    }
}

/// Opens the list of the disk's file, and answers the rows that are left: each is filed, and its line is written, before
/// the next is taken.
pub fn answer<D: Disk, K: Sink, R: StateMachine, L: Rows<R>>(
    alloc: Global,
    disk: D,
    rows: L,
    out: &mut K,
) -> (Result<(), SessionStop>, D)
    requires few { length (L.left rows) < 2 ^ 32 }
    ensures session { Opens D.Disk R.scheme R.semantics L.texts disk result.1
        (record { honest = K.honest out.old; before = K.text out.old; after = K.text out.new }) (L.left rows) result.0 }
    ensures write_fault { result.0 ≡ Err (SessionStop.Filing FileStop.Write) → Rose (K.faults out.old) (K.faults out.new) }
    ensures disk_fault { IfErr result.0 (λ stop. IsTrue (is_disk_fault stop) → Rose (D.faults disk) (D.faults result.1)) }
    ensures disk_unmoved { OnOk result.0 (D.faults result.1 ≡ D.faults disk) }
    ensures sink_unmoved { OnOk result.0 (K.faults out.new ≡ K.faults out.old) }
    ensures disk_unmoved_err { IfErr result.0 (λ stop. is_disk_fault stop ≡ false → D.faults result.1 ≡ D.faults disk) }
    ensures sink_unmoved_err { IfErr result.0 (λ stop. stop ≢ SessionStop.Filing FileStop.Write → K.faults out.new ≡ K.faults out.old) }
    ensures disk_later { D.faults disk ≤ D.faults result.1 }
    ensures sink_later { K.faults out.old ≤ K.faults out.new }
    ensures disk_honest { (D.tells result.1).honest ≡ (D.tells disk).honest }
    ensures sink_honest { K.honest out.new ≡ K.honest out.old }
{
    let mut kept = match open::<D, R>(alloc, disk) {
        Ok(kept) => kept,
        Err((error, disk)) => return (Err(SessionStop::Opening(error)), disk),
    };
    match file_rows::<D, K, R, L>(alloc, &mut kept, rows, out) {
        Ok(()) => (Ok(()), kept.into_disk()),
        Err(stop) => (Err(SessionStop::Filing(stop)), kept.into_disk()),
    }
}

/// A session: reads the whole input, opens the list of the disk's file, files the rows of the input in order, and writes
/// a line for each before the next is filed. It answers why it ended early, and the disk as it is then.
pub fn file<D: Disk, S: Source, K: Sink, R: StateMachine, F: RowFormat<R>>(
    alloc: Global,
    disk: D,
    forms: &F,
    input: &mut S,
    out: &mut K,
) -> (Result<(), SessionStop>, D)
    ensures session { Session D.Disk R.scheme R.semantics F.Rows.texts (F.Rows.rows_of forms.now) INPUT_LIMIT disk result.1
        (record { honest = S.honest input.old; before = S.left input.old; after = S.left input.new })
        (record { honest = K.honest out.old; before = K.text out.old; after = K.text out.new }) result.0 }

    // A fault is told only where its count rose, and no fault is passed over: every other answer leaves the count as it was.
    ensures read_fault { result.0 ≡ Err (SessionStop.Reading ReadStop.Read) → Rose (S.faults input.old) (S.faults input.new) }
    ensures write_fault { result.0 ≡ Err (SessionStop.Filing FileStop.Write) → Rose (K.faults out.old) (K.faults out.new) }
    ensures disk_fault { IfErr result.0 (λ stop. IsTrue (is_disk_fault stop) → Rose (D.faults disk) (D.faults result.1)) }
    ensures source_unmoved { OnOk result.0 (S.faults input.new ≡ S.faults input.old) }
    ensures sink_unmoved { OnOk result.0 (K.faults out.new ≡ K.faults out.old) }
    ensures disk_unmoved { OnOk result.0 (D.faults result.1 ≡ D.faults disk) }
    ensures source_unmoved_err { IfErr result.0 (λ stop. stop ≢ SessionStop.Reading ReadStop.Read → S.faults input.new ≡ S.faults input.old) }
    ensures disk_unmoved_err { IfErr result.0 (λ stop. is_disk_fault stop ≡ false → D.faults result.1 ≡ D.faults disk) }
    ensures sink_unmoved_err { IfErr result.0 (λ stop. stop ≢ SessionStop.Filing FileStop.Write → K.faults out.new ≡ K.faults out.old) }
    ensures source_later { S.faults input.old ≤ S.faults input.new }
    ensures sink_later { K.faults out.old ≤ K.faults out.new }
    ensures disk_later { D.faults disk ≤ D.faults result.1 }
    ensures source_honest { S.honest input.new ≡ S.honest input.old }
    ensures sink_honest { K.honest out.new ≡ K.honest out.old }
    ensures disk_honest { (D.tells result.1).honest ≡ (D.tells disk).honest }
{
    match read_rows::<S, R, F>(alloc, forms, input) {
        Ok(rows) => answer::<D, K, R, F::Rows>(alloc, disk, rows, out),
        Err(stop) => (Err(SessionStop::Reading(stop)), disk),
    }
}
