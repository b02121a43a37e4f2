// The journal is opened, rows are filed without lines, and one text tells what their verdicts came to.
ghost use Rattle.std.specs.Prelude.{◌≡◌, ◌≢◌, ◌≤◌, [], false, Err, IsTrue, IfOk, IfErr, OnOk, length};
ghost use Rattle.io_traits.specs.Faults.{Rose};
ghost use Rattle.log_session.specs.Edges.{HasWritten, HasWrittenShort};
ghost use Rattle.log_session.specs.Sessions.{is_disk_fault};
ghost use Rattle.log_session.specs.Counted.{Counted, CountedSession, told};

use crate::counting::count_rows;
use crate::{FileStop, INPUT_LIMIT, ReadStop, SessionStop, Tally, open, read_rows};
use io_traits::{Disk, Sink, Source, write_whole};
use log_machine::{RowFormat, Rows, StateMachine};
use std::alloc::{AllocError, Global};

// The one text of rows that were counted: what the tally tells, or why a row is no ask.
fn text_of<R: StateMachine, L: Rows<R>, T: Tally<R>>(
    alloc: Global,
    error: Option<L::Error>,
    tally: &T,
) -> Result<Vec<u8>, AllocError>
    ensures { IfOk result (λ text. text.items ≡ told L.texts T.ending tally.now error) }
{
    let mut text = Vec::new(alloc);
    match error {
        None => tally.put_ending(&mut text)?,
        Some(error) => L::put_error(&error, &mut text)?,
    }
    Ok(text)
}

// Writes that text.
fn tell<K: Sink, R: StateMachine, L: Rows<R>, T: Tally<R>>(
    alloc: Global,
    error: Option<L::Error>,
    tally: &T,
    out: &mut K,
) -> Result<(), FileStop>
    ensures written { OnOk result (HasWritten (told L.texts T.ending tally.now error) (record { honest = K.honest out.old; before = K.text out.old; after = K.text out.new })) }
    ensures cut { result ≡ Err FileStop.Write → HasWrittenShort [] (told L.texts T.ending tally.now error) (record { honest = K.honest out.old; before = K.text out.old; after = K.text out.new }) }
    ensures untold { result ≡ Err FileStop.NoMemory → K.text out.new ≡ K.text out.old }
    ensures no_disk { IfErr result (λ stop. is_disk_fault (SessionStop.Filing stop) ≡ false) }
    ensures write_fault { result ≡ Err FileStop.Write → Rose (K.faults out.old) (K.faults out.new) }
    ensures unmoved { OnOk result (K.faults out.new ≡ K.faults out.old) }
    ensures unmoved_err { IfErr result (λ stop. stop ≢ FileStop.Write → K.faults out.new ≡ K.faults out.old) }
    ensures later { K.faults out.old ≤ K.faults out.new }
    ensures honest { K.honest out.new ≡ K.honest out.old }
{
    let text = match text_of::<R, L, T>(alloc, error, tally) {
        Ok(text) => text,
        Err(_) => return Err(FileStop::NoMemory),
    };
    match write_whole(out, &text) {
        Ok(()) => Ok(()),
        Err(_) => Err(FileStop::Write),
    }
}

/// Opens the list of the disk's file, files the rows that are left, and counts their verdicts. Then one text is written:
/// what the tally tells; or, where a row is no ask, that row's line alone, and no row behind it is filed.
pub fn answer_counted<D: Disk, K: Sink, R: StateMachine, L: Rows<R>, T: Tally<R>>(
    alloc: Global,
    disk: D,
    rows: L,
    mut tally: T,
    out: &mut K,
) -> (Result<(), SessionStop>, D)
    requires room { length (L.left rows) ≤ T.room tally }
    ensures counted { Counted D.Disk R.scheme R.semantics L.texts T.counted T.ending tally disk result.1
        (record { honest = K.honest out.old; before = K.text out.old; after = K.text out.new }) (L.left rows) result.0 }
    ensures write_fault { result.0 ≡ Err (SessionStop.Filing FileStop.Write) → Rose (K.faults out.old) (K.faults out.new) }
    ensures disk_fault { IfErr result.0 (λ stop. IsTrue (is_disk_fault stop) → Rose (D.faults disk) (D.faults result.1)) }
    ensures disk_unmoved { OnOk result.0 (D.faults result.1 ≡ D.faults disk) }
    ensures sink_unmoved { OnOk result.0 (K.faults out.new ≡ K.faults out.old) }
    ensures disk_unmoved_err { IfErr result.0 (λ stop. is_disk_fault stop ≡ false → D.faults result.1 ≡ D.faults disk) }
    ensures sink_unmoved_err { IfErr result.0 (λ stop. stop ≢ SessionStop.Filing FileStop.Write → K.faults out.new ≡ K.faults out.old) }
    ensures disk_later { D.faults disk ≤ D.faults result.1 }
    ensures sink_later { K.faults out.old ≤ K.faults out.new }
    ensures disk_honest { (D.tells result.1).honest ≡ (D.tells disk).honest }
    ensures sink_honest { K.honest out.new ≡ K.honest out.old }
{
    let mut kept = match open::<D, R>(alloc, disk) {
        Ok(kept) => kept,
        Err((error, disk)) => return (Err(SessionStop::Opening(error)), disk),
    };
    let error = match count_rows::<D, R, L, T>(&mut kept, rows, &mut tally) {
        Ok(error) => error,
        Err(stop) => return (Err(SessionStop::Filing(stop)), kept.into_disk()),
    };
    match tell::<K, R, L, T>(alloc, error, &tally, out) {
        Ok(()) => (Ok(()), kept.into_disk()),
        Err(stop) => (Err(SessionStop::Filing(stop)), kept.into_disk()),
    }
}

/// The same over the rows of an input: reads the whole input, and then opens the list.
pub fn file_counted<D: Disk, S: Source, K: Sink, R: StateMachine, F: RowFormat<R>, T: Tally<R>>(
    alloc: Global,
    disk: D,
    forms: &F,
    tally: T,
    input: &mut S,
    out: &mut K,
) -> (Result<(), SessionStop>, D)
    requires room { 16777217 ≤ T.room tally }
    ensures session { CountedSession D.Disk R.scheme R.semantics F.Rows.texts T.counted T.ending tally (F.Rows.rows_of forms.now) INPUT_LIMIT disk result.1
        (record { honest = S.honest input.old; before = S.left input.old; after = S.left input.new })
        (record { honest = K.honest out.old; before = K.text out.old; after = K.text out.new }) result.0 }
    ensures read_fault { result.0 ≡ Err (SessionStop.Reading ReadStop.Read) → Rose (S.faults input.old) (S.faults input.new) }
    ensures write_fault { result.0 ≡ Err (SessionStop.Filing FileStop.Write) → Rose (K.faults out.old) (K.faults out.new) }
    ensures disk_fault { IfErr result.0 (λ stop. IsTrue (is_disk_fault stop) → Rose (D.faults disk) (D.faults result.1)) }
    ensures source_unmoved { OnOk result.0 (S.faults input.new ≡ S.faults input.old) }
    ensures sink_unmoved { OnOk result.0 (K.faults out.new ≡ K.faults out.old) }
    ensures disk_unmoved { OnOk result.0 (D.faults result.1 ≡ D.faults disk) }
    ensures source_unmoved_err { IfErr result.0 (λ stop. stop ≢ SessionStop.Reading ReadStop.Read → S.faults input.new ≡ S.faults input.old) }
    ensures disk_unmoved_err { IfErr result.0 (λ stop. is_disk_fault stop ≡ false → D.faults result.1 ≡ D.faults disk) }
    ensures sink_unmoved_err { IfErr result.0 (λ stop. stop ≢ SessionStop.Filing FileStop.Write → K.faults out.new ≡ K.faults out.old) }
    ensures source_later { S.faults input.old ≤ S.faults input.new }
    ensures sink_later { K.faults out.old ≤ K.faults out.new }
    ensures disk_later { D.faults disk ≤ D.faults result.1 }
    ensures source_honest { S.honest input.new ≡ S.honest input.old }
    ensures sink_honest { K.honest out.new ≡ K.honest out.old }
    ensures disk_honest { (D.tells result.1).honest ≡ (D.tells disk).honest }
{
    match read_rows::<S, R, F>(alloc, forms, input) {
        Ok(rows) => answer_counted::<D, K, R, F::Rows, T>(alloc, disk, rows, tally, out),
        Err(stop) => (Err(SessionStop::Reading(stop)), disk),
    }
}
