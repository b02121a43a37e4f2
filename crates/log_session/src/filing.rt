// The rows of one input, filed in order into an open list.
ghost use Rattle.std.specs.Prelude.{◌≡◌, ◌≢◌, ◌≤◌, ◌<◌, ◌^◌, ℕ, false, Option, Ok, Err, IfErr, None, OnOk, length};
ghost use Rattle.io_traits.specs.Faults.{Rose};
ghost use Rattle.log_machine.specs.Submits.{after_ask};
ghost use Rattle.log_machine.specs.Texts.{after_row, row_line};
ghost use Rattle.log_session.specs.Links.{IsLink};
ghost use Rattle.log_session.specs.Sessions.{StopsRow, Takes, is_disk_fault};

use crate::{FileStop, SessionStop};
use io_traits::{Disk, Sink, write_whole};
use log_machine::{Log, LogReply, Rows, StateMachine, ask_of};
use std::alloc::Global;

/// The greatest length of the line that answers a row.
const LINE: usize = 160;

// Answers one ask, and puts its line in place of what the vector holds. The ask behind it is told ahead, where it is known.
fn file_one<D: Disk, R: StateMachine, L: Rows<R>>(
    kept: &mut Log<D, R>,
    number: u32,
    operation: R::Operation,
    next: Option<&R::Operation>,
    line: &mut Vec<u8>,
) -> Result<(), FileStop>
    requires decided { kept.old.pending ≡ None }
    ensures line { OnOk result (line.new.items ≡ row_line R.semantics L.texts kept.old.history number (Ok operation)) }
    ensures list { OnOk result (kept.new.history ≡ after_ask R.semantics kept.old.history operation) }
    ensures decided { OnOk result (kept.new.pending ≡ None) }
    ensures link { OnOk result (IsLink {Error = L.Error} D.Disk R.scheme R.semantics (Ok operation) kept.old.history kept.old.disk kept.new.disk) }
    ensures stops { IfErr result (λ stop. StopsRow {Error = L.Error} D.Disk R.scheme R.semantics stop (Ok operation) kept.old.history kept.old.disk kept.new.disk) }
    ensures honest { (D.tells kept.new.disk).honest ≡ (D.tells kept.old.disk).honest }
    ensures later { D.faults kept.old.disk ≤ D.faults kept.new.disk }
    ensures cause { IfErr result (λ stop. (undecided : Option ℕ) → stop ≡ FileStop.DiskFault undecided → Rose (D.faults kept.old.disk) (D.faults kept.new.disk)) }
    ensures unmoved { OnOk result (D.faults kept.new.disk ≡ D.faults kept.old.disk) }
{
    kept.sound();
    line.clear();
    if line.reserve(LINE).is_err() {
        return Err(FileStop::NoMemory);
    }
    match kept.submit_ahead(operation, next) {
        LogReply::Answered { response, front } => {
            let _ = L::put_answer(number, front, &response, line);
            Ok(())
        }
        LogReply::DiskFault { undecided } => Err(FileStop::DiskFault { undecided }),
        LogReply::NoMemory => Err(FileStop::NoMemory),
    }
}

// Takes one row, and puts its line in place of what the vector holds.
fn file_row<D: Disk, R: StateMachine, L: Rows<R>>(
    kept: &mut Log<D, R>,
    number: u32,
    row: Result<R::Operation, L::Error>,
    next: Option<&R::Operation>,
    line: &mut Vec<u8>,
) -> Result<(), FileStop>
    requires decided { kept.old.pending ≡ None }
    ensures line { OnOk result (line.new.items ≡ row_line R.semantics L.texts kept.old.history number row) }
    ensures list { OnOk result (kept.new.history ≡ after_row R.semantics kept.old.history row) }
    ensures decided { OnOk result (kept.new.pending ≡ None) }
    ensures link { OnOk result (IsLink D.Disk R.scheme R.semantics row kept.old.history kept.old.disk kept.new.disk) }
    ensures stops { IfErr result (λ stop. StopsRow D.Disk R.scheme R.semantics stop row kept.old.history kept.old.disk kept.new.disk) }
    ensures honest { (D.tells kept.new.disk).honest ≡ (D.tells kept.old.disk).honest }
    ensures later { D.faults kept.old.disk ≤ D.faults kept.new.disk }
    ensures cause { IfErr result (λ stop. (undecided : Option ℕ) → stop ≡ FileStop.DiskFault undecided → Rose (D.faults kept.old.disk) (D.faults kept.new.disk)) }
    ensures unmoved { OnOk result (D.faults kept.new.disk ≡ D.faults kept.old.disk) }
{
    match row {
        Ok(operation) => file_one::<D, R, L>(kept, number, operation, next, line),
        Err(error) => {
            kept.sound();
            line.clear();
            match L::put_error(&error, line) {
                Ok(()) => Ok(()),
                Err(_) => Err(FileStop::NoMemory),
            }
        }
    }
}

/// Files the rows that are left, in order, into an open list. Each row's line is written before the next row is filed.
/// Room for what they may add is made before the first. One row is read ahead, so that its turn may be prepared by the one
/// before it.
pub fn file_rows<D: Disk, K: Sink, R: StateMachine, L: Rows<R>>(
    alloc: Global,
    kept: &mut Log<D, R>,
    mut rows: L,
    out: &mut K,
) -> Result<(), FileStop>
    requires few { length (L.left rows) < 2 ^ 32 }
    requires decided { kept.old.pending ≡ None }
    ensures files { Takes D.Disk R.scheme R.semantics L.texts kept.old.history kept.new.history kept.old.disk kept.new.disk
        (record { honest = K.honest out.old; before = K.text out.old; after = K.text out.new }) (L.left rows) result }
    ensures decided { OnOk result (kept.new.pending ≡ None) }
    ensures write_fault { result ≡ Err FileStop.Write → Rose (K.faults out.old) (K.faults out.new) }
    ensures disk_fault { IfErr result (λ stop. (undecided : Option ℕ) → stop ≡ FileStop.DiskFault undecided → Rose (D.faults kept.old.disk) (D.faults kept.new.disk)) }
    ensures disk_unmoved { OnOk result (D.faults kept.new.disk ≡ D.faults kept.old.disk) }
    ensures sink_unmoved { OnOk result (K.faults out.new ≡ K.faults out.old) }
    ensures disk_unmoved_err { IfErr result (λ stop. is_disk_fault (SessionStop.Filing stop) ≡ false → D.faults kept.new.disk ≡ D.faults kept.old.disk) }
    ensures sink_unmoved_err { IfErr result (λ stop. stop ≢ FileStop.Write → K.faults out.new ≡ K.faults out.old) }
    ensures disk_later { D.faults kept.old.disk ≤ D.faults kept.new.disk }
    ensures sink_later { K.faults out.old ≤ K.faults out.new }
    ensures disk_honest { (D.tells kept.new.disk).honest ≡ (D.tells kept.old.disk).honest }
    ensures sink_honest { K.honest out.new ≡ K.honest out.old }
{
    let most = L::most().saturating_sub(kept.machine().front());
    if kept.reserve(rows.at_most().min(most)).is_err() {
        return Err(FileStop::NoMemory);
    }
    let mut line = Vec::new(alloc);
    let mut number = 0;
    let mut next = rows.next();
    loop {
        let row = match next {
            Ok(Some(row)) => row,
            Ok(None) => return Ok(()),
            Err(_) => return Err(FileStop::NoMemory),
        };
        next = rows.next();
        number += 1;
        file_row::<D, R, L>(kept, number, row, ask_of(&next), &mut line)?;
        if write_whole(out, &line).is_err() {
            return Err(FileStop::Write);
        }
    }
}
