// One row of a desk, through the lock.
ghost use Rattle.std.specs.Prelude.{◌≡◌, ◌++◌, ◌≤◌, ◌+◌, [], length, Ok, IfErr, OnOk, OnErr, vec_len, vec_capacity};
ghost use Rattle.log_desks.specs.Rows.{Replies, IsWritten, StopsAt};

use crate::{DeskStop, Poster, SharedList, Since};
use io_traits::{Disk, SyncPoint};
use log_lock::{LockHandle, LockedState, TicketLock};
use log_machine::{Filed, LogReply, RowName, RowOperation, Rows, SingleEntryMachine, StateMachine};
use std::sync::Wait;

/// The greatest length of the line that answers a row.
const LINE: usize = 160;

// One ask, in a turn of the lock, which is told before what it and the ask behind it will likely add. The gate is called
// before and after it.
fn turn_row<D: Disk, R: SingleEntryMachine, M: Since, L: Rows<R>, G: SyncPoint, H: Wait>(
    rt: &H,
    turns: &TicketLock<SharedList<D, R, M>>,
    gate: &G,
    handle: &mut LockHandle<Filed<R::Entry>>,
    by: RowName,
    operation: R::Operation,
    next: Option<&R::Operation>,
    poster: &mut Poster,
) -> LogReply<R::Response>
    requires { handle.old.lock ≡ turns.now.id }
    ensures replies { Replies L.Error R.semantics R.own by operation result handle.old handle.new }
    ensures lock { handle.new.lock ≡ handle.old.lock }
    ensures share { handle.new.allowance ≡ handle.old.allowance }
    ensures opening { handle.new.opening ≡ handle.old.opening }
{
    gate.hold(by.desk, by.row);
    turns.approach();
    poster.post(rt, turns, by.desk, &operation, next);
    let reply = turns.submit(rt, handle, RowOperation { operation, by });
    gate.answered(by.desk, by.row);
    reply
}

// Files an ask, and appends its line.
fn file_ask<D: Disk, R: SingleEntryMachine, M: Since, L: Rows<R>, G: SyncPoint, H: Wait>(
    rt: &H,
    turns: &TicketLock<SharedList<D, R, M>>,
    gate: &G,
    handle: &mut LockHandle<Filed<R::Entry>>,
    by: RowName,
    operation: R::Operation,
    next: Option<&R::Operation>,
    poster: &mut Poster,
    text: &mut Vec<u8>,
) -> Result<(), DeskStop>
    requires { handle.old.lock ≡ turns.now.id }
    ensures written { OnOk result (IsWritten {Error = L.Error} R.semantics L.texts by [] (Ok operation) text.old.items text.new.items handle.old handle.new) }
    ensures stopped { IfErr result (λ stop. StopsAt {Error = L.Error} R.own by stop (Ok operation) handle.old handle.new) }
    ensures text { OnErr result (text.new.items ≡ text.old.items) }
    ensures lock { handle.new.lock ≡ handle.old.lock }
    ensures share { handle.new.allowance ≡ handle.old.allowance }
    ensures opening { handle.new.opening ≡ handle.old.opening }
{
    if text.reserve(LINE).is_err() {
        return Err(DeskStop::NoMemory);
    }
    match turn_row::<D, R, M, L, G, H>(rt, turns, gate, handle, by, operation, next, poster) {
        LogReply::Answered { response, front } => {
            let _ = L::put_answer(by.row, front, &response, text);
            Ok(())
        }
        LogReply::DiskFault { undecided } => Err(DeskStop::DiskFault { undecided }),
        LogReply::NoMemory => Err(DeskStop::NoMemory),
    }
}

// Takes one row, and appends its line.
fn take_row<D: Disk, R: SingleEntryMachine, M: Since, L: Rows<R>, G: SyncPoint, H: Wait>(
    rt: &H,
    turns: &TicketLock<SharedList<D, R, M>>,
    gate: &G,
    handle: &mut LockHandle<Filed<R::Entry>>,
    by: RowName,
    row: Result<R::Operation, L::Error>,
    next: Option<&R::Operation>,
    poster: &mut Poster,
    text: &mut Vec<u8>,
) -> Result<(), DeskStop>
    requires { handle.old.lock ≡ turns.now.id }
    ensures written { OnOk result (IsWritten R.semantics L.texts by [] row text.old.items text.new.items handle.old handle.new) }
    ensures stopped { IfErr result (λ stop. StopsAt R.own by stop row handle.old handle.new) }
    ensures text { OnErr result (text.new.items ≡ text.old.items) }
    ensures lock { handle.new.lock ≡ handle.old.lock }
    ensures share { handle.new.allowance ≡ handle.old.allowance }
    ensures opening { handle.new.opening ≡ handle.old.opening }
{
    match row {
        Ok(operation) => file_ask::<D, R, M, L, G, H>(
            rt, turns, gate, handle, by, operation, next, poster, text,
        ),
        Err(error) => match L::put_error(&error, text) {
            Ok(()) => Ok(()),
            Err(_) => Err(DeskStop::NoMemory),
        },
    }
}

/// Takes one row, and appends its line behind the desk's prefix. Where that stops, the text is as it was.
pub(crate) fn file_row<D: Disk, R: SingleEntryMachine, M: Since, L: Rows<R>, G: SyncPoint, H: Wait>(
    rt: &H,
    turns: &TicketLock<SharedList<D, R, M>>,
    gate: &G,
    handle: &mut LockHandle<Filed<R::Entry>>,
    by: RowName,
    prefix: &[u8],
    row: Result<R::Operation, L::Error>,
    next: Option<&R::Operation>,
    poster: &mut Poster,
    text: &mut Vec<u8>,
) -> Result<(), DeskStop>
    requires { handle.old.lock ≡ turns.now.id }
    ensures written { OnOk result (IsWritten R.semantics L.texts by prefix.now row text.old.items text.new.items handle.old handle.new) }
    ensures stopped { IfErr result (λ stop. StopsAt R.own by stop row handle.old handle.new) }
    ensures text { OnErr result (text.new.items ≡ text.old.items) }
    ensures lock { handle.new.lock ≡ handle.old.lock }
    ensures share { handle.new.allowance ≡ handle.old.allowance }
    ensures opening { handle.new.opening ≡ handle.old.opening }
{
    let length = text.len();
    if text.extend_from_slice(prefix).is_err() {
        return Err(DeskStop::NoMemory);
    }
    let filed = take_row::<D, R, M, L, G, H>(rt, turns, gate, handle, by, row, next, poster, text);
    if filed.is_err() {
        text.truncate(length);
    }
    filed
}
