// The rows of one desk, from the first to the last or to a stop.
ghost use Rattle.std.specs.Prelude.{◌≡◌, ◌≢◌, ◌≤◌, ◌<◌, ◌^◌, [], length};
ghost use Rattle.log_lock.specs.Passes.{IsOlder};
ghost use Rattle.log_machine.specs.Names.{entries_of};
ghost use Rattle.log_desks.specs.Answered.{Files, IsClean};

use crate::copies::copy_row;
use crate::row::file_row;
use crate::{DeskEnd, DeskStop, EntryCopies, Poster, SharedList, Since};
use io_traits::{Disk, SyncPoint};
use log_lock::{LockHandle, LockedState, TicketLock};
use log_machine::{Filed, RowName, Rows, SingleEntryMachine, StateMachine, ask_of};
use std::sync::Wait;

/// Files the rows that are left, in order, each in a turn of the lock, and appends a line for each. It ends at the first
/// fault of the disk and at want of memory. It answers how many rows have lines, how it ended, and a copy of what the row
/// may add at which it stopped. One row is read ahead, so that it may be posted with the one before it.
pub fn file_rows<
    D: Disk,
    R: SingleEntryMachine,
    M: Since,
    L: Rows<R>,
    C: EntryCopies<R>,
    G: SyncPoint,
    H: Wait,
>(
    rt: &H,
    turns: &TicketLock<SharedList<D, R, M>>,
    gate: &G,
    handle: &mut LockHandle<Filed<R::Entry>>,
    desk: u32,
    prefix: &[u8],
    rows: &mut L,
    poster: &mut Poster,
    text: &mut Vec<u8>,
) -> (u32, DeskEnd, Option<R::Entry>)
    requires lock { handle.old.lock ≡ turns.now.id }
    requires few { length (L.left rows.old) < 2 ^ 32 }
    requires older { IsOlder (entries_of handle.old.opening.list) (entries_of handle.old.seen) }
    requires mine { handle.old.mine ≡ [] }
    requires clean { IsClean handle.old }
    requires empty { text.old.items ≡ [] }
    ensures files { Files R.semantics R.own C.copied L.texts desk prefix.now (L.left rows.old) text.new.items result.0 result.1 result.2 handle.new }
    ensures count { result.0 ≤ length (L.left rows.old) }
    ensures ended { result.1 ≢ DeskEnd.Open }
    ensures lock { handle.new.lock ≡ handle.old.lock }
    ensures share { handle.new.allowance ≡ handle.old.allowance }
    ensures opening { handle.new.opening ≡ handle.old.opening }
{
    let mut count = 0;
    let mut next = rows.next();
    loop {
        let row = match next {
            Ok(Some(row)) => row,
            Ok(None) => return (count, DeskEnd::Done, None),
            Err(_) => return (count, DeskEnd::Stopped(DeskStop::NoMemory), None),
        };
        next = rows.next();
        let by = RowName {
            desk,
            row: count + 1,
        };
        let copy = copy_row::<R, C, L::Error>(&row);
        let ahead = ask_of(&next);
        match file_row::<D, R, M, L, G, H>(
            rt, turns, gate, handle, by, prefix, row, ahead, poster, text,
        ) {
            Ok(()) => count += 1,
            Err(stop) => return (count, DeskEnd::Stopped(stop), copy),
        }
    }
}
