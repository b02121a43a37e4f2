// What asks will likely add, posted before their turns.
use crate::{SharedList, Since, Stage, WaitingRow};
use io_traits::{Disk, PayloadBuffer};
use log_lock::{LockedState, TicketLock};
use log_machine::{SingleEntryMachine, StateMachine};
use std::alloc::Global;
use std::sync::Wait;

/// Posts what asks will likely add, so that the turns before their own may go by it. Without memory it posts nothing.
#[derive(Drop)]
pub struct Poster {
    alloc: Global,
    room: Option<PayloadBuffer>,
}

impl Poster {
    /// A poster with a room for the bytes of an ask, where there is memory for it.
    pub fn new(alloc: Global) -> Poster {
        Poster {
            alloc,
            room: PayloadBuffer::new(alloc).ok(),
        }
    }

    // Posts an ask of a desk.
    fn post_one<D: Disk, R: SingleEntryMachine, M: Since, H: Wait>(
        &mut self,
        rt: &H,
        turns: &TicketLock<SharedList<D, R, M>>,
        desk: u32,
        stage: Stage,
        operation: &R::Operation,
    ) {
        if let Some(room) = &mut self.room {
            R::encode_expected(operation, room);
            if let Some(row) = WaitingRow::new(self.alloc, desk, stage, room.bytes()) {
                turns.post(rt, row);
            }
        }
    }

    /// Posts a desk's ask whose turn is about to come, and the one behind it, where that is known. To be called between the
    /// approach and the turn. A connection is a desk of its own here.
    pub fn post<D: Disk, R: SingleEntryMachine, M: Since, H: Wait>(
        &mut self,
        rt: &H,
        turns: &TicketLock<SharedList<D, R, M>>,
        desk: u32,
        operation: &R::Operation,
        next: Option<&R::Operation>,
    ) {
        self.post_one(rt, turns, desk, Stage::Drawing, operation);
        if let Some(next) = next {
            self.post_one(rt, turns, desk, Stage::Coming, next);
        }
    }
}
