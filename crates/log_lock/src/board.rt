// Notes that who waits leaves beside the lock, in the order in which they were left.
use crossbeam_queue::ArrayQueue;
use std::alloc::{AllocError, Global};
use std::sync::Wait;

// So many notes are on a board at most: two of each pass.
pub(crate) const MOST_NOTES: usize = 128;

// The board of a lock. Nothing that is proved rests on it.
#[derive(Drop)]
pub(crate) struct Board<N: Drop> {
    notes: ArrayQueue<N>,
}

impl<N: Drop> Board<N> {
    // Nothing is on it.
    pub(crate) fn new(alloc: Global) -> Result<Board<N>, AllocError> {
        Ok(Board {
            notes: ArrayQueue::new(alloc, MOST_NOTES)?,
        })
    }

    // Leaves a note, or drops it where the board is full.
    pub(crate) fn leave<R: Wait>(&self, rt: &R, note: N) {
        let _ = self.notes.push(rt, note);
    }

    // Takes the note that was left first.
    pub(crate) fn next<R: Wait>(&self, rt: &R) -> Option<N> {
        self.notes.pop(rt)
    }
}
