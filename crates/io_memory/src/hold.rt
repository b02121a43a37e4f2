//! A gate by which tests choose an order of turns.
use io_traits::SyncPoint;
use std::sync::atomic::{AtomicBool, Ordering};
use std::thread::yield_now;

/// A gate that holds one desk's rows up until another desk was answered. Tests choose by it who files first.
#[derive(Drop)]
pub struct HoldSyncPoint {
    held: u32,
    until: u32,
    looks: u32,
    open: AtomicBool,
}

impl HoldSyncPoint {
    /// Holds the rows of desk `held` up until desk `until` was answered, for `looks` looks at most.
    pub fn new(held: u32, until: u32, looks: u32) -> HoldSyncPoint {
        HoldSyncPoint {
            held,
            until,
            looks,
            open: AtomicBool::new(false),
        }
    }
}

impl SyncPoint for HoldSyncPoint {
    fn hold(&self, desk: u32, _row: u32) {
        if desk != self.held {
            return;
        }
        for _ in 0..self.looks {
            if self.open.load(Ordering::SeqCst) {
                return;
            }
            yield_now();
        }
    }

    fn answered(&self, desk: u32, _row: u32) {
        if desk == self.until {
            self.open.store(true, Ordering::SeqCst);
        }
    }
}
