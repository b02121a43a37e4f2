// Gates: what a desk waits for before a turn, outside the lock.

/// What a desk calls before and after each of its turns, both outside the lock.
pub trait SyncPoint {
    /// Called before the turn of a row.
    fn hold(&self, desk: u32, row: u32);

    /// Called once the turn of a row was answered.
    fn answered(&self, desk: u32, row: u32);
}

/// A gate that holds nobody up.
#[derive(Drop)]
pub struct NoSyncPoint;

impl SyncPoint for NoSyncPoint {
    fn hold(&self, _desk: u32, _row: u32) {}

    fn answered(&self, _desk: u32, _row: u32) {}
}
