// What becomes of a call of a disk in memory.
ghost use Rattle.std.specs.Prelude.{◌≡◌, Some, None};
ghost use Rattle.io_memory.specs.Turns.{turn_of};

/// What the range of a stopped write, or the part that a stopped cut cuts off, holds afterwards.
#[derive(Clone, Copy, PartialEq, Eq)]
pub enum Fill {
    /// What stood there.
    Unwritten,
    /// What the call was to leave there.
    Written,
    /// This byte all over.
    With(u8),
}

/// The call at which a disk stops for good, counted from 1. From it on each call answers `Failed`.
#[derive(Clone, Copy, PartialEq, Eq)]
pub struct DiskStop {
    /// The number of the call.
    pub call: u64,
    /// What that call leaves.
    pub fill: Fill,
}

/// What becomes of a call.
#[derive(Clone, Copy, PartialEq, Eq)]
pub(crate) enum Turn {
    /// It does its work.
    Works,
    /// It fails, and leaves this.
    Fails(Fill),
}

// What becomes of a call with this number where the disk doesn't stop.
pub(crate) fn turn_without_stop(failing: &[u64], call: u64) -> Turn
    ensures { result ≡ turn_of failing.now None call }
{
    if failing.contains(&call) {
        Turn::Fails(Fill::Unwritten)
    } else {
        Turn::Works
    }
}

// What becomes of it where the disk stops.
pub(crate) fn turn_with_stop(failing: &[u64], stop: DiskStop, call: u64) -> Turn
    ensures { result ≡ turn_of failing.now (Some stop) call }
{
    if call == stop.call {
        Turn::Fails(stop.fill)
    } else if call > stop.call {
        Turn::Fails(Fill::Unwritten)
    } else {
        turn_without_stop(failing, call)
    }
}
