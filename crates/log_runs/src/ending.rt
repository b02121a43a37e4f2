// The last text of a run is written, and its status is told.
ghost use Rattle.std.specs.Prelude.{◌≡◌, ◌⊎◌, ◌≤◌, ◌↔◌, IfErr, IsOk, Err};
ghost use Rattle.io_traits.specs.Faults.{Rose};
ghost use Rattle.log_runs.specs.Ends.{Ends, EndsWith};
ghost use Rattle.log_runs.specs.Puts.{Puts};
ghost use Rattle.log_runs.specs.Statuses.{fault_line, status_of};

use crate::stop::RunStop;
use io_traits::{Failed, Sink, write_whole};

/// The status of a run whose text couldn't be written whole.
pub const WRITE_FAILED: u8 = 4;

/// Writes all the bytes.
pub fn put<K: Sink>(out: &mut K, bytes: &[u8]) -> Result<(), Failed>
    ensures { Puts K.Sink bytes.now result out.old out.new }
{
    write_whole(out, bytes)
}

/// Writes the line of a stop, and gives the status.
pub fn end_with<K: Sink>(stop: RunStop, out: &mut K) -> u8
    ensures { EndsWith K.Sink (fault_line stop) (status_of stop) out.old out.new result }
{
    match put(out, stop.line().as_bytes()) {
        Ok(()) => stop.status(),
        Err(_) => WRITE_FAILED,
    }
}

/// Writes the last line of a run, and gives its status: that of a failed write where the line can't be written whole.
pub fn end<K: Sink>(ended: Result<(), RunStop>, out: &mut K) -> u8
    ensures { Ends K.Sink out.old out.new ended result }
{
    match ended {
        Ok(()) => 0,
        Err(stop) => end_with(stop, out),
    }
}
