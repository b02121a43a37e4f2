// Rows filed in order into an open list, without lines, and their verdicts counted.
ghost use Rattle.std.specs.Prelude.{◌≡◌, ◌≢◌, ◌+◌, ◌≤◌, ℕ, false, Option, Ok, None, IfErr, OnOk, OnErr, length};
ghost use Rattle.io_traits.specs.Faults.{Rose};
ghost use Rattle.log_machine.specs.Submits.{after_ask};
ghost use Rattle.log_session.specs.Links.{IsLink};
ghost use Rattle.log_session.specs.Sessions.{StopsRow, is_disk_fault};
ghost use Rattle.log_session.specs.Counted.{Counts};

use crate::{FileStop, SessionStop, Tally};
use io_traits::Disk;
use log_machine::{Log, LogReply, Rows, StateMachine, ask_of};

// Answers one ask, and counts its verdict. The ask behind it is told ahead, where it is known.
fn count_one<D: Disk, R: StateMachine, L: Rows<R>, T: Tally<R>>(
    kept: &mut Log<D, R>,
    operation: R::Operation,
    next: Option<&R::Operation>,
    tally: &mut T,
) -> Result<(), FileStop>
    requires decided { kept.old.pending ≡ None }
    requires room { 1 ≤ T.room tally.old }
    ensures tally { OnOk result (tally.new ≡ T.counted tally.old (R.semantics.answer kept.old.history operation)) }
    ensures tally_err { OnErr result (tally.new ≡ tally.old) }
    ensures room { OnOk result (T.room tally.old ≤ T.room tally.new + 1) }
    ensures list { OnOk result (kept.new.history ≡ after_ask R.semantics kept.old.history operation) }
    ensures decided { OnOk result (kept.new.pending ≡ None) }
    ensures link { OnOk result (IsLink {Error = L.Error} D.Disk R.scheme R.semantics (Ok operation) kept.old.history kept.old.disk kept.new.disk) }
    ensures stops { IfErr result (λ stop. StopsRow {Error = L.Error} D.Disk R.scheme R.semantics stop (Ok operation) kept.old.history kept.old.disk kept.new.disk) }
    ensures honest { (D.tells kept.new.disk).honest ≡ (D.tells kept.old.disk).honest }
    ensures later { D.faults kept.old.disk ≤ D.faults kept.new.disk }
    ensures cause { IfErr result (λ stop. (undecided : Option ℕ) → stop ≡ FileStop.DiskFault undecided → Rose (D.faults kept.old.disk) (D.faults kept.new.disk)) }
    ensures unmoved { OnOk result (D.faults kept.new.disk ≡ D.faults kept.old.disk) }
{
    kept.sound();
    match kept.submit_ahead(operation, next) {
        LogReply::Answered { response, front: _ } => {
            tally.count(&response);
            Ok(())
        }
        LogReply::DiskFault { undecided } => Err(FileStop::DiskFault { undecided }),
        LogReply::NoMemory => Err(FileStop::NoMemory),
    }
}

// Files the rows that are left, in order, up to one that is no ask, which it answers. Room for what they may add is made
// before the first. One row is read ahead, so that its turn may be prepared by the one before it.
pub(crate) fn count_rows<D: Disk, R: StateMachine, L: Rows<R>, T: Tally<R>>(
    kept: &mut Log<D, R>,
    mut rows: L,
    tally: &mut T,
) -> Result<Option<L::Error>, FileStop>
    requires room { length (L.left rows) ≤ T.room tally.old }
    requires decided { kept.old.pending ≡ None }
    ensures counts { Counts D.Disk R.scheme R.semantics L.texts T.counted kept.old.history kept.old.disk kept.new.disk tally.old tally.new (L.left rows) result }
    ensures cause { IfErr result (λ stop. (undecided : Option ℕ) → stop ≡ FileStop.DiskFault undecided → Rose (D.faults kept.old.disk) (D.faults kept.new.disk)) }
    ensures unmoved { OnOk result (D.faults kept.new.disk ≡ D.faults kept.old.disk) }
    ensures unmoved_err { IfErr result (λ stop. is_disk_fault (SessionStop.Filing stop) ≡ false → D.faults kept.new.disk ≡ D.faults kept.old.disk) }
    ensures unwritten { IfErr result (λ stop. stop ≢ FileStop.Write) }
    ensures later { D.faults kept.old.disk ≤ D.faults kept.new.disk }
    ensures honest { (D.tells kept.new.disk).honest ≡ (D.tells kept.old.disk).honest }
{
    let most = L::most().saturating_sub(kept.machine().front());
    if kept.reserve(rows.at_most().min(most)).is_err() {
        return Err(FileStop::NoMemory);
    }
    let mut next = rows.next();
    loop {
        match next {
            Ok(Some(Ok(operation))) => {
                next = rows.next();
                count_one::<D, R, L, T>(kept, operation, ask_of(&next), tally)?;
            }
            Ok(Some(Err(error))) => return Ok(Some(error)),
            Ok(None) => return Ok(None),
            Err(_) => return Err(FileStop::NoMemory),
        }
    }
}
