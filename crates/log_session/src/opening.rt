// The journal is opened.
ghost use Rattle.std.specs.Prelude.{◌≡◌, ◌≤◌, ◌⊎◌, None, IfOk, IfErr};
ghost use Rattle.io_traits.specs.Faults.{Rose};
ghost use Rattle.log_session.specs.Links.{IsOpened};
ghost use Rattle.log_session.specs.Sessions.{IsUnopened};

use io_traits::Disk;
use log_machine::{Log, OpenError, StateMachine};
use std::alloc::Global;

// The entries that stand are legal. Nothing is done.
fn legal<D: Disk, R: StateMachine>(kept: &Log<D, R>)
    ensures { R.scheme.IsLegal kept.now.history }
{
    let _ = kept.machine().front();
}

/// Opens the list of the disk's file. An `Err` gives the disk back, as it is then.
pub fn open<D: Disk, R: StateMachine>(alloc: Global, disk: D) -> Result<Log<D, R>, (OpenError, D)>
    ensures opened { IfOk result (λ kept. IsOpened D.Disk R.scheme kept.history disk kept.disk) }
    ensures decided { IfOk result (λ kept. kept.pending ≡ None) }
    ensures unopened { IfErr result (λ e. IsUnopened D.Disk R.scheme e.0 disk e.1) }
    ensures honest { IfOk result (λ kept. (D.tells kept.disk).honest ≡ (D.tells disk).honest) }
    ensures honest_err { IfErr result (λ e. (D.tells e.1).honest ≡ (D.tells disk).honest) }
    ensures later_err { IfErr result (λ e. D.faults disk ≤ D.faults e.1) }
    ensures cause { IfErr result (λ e. e.0 ≡ OpenError.DiskFault → Rose (D.faults disk) (D.faults e.1)) }
    ensures unmoved { IfOk result (λ kept. D.faults kept.disk ≡ D.faults disk) }
    ensures unmoved_err { IfErr result (λ e. (e.0 ≡ OpenError.DiskFault) ⊎ (D.faults e.1 ≡ D.faults disk)) }
{
    match Log::<D, R>::recover(alloc, disk) {
        Ok(kept) => {
            legal(&kept);
            Ok(kept)
        }
        Err((error, disk)) => Err((error, disk)),
    }
}
