// The entry that a stamped ask may add.
use crate::{Stampable, StampedMachine};
use log_machine::SingleEntryMachine;

impl<R: Stampable + SingleEntryMachine> SingleEntryMachine for StampedMachine<R> {
    ghost use Rattle.std.specs.Prelude.{option_map};
    ghost use Rattle.log_stamps.specs.Entries.{with_stamp};
    ghost use Rattle.log_stamps.specs.OwnLaws.{own_added as own_is_added, adds_added as adds_is_added};

    ghost own = { λ operation. option_map (with_stamp operation.stamp) (R.own operation.operation) };

    ghost adds = { R.adds };

    ghost own_added = { own_is_added R.semantics R.own R.own_added };

    ghost adds_added = { adds_is_added R.semantics R.adds R.adds_added };

    fn is_added(response: &R::Response) -> bool {
        R::is_added(response)
    }
}
