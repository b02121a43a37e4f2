// The entry that a number may add.
use crate::rising::Rising;
use log_machine::SingleEntryMachine;

impl SingleEntryMachine for Rising {
    ghost use Rattle.std.specs.Prelude.{Some};
    ghost use Rattle.log_tests.specs.OwnLaws.{own_added, adds_added};

    ghost own = { λ operation. Some operation };

    ghost adds = { λ response. response };

    ghost own_added = { own_added };

    ghost adds_added = { adds_added };

    fn is_added(response: &bool) -> bool {
        *response
    }
}
