// The filing that an ask may add is the ask.
use crate::{OfficeRules, RuleMachine, RuleResponse};
use log_machine::SingleEntryMachine;

impl<R: OfficeRules> SingleEntryMachine for RuleMachine<R> {
    ghost use Rattle.std.specs.Prelude.{Some};
    ghost use Rattle.log_rules.specs.Ruled.{is_admit};
    ghost use Rattle.log_rules.specs.RuledLaws.{own_added as own_is_added, adds_added as adds_is_added};

    ghost own = { λ operation. Some operation };

    ghost adds = { is_admit };

    ghost own_added = { own_is_added R.ruling };

    ghost adds_added = { adds_is_added R.ruling };

    fn is_added(response: &RuleResponse<R::Outcome>) -> bool {
        matches!(response, RuleResponse::Admit(_))
    }
}
