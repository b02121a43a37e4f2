// What follows from the definitions alone. This function does nothing.
ghost use Rattle.std.specs.Prelude.{◌≡◌, ◌+◌, ◌∷◌, ◌++◌, List, length};
ghost use Rattle.log_rules.specs.Ruled.{answer_of};
ghost use Rattle.log_rules.specs.declared.response.RuleResponse.TheVariants.{Admit, Again};

use crate::OfficeRules;

/// A filing that was admitted is answered by its position and its first outcome, whatever stands behind it.
pub fn again<R: OfficeRules>()
    ensures { (newer past : List R.Entry) (f : R.Entry) (outcome : R.Outcome) → answer_of R.ruling past f ≡ Admit outcome
        → answer_of R.ruling (newer ++ f ∷ past) f ≡ Again (length past + 1) outcome }
{}
