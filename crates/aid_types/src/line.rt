//! A rule as it is tried on a filing, and the first of several that is broken.
ghost use Rattle.std.specs.Prelude.{◌≡◌};
ghost use Rattle.aid_types.specs.RuleLines.{
  first_broken as first_broken_of,
  lacks as lacks_of,
  over as over_of,
  stands as stands_of,
  told_by,
  too_early as too_early_of,
  tried_if,
  where_true as where_true_of,
};

use crate::{Day, Refusal};

/// A rule's number, whether it is broken, and the two numbers that it then tells: what stands, and what may stand.
#[derive(Clone, Copy)]
pub struct RuleLine {
    pub rule: u16,
    pub is_broken: bool,
    pub kept: u64,
    pub bound: u64,
}

impl RuleLine {
    /// What the rule tells where it is broken.
    pub fn refusal(&self) -> Refusal
        ensures { result ≡ told_by self.now }
    {
        Refusal {
            rule: self.rule,
            kept: self.kept,
            bound: self.bound,
        }
    }

    /// The same, tried only where the test holds: else it isn't broken.
    pub fn only_if(self, test: bool) -> RuleLine
        ensures { result ≡ tried_if test self }
    {
        RuleLine {
            is_broken: test && self.is_broken,
            ..self
        }
    }
}

/// Broken where the test holds.
pub fn where_true(rule: u16, is_broken: bool, kept: u64, bound: u64) -> RuleLine
    ensures { result ≡ where_true_of rule is_broken kept bound }
{
    RuleLine {
        rule,
        is_broken,
        kept,
        bound,
    }
}

/// Broken where what is kept is above the bound.
pub fn over(rule: u16, kept: u64, bound: u64) -> RuleLine
    ensures { result ≡ over_of rule kept bound }
{
    where_true(rule, kept > bound, kept, bound)
}

/// Broken where something stands at the position.
pub fn stands(rule: u16, at: u32, bound: u64) -> RuleLine
    ensures { result ≡ stands_of rule at bound }
{
    where_true(rule, at > 0, u64::from(at), bound)
}

/// Broken where nothing stands at the position.
pub fn lacks(rule: u16, at: u32, kept: u64, bound: u64) -> RuleLine
    ensures { result ≡ lacks_of rule at kept bound }
{
    where_true(rule, at == 0, kept, bound)
}

/// Broken where a day comes before another.
pub fn too_early(rule: u16, day: Day, other: Day) -> RuleLine
    ensures { result ≡ too_early_of rule day other }
{
    let (day, other) = (u64::from(day.count()), u64::from(other.count()));
    where_true(rule, day < other, day, other)
}

/// What the first broken line tells; `None` where none is broken.
pub fn first_broken(lines: &[RuleLine]) -> Option<Refusal>
    ensures { result ≡ first_broken_of lines.now }
{
    for line in lines {
        if line.is_broken {
            return Some(line.refusal());
        }
    }
    None
}
