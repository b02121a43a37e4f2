//! Policies of awards, each by its name, and the two that the office has.
ghost use Rattle.std.specs.Prelude.{◌≡◌, [], ◌∷◌, ℕ, ℤ, map, IfOk, codes};
ghost use Rattle.std.specs.List.{find};
ghost use Rattle.std.specs.Option.{option_copied};
ghost use Rattle.std.specs.Str.{bytes_eq};
ghost use Rattle.law_funds.specs.Answers.{IsAwardRule, level as level_of, quarter as quarter_of};

use aid_types::Name;
use std::alloc::{AllocError, Global};

/// What tells an award in whole dollars from a candidate's need in whole dollars, Student Aid Index and enrollment intensity in
/// percent.
pub type Rule = Box<dyn Fn(u32, i32, u8) -> u32 + Send + Sync>;

/// A rule of awards with its name.
#[derive(Drop)]
pub struct Policy {
    pub name: Name,
    pub rule: Rule,
    pub ghost is_rule: { IsAwardRule (Rule.pre rule) (Rule.post rule) },
}

impl Policy {
    /// A policy of a rule that its caller makes.
    pub fn new(name: Name, rule: Rule) -> Policy
        requires { IsAwardRule (Rule.pre rule) (Rule.post rule) }
        ensures name { result.name ≡ name }
        ensures rule { result.rule ≡ rule }
    {
        Policy { name, rule }
    }
}

/// Policies in the order of a search.
#[derive(Drop)]
pub struct Policies {
    pub list: Vec<Policy>,
}

impl Policies {
    pub fn new(list: Vec<Policy>) -> Policies
        ensures { result.list.items ≡ list.items }
    {
        Policies { list }
    }

    /// The first policy of a name.
    pub fn find(&self, name: &[u8]) -> Option<&Policy>
        ensures { option_copied result ≡ find (λ p. bytes_eq p.name name.now) self.now.list.items }
    {
        self.list.iter().find(
            |policy|
                ensures { result ≡ bytes_eq policy.now.now.name name.entry.now }
            { policy.name.as_bytes() == name },
        )
    }
}

/// The two policies of the office, named `level` and `quarter`. What a box may answer is its caller's to show: the level rule's
/// awards and no other, and the quarter rule's.
pub fn standard(alloc: Global, level: Rule, quarter: Rule) -> Result<Policies, AllocError>
    requires level { IsAwardRule (Rule.pre level) (Rule.post level) }
    requires quarter { IsAwardRule (Rule.pre quarter) (Rule.post quarter) }
    requires is_level { (need : ℕ) (sai : ℤ) (intensity award : ℕ) → Rule.post level need sai intensity award → award ≡ level_of need }
    requires is_quarter { (need : ℕ) (sai : ℤ) (intensity award : ℕ) → Rule.post quarter need sai intensity award → award ≡ quarter_of need }
    ensures names { IfOk result (λ p. map (λ q. q.name) p.list.items ≡ codes "level" ∷ codes "quarter" ∷ []) }
    ensures rules { IfOk result (λ p. map (λ q. q.rule) p.list.items ≡ level ∷ quarter ∷ []) }
{
    let level = Policy::new(Name::new(Vec::from_slice(alloc, b"level")?), level);
    let quarter = Policy::new(Name::new(Vec::from_slice(alloc, b"quarter")?), quarter);
    Ok(Policies::new(vec![in alloc; level, quarter]?))
}
