//! Laws of lists of work-study filings, each as the contract of a function that computes nothing. A list has its newest filing
//! first.
ghost use Rattle.std.specs.Prelude.{◌≡◌, ◌≤◌, ◌<◌, ℕ, List, None, length};
ghost use Rattle.law_work.specs.declared.filing.WorkFiling.{WorkFiling};
ghost use Rattle.law_work.specs.AddsUp.{AddsUp};
ghost use Rattle.law_work.specs.Rules.{AreAllowed, AreSmall, breaks, facts_on};

/// In a list of which each filing breaks no rule on those before it, each fund adds up (HEA 443; 34 CFR 675).
pub fn allowed_adds_up()
    ensures { (past : List WorkFiling) → AreAllowed past → AddsUp past }
{}

/// A filing that breaks no rule is filed on fewer than 200,000.
pub fn room_left()
    ensures { (past : List WorkFiling) (filing : WorkFiling) → breaks past filing ≡ None → length past < 200000 }
{}

/// Such a list has at most 200,000 filings.
pub fn allowed_length()
    ensures { (past : List WorkFiling) → AreAllowed past → length past ≤ 200000 }
{}

/// On such a list the amounts that a filing is judged on are small.
pub fn allowed_small()
    ensures { (past : List WorkFiling) → AreAllowed past → (school year student : ℕ) → AreSmall (facts_on past school year student) }
{}
