// What follows from the contracts alone, said of no call. Each of these functions does nothing.
ghost use Rattle.std.specs.Prelude.{◌≡◌, ◌++◌, ℕ, List};
ghost use Rattle.log_machine.specs.Recovers.{Recovers};
ghost use Rattle.log_machine.specs.Faulty.{IsFaultyAt};
ghost use Rattle.log_machine.specs.Lives.{Fate, Left, Life, MayHave};

use crate::StateMachine;
use io_traits::Disk;

/// A file recovers one list at most.
pub fn once<R: StateMachine>(_docket: &R)
    ensures { (file : List ℕ) (one other : List R.Entry) → Recovers R.scheme file one → Recovers R.scheme file other → one ≡ other }
{}

/// A file that recovers a list has no fault at any place.
pub fn unfaulty<R: StateMachine>(_docket: &R)
    ensures { (file : List ℕ) (history : List R.Entry) (place : ℕ) → Recovers R.scheme file history → IsFaultyAt R.scheme file place → ⊥ }
{}

/// A file has one faulty place at most, so that the place that an opening names is the place.
pub fn one_fault<R: StateMachine>(_docket: &R)
    ensures { (file : List ℕ) (place other : ℕ) → IsFaultyAt R.scheme file place → IsFaultyAt R.scheme file other → place ≡ other }
{}

/// After any list of turns, faults, crashes and openings a file that a crash left recovers the list before, and after it
/// each entry that was admitted, each that was uncertain at a crash or not, and no other, in the order in which they
/// were asked for. The list that it recovers is legal.
pub fn lives<D: Disk, R: StateMachine>(_disk: &D, _docket: &R)
    ensures { (before : List R.Entry) (fates : List (Fate R.Entry)) (file : List ℕ)
        → Life D.Disk R.scheme R.semantics before fates (Left file)
        → (kept : List R.Entry) × MayHave fates kept × Recovers R.scheme file (kept ++ before) }
{}
