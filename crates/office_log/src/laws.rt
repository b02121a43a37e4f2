// What follows from the contracts alone, said of no call. Each of these functions does nothing.
ghost use Rattle.std.specs.Prelude.{◌≡◌, ◌++◌, ℕ, List};
ghost use Rattle.aid_filings.specs.declared.filing.Filing.{Filing};
ghost use Rattle.office_log.specs.Recovers.{Recovers};
ghost use Rattle.office_log.specs.Faulty.{IsFaultyAt};
ghost use Rattle.log_machine.specs.Lives.{Left};
ghost use Rattle.log_stamps.specs.declared.entry.StampedEntry.{StampedEntry};
ghost use Rattle.office_log.specs.Lives.{Fate, Life, MayHave};

use io_traits::Disk;

/// A file recovers one history at most.
pub fn once()
    ensures { (file : List ℕ) (one other : List (StampedEntry Filing)) → Recovers file one → Recovers file other → one ≡ other }
{}

/// A file that recovers a history has no fault at any place.
pub fn unfaulty()
    ensures { (file : List ℕ) (history : List (StampedEntry Filing)) (place : ℕ) → Recovers file history → IsFaultyAt file place → ⊥ }
{}

/// A file has one faulty place at most, so that the place that an opening names is the place.
pub fn one_fault()
    ensures { (file : List ℕ) (place other : ℕ) → IsFaultyAt file place → IsFaultyAt file other → place ≡ other }
{}

/// After any list of turns, faults, crashes and openings a file that a crash left recovers the history before, and
/// after it each filing that was admitted, each that was uncertain at a crash or not, and no other, in the order in
/// which they were filed. The history that it recovers is legal, so no key stands twice in it.
pub fn lives<D: Disk>(_disk: &D)
    ensures { (before : List (StampedEntry Filing)) (fates : List Fate) (file : List ℕ) → Life D.Disk before fates (Left file)
        → (kept : List (StampedEntry Filing)) × MayHave fates kept × Recovers file (kept ++ before) }
{}
