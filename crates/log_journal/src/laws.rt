// What follows from the contracts alone, said of no call. Each of these functions does nothing.
ghost use Rattle.std.specs.Prelude.{◌≡◌, ◌++◌, ℕ, List};
ghost use Rattle.log_journal.specs.Stands.{Payloads, StandsFor};
ghost use Rattle.log_journal.specs.Opening.{IsDamagedAt};
ghost use Rattle.log_journal.specs.Lives.{PayloadFate, Left, JournalLife, FatesAllow};
ghost use Rattle.log_journal.specs.declared.header.Header.{Header};

use io_traits::Disk;

/// By a header a file stands for one list of payloads at most.
pub fn once()
    ensures { (header : Header) (file : List ℕ) (one other : Payloads)
        → StandsFor header file one → StandsFor header file other → one ≡ other }
{}

/// A file that stands for a list of payloads is damaged nowhere.
pub fn undamaged()
    ensures { (header : Header) (file : List ℕ) (payloads given : Payloads) (place : ℕ)
        → StandsFor header file payloads → IsDamagedAt header place file given → ⊥ }
{}

/// After any list of calls, faults, crashes and openings a file that a crash left stands for the payloads before, and
/// behind them for each one that was acknowledged, for each one that was uncertain at a crash or not, and for no one
/// that was refused, in the order in which they were put.
pub fn lives<D: Disk>(_disk: &D)
    ensures { (header : Header) (before : Payloads) (fates : List PayloadFate) (file : List ℕ)
        → JournalLife D.Disk header before fates (Left file)
        → (kept : Payloads) × FatesAllow fates kept × StandsFor header file (before ++ kept) }
{}
