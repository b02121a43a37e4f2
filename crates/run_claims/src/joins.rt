// What a run leaves is what the next run begins with. Each of these functions does nothing.
ghost use Rattle.std.specs.Prelude.{◌⊎◌, ℕ, List};
ghost use Rattle.aid_filings.specs.declared.filing.Filing.{Filing};
ghost use Rattle.aid_stamps.specs.declared.stamp.Stamp.{Stamp};
ghost use Rattle.io_traits.specs.DiskState.{EachImage, IsHonest};
ghost use Rattle.log_stamps.specs.declared.entry.StampedEntry.{StampedEntry};
ghost use Rattle.run_claims.specs.Filed.{Between, HasFiled, Row};
ghost use Rattle.run_claims.specs.Office.{Recovers};

use io_traits::Disk;

/// What each image recovers at each moment of a turn it recovers at the turn's end: the history before it, or the one after it. So after a
/// crash at any moment the next run begins on a file that recovers one of the two.
pub fn each_moment_joins<D: Disk>()
    ensures { (past after : List (StampedEntry Filing)) (old new : D) → IsHonest (D.tells new) → Between past after (D.tells old) (D.tells new)
        → EachImage (D.tells new) (λ file. Recovers file past ⊎ Recovers file after) }
{}

/// A run over rows that ended with 0 leaves what the next one begins with: each image recovers the history with all of its rows.
pub fn runs_join<D: Disk>()
    ensures { (stamp : Stamp) (rows : List Row) (past : List (StampedEntry Filing)) (text : List ℕ) (old new : D) → IsHonest (D.tells new)
        → (ran : HasFiled D.Disk stamp rows past text 0 old new) → EachImage (D.tells new) (λ file. Recovers file ran.last) }
{}
