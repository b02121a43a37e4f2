// What follows from the contracts alone, said of no call. Each of these functions does nothing.
ghost use Rattle.std.specs.Prelude.{◌≡◌, ◌++◌, ℕ, List, Result, Ok, IsTrue, map};
ghost use Rattle.io_traits.specs.DiskState.{EachImage, EachMoment, IsHonest};
ghost use Rattle.log_machine.specs.Recovers.{Recovers};
ghost use Rattle.log_session.specs.Edges.{Input, Output};
ghost use Rattle.log_machine.specs.Texts.{after_rows};
ghost use Rattle.log_session.specs.Links.{Runs, RecoversFront, RecoversOf};
ghost use Rattle.log_session.specs.Sessions.{Session};
ghost use Rattle.log_session.specs.declared.stop.SessionStop.{SessionStop};

use io_traits::Disk;
use log_machine::{Rows, StateMachine};

/// While rows are answered, each image at each moment recovers the list before them, with what some of them in front
/// add.
pub fn each_moment<D: Disk, R: StateMachine, L: Rows<R>>(_disk: &D, _docket: &R, _rows: &L)
    ensures { (rows : List (Result R.Operation L.Error)) (past : List R.Entry) (old new : D)
        → IsHonest (D.tells old) → EachImage (D.tells old) (λ file. Recovers R.scheme file past)
        → Runs D.Disk R.scheme R.semantics rows past old new
        → EachMoment (D.tells old) (D.tells new) (RecoversFront R.scheme R.semantics past rows) }
{}

/// Rows that were answered have a state behind each of their fronts, from which on each image at each moment recovers at
/// least what that front adds.
pub fn answered_stands<D: Disk, R: StateMachine, L: Rows<R>>(_disk: &D, _docket: &R, _rows: &L)
    ensures { (front rest : List (Result R.Operation L.Error)) (past : List R.Entry) (old new : D)
        → IsHonest (D.tells old) → EachImage (D.tells old) (λ file. Recovers R.scheme file past)
        → Runs D.Disk R.scheme R.semantics (front ++ rest) past old new
        → (mid : D) × Runs D.Disk R.scheme R.semantics front past old mid
        × Runs D.Disk R.scheme R.semantics rest (after_rows R.semantics past front) mid new
        × EachMoment (D.tells mid) (D.tells new) (RecoversFront R.scheme R.semantics (after_rows R.semantics past front) rest) }
{}

/// Whatever a session comes to, each image at each moment of it recovers the list before it, with what some rows in front
/// of the input's add.
pub fn each_moment_of_session<D: Disk, R: StateMachine, L: Rows<R>>(
    _disk: &D,
    _docket: &R,
    _rows: &L,
)
    ensures { (rows_of : List ℕ → List L.texts.Meaning) (limit : ℕ) (past : List R.Entry) (old new : D) (input : Input) (output : Output) (ended : Result (Unit {0}) SessionStop)
        → IsHonest (D.tells old) → EachImage (D.tells old) (λ file. Recovers R.scheme file past)
        → Session D.Disk R.scheme R.semantics L.texts rows_of limit old new input output ended
        → EachMoment (D.tells old) (D.tells new) (RecoversOf R.scheme R.semantics L.texts rows_of input past) }
{}

/// A session that ended well leaves each image with the list that the disk read as, and all that the rows of its input add.
pub fn all_stands<D: Disk, R: StateMachine, L: Rows<R>>(_disk: &D, _docket: &R, _rows: &L)
    ensures { (rows_of : List ℕ → List L.texts.Meaning) (limit : ℕ) (past : List R.Entry) (old new : D) (input : Input) (output : Output)
        → IsHonest (D.tells old) → Recovers R.scheme (D.tells old).reads past
        → Session D.Disk R.scheme R.semantics L.texts rows_of limit old new input output (Ok tt)
        → (rows : List (Result R.Operation L.Error)) × (IsTrue input.honest → map L.texts.said rows ≡ rows_of input.before)
        × EachImage (D.tells new) (λ file. Recovers R.scheme file (after_rows R.semantics past rows)) }
{}
