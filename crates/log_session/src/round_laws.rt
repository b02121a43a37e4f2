// What follows from the contracts alone, said of no call. Each of these functions does nothing.
ghost use Rattle.std.specs.Prelude.{◌≡◌, ◌++◌, ℕ, List, Result, Ok, IsTrue, map};
ghost use Rattle.io_traits.specs.DiskState.{EachImage, EachMoment, IsHonest};
ghost use Rattle.log_machine.specs.Recovers.{Recovers};
ghost use Rattle.log_session.specs.Edges.{Input, Output};
ghost use Rattle.log_session.specs.Links.{RecoversOf, RecoversTaken};
ghost use Rattle.log_session.specs.declared.stop.SessionStop.{SessionStop};
ghost use Rattle.log_session.specs.Asks.{after_asks, rows_of_asks};
ghost use Rattle.log_session.specs.Counted.{Counted, CountedSession};
ghost use Rattle.log_session.specs.Fronts.{IsEnd};

use crate::Tally;
use io_traits::Disk;
use log_machine::{Rows, StateMachine};

/// Whatever counted rows come to, each image at each moment recovers the list before them, with what some rows in front add.
pub fn each_moment_of_counted<D: Disk, R: StateMachine, L: Rows<R>, T: Tally<R>>(
    _disk: &D,
    _docket: &R,
    _rows: &L,
    _tally: &T,
)
    ensures { (start : T) (left : List L.texts.Meaning) (past : List R.Entry) (old new : D) (output : Output) (ended : Result (Unit {0}) SessionStop)
        → IsHonest (D.tells old) → EachImage (D.tells old) (λ file. Recovers R.scheme file past)
        → Counted D.Disk R.scheme R.semantics L.texts T.counted T.ending start old new output left ended
        → EachMoment (D.tells old) (D.tells new) (RecoversTaken R.scheme R.semantics L.texts past left) }
{}

/// The same of the rows of an input.
pub fn each_moment_of_counted_session<D: Disk, R: StateMachine, L: Rows<R>, T: Tally<R>>(
    _disk: &D,
    _docket: &R,
    _rows: &L,
    _tally: &T,
)
    ensures { (start : T) (rows_of : List ℕ → List L.texts.Meaning) (limit : ℕ) (past : List R.Entry) (old new : D) (input : Input) (output : Output) (ended : Result (Unit {0}) SessionStop)
        → IsHonest (D.tells old) → EachImage (D.tells old) (λ file. Recovers R.scheme file past)
        → CountedSession D.Disk R.scheme R.semantics L.texts T.counted T.ending start rows_of limit old new input output ended
        → EachMoment (D.tells old) (D.tells new) (RecoversOf R.scheme R.semantics L.texts rows_of input past) }
{}

/// Counted rows of an input that ended well leave each image with the list that the disk read as, and all that the asks add in
/// front of the first row that is none.
pub fn counted_stands<D: Disk, R: StateMachine, L: Rows<R>, T: Tally<R>>(
    _disk: &D,
    _docket: &R,
    _rows: &L,
    _tally: &T,
)
    ensures { (start : T) (rows_of : List ℕ → List L.texts.Meaning) (limit : ℕ) (past : List R.Entry) (old new : D) (input : Input) (output : Output)
        → IsHonest (D.tells old) → Recovers R.scheme (D.tells old).reads past
        → CountedSession D.Disk R.scheme R.semantics L.texts T.counted T.ending start rows_of limit old new input output (Ok tt)
        → (operations : List R.Operation) × (rest : List L.texts.Meaning) × IsEnd L.texts rest
        × (IsTrue input.honest → rows_of input.before ≡ map L.texts.said (rows_of_asks operations) ++ rest)
        × EachImage (D.tells new) (λ file. Recovers R.scheme file (after_asks R.semantics past operations)) }
{}
