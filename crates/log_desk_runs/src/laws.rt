// What follows of a run of desks and of what they filed, said of no call. Each of these functions does nothing.
ghost use Rattle.std.specs.Prelude.{◌≡◌, ◌≢◌, ◌⊎◌, ◌+◌, ◌<◌, ◌≤◌, ℕ, List, Some, Contains, get_or, length};
ghost use Rattle.io_traits.specs.Faults.{Rose};
ghost use Rattle.log_desks.specs.Answered.{Answer};
ghost use Rattle.log_desks.specs.Desks.{DeskView};
ghost use Rattle.log_desks.specs.declared.stop.DeskEnd.TheVariants.{Stopped};
ghost use Rattle.log_desks.specs.declared.stop.DeskStop.TheVariants.{DiskFault};
ghost use Rattle.log_machine.specs.Names.{entries_of};
ghost use Rattle.log_machine.specs.declared.names.Filed.{Filed};
ghost use Rattle.log_lock.specs.Passes.{IsOlder, numbered};
ghost use Rattle.log_lock.specs.Turning.{RoseBy};
ghost use Rattle.log_lock.specs.declared.turned.Snapshot.{Snapshot};
ghost use Rattle.log_desk_runs.specs.DesksDone.{FailsFirst, HasAdmitted, HasNamed, IsToldOf, faulted_in};
ghost use Rattle.log_desk_runs.specs.Names.{name_of};
ghost use Rattle.log_desk_runs.specs.RanDesksOn.{AreFew, AreNew, FilesOwn, HasFiled, HasStood, RanDesksOn};

use crate::{DeskSource, EntryMatch};
use io_traits::{Disk, Sink};
use log_desks::EntryCopies;
use log_machine::{Rows, SingleEntryMachine, StateMachine};

/// What a status shows of the number of desks and of their inputs. 2 comes only for no desk or more than 16, and there always,
/// or 4 where the line can't be written. 3 comes only where the count of faults of an input rose and none before it did. At every
/// status but 3 and 4 the count of each input stood still.
pub fn desk_causes<D: Disk, R: SingleEntryMachine, I: DeskSource<R>, C: EntryMatch<R>, K: Sink>()
    ensures usage { (old new : D) (inputs inputs' : List I) (out out' : K) (status : ℕ) → RanDesksOn R.scheme R.semantics R.own C.copied C.same I.Rows.texts I.Rows.left I.Rows.rows_of I.reads D.Disk K.Sink old new inputs inputs' out out' status
        → status ≡ 2 → AreFew (length inputs) → ⊥ }
    ensures many { (old new : D) (inputs inputs' : List I) (out out' : K) (status : ℕ) → RanDesksOn R.scheme R.semantics R.own C.copied C.same I.Rows.texts I.Rows.left I.Rows.rows_of I.reads D.Disk K.Sink old new inputs inputs' out out' status
        → (AreFew (length inputs) → ⊥) → (status ≡ 2) ⊎ ((status ≡ 4) × Rose (K.faults out) (K.faults out')) }
    ensures source { (old new : D) (inputs inputs' : List I) (out out' : K) (status : ℕ) → RanDesksOn R.scheme R.semantics R.own C.copied C.same I.Rows.texts I.Rows.left I.Rows.rows_of I.reads D.Disk K.Sink old new inputs inputs' out out' status
        → status ≡ 3 → FailsFirst I.reads inputs inputs' }
    ensures still { (old new : D) (inputs inputs' : List I) (out out' : K) (status : ℕ) → RanDesksOn R.scheme R.semantics R.own C.copied C.same I.Rows.texts I.Rows.left I.Rows.rows_of I.reads D.Disk K.Sink old new inputs inputs' out out' status
        → status ≢ 3 → status ≢ 4 → (k : ℕ) (i : I) → k < length inputs → HasStood I.reads inputs inputs' k i }
{}

/// The disk's count of faults rose by at least the number of desks that ended in a fault of the disk, or stands at its
/// last value.
pub fn faults_are_counted<R: SingleEntryMachine, L: Rows<R>, C: EntryCopies<R>>()
    ensures { (opening closed : Snapshot (Filed R.Entry)) (before after : List (DeskView R.Entry L)) → HasFiled R.semantics R.own C.copied L.texts L.left opening closed before after
        → RoseBy (faulted_in after) opening.faults closed.faults }
{}

/// The position that the last line of a desk names is past the list before the desks filed, and at most one past the
/// list at the end.
pub fn undecided_is_next<R: SingleEntryMachine, L: Rows<R>, C: EntryCopies<R>>()
    ensures { (opening closed : Snapshot (Filed R.Entry)) (before after : List (DeskView R.Entry L)) → HasFiled R.semantics R.own C.copied L.texts L.left opening closed before after
        → (k : ℕ) (d : DeskView R.Entry L) (position : ℕ) → k < length after → (get_or after k d).ended ≡ Stopped (DiskFault (Some position))
        → (length opening.list < position) × (position ≤ length closed.list + 1) }
{}

/// Each row of a desk was answered on an older part of the list at the end.
pub fn answered_on_closed<R: SingleEntryMachine, L: Rows<R>, C: EntryCopies<R>>()
    ensures { (opening closed : Snapshot (Filed R.Entry)) (before after : List (DeskView R.Entry L)) (filed : HasFiled R.semantics R.own C.copied L.texts L.left opening closed before after)
        (k : ℕ) (d : DeskView R.Entry L) (lt : k < length before) (i : ℕ) (a : Answer R.Entry R.Operation L.Error) → i < length (filed.each k d lt).files.answers
        → IsOlder (get_or (filed.each k d lt).files.answers i a).past (entries_of closed.list) }
{}

/// No row of a desk was answered on fewer entries than one before it.
pub fn fronts_rise<R: SingleEntryMachine, L: Rows<R>, C: EntryCopies<R>>()
    ensures { (opening : Snapshot (Filed R.Entry)) (before after : DeskView R.Entry L) (own : FilesOwn R.semantics R.own C.copied L.texts L.left opening before after) (i j : ℕ) (a : Answer R.Entry R.Operation L.Error)
        → i ≤ j → j < length own.files.answers
        → length (get_or own.files.answers i a).past ≤ length (get_or own.files.answers j a).past }
{}

/// Each entry that was added is that of a row which was answered as admitted at its position, or at which a desk ended in
/// a fault of the disk that named the position.
pub fn added_are_named<R: SingleEntryMachine, L: Rows<R>, C: EntryCopies<R>>()
    ensures { (opening closed : Snapshot (Filed R.Entry)) (before after : List (DeskView R.Entry L)) (filed : HasFiled R.semantics R.own C.copied L.texts L.left opening closed before after) (entry : ℕ × Filed R.Entry)
        → Contains (numbered (length opening.list) filed.ran.added) entry
        → (k : ℕ) × (d : DeskView R.Entry L) × (lt : k < length before) × HasNamed (filed.each k d lt) entry }
{}

/// Which row a line `admitted` names, where the desks are numbered from 1: that which was answered as admitted at the
/// position; or else the first, in desk order, that files the same and at which a desk ended with the position in doubt.
pub fn first_is_named<R: SingleEntryMachine, L: Rows<R>, C: EntryMatch<R>>()
    ensures answered { (opening closed : Snapshot (Filed R.Entry)) (before after : List (DeskView R.Entry L)) (filed : HasFiled R.semantics R.own C.copied L.texts L.left opening closed before after) → AreNew before
        → (k : ℕ) (d : DeskView R.Entry L) (lt : k < length before) (entry : ℕ × Filed R.Entry) → HasAdmitted (filed.each k d lt) entry → name_of C.same after entry.0 entry.1.by ≡ entry.1.by }
    ensures named { (opening closed : Snapshot (Filed R.Entry)) (before after : List (DeskView R.Entry L)) (filed : HasFiled R.semantics R.own C.copied L.texts L.left opening closed before after) → AreNew before
        → (entry : ℕ × Filed R.Entry) → Contains (numbered (length opening.list) filed.ran.added) entry
        → IsToldOf filed entry.0 entry.1.entry (name_of C.same after entry.0 entry.1.by) }
{}
