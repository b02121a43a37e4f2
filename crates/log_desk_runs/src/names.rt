// The rows that are told of as those that filed what the desks added.
ghost use Rattle.std.specs.Prelude.{◌≡◌, Bool, Some, true, option_copied};
ghost use Rattle.std.specs.List.{find};
ghost use Rattle.log_desk_runs.specs.Names.{end_row_or as end_row_or_of, ends_at as ends_at_of, is_entry as is_entry_of, kept_in, leaves as leaves_of, name_of as name_of_row, names_position as names_position_of};

use log_desks::{Desk, DeskEnd, DeskStop, EntryCopies};
use log_machine::{RowName, Rows, SingleEntryMachine, StateMachine};

/// EntryCopies of what asks may add, by which a row that files the same as another one is known.
pub trait EntryMatch<R: SingleEntryMachine>: EntryCopies<R> {
    /// Whether two entries are one.
    ghost same: { R.Entry → R.Entry → Bool };

    /// Whether these are one entry. It takes no memory.
    fn is_same(one: &R::Entry, other: &R::Entry) -> bool
        ensures { result ≡ same one.now other.now };

    /// Entries that are told to be one are equal.
    ghost tells: { (one other : R.Entry) → same one other ≡ true → one ≡ other };

    /// An entry is told to be itself.
    ghost itself: { (entry : R.Entry) → same entry entry ≡ true };

    /// What is copied of an ask is what the ask may add.
    ghost owned: { (operation : R.Operation) (entry : R.Entry) → Self.copied operation ≡ Some entry → R.own operation ≡ Some entry };

    /// Of asks that may add one entry either all are copied or none.
    ghost alike: { (one other : R.Operation) (entry : R.Entry) → R.own one ≡ Some entry → R.own other ≡ Some entry
        → Self.copied one ≡ Self.copied other };
}

// Whether the desk ended in a fault of the disk that named this position.
fn names_position<R: SingleEntryMachine, L: Rows<R>>(desk: &Desk<R, L>, position: u64) -> bool
    ensures { result ≡ names_position_of position desk.now.ended }
{
    match desk.ended().1 {
        DeskEnd::Stopped(
            DeskStop::DiskFault {
                undecided: Some(named),
            },
        ) => u64::from(named) == position,
        _ => false,
    }
}

// Whether the desk ended at this row, with this position in doubt.
fn ends_at<R: SingleEntryMachine, L: Rows<R>>(desk: &Desk<R, L>, position: u64, by: RowName) -> bool
    ensures { result ≡ ends_at_of position by desk.now }
{
    names_position(desk, position) && desk.end_row() == by
}

// Whether what a desk kept is this entry.
fn is_entry<R: SingleEntryMachine, C: EntryMatch<R>>(
    entry: &R::Entry,
    kept: Option<&R::Entry>,
) -> bool
    ensures { result ≡ is_entry_of C.same entry.now (option_copied kept.entry) }
{
    match kept {
        Some(other) => C::is_same(entry, other),
        None => false,
    }
}

// Whether the desk ended with this position in doubt, at a row that files this.
fn leaves<R: SingleEntryMachine, L: Rows<R>, C: EntryMatch<R>>(
    desk: &Desk<R, L>,
    position: u64,
    entry: &R::Entry,
) -> bool
    ensures { result ≡ leaves_of C.same position entry.now desk.now }
{
    names_position(desk, position) && is_entry::<R, C>(entry, desk.last())
}

// The desk that ended at this row, with this position in doubt.
fn desk_at<R: SingleEntryMachine, L: Rows<R>>(
    desks: &[Desk<R, L>],
    position: u64,
    by: RowName,
) -> Option<&Desk<R, L>>
    ensures { option_copied result ≡ find (ends_at_of position by) desks.now }
{
    desks.iter().find(|desk| ends_at(desk, position, by))
}

// What this row files, where a desk ended at it with this position in doubt.
fn left_by<R: SingleEntryMachine, L: Rows<R>>(
    desks: &[Desk<R, L>],
    position: u64,
    by: RowName,
) -> Option<&R::Entry>
    ensures { option_copied result ≡ kept_in (find (ends_at_of position by) desks.now) }
{
    match desk_at(desks, position, by) {
        Some(desk) => desk.last(),
        None => None,
    }
}

// The first desk that ended with this position in doubt, at a row that files this.
fn first_left<'a, R: SingleEntryMachine, L: Rows<R>, C: EntryMatch<R>>(
    desks: &'a [Desk<R, L>],
    position: u64,
    entry: &R::Entry,
) -> Option<&'a Desk<R, L>>
    ensures { option_copied result ≡ find (leaves_of C.same position entry.now) desks.now }
{
    desks
        .iter()
        .find(|desk| leaves::<R, L, C>(desk, position, entry))
}

// The row at which this desk ended, or else this row.
fn end_row_or<R: SingleEntryMachine, L: Rows<R>>(desk: Option<&Desk<R, L>>, by: RowName) -> RowName
    ensures { result ≡ end_row_or_of by (option_copied desk.entry) }
{
    match desk {
        Some(desk) => desk.end_row(),
        None => by,
    }
}

/// The row that is told of for what stands at a position, where this row filed it.
pub(crate) fn name_of<R: SingleEntryMachine, L: Rows<R>, C: EntryMatch<R>>(
    desks: &[Desk<R, L>],
    position: u64,
    by: RowName,
) -> RowName
    ensures { result ≡ name_of_row C.same desks.now position by }
{
    match left_by(desks, position, by) {
        Some(entry) => end_row_or(first_left::<R, L, C>(desks, position, entry), by),
        None => by,
    }
}
