// What a desk keeps of the row that it takes.
ghost use Rattle.std.specs.Prelude.{◌≡◌, Option};
ghost use Rattle.log_desks.specs.Answered.{kept_row};

use log_machine::{SingleEntryMachine, StateMachine};

/// EntryCopies what asks may add.
pub trait EntryCopies<R: SingleEntryMachine> {
    /// What an ask may add, where it is copied.
    ghost copied: { R.Operation → Option R.Entry };

    /// A copy of what an ask may add. It takes no memory.
    fn copy(operation: &R::Operation) -> Option<R::Entry>
        ensures { result ≡ copied operation.now };
}

// A copy of what a row may add.
pub(crate) fn copy_row<R: SingleEntryMachine, C: EntryCopies<R>, E>(
    row: &Result<R::Operation, E>,
) -> Option<R::Entry>
    ensures { result ≡ kept_row C.copied row.now }
{
    match row {
        Ok(operation) => C::copy(operation),
        Err(_) => None,
    }
}
