// Rows that come one at a time, and the lines that answer them.
ghost use Rattle.std.specs.Prelude.{◌≡◌, ◌+◌, ◌≤◌, ◌∷◌, ◌++◌, [], ℕ, List, Ok, IsOk, IfOk, OnOk, OnErr, Some, IsSome, IfSome, MatchOption, length, vec_capacity, vec_len};
ghost use Rattle.log_machine.specs.Texts.{Texts};

use crate::StateMachine;
use std::alloc::AllocError;

/// The rows of a desk that weren't taken yet, each an ask of a docket or why it is none, and the lines that answer them.
pub trait Rows<R: StateMachine>: Drop {
    /// Why a row is no ask.
    type Error: Drop;

    /// How such rows are read from a text: `()` where they come from none.
    type RowFormat;

    /// What rows say, and the lines that answer them.
    ghost texts: { Texts R.Operation R.Response Self.Error };

    /// What the rows say that weren't taken yet.
    ghost left: { Self → List texts.Meaning };

    /// What the rows of a text say, by how they are read.
    ghost rows_of: { Self.RowFormat → List ℕ → List texts.Meaning };

    /// At most so many rows are left. It takes no memory.
    fn at_most(&self) -> u32
        ensures { length (left self.now) ≤ result };

    /// The most entries that a list of the docket's may hold: a session makes room for no more.
    fn most() -> u32;

    /// The next row, `None` behind the last. An `Err` is want of memory; then no more rows are taken.
    fn next(&mut self) -> Result<Option<Result<R::Operation, Self::Error>>, AllocError>
        ensures row { IfOk result (λ next. MatchOption next ((left self.old ≡ []) × (left self.new ≡ [])) (λ row. left self.old ≡ texts.said row ∷ left self.new)) };

    /// Appends the line that answers the row with a number, on a list of `front` entries. Where the vector has room for
    /// 160 more bytes no memory is taken.
    fn put_answer(
        number: u32,
        front: u32,
        response: &R::Response,
        out: &mut Vec<u8>,
    ) -> Result<(), AllocError>
        ensures ok { OnOk result (out.new.items ≡ out.old.items ++ texts.answer_line number front response.now) }
        ensures err { OnErr result (out.new.items ≡ out.old.items) }
        ensures room { vec_len out.old + 160 ≤ vec_capacity out.old → IsOk result };

    /// Appends the line of a row that is no ask.
    fn put_error(error: &Self::Error, out: &mut Vec<u8>) -> Result<(), AllocError>
        ensures ok { OnOk result (out.new.items ≡ out.old.items ++ texts.error_line error.now) }
        ensures err { OnErr result (out.new.items ≡ out.old.items) };
}

/// The ask of a row that was read ahead, where it is one.
pub fn ask_of<T, E>(read: &Result<Option<Result<T, E>>, AllocError>) -> Option<&T>
    ensures some { IfSome result (λ operation. read.now ≡ Ok (Some (Ok operation.now))) }
    ensures none { (operation : T) → read.now ≡ Ok (Some (Ok operation)) → IsSome result }
{
    match read {
        Ok(Some(Ok(operation))) => Some(operation),
        _ => None,
    }
}
