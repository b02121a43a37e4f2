// How rows are read from a text.
ghost use Rattle.std.specs.Prelude.{◌≡◌, ◌≤◌, ◌++◌, ℕ, List, IfOk, OnOk, OnErr, length};

use crate::{Rows, StateMachine};
use std::alloc::{AllocError, Global};

/// How the rows of a desk are read from a text.
pub trait RowFormat<R: StateMachine> {
    /// The rows that a text gives.
    type Rows: Rows<R, RowFormat = Self>;

    /// The line that says of a row with a number that it is an ask.
    ghost fine_line: { ℕ → List ℕ };

    /// Begins to read a text. An `Err` is want of memory.
    fn read(&self, alloc: Global, text: Vec<u8>) -> Result<Self::Rows, AllocError>
        requires short { length text.items ≤ 16777216 }
        ensures rows { IfOk result (λ rows. Self.Rows.left rows ≡ Self.Rows.rows_of self.now text.items) }
        ensures few { IfOk result (λ rows. length (Self.Rows.left rows) ≤ 16777217) };

    /// Appends the line that says of a row with a number that it is an ask.
    fn put_fine(number: u32, out: &mut Vec<u8>) -> Result<(), AllocError>
        ensures ok { OnOk result (out.new.items ≡ out.old.items ++ fine_line number) }
        ensures err { OnErr result (out.new.items ≡ out.old.items) };
}
