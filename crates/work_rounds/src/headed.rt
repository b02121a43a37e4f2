// What plans a round on an open list.
ghost use Rattle.std.specs.Prelude.{◌≡◌, ◌≤◌, ◌<◌, ◌^◌, ℕ, List, Result, IfOk, length, map};
ghost use Rattle.log_session.specs.Asks.{rows_of_asks};

use log_machine::{Rows, StateMachine};
use std::alloc::{AllocError, Global};

/// A round that was planned and not filed yet.
#[derive(Drop)]
pub struct PlannedRound<L> {
    /// What is written before the first row is filed.
    pub heading: Vec<u8>,
    /// The rows that are filed.
    pub rows: L,
    /// What is written behind the line of the last row.
    pub closing: Vec<u8>,
}

/// Plans a round on an open list, from the text of an input.
pub trait RoundPlan<R: StateMachine> {
    /// The asks that are planned, as rows.
    type Rows: Rows<R>;

    /// What may be planned from a text on the entries of a list, the newest first: a heading, asks and a closing text.
    ghost plans: { Self → List ℕ → List R.Entry → List ℕ → List R.Operation → List ℕ → Type 0 };

    /// Plans a round from a text on the docket's list. An `Err` is want of memory.
    fn plan(
        &self,
        alloc: Global,
        text: Vec<u8>,
        machine: &R,
    ) -> Result<PlannedRound<Self::Rows>, AllocError>
        requires { length text.items ≤ 16777216 }
        ensures planned { IfOk result (λ planned. (operations : List R.Operation) × (Self.Rows.left planned.rows ≡ map Self.Rows.texts.said (rows_of_asks operations))
            × plans self.now text.items (R.history machine.now) planned.heading.items operations planned.closing.items) }
        ensures few { IfOk result (λ planned. length (Self.Rows.left planned.rows) < 2 ^ 32) };

    /// Rows that say the same are the same.
    ghost apart: { (one other : Result R.Operation Self.Rows.Error) → Self.Rows.texts.said one ≡ Self.Rows.texts.said other → one ≡ other };
}
