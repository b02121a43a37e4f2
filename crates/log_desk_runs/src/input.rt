// What a desk reads its rows from.
ghost use Rattle.std.specs.Prelude.{◌≡◌, ◌≢◌, ◌≤◌, Err, IsTrue, IfOk, IfErr, OnOk, length};
ghost use Rattle.io_traits.specs.Faults.{Rose};
ghost use Rattle.log_session.specs.Edges.{IsReadWhole};
ghost use Rattle.log_session.specs.Sessions.{IsUnread};
ghost use Rattle.log_desk_runs.specs.Reads.{Reads};

use log_machine::{Rows, StateMachine};
use log_session::ReadStop;
use std::alloc::Global;

/// What a desk reads its rows from: an input with what else its rows need, as a stamp.
pub trait DeskSource<R: StateMachine> {
    /// How rows are read from its text.
    type RowFormat;

    /// The rows that it gives.
    type Rows: Rows<R, RowFormat = Self::RowFormat>;

    /// What is known of it, and how its rows are read.
    ghost reads: { Reads Self Self.RowFormat };

    /// Reads all of it, and begins to read its rows. At most one byte past `INPUT_LIMIT` of `log_session` is read.
    fn read(&mut self, alloc: Global) -> Result<Self::Rows, ReadStop>
        ensures rows { IfOk result (λ rows. IsTrue (reads.honest self.old) → Self.Rows.left rows ≡ Self.Rows.rows_of (reads.forms self.old) (reads.left self.old)) }
        ensures few { IfOk result (λ rows. length (Self.Rows.left rows) ≤ 16777217) }
        ensures whole { OnOk result (IsReadWhole 16777216 (record { honest = reads.honest self.old; before = reads.left self.old; after = reads.left self.new })) }
        ensures unread { IfErr result (λ stop. IsUnread stop 16777216 (record { honest = reads.honest self.old; before = reads.left self.old; after = reads.left self.new })) }
        ensures cause { result ≡ Err ReadStop.Read → Rose (reads.faults self.old) (reads.faults self.new) }
        ensures unmoved { OnOk result (reads.faults self.new ≡ reads.faults self.old) }
        ensures unmoved_err { IfErr result (λ stop. stop ≢ ReadStop.Read → reads.faults self.new ≡ reads.faults self.old) };
}
