//! Who answers asks.
ghost use Rattle.std.specs.Prelude.{◌≡◌, ◌≤◌, ℕ};
ghost use Rattle.io_traits.specs.Faults.{Rose};

use crate::{Api, Status};

/// Who answers the asks of a session.
pub trait Handler<F: Api> {
    /// One ask: the clerk before, the ask, the reply and the clerk after.
    ghost asked: { Self → F.Operation → F.Reply → Self → Type 0 };

    /// How many disk faults there were. At the end of its type the count stands still.
    ghost faults: { Self → ℕ };

    /// Answers an ask. A reply of the status 503 comes only where the count of disk faults rose in this call. The ask that
    /// stands behind it is told ahead, where it has come; nothing rests on it.
    fn handle(&mut self, operation: F::Operation, next: Option<F::Operation>) -> F::Reply
        ensures asked { asked self.old operation result self.new }
        ensures later { faults self.old ≤ faults self.new }
        ensures cause { F.scheme.status result ≡ Status.Unavailable → Rose (faults self.old) (faults self.new) };
}
