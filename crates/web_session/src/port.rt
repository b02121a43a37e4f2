//! What connections come from.
ghost use Rattle.std.specs.Prelude.{◌≡◌, ◌≤◌, ℕ, IfOk, OnOk, OnErr};
ghost use Rattle.io_traits.specs.Faults.{Rose};
ghost use Rattle.web_session.specs.Ports.{AcceptorState, IsHonestAcceptor, HandsOut, TakesBack};

use crate::Connection;
use io_traits::Failed;

/// What connections come from. Each is handed out, and taken back once it was served. Where they are served one after the
/// other, the k-th that is taken back is the k-th that was handed out.
pub trait Acceptor {
    /// A connection.
    type Connection: Connection;

    /// What the port tells of itself. Of one that isn't honest, nothing is known but its count of faults.
    ghost tells: { Self → AcceptorState };

    /// How often a call has failed. At the end of its type the count stands still.
    ghost faults: { Self → ℕ };

    /// The next connection, on which nothing was written and no call has failed. It may wait for one.
    fn next(&mut self) -> Result<Self::Connection, Failed>
        ensures honest { (tells self.new).honest ≡ (tells self.old).honest }
        ensures unused { IfOk result (λ link. Self.Connection.faults link ≡ 0) }
        ensures handed { IsHonestAcceptor (tells self.old) → IfOk result (λ link. HandsOut (tells self.old) (tells self.new) (Self.Connection.tells link)) }
        ensures failed { IsHonestAcceptor (tells self.old) → OnErr result (tells self.new ≡ tells self.old) }
        ensures later { faults self.old ≤ faults self.new }
        ensures cause { OnErr result (Rose (faults self.old) (faults self.new)) }
        ensures unmoved { OnOk result (faults self.new ≡ faults self.old) };

    /// Takes a connection back.
    fn done(&mut self, link: Self::Connection)
        requires out { IsHonestAcceptor (tells self.old) → 1 ≤ (tells self.old).out }
        ensures honest { (tells self.new).honest ≡ (tells self.old).honest }
        ensures taken { IsHonestAcceptor (tells self.old) → TakesBack (tells self.old) (tells self.new) (record { text = (Self.Connection.tells link).text; faults = Self.Connection.faults link }) }
        ensures unmoved { faults self.new ≡ faults self.old };
}
