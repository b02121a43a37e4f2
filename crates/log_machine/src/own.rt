// Dockets whose asks have one entry each that they may add.
ghost use Rattle.std.specs.Prelude.{◌≡◌, Bool, List, Option, Some, is_some};

use crate::StateMachine;

/// A docket of which each ask may add one entry at most, whatever the list, and whose verdict shows whether it does.
pub trait SingleEntryMachine: StateMachine {
    /// The one entry that an ask may add.
    ghost own: { Self.Operation → Option Self.Entry };

    /// Whether a verdict says that its ask's entry is added.
    ghost adds: { Self.Response → Bool };

    /// Whether the verdict says that its ask's entry is added. It takes no memory.
    fn is_added(response: &Self::Response) -> bool
        ensures { result ≡ adds response.now };

    /// What an ask adds is its own entry.
    ghost own_added: { (past : List Self.Entry) (operation : Self.Operation) (entry : Self.Entry)
        → Self.semantics.added past operation ≡ Some entry → own operation ≡ Some entry };

    /// The verdict says that an entry is added exactly where one is.
    ghost adds_added: { (past : List Self.Entry) (operation : Self.Operation) → adds (Self.semantics.answer past operation) ≡ is_some (Self.semantics.added past operation) };
}
