// States that take turns.
use std::collections::LinkedList;

/// How a state stands. Contracts speak of it; no value of it is made.
pub struct Snapshot<E> {
    /// The list of admitted entries, the newest first.
    pub list: LinkedList<E>,
    /// The entry that is pending, where one is: it was left undecided, and a later turn settles it.
    pub pending: Option<E>,
    /// How often a turn has failed. At the end of its type this stands still.
    pub faults: u64,
    /// What no turn changes, such as whether the device under the state is honest.
    pub fixed: bool,
}

/// A state that takes turns: each one answers an ask, and may admit the ask's own entry to the state's list.
pub trait LockedState {
    ghost use Rattle.std.specs.Prelude.{◌≡◌, ◌+◌, ◌≤◌, ℕ, Bool, IsTrue, Option};
    ghost use Rattle.log_lock.specs.declared.turned.Snapshot.{Snapshot};
    ghost use Rattle.log_lock.specs.Turning.{Says, Goes, RoseBy, faults_in};

    /// What is asked in a turn.
    type Operation;

    /// What is answered.
    type Reply;

    /// What the state has a list of.
    type Entry;

    /// What who waits may leave for the turns before its own.
    type Hint: Drop;

    /// How the state stands.
    ghost snapshot: { Self → Snapshot Self.Entry };

    /// The entry that an ask may add.
    ghost own: { Self.Operation → Option Self.Entry };

    /// What a reply says of entries and faults.
    ghost says: { Self.Reply → Says };

    /// What else holds of the stand before a turn, the ask, the reply, and the stand after.
    ghost meets: { Snapshot Self.Entry → Self.Operation → Self.Reply → Snapshot Self.Entry → Type 0 };

    /// What holds of a state that turns may have made of one that stood so: of each moment since then, say.
    ghost reached: { Snapshot Self.Entry → Self → Type 0 };

    /// How many turns the state takes without asking for memory.
    ghost room: { Self → ℕ };

    /// Whether a reply tells of want of memory.
    ghost wants: { Self.Reply → Bool };

    /// One turn. What is pending is settled first, which admits it.
    fn submit(&mut self, operation: Self::Operation) -> Self::Reply
        ensures goes { Goes (own operation) (snapshot self.old) (says result) (snapshot self.new) }
        ensures meets { meets (snapshot self.old) operation result (snapshot self.new) }
        ensures later { (snapshot self.old).faults ≤ (snapshot self.new).faults }
        ensures rose { RoseBy (faults_in (says result)) (snapshot self.old).faults (snapshot self.new).faults }
        ensures still { faults_in (says result) ≡ 0 → (snapshot self.new).faults ≡ (snapshot self.old).faults }
        ensures fixed { (snapshot self.new).fixed ≡ (snapshot self.old).fixed }
        ensures reaches { (start : Snapshot Self.Entry) → reached start self.old → reached start self.new }
        // Want of memory comes only where there is no room, and a turn takes one place of it at most.
        ensures memory { IsTrue (wants result) → room self.old ≡ 0 }
        ensures room { room self.old ≤ room self.new + 1 };

    /// Takes a note that was left. It changes nothing of how the state stands, so nothing that is promised rests on it.
    fn hint(&mut self, note: Self::Hint)
        ensures same { snapshot self.new ≡ snapshot self.old }
        ensures reaches { (start : Snapshot Self.Entry) → reached start self.old → reached start self.new }
        ensures room { room self.new ≡ room self.old };
}
