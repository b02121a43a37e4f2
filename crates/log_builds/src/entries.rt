// What gives the entries of a journal that is built.
ghost use Rattle.std.specs.Prelude.{◌≡◌, [], ℕ, List, false, IsTrue};
ghost use Rattle.log_journal.specs.Stands.{IsPayload};
ghost use Rattle.log_builds.specs.Entries.{IsGiven};

use io_traits::PayloadBuffer;

/// What gives the entries of a journal that is built, one after another, each as the payload that spells it.
pub trait Entries {
    /// An entry.
    type Entry;

    /// The spelling of an entry.
    ghost spelling: { Self.Entry → List ℕ };

    /// Each number of the entry is in its range, as it is in each entry that a program holds.
    ghost IsEntry: { Self.Entry → Type 0 };

    /// The entries that are left, in the order in which they are given.
    ghost left: { Self → List Self.Entry };

    /// Puts the spelling of the next entry into the room, in place of what the room held, and says whether one was left.
    fn next(&mut self, room: &mut PayloadBuffer) -> bool
        ensures given { IsTrue result → IsGiven spelling IsEntry (left self.old) (left self.new) room.new }
        ensures end { result ≡ false → left self.old ≡ [] };

    /// A spelling may be kept: it has 1 to 8,192 bytes.
    ghost keepable: { (entry : Self.Entry) → IsEntry entry → IsPayload (spelling entry) };
}
