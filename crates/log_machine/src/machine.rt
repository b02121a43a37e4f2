// What judges and spells the entries of a list.
ghost use Rattle.std.specs.Prelude.{◌≡◌, ◌≢◌, ◌+◌, ◌<◌, ◌≤◌, ◌^◌, ◌∷◌, ◌++◌, [], ℕ, List, Some, IsTrue, IfSome, IsOk, IfOk, OnOk, OnErr, is_some, length};
ghost use Rattle.log_journal.specs.Stands.{IsPayload};
ghost use Rattle.log_machine.specs.Scheme.{Scheme, Semantics};
ghost use Rattle.log_machine.specs.NewEntry.{entry_of};

use io_traits::PayloadBuffer;
use log_journal::Header;
use std::alloc::{AllocError, Global};

/// An entry that may follow those that stand.
#[derive(Drop)]
pub struct NewEntry<E, R> {
    /// The entry.
    pub entry: E,
    /// What judging it worked out.
    pub ruling: R,
}

/// An ask as it was judged.
#[derive(Drop)]
pub struct Decided<E, R, V> {
    /// The answer.
    pub response: V,
    /// The entry that the ask adds to the list, where it adds one.
    pub added: Option<NewEntry<E, R>>,
}

/// Why bytes give no entry.
#[derive(Clone, Copy, PartialEq, Eq)]
pub enum DecodeError {
    /// They are no entry's spelling.
    NotEntry,
    /// There is no memory for it.
    NoMemory,
}

/// What judges and spells the entries of one office: the list of those that stand, and room for more.
pub trait StateMachine: Drop {
    /// What stands in the list.
    type Entry: Drop;

    /// What judging an entry works out that admitting it needs.
    type Ruling: Drop;

    /// What is asked.
    type Operation: Drop;

    /// What is answered.
    type Response: Drop;

    /// How entries are kept: the journal's header, their spelling, and which lists of them are legal.
    ghost scheme: { Scheme Self.Entry };

    /// What an ask is answered, and what it adds.
    ghost semantics: { Semantics Self.Entry Self.Operation Self.Response };

    /// What is worked out of an entry that may follow these.
    ghost IsRuling: { List Self.Entry → Self.Entry → Self.Ruling → Type 0 };

    /// The entries that stand, the newest first.
    ghost history: { Self → List Self.Entry };

    /// How many more it takes without asking for memory.
    ghost spare: { Self → ℕ };

    /// The header of its journal. It takes no memory.
    fn header() -> Header
        ensures { result ≡ scheme.header };

    /// A docket without entries.
    fn new(alloc: Global) -> Self
        ensures history { history result ≡ [] }
        ensures room { spare result ≡ 0 };

    /// The number of entries.
    fn front(&self) -> u32
        ensures value { result ≡ length (history self.now) }
        ensures legal { scheme.IsLegal (history self.now) }
        ensures few { result + 1 < 2 ^ 32 };

    /// Makes room for `n` entries more. An `Err` is want of memory, and leaves all as it was.
    fn reserve(&mut self, n: u32) -> Result<(), AllocError>
        ensures history { history self.new ≡ history self.old }
        ensures room { OnOk result (n ≤ spare self.new) }
        ensures no_less { spare self.old ≤ spare self.new }
        ensures range { spare self.old < 2 ^ 32 → spare self.new < 2 ^ 32 }
        ensures succeeds { n ≤ spare self.old → IsOk result }
        ensures same_room { OnErr result (spare self.new ≡ spare self.old) };

    /// Judges an ask. It changes nothing and takes no memory.
    fn judge(
        &self,
        operation: Self::Operation,
    ) -> Decided<Self::Entry, Self::Ruling, Self::Response>
        ensures response { result.response ≡ semantics.answer (history self.now) operation }
        ensures added { entry_of result.added ≡ semantics.added (history self.now) operation }
        ensures ruled { IfSome result.added (λ a. IsRuling (history self.now) a.entry a.ruling) };

    /// What admitting an entry needs, where the entry may follow those that stand. It takes no memory.
    fn rule(&self, entry: &Self::Entry) -> Option<Self::Ruling>
        ensures admitted { is_some result ≡ scheme.admits (history self.now) entry.now }
        ensures ruled { IfSome result (λ ruling. IsRuling (history self.now) entry.now ruling) };

    /// Adds an entry that may follow. It takes no memory.
    fn admit(&mut self, entry: Self::Entry, ruling: Self::Ruling)
        requires room { 1 ≤ spare self.old }
        requires admitted { IsTrue (scheme.admits (history self.old) entry) }
        requires ruled { IsRuling (history self.old) entry ruling }
        ensures history { history self.new ≡ entry ∷ history self.old }
        ensures room { spare self.old ≡ spare self.new + 1 };

    /// Puts the spelling of an entry into the room, in place of what the room held. It takes no memory.
    fn encode(entry: &Self::Entry, room: &mut PayloadBuffer)
        ensures spelled { room.new ≡ scheme.spelling entry.now }
        ensures in_range { scheme.IsEntry entry.now };

    /// Puts into the room what an ask may add, as it would be spelled, in place of what the room held, or empties the room.
    /// It is a guess: where it is right, a sync is saved. It takes no memory.
    fn encode_expected(operation: &Self::Operation, room: &mut PayloadBuffer);

    /// The entry that the bytes spell, all of them.
    fn decode(alloc: Global, bytes: &[u8]) -> Result<Self::Entry, DecodeError>
        ensures found { IfOk result (λ entry. scheme.IsEntry entry × (bytes.now ≡ scheme.spelling entry)) }
        ensures not_entry { (entry : Self.Entry) → scheme.IsEntry entry → bytes.now ≡ scheme.spelling entry → result ≢ Err DecodeError.NotEntry };

    /// A spelling may be kept: it has 1 to 8,192 bytes.
    ghost keepable: { (entry : Self.Entry) → scheme.IsEntry entry → IsPayload (scheme.spelling entry) };

    /// A spelling is that of one entry, and begins that of no other.
    ghost alone: { (one other : Self.Entry) (rest : List ℕ) → scheme.IsEntry one → scheme.IsEntry other
        → scheme.spelling one ++ rest ≡ scheme.spelling other → one ≡ other };

    /// The empty list is legal.
    ghost none_legal: { scheme.IsLegal [] };

    /// Admission keeps legality.
    ghost admitted_legal: { (past : List Self.Entry) (entry : Self.Entry) → scheme.IsLegal past
        → IsTrue (scheme.admits past entry) → scheme.IsLegal (entry ∷ past) };

    /// No other entry does.
    ghost legal_admitted: { (past : List Self.Entry) (entry : Self.Entry) → scheme.IsLegal (entry ∷ past)
        → IsTrue (scheme.admits past entry) };

    /// What stood before an entry of a legal list is legal.
    ghost legal_past: { (past : List Self.Entry) (entry : Self.Entry) → scheme.IsLegal (entry ∷ past) → scheme.IsLegal past };

    /// What an ask adds may follow.
    ghost added_admitted: { (past : List Self.Entry) (operation : Self.Operation) (entry : Self.Entry)
        → semantics.added past operation ≡ Some entry → IsTrue (scheme.admits past entry) };
}
