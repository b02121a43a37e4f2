// The rules of one office.
ghost use Rattle.std.specs.Prelude.{◌≡◌, ◌<◌, ◌≤◌, ◌+◌, ◌∷◌, [], ℕ, List, None, OnOk, length};
ghost use Rattle.log_rules.specs.Ruling.{Ruling};
ghost use Rattle.log_rules.specs.Rows.{SpellsRows};

use aid_types::{Key, Refusal};
use format_table::EntryCodec;
use std::alloc::{AllocError, Global};

/// A filing that stands, with the outcome of its admission.
#[derive(Drop)]
pub struct Filed<E, O> {
    /// The filing.
    pub entry: E,
    /// With what it was admitted.
    pub outcome: O,
}

/// The rules of one office: which filings, each an entry of the table, may follow those that stand, and with what they are admitted.
pub trait OfficeRules: EntryCodec {
    ghost use Rattle.log_rules.specs.Ruled.{IsLegal, judged};

    /// With what a filing is admitted.
    type Outcome: Copy;

    /// What is on file, by name: rows that tell what the rules ask of the list.
    type Index: Drop;

    /// The rules as definitions.
    ghost ruling: { Ruling Self.Entry Self.Outcome };

    /// What holds of each legal list.
    ghost IsWithin: { List Self.Entry → Type 0 };

    /// The filings that an index tells of, the newest first.
    ghost on_file: { Self.Index → List Self.Entry };

    /// How many more it takes without asking for memory.
    ghost room: { Self.Index → ℕ };

    /// The key of a filing.
    fn key(filing: &Self::Entry) -> Key
        ensures { result ≡ ruling.key_of filing.now };

    /// An index of no filing.
    fn new_index(alloc: Global) -> Self::Index
        ensures none { on_file result ≡ [] }
        ensures room { room result ≡ 0 };

    /// Makes room for `n` filings more. An `Err` is want of memory.
    fn reserve(index: &mut Self::Index, n: u32) -> Result<(), AllocError>
        ensures same { on_file index.new ≡ on_file index.old }
        ensures room { OnOk result (n ≤ room index.new) }
        ensures no_less { room index.old ≤ room index.new };

    /// Judges a filing by its rules, after those that stand. It takes no memory.
    fn judge(index: &Self::Index, filing: &Self::Entry) -> Result<Self::Outcome, Refusal>
        requires { IsLegal ruling (on_file index.now) }
        ensures { result ≡ judged ruling (on_file index.now) filing.now };

    /// Writes into the index what a filing says that joins those that stand. It takes no memory.
    fn admit(index: &mut Self::Index, filing: &Self::Entry)
        requires room { 1 ≤ room index.old }
        requires legal { IsLegal ruling (filing.now ∷ on_file index.old) }
        ensures joined { on_file index.new ≡ filing.now ∷ on_file index.old }
        ensures room { room index.old ≤ room index.new + 1 };

    /// The rules spell filings as rows of the table: by `rows_by`, where `ruling_by` made them.
    ghost rows: { SpellsRows ruling Self.key Self.kinds Self.code_of Self.numbers_of };

    /// A full list takes no more.
    ghost full: { (past : List Self.Entry) (filing : Self.Entry) → ruling.breaks past filing ≡ None → length past < 200000 };

    /// A legal list is within its limits.
    ghost legal_within: { (past : List Self.Entry) → IsLegal ruling past → IsWithin past };
}
