// A table of kinds.
ghost use Rattle.std.specs.Prelude.{◌≡◌, ℕ, List, map, option_map, true, ℤ, length, nat_le};
ghost use Rattle.format_table.specs.Parts.{Slot, slots_of};
ghost use Rattle.format_table.specs.Tables.{IsRow, KindRow, are_plain, is_sound_table, kind_at, kind_named};
ghost use Rattle.format_table.specs.TableRows.{row_of};

use crate::field::Part;
use crate::numbers::Numbers;

/// A kind of a table: the number that stands for it in bytes, its name in rows, and its fields behind those of the key.
#[derive(Clone, Copy)]
pub struct TableRow {
    pub code: u8,
    pub name: &'static str,
    pub parts: &'static [Part],
}

/// A table of kinds.
pub trait KindTable {
    /// The fields of a key, which come first in an entry of any kind.
    ghost key: { List Slot };

    /// The kinds.
    ghost kinds: { List KindRow };

    /// The words of a field that is one, in the order of their numbers.
    ghost words: { List (List ℕ) };

    /// The fields of a key.
    fn key_parts() -> &'static [Part]
        ensures { slots_of result.now ≡ key };

    /// The kind of a code.
    fn row(code: u8) -> Option<TableRow>
        ensures { option_map row_of result ≡ kind_at kinds code };

    /// The kind of a name.
    fn named(name: &[u8]) -> Option<TableRow>
        ensures { option_map row_of result ≡ kind_named kinds name.now };

    /// The words.
    fn words() -> &'static [&'static str]
        ensures { map (λ word. word.now) result.now ≡ words };

    /// Each row is a table with the key, codes are bytes, and no two codes or names are the same.
    ghost sound: { is_sound_table key kinds ≡ true };

    /// No field of a key counts rows, and none has fields at the end.
    ghost plain: { are_plain key ≡ true };

    /// A word's place is a byte.
    ghost few_words: { nat_le (length words) 256 ≡ true };
}

/// EntryCodec of a table's kinds, as their numbers.
pub trait EntryCodec: KindTable {
    /// An entry.
    type Entry: Drop;

    /// The code of its kind.
    ghost code_of: { Self.Entry → ℕ };

    /// Its numbers, those of the key first.
    ghost numbers_of: { Self.Entry → List ℤ };

    /// The code of an entry's kind.
    fn code(entry: &Self::Entry) -> u8
        ensures { result ≡ code_of entry.now };

    /// The numbers of an entry.
    fn numbers(entry: &Self::Entry) -> Numbers
        ensures value { result.items ≡ numbers_of entry.now }
        ensures in_range { IsRow Self.key Self.kinds (code_of entry.now) (numbers_of entry.now) };

    /// The entry of a kind that has these numbers. It takes no memory.
    fn entry(code: u8, numbers: &[i64]) -> Self::Entry
        requires { IsRow Self.key Self.kinds code numbers.now }
        ensures code { code_of result ≡ code }
        ensures value { numbers_of result ≡ numbers.now };

    /// No two entries of a kind have the same numbers.
    ghost one: { (x y : Self.Entry) → code_of x ≡ code_of y → numbers_of x ≡ numbers_of y → x ≡ y };
}
