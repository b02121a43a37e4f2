//! A filing from bytes.
ghost use Rattle.std.specs.Prelude.{◌≡◌, ◌≢◌, [], slice_get, Some, Ok, Err, IfOk};
ghost use Rattle.aid_filings.specs.declared.filing.Filing.{Filing};
ghost use Rattle.format_bytes.specs.Spelling.{spelling};
ghost use Rattle.format_bytes.specs.Taking.{Gives, of_kind, taken};
ghost use Rattle.format_kinds.specs.Kinds.{code_of, slots_of_kind};
ghost use Rattle.format_table.specs.Layout.{AreNumbers};
ghost use Rattle.format_bytes.specs.Numbers.{IsFiling};

use crate::filing_of;
use aid_filings::Filing;
use format_kinds::{Kind, key_parts, kind_at, table_row};
use format_table::{MOST_NUMBERS, numbers_at};
use std::alloc::Global;

// The most numbers that a filing has which is no book, and one that is no term and no application either.
const SOME_NUMBERS: usize = 64;

const FEW_NUMBERS: usize = 16;

/// Why bytes are no filing.
#[derive(Clone, Copy, PartialEq, Eq, Debug)]
pub enum TakeError {
    /// The place of the first byte of the first field that is short or past its limit, or of the first byte too many.
    NotFiling(u64),
    /// There is no memory for the book that the bytes spell.
    NoMemory,
}

/// The filing that the bytes spell, all of them. Only a book takes memory.
pub fn take(alloc: Global, bytes: &[u8]) -> Result<Filing, TakeError>
    // What is taken is spelled so.
    ensures found { IfOk result (λ filing. IsFiling filing × (bytes.now ≡ spelling filing)) }
    // What is spelled so is taken, unless memory runs out.
    ensures only { (filing : Filing) → IsFiling filing → bytes.now ≡ spelling filing → result ≢ Err TakeError.NoMemory → result ≡ Ok filing }
    // Which place it is.
    ensures exact { Gives result (taken bytes.now) }
    // Only a book takes memory, and only one that was read to its end.
    ensures memory { result ≡ Err TakeError.NoMemory → slice_get bytes.now 0 ≡ Some (code_of Kind.Book) }
{
    filing_in(alloc, bytes)
}

fn filing_in(alloc: Global, bytes: &[u8]) -> Result<Filing, TakeError>
    ensures exact { Gives result (taken bytes.now) }
{
    let [code, rest @ ..] = bytes else {
        return Err(TakeError::NotFiling(0));
    };
    match kind_at(*code) {
        Some(Kind::Book) => book_in(alloc, rest),
        Some(Kind::Calendar) => long_filing_in(alloc, Kind::Calendar, rest),
        Some(Kind::Apply) => long_filing_in(alloc, Kind::Apply, rest),
        Some(kind) => short_filing_in(alloc, kind, rest),
        None => Err(TakeError::NotFiling(0)),
    }
}

// The book whose numbers the bytes spell.
fn book_in(alloc: Global, bytes: &[u8]) -> Result<Filing, TakeError>
    ensures { Gives result (of_kind (Some Kind.Book) bytes.now) }
{
    let parts = table_row(Kind::Book).parts;
    match numbers_at::<MOST_NUMBERS>(key_parts(), parts, bytes) {
        Ok(draft) => filed(alloc, Kind::Book, draft.numbers()),
        Err(place) => Err(TakeError::NotFiling(place)),
    }
}

// The term or the application whose numbers the bytes spell.
fn long_filing_in(alloc: Global, kind: Kind, bytes: &[u8]) -> Result<Filing, TakeError>
    requires { kind ≢ Kind.Book }
    ensures { Gives result (of_kind (Some kind) bytes.now) }
{
    match numbers_at::<SOME_NUMBERS>(key_parts(), table_row(kind).parts, bytes) {
        Ok(draft) => filed(alloc, kind, draft.numbers()),
        Err(place) => Err(TakeError::NotFiling(place)),
    }
}

// The filing of another kind whose numbers the bytes spell.
fn short_filing_in(alloc: Global, kind: Kind, bytes: &[u8]) -> Result<Filing, TakeError>
    requires no_book { kind ≢ Kind.Book }
    requires no_term { kind ≢ Kind.Calendar }
    requires no_application { kind ≢ Kind.Apply }
    ensures { Gives result (of_kind (Some kind) bytes.now) }
{
    match numbers_at::<FEW_NUMBERS>(key_parts(), table_row(kind).parts, bytes) {
        Ok(draft) => filed(alloc, kind, draft.numbers()),
        Err(place) => Err(TakeError::NotFiling(place)),
    }
}

// The filing of a kind that has these numbers.
fn filed(alloc: Global, kind: Kind, numbers: &[i64]) -> Result<Filing, TakeError>
    requires { AreNumbers (slots_of_kind kind) [] numbers.now }
    ensures { Gives result (Ok (kind, numbers.now)) }
{
    match filing_of(alloc, kind, numbers) {
        Ok(filing) => Ok(filing),
        Err(_) => Err(TakeError::NoMemory),
    }
}
