//! What is corrected of a list.
ghost use Rattle.std.specs.Prelude.{◌≤◌};
ghost use Rattle.aid_types.specs.Ranges.{IsBetween};

use aid_filings::Filing;
use aid_types::Key;

/// What is done to a list.
#[derive(Drop)]
pub enum Change {
    /// The filing with the key of this one becomes this one.
    Replace(Filing),
    /// The filing with this key is taken out.
    Void(Key),
    /// A filing is put in front of the one with a key.
    Insert { filing: Filing, before: Key },
}

/// A correction, and the `amend` filing that records it. The record stands behind the list, under a number of its own; that of a filing
/// which is taken out stands in its place, under its key.
#[derive(Drop)]
pub struct Correction {
    pub change: Change,
    pub record: Filing,
}

/// What a row does, by its first field.
#[derive(Clone, Copy)]
pub enum Verb {
    /// `replace`: the filing with a row's key becomes that row.
    Replace,
    /// `void`: the filing with a key is taken out.
    Void,
    /// `insert`: a row is put in front of the filing with a key.
    Insert,
}

/// Why something is corrected: the reason, 1 to 7 as an `amend` filing has it, and the number by which the school finds the paper, 0
/// to 999,999,999,999.
#[derive(Clone, Copy)]
pub struct Grounds {
    pub reason: u8,
    pub reference: u64,
    pub ghost in_range: { IsBetween 1 7 reason × (reference ≤ 999999999999) },
}

/// What a row says.
#[derive(Drop)]
pub struct CorrectionRow {
    pub change: Change,
    pub grounds: Grounds,
}
