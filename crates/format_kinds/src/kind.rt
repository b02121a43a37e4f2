//! The table of kinds.
ghost use Rattle.std.specs.Prelude.{◌≡◌};
ghost use Rattle.format_kinds.specs.Kinds.{code_of, kind_at as kind_at_code, kind_named as kind_of_name, name_of, table_row_of};
ghost use Rattle.format_table.specs.Parts.{slots_of};

use crate::book::book_parts;
use crate::parts::{
    amend_parts, amount_parts, apply_parts, calendar_parts, enroll_parts, key_parts,
    originate_parts, prior_parts, school_parts, sent_parts, withdraw_parts,
};
use format_table::Part;

/// A kind of filing.
#[derive(Clone, Copy, PartialEq, Eq)]
pub enum Kind {
    Book,
    School,
    Calendar,
    Prior,
    Apply,
    Enroll,
    Originate,
    Pay,
    Withdraw,
    Repay,
    Adjust,
    Cost,
    Sent,
    Amend,
}

/// A kind with the number that stands for it in bytes, its name in rows and bodies, and its fields behind those of the key.
#[derive(Clone, Copy)]
pub struct KindRow {
    pub kind: Kind,
    pub code: u8,
    pub name: &'static str,
    pub parts: &'static [Part],
}

// The kinds in the order of their codes.
static KINDS: [Kind; 14] = [
    Kind::Book,
    Kind::School,
    Kind::Calendar,
    Kind::Prior,
    Kind::Apply,
    Kind::Enroll,
    Kind::Originate,
    Kind::Pay,
    Kind::Withdraw,
    Kind::Repay,
    Kind::Adjust,
    Kind::Cost,
    Kind::Sent,
    Kind::Amend,
];

macro_rules! row {
    ($kind:ident, $code:literal, $name:literal: $parts:expr) => {
        KindRow {
            kind: Kind::$kind,
            code: $code,
            name: $name,
            parts: $parts,
        }
    };
}

/// The row of a kind in the table.
#[tactic(auto, unfolding(crate::specs::Kinds::table_row_of))]
pub fn table_row(kind: Kind) -> KindRow
    ensures kind { result.kind ≡ kind }
    ensures code { result.code ≡ code_of kind }
    ensures name { result.name.now ≡ name_of kind }
    ensures parts { slots_of result.parts.now ≡ (table_row_of kind).slots }
{
    match kind {
        Kind::Book => row!(Book, 1, "book": book_parts()),
        Kind::School => row!(School, 2, "school": school_parts()),
        Kind::Calendar => row!(Calendar, 3, "calendar": calendar_parts()),
        Kind::Prior => row!(Prior, 4, "prior": prior_parts()),
        Kind::Apply => row!(Apply, 5, "apply": apply_parts()),
        Kind::Enroll => row!(Enroll, 6, "enrol": enroll_parts()),
        Kind::Originate => row!(Originate, 7, "originate": originate_parts()),
        Kind::Pay => row!(Pay, 8, "pay": amount_parts()),
        Kind::Withdraw => row!(Withdraw, 9, "withdraw": withdraw_parts()),
        Kind::Repay => row!(Repay, 10, "repay": amount_parts()),
        Kind::Adjust => row!(Adjust, 11, "adjust": amount_parts()),
        Kind::Cost => row!(Cost, 12, "cost": originate_parts()),
        Kind::Sent => row!(Sent, 13, "sent": sent_parts()),
        Kind::Amend => row!(Amend, 14, "amend": amend_parts()),
    }
}

/// The kind that a code stands for in bytes.
pub fn kind_at(code: u8) -> Option<Kind>
    ensures { result ≡ kind_at_code code }
{
    KINDS
        .iter()
        .copied()
        .find(|kind| table_row(*kind).code == code)
}

/// The kind of a name.
pub fn kind_named(name: &[u8]) -> Option<Kind>
    ensures { result ≡ kind_of_name name.now }
{
    KINDS
        .iter()
        .copied()
        .find(|kind| table_row(*kind).name.as_bytes() == name)
}
