//! The numbers of a filing of a kind, one after the other.
ghost use Rattle.std.specs.Prelude.{◌≡◌, []};
ghost use Rattle.format_kinds.specs.Kinds.{slots_of_kind};

use crate::kind::{Kind, table_row};
use crate::parts::key_parts;
use format_table::{Draft, Layout, MOST_NUMBERS};

/// A filing of a kind, of which no number stands yet.
pub fn new_draft(kind: Kind) -> Draft<MOST_NUMBERS>
    ensures to_come { result.slots ≡ slots_of_kind kind }
    ensures none { result.earlier ≡ [] }
{
    Draft::<MOST_NUMBERS>::new(key_parts(), table_row(kind).parts)
}

/// All numbers of a filing of a kind are to come, those of its key first.
pub fn new_layout(kind: Kind) -> Layout
    ensures { result ≡ slots_of_kind kind }
{
    Layout::new(key_parts(), table_row(kind).parts)
}
