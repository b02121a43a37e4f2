//! What the good lines of an export told so far, and the judgment of the next one.
ghost use Rattle.std.specs.Prelude.{◌≡◌, [], false, None};

use crate::lists::AuditedList;
use aid_stamps::Stamp;
use aid_types::Student;
use std::alloc::Global;

/// What good lines told.
#[derive(Drop)]
pub(crate) struct GoodLines<L> {
    /// The filings.
    pub list: L,
    /// Their stamps, the oldest first.
    pub stamps: Vec<Stamp>,
    /// How many standings stand behind them.
    pub standings: u32,
    /// The student of the last of them.
    pub last: Option<Student>,
    /// Whether the end line was there.
    pub ended: bool,
}

impl<L: AuditedList> GoodLines<L> {
    /// Before the first line.
    pub fn new(alloc: Global) -> Self
        ensures filings { L.filings result.list ≡ [] }
        ensures stamps { result.stamps.items ≡ [] }
        ensures standings { result.standings ≡ 0 }
        ensures last { result.last ≡ None }
        ensures ended { result.ended ≡ false }
    {
        GoodLines {
            list: L::new(alloc),
            stamps: Vec::new(alloc),
            standings: 0,
            last: None,
            ended: false,
        }
    }
}
