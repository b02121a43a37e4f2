// The filings of a list with their stamps, as the entries of a journal that is built.
ghost use Rattle.std.specs.Prelude.{◌≡◌};
ghost use Rattle.log_stamps.specs.Entries.{first_stamp, later_stamps, stamped};
ghost use Rattle.std.specs.Vec.Iter.{into_iter_items};

use aid_filings::Filing;
use aid_stamps::Stamp;
use io_traits::PayloadBuffer;
use log_builds::Entries;
use log_machine::StateMachine;
use log_stamps::StampedEntry;
use office_log::{StampedFiling, StampedOfficeMachine};
use std::vec::IntoIter;

/// Filings that are to be written, the oldest first, each under its stamp, or under the plain one where there are no more stamps.
#[derive(Drop)]
pub(crate) struct StampedFilings {
    filings: IntoIter<Filing>,
    stamps: IntoIter<Stamp>,
}

impl StampedFilings {
    /// These filings with these stamps.
    pub(crate) fn new(filings: Vec<Filing>, stamps: Vec<Stamp>) -> Self
        ensures { ⟦<StampedFilings as Entries>⟧.left result ≡ stamped filings.items stamps.items }
    {
        StampedFilings {
            filings: filings.into_iter(),
            stamps: stamps.into_iter(),
        }
    }
}

// The next of some stamps, or the plain one.
fn next_stamp(stamps: &mut IntoIter<Stamp>) -> Stamp
    ensures first { result ≡ first_stamp (into_iter_items stamps.old) }
    ensures later { into_iter_items stamps.new ≡ later_stamps (into_iter_items stamps.old) }
{
    match stamps.next() {
        Some(stamp) => stamp,
        None => Stamp::plain(),
    }
}

impl Entries for StampedFilings {
    ghost use Rattle.office_log.specs.OfficeLaws.{office_keepable};
    ghost use Rattle.office_log.specs.Scheme.{office_scheme};

    type Entry = StampedFiling;

    ghost spelling = { office_scheme.spelling };

    ghost IsEntry = { office_scheme.IsEntry };

    ghost left = { λ s. stamped (into_iter_items s.filings) (into_iter_items s.stamps) };

    ghost keepable = { office_keepable };

    fn next(&mut self, room: &mut PayloadBuffer) -> bool {
        match self.filings.next() {
            Some(entry) => {
                let stamp = next_stamp(&mut self.stamps);
                StampedOfficeMachine::encode(&StampedEntry { entry, stamp }, room);
                true
            }
            None => false,
        }
    }
}
