// Numbers with stamps.
ghost use Rattle.std.specs.Prelude.{◌≡◌};
ghost use Rattle.log_machine.specs.Submits.{Submits};
ghost use Rattle.log_stamps.specs.Entries.{stamp_at};
ghost use Rattle.log_stamps.specs.Stamped.{stamped_semantics};
ghost use Rattle.log_tests.specs.Rising.{rising_judging};

use crate::rising::Rising;
use aid_stamps::Stamp;
use io_traits::Disk;
use log_journal::Header;
use log_machine::{Log, LogReply, SingleEntryMachine};
use log_stamps::{Stampable, StampedMachine, StampedOperation};

impl Stampable for Rising {
    ghost use Rattle.std.specs.Prelude.{Some, codes, refl};
    ghost use Rattle.log_tests.specs.RisingLaws.{short as is_short};

    ghost stamped = { record { name = codes "NUMBERS1"; version = 2; old = Some 1; name_size = refl } };

    ghost short = { is_short };

    fn stamped_header() -> Header {
        Header {
            name: *b"NUMBERS1",
            version: 2,
            old: Some(1),
        }
    }
}

/// One turn of a list of stamped entries, whatever they are.
pub fn answer<D: Disk, R: Stampable>(
    list: &mut Log<D, StampedMachine<R>>,
    operation: R::Operation,
    stamp: Stamp,
) -> LogReply<R::Response>
    ensures submit { Submits (stamped_semantics R.semantics) list.old.history list.old.pending (record { operation = operation; stamp = stamp }) result list.new.history list.new.pending }
{
    list.submit(StampedOperation { operation, stamp })
}

/// One turn of a list of stamped numbers.
pub fn answer_number<D: Disk>(
    list: &mut Log<D, StampedMachine<Rising>>,
    number: u8,
    stamp: Stamp,
) -> LogReply<bool>
    ensures submit { Submits (stamped_semantics rising_judging) list.old.history list.old.pending (record { operation = number; stamp = stamp }) result list.new.history list.new.pending }
{
    answer(list, number, stamp)
}

/// The stamp of the entry at a position of such a list, which counts from 1 at the oldest.
pub fn stamp_of<D: Disk, R: Stampable>(
    list: &Log<D, StampedMachine<R>>,
    position: u32,
) -> Option<Stamp>
    ensures { result ≡ stamp_at list.now.history position }
{
    list.machine().stamp(position)
}

// What a desk's docket brings.
fn brings_own<R: SingleEntryMachine>(response: &R::Response) -> bool
    ensures { result ≡ R.adds response.now }
{
    R::is_added(response)
}

/// A docket of numbers brings its own entries with stamps too.
pub fn is_added(response: bool) -> bool
    ensures { result ≡ response }
{
    brings_own::<StampedMachine<Rising>>(&response)
}
