// An input is looked at, and nothing of it is filed.
ghost use Rattle.std.specs.Prelude.{◌≡◌, ◌≤◌, Ok};
ghost use Rattle.run_office.specs.Ran.{ChecksBook, ChecksRows, Tallies};
ghost use Rattle.log_runs.specs.Ends.{Moved};
ghost use Rattle.log_runs.specs.Statuses.{is_read_fault, is_write_fault};

use format_filings::put_tally;
use io_traits::{Sink, Source, write_whole};
use log_runs::{RunStop, ended_checking};
use log_session::{CheckStop, CheckTally, check};
use office_log::OfficeMachine;
use run_rows::{BookRowFormat, DeskRowFormat};
use run_words::BookNumber;
use std::alloc::Global;

// Writes how many rows there are, and how many of them are none.
fn tell<K: Sink>(alloc: Global, tally: CheckTally, out: &mut K) -> Result<(), RunStop>
    ensures tallies { Tallies (record { honest = K.honest out.old; before = K.text out.old; after = K.text out.new }) (Ok tally) result }
    ensures sink { Moved (is_write_fault result) (K.faults out.old, K.faults out.new) }
    ensures later { K.faults out.old ≤ K.faults out.new }
    ensures honest { K.honest out.new ≡ K.honest out.old }
{
    let mut line = Vec::new(alloc);
    if put_tally(tally.rows, tally.errors, &mut line).is_err() {
        return Err(RunStop::Check(CheckStop::NoMemory));
    }
    match write_whole(out, &line) {
        Ok(()) => Ok(()),
        Err(_) => Err(RunStop::Check(CheckStop::Write)),
    }
}

/// Writes for each row of the input whether it is a filing, and then how many there are.
pub fn check_rows<S: Source, K: Sink>(
    alloc: Global,
    input: &mut S,
    out: &mut K,
) -> Result<(), RunStop>
    ensures checks { ChecksRows (record { honest = S.honest input.old; before = S.left input.old; after = S.left input.new })
        (record { honest = K.honest out.old; before = K.text out.old; after = K.text out.new }) result }
    ensures source { Moved (is_read_fault result) (S.faults input.old, S.faults input.new) }
    ensures sink { Moved (is_write_fault result) (K.faults out.old, K.faults out.new) }
    ensures source_later { S.faults input.old ≤ S.faults input.new }
    ensures sink_later { K.faults out.old ≤ K.faults out.new }
    ensures source_honest { S.honest input.new ≡ S.honest input.old }
    ensures sink_honest { K.honest out.new ≡ K.honest out.old }
{
    match check::<S, K, OfficeMachine, DeskRowFormat>(alloc, &DeskRowFormat, input, out) {
        Ok(tally) => tell(alloc, tally, out),
        Err(stop) => Err(RunStop::Check(stop)),
    }
}

/// Writes whether the text of the input is a book.
pub fn check_book<S: Source, K: Sink>(
    alloc: Global,
    input: &mut S,
    out: &mut K,
) -> Result<(), RunStop>
    ensures checks { ChecksBook (record { honest = S.honest input.old; before = S.left input.old; after = S.left input.new })
        (record { honest = K.honest out.old; before = K.text out.old; after = K.text out.new }) result }
    ensures source { Moved (is_read_fault result) (S.faults input.old, S.faults input.new) }
    ensures sink { Moved (is_write_fault result) (K.faults out.old, K.faults out.new) }
    ensures source_later { S.faults input.old ≤ S.faults input.new }
    ensures sink_later { K.faults out.old ≤ K.faults out.new }
    ensures source_honest { S.honest input.new ≡ S.honest input.old }
    ensures sink_honest { K.honest out.new ≡ K.honest out.old }
{
    let forms = BookRowFormat {
        book: BookNumber { number: 1 },
    };
    ended_checking(check::<S, K, OfficeMachine, BookRowFormat>(alloc, &forms, input, out))
}
