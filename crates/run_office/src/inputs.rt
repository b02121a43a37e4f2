// Commands that file what the input has: its rows, its text as a book, or a year that is generated behind its book.
ghost use Rattle.std.specs.Prelude.{◌≡◌, ◌≤◌, Result};
ghost use Rattle.run_generate.specs.Counted.{year_counted, year_ending};
ghost use Rattle.run_generate.specs.Payments.{year_semantics};
ghost use Rattle.run_generate.specs.Texts.{rows_of_text, year_texts};
ghost use Rattle.office_log.specs.Scheme.{office_scheme};
ghost use Rattle.office_log.specs.Submits.{filing_semantics, office_semantics};
ghost use Rattle.log_runs.specs.Ends.{Moved};
ghost use Rattle.log_runs.specs.Statuses.{ended_file, is_disk_fault, is_read_fault, is_write_fault};
ghost use Rattle.log_session.specs.Counted.{CountedSession};
ghost use Rattle.log_session.specs.Sessions.{Session};
ghost use Rattle.log_session.specs.declared.stop.SessionStop.{SessionStop as Stop};
ghost use Rattle.run_office.specs.Texts.{no_verdicts};
ghost use Rattle.run_rows.specs.Asks.{book_rows, book_texts, desk_rows, desk_texts};
ghost use Rattle.log_stamps.specs.Rows.{stamped_rows, stamped_texts};
ghost use Rattle.log_stamps.specs.Stamped.{stamped_semantics};

use aid_stamps::Stamp;
use io_traits::{Disk, Sink, Source};
use log_runs::{RunStop, ended_filing};
use log_session::{file, file_counted};
use log_stamps::{StampedMachine, StampedRowFormat};
use office_log::{OfficeMachine, StampedOfficeMachine};
use run_generate::{GeneratingMachine, YearRowFormat, YearTally};
use run_rows::{BookRowFormat, DeskRowFormat};
use run_words::{BookNumber, GenerateRequest};
use std::alloc::Global;

/// Files the rows of the input under a stamp, and writes a line for each before the next is filed.
pub fn file_rows<D: Disk, S: Source, K: Sink>(
    alloc: Global,
    stamp: Stamp,
    disk: D,
    input: &mut S,
    out: &mut K,
) -> (Result<(), RunStop>, D)
    ensures session { (ended : Result Unit Stop) × (result.0 ≡ ended_file ended)
        × Session D.Disk office_scheme office_semantics (stamped_texts desk_texts) (λ text. stamped_rows stamp (desk_rows text)) 16777216 disk result.1
        (record { honest = S.honest input.old; before = S.left input.old; after = S.left input.new })
        (record { honest = K.honest out.old; before = K.text out.old; after = K.text out.new }) ended }
    ensures source { Moved (is_read_fault result.0) (S.faults input.old, S.faults input.new) }
    ensures sink { Moved (is_write_fault result.0) (K.faults out.old, K.faults out.new) }
    ensures disk { Moved (is_disk_fault result.0) (D.faults disk, D.faults result.1) }
    ensures source_later { S.faults input.old ≤ S.faults input.new }
    ensures sink_later { K.faults out.old ≤ K.faults out.new }
    ensures disk_later { D.faults disk ≤ D.faults result.1 }
    ensures source_honest { S.honest input.new ≡ S.honest input.old }
    ensures sink_honest { K.honest out.new ≡ K.honest out.old }
    ensures disk_honest { (D.tells result.1).honest ≡ (D.tells disk).honest }
{
    let forms = StampedRowFormat {
        forms: DeskRowFormat,
        stamp,
    };
    let (ended, disk) = file::<D, S, K, StampedOfficeMachine, StampedRowFormat<DeskRowFormat>>(
        alloc, disk, &forms, input, out,
    );
    (ended_filing(ended), disk)
}

/// Files the text of the input as a book with a number, under a stamp.
pub fn file_book<D: Disk, S: Source, K: Sink>(
    alloc: Global,
    stamp: Stamp,
    book: BookNumber,
    disk: D,
    input: &mut S,
    out: &mut K,
) -> (Result<(), RunStop>, D)
    ensures session { (ended : Result Unit Stop) × (result.0 ≡ ended_file ended)
        × Session D.Disk office_scheme office_semantics (stamped_texts book_texts) (λ text. stamped_rows stamp (book_rows book.number text)) 16777216 disk result.1
        (record { honest = S.honest input.old; before = S.left input.old; after = S.left input.new })
        (record { honest = K.honest out.old; before = K.text out.old; after = K.text out.new }) ended }
    ensures source { Moved (is_read_fault result.0) (S.faults input.old, S.faults input.new) }
    ensures sink { Moved (is_write_fault result.0) (K.faults out.old, K.faults out.new) }
    ensures disk { Moved (is_disk_fault result.0) (D.faults disk, D.faults result.1) }
    ensures source_later { S.faults input.old ≤ S.faults input.new }
    ensures sink_later { K.faults out.old ≤ K.faults out.new }
    ensures disk_later { D.faults disk ≤ D.faults result.1 }
    ensures source_honest { S.honest input.new ≡ S.honest input.old }
    ensures sink_honest { K.honest out.new ≡ K.honest out.old }
    ensures disk_honest { (D.tells result.1).honest ≡ (D.tells disk).honest }
{
    let forms = StampedRowFormat {
        forms: BookRowFormat { book },
        stamp,
    };
    let (ended, disk) = file::<D, S, K, StampedOfficeMachine, StampedRowFormat<BookRowFormat>>(
        alloc, disk, &forms, input, out,
    );
    (ended_filing(ended), disk)
}

/// Files the rows of a generated year under a stamp, behind the book that the input's text is, and writes what they come to.
pub fn file_year<D: Disk, S: Source, K: Sink>(
    alloc: Global,
    stamp: Stamp,
    generate: GenerateRequest,
    disk: D,
    input: &mut S,
    out: &mut K,
) -> (Result<(), RunStop>, D)
    ensures session { (ended : Result Unit Stop) × (result.0 ≡ ended_file ended)
        × CountedSession D.Disk office_scheme (stamped_semantics (year_semantics filing_semantics)) (stamped_texts year_texts) year_counted year_ending no_verdicts
        (λ text. stamped_rows stamp (rows_of_text generate.students generate.seed text)) 16777216 disk result.1
        (record { honest = S.honest input.old; before = S.left input.old; after = S.left input.new })
        (record { honest = K.honest out.old; before = K.text out.old; after = K.text out.new }) ended }
    ensures source { Moved (is_read_fault result.0) (S.faults input.old, S.faults input.new) }
    ensures sink { Moved (is_write_fault result.0) (K.faults out.old, K.faults out.new) }
    ensures disk { Moved (is_disk_fault result.0) (D.faults disk, D.faults result.1) }
    ensures source_later { S.faults input.old ≤ S.faults input.new }
    ensures sink_later { K.faults out.old ≤ K.faults out.new }
    ensures disk_later { D.faults disk ≤ D.faults result.1 }
    ensures source_honest { S.honest input.new ≡ S.honest input.old }
    ensures sink_honest { K.honest out.new ≡ K.honest out.old }
    ensures disk_honest { (D.tells result.1).honest ≡ (D.tells disk).honest }
{
    let year = YearRowFormat {
        students: generate.students,
        seed: generate.seed,
    };
    let forms = StampedRowFormat { forms: year, stamp };
    let (ended, disk) = file_counted::<
        D,
        S,
        K,
        StampedMachine<GeneratingMachine<OfficeMachine>>,
        StampedRowFormat<YearRowFormat>,
        YearTally,
    >(alloc, disk, &forms, YearTally::EMPTY, input, out);
    (ended_filing(ended), disk)
}
