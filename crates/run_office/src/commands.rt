// A run of the program: its words, its input, its journal, what it writes, and its status.
ghost use Rattle.std.specs.Prelude.{◌≡◌, ◌⊎◌, ◌≤◌, ◌++◌, ℕ, false, IsTrue, List, length, map, string_bytes, [], ◌∷◌, codes};
ghost use Rattle.aid_filings.specs.declared.filing.Filing.{Filing};
ghost use Rattle.io_traits.specs.Faults.{Rose};
ghost use Rattle.io_traits.specs.DiskState.{EachImage, EachMoment, IsHonest};
ghost use Rattle.run_claims.specs.Filed.{HasFiled, rows_in};
ghost use Rattle.run_claims.specs.Office.{Recovers};
ghost use Rattle.run_claims.specs.Written.{Says};
ghost use Rattle.office_log.specs.Recovers.{Recovers as KeptRecovers};
ghost use Rattle.office_history.specs.Within.{IsWithinEveryLimit};
ghost use Rattle.run_words.specs.Stamped.{IsStampedRow};
ghost use Rattle.run_words.specs.declared.command.Command.{Command as CommandData};
ghost use Rattle.aid_stamps.specs.declared.stamp.Stamp.{Stamp as StampData};
ghost use Rattle.log_stamps.specs.Entries.{entries};
ghost use Rattle.log_stamps.specs.declared.entry.StampedEntry.{StampedEntry};
ghost use Rattle.run_office.specs.Moments.{MayRecover, Stands, StoodBefore};
ghost use Rattle.run_office.specs.Ran.{CanBeDone, Does, FileRan, Ran, reads_input};
ghost use Rattle.log_runs.specs.Counts.{Shows};
ghost use Rattle.log_runs.specs.Ends.{Moved};
ghost use Rattle.run_office.specs.Rounds.{IsPolicyAmong, gives_at};
ghost use Rattle.log_runs.specs.Statuses.{is_disk_fault, is_read_fault, is_write_fault};

use crate::checks::{check_book, check_rows};
use crate::fund::file_round;
use crate::inputs::{file_book, file_rows, file_year};
use crate::report::OfficeReport;
use aid_stamps::Stamp;
use io_traits::{Disk, Sink, Source};
use law_funds::{Policies, Rule};
use log_runs::{RunStop, end, ended_filing, ended_founding};
use log_session::{ReadStop, SessionStop, answer, found, write_report};
use log_stamps::StampedRows;
use office_log::StampedOfficeMachine;
use run_rows::QuoteRow;
use run_words::{Command, command_of};
use std::alloc::Global;

// Does what a command says under a stamp, up to how it ends.
fn do_command<D: Disk, S: Source, K: Sink>(
    alloc: Global,
    stamp: Stamp,
    command: Command,
    policies: &Policies,
    disk: D,
    input: &mut S,
    out: &mut K,
) -> (Result<(), RunStop>, D)
    requires policy { IsPolicyAmong (length policies.now.list.items) command }
    ensures does { Does (gives_at policies.now.list.items (λ p. ⟦<Rule as Fn(u32, i32, u8) -> u32>⟧.post p.rule)) D.Disk disk result.1
        (record { honest = S.honest input.old; before = S.left input.old; after = S.left input.new })
        (record { honest = K.honest out.old; before = K.text out.old; after = K.text out.new }) stamp command result.0 }
    ensures unread { reads_input command ≡ false → input.new ≡ input.old }
    ensures source { Moved (is_read_fault result.0) (S.faults input.old, S.faults input.new) }
    ensures sink { Moved (is_write_fault result.0) (K.faults out.old, K.faults out.new) }
    ensures disk { Moved (is_disk_fault result.0) (D.faults disk, D.faults result.1) }
    ensures source_later { S.faults input.old ≤ S.faults input.new }
    ensures sink_later { K.faults out.old ≤ K.faults out.new }
    ensures disk_later { D.faults disk ≤ D.faults result.1 }
    ensures source_honest { S.honest input.new ≡ S.honest input.old }
    ensures sink_honest { K.honest out.new ≡ K.honest out.old }
    ensures disk_honest { (D.tells result.1).honest ≡ (D.tells disk).honest }
{
    match command {
        Command::Found => {
            let (ended, disk) = found::<D, K, StampedOfficeMachine>(alloc, disk, b"founded\n", out);
            (ended_founding(ended), disk)
        }
        Command::File => file_rows(alloc, stamp, disk, input, out),
        Command::Book(book) => file_book(alloc, stamp, book, disk, input, out),
        Command::Quote(quote) => {
            let rows = QuoteRow::new(quote);
            let (ended, disk) = answer::<D, K, StampedOfficeMachine, StampedRows<QuoteRow>>(
                alloc,
                disk,
                StampedRows { rows, stamp },
                out,
            );
            (ended_filing(ended), disk)
        }
        Command::Report(request) => {
            let report = OfficeReport { request };
            let (ended, disk) = write_report::<D, K, StampedOfficeMachine, OfficeReport>(
                alloc, disk, &report, out,
            );
            (ended_filing(ended), disk)
        }
        Command::Fund(fund) => {
            let policy = &policies.list[fund.policy];
            let (ended, disk) = file_round(alloc, disk, fund, policy, stamp, out);
            (ended_filing(ended), disk)
        }
        Command::Generate(generate) => file_year(alloc, stamp, generate, disk, input, out),
        Command::CheckRows => (check_rows(alloc, input, out), disk),
        Command::CheckBook => (check_book(alloc, input, out), disk),
    }
}

/// Does what the words say, and answers the status and the disk as it is then. In front may stand `at DAY CLERK`, the stamp of what
/// is filed; without it this is the plain one. `found` founds an office in the disk's file; `file` files the rows of the input, and
/// `book` its text as a book; `quote` asks for one; `report` writes a report on the office, and files nothing; `fund` files the
/// payments of a round of awards by the first of the policies that has its name; `generate` files a generated year, whose book is
/// the input's text, and writes what it comes to; `check rows` and `check book` say what is wrong with the input, and make no call on
/// the disk. The whole input is read before the journal is, and the line of a row is written before the next row is filed.
///
/// The status is 0 where all was done, 2 where the words are no row, 3 where a read failed, 4 where a write failed, 5
/// where the disk failed, 6 where the file is none for the command, 7 where it is damaged, 8 where the input has more
/// than `INPUT_LIMIT` bytes, and 9 where there is no memory. 9 also hides a 2, where memory ran out before the words were
/// known to be no row. At each but 0 and 4 the last line of the text names the fault.
pub fn run<D: Disk, S: Source, K: Sink>(
    alloc: Global,
    words: &Vec<String>,
    disk: D,
    input: &mut S,
    out: &mut K,
    policies: &Policies,
) -> (u8, D)
    // The headline, in few words. Over an honest disk each image of which recovers a history, the rows of the input are answered one
    // after the other, each by a line that the law gives, what they add joins under the stamp that the words say, and none that was
    // answered is lost at any moment from then on. No command loses what stood. What a file recovers is one history at most, in which
    // no student stands above a limit.
    ensures founded { (stamp : StampData) → Says stamp (codes "found" ∷ []) (map string_bytes words.now.items) → result.0 ≡ 0 → IsHonest (D.tells disk) → EachImage (D.tells result.1) (λ file. Recovers file []) }
    ensures headline { (stamp : StampData) (past : List (StampedEntry Filing)) → Says stamp (codes "file" ∷ []) (map string_bytes words.now.items) → IsHonest (D.tells disk) → IsTrue (S.honest input.old) → IsTrue (K.honest out.old)
        → EachImage (D.tells disk) (λ file. Recovers file past)
        → (text : List ℕ) × (K.text out.new ≡ K.text out.old ++ text) × HasFiled D.Disk stamp (rows_in (S.left input.old)) past text result.0 disk result.1 }
    ensures keeps { (past : List (StampedEntry Filing)) → IsHonest (D.tells disk) → EachImage (D.tells disk) (λ file. Recovers file past)
        → EachMoment (D.tells disk) (D.tells result.1) (λ file. (added : List (StampedEntry Filing)) × Recovers file (added ++ past)) }
    ensures within { (file : List ℕ) (history : List (StampedEntry Filing)) → Recovers file history → IsWithinEveryLimit (entries history) }
    ensures one { (file : List ℕ) (history other : List (StampedEntry Filing)) → Recovers file history → Recovers file other → history ≡ other }

    // All that a run does, by its words and by how it ended: the text, the disk at every moment, the counts, and the status.
    ensures ran { Ran (map (λ p. p.name) policies.now.list.items) (gives_at policies.now.list.items (λ p. ⟦<Rule as Fn(u32, i32, u8) -> u32>⟧.post p.rule)) D.Disk K.Sink
        (record { source = (S.faults input.old, S.faults input.new); sink = (K.faults out.old, K.faults out.new); disk = (D.faults disk, D.faults result.1) })
        (map string_bytes words.now.items) disk result.1
        (record { honest = S.honest input.old; before = S.left input.old; after = S.left input.new }) out.old out.new result.0 }
    // The input is read by a command that has one alone.
    ensures unread { ((stamp : StampData) (command : CommandData) → IsStampedRow (map (λ p. p.name) policies.now.list.items) (map string_bytes words.now.items) stamp command → reads_input command ≡ false) → input.new ≡ input.old }

    // Whatever a run comes to, each image at each moment of it recovers the list before it, with what some rows in front of
    // the input's add; where it was done, with what all of them add.
    ensures moments { (stamp : StampData) (command : CommandData) (past : List (StampedEntry Filing)) → IsStampedRow (map (λ p. p.name) policies.now.list.items) (map string_bytes words.now.items) stamp command
        → IsHonest (D.tells disk) → EachImage (D.tells disk) (λ file. KeptRecovers file past)
        → EachMoment (D.tells disk) (D.tells result.1)
        (MayRecover (gives_at policies.now.list.items (λ p. ⟦<Rule as Fn(u32, i32, u8) -> u32>⟧.post p.rule)) stamp command (record { honest = S.honest input.old; before = S.left input.old; after = S.left input.new }) past) }
    ensures stands { (stamp : StampData) (command : CommandData) (past : List (StampedEntry Filing)) → IsStampedRow (map (λ p. p.name) policies.now.list.items) (map string_bytes words.now.items) stamp command → result.0 ≡ 0
        → IsHonest (D.tells disk) → StoodBefore command (D.tells disk).reads past
        → Stands (gives_at policies.now.list.items (λ p. ⟦<Rule as Fn(u32, i32, u8) -> u32>⟧.post p.rule)) stamp command (record { honest = S.honest input.old; before = S.left input.old; after = S.left input.new }) past (D.tells result.1) }
    // What `file` acknowledges, at every end: the rows that were filed, a line for each, and how it ended.
    ensures file_ran { (stamp : StampData) → Says stamp (codes "file" ∷ []) (map string_bytes words.now.items) → FileRan D.Disk K.Sink stamp disk result.1
        (record { honest = S.honest input.old; before = S.left input.old; after = S.left input.new }) out.old out.new result.0 }

    // 3, 4 and 5 come only where the count of the source, the sink or the disk rose, and no fault is passed over.
    ensures shows { Shows
        (record { source = (S.faults input.old, S.faults input.new); sink = (K.faults out.old, K.faults out.new); disk = (D.faults disk, D.faults result.1) }) result.0 }

    // Where no count rose, a command that can be done is done, if there is memory.
    ensures complete { (stamp : StampData) (command : CommandData) → IsStampedRow (map (λ p. p.name) policies.now.list.items) (map string_bytes words.now.items) stamp command
        → CanBeDone command (S.honest input.old) (length (S.left input.old)) (D.tells disk) → ¬ (Rose (S.faults input.old) (S.faults input.new))
        → ¬ (Rose (K.faults out.old) (K.faults out.new)) → ¬ (Rose (D.faults disk) (D.faults result.1))
        → (result.0 ≡ 0) ⊎ (result.0 ≡ 9) }

    ensures source_later { S.faults input.old ≤ S.faults input.new }
    ensures sink_later { K.faults out.old ≤ K.faults out.new }
    ensures disk_later { D.faults disk ≤ D.faults result.1 }
    ensures source_honest { S.honest input.new ≡ S.honest input.old }
    ensures sink_honest { K.honest out.new ≡ K.honest out.old }
    ensures disk_honest { (D.tells result.1).honest ≡ (D.tells disk).honest }
{
    match command_of(alloc, words, policies) {
        Ok(Some(row)) => {
            let (ended, disk) = do_command(
                alloc,
                row.stamp,
                row.command,
                policies,
                disk,
                input,
                out,
            );
            (end(ended, out), disk)
        }
        Ok(None) => (end(Err(RunStop::Usage), out), disk),
        Err(_) => {
            let no_memory = RunStop::File(SessionStop::Reading(ReadStop::NoMemory));
            (end(Err(no_memory), out), disk)
        }
    }
}
