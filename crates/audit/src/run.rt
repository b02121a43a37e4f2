//! A run that answers its whole input.
ghost use Rattle.std.specs.Prelude.{◌≡◌, ◌⊎◌, ◌≤◌, IsTrue, None, Some, length, map, string_bytes};
ghost use Rattle.io_traits.specs.Faults.{Rose};
ghost use Rattle.log_runs.specs.Counts.{Shows};
ghost use Rattle.log_runs.specs.Ends.{Moved};
ghost use Rattle.log_runs.specs.Statuses.{is_read_fault, is_write_fault};
ghost use Rattle.audit.specs.Answers.{AnswersInput, answers_of};
ghost use Rattle.audit.specs.Runs.{HasAnswered, RanAudit, edges};
ghost use Rattle.audit.specs.Words.{command_in, limit_of};
ghost use Rattle.audit.specs.declared.words.AuditCommand.{AuditCommand as CommandData};

use crate::answering::{ClockAnswers, answer_input};
use crate::findings::AuditAnswers;
use crate::lists::PlainList;
use crate::words::{AuditCommand, command_by};
use io_traits::{Sink, Source};
use log_runs::{RunStop, end};
use office_index::Office;
use std::alloc::Global;

// Answers the input by a command, up to how it ends.
fn do_command<S: Source, K: Sink>(
    alloc: Global,
    command: AuditCommand,
    input: &mut S,
    out: &mut K,
) -> Result<(), RunStop>
    ensures answers { AnswersInput (limit_of command) (answers_of command) K.Sink (record { honest = S.honest input.old; before = S.left input.old; after = S.left input.new }) out.old out.new result }
    ensures source { Moved (is_read_fault result) (S.faults input.old, S.faults input.new) }
    ensures sink { Moved (is_write_fault result) (K.faults out.old, K.faults out.new) }
    ensures source_later { S.faults input.old ≤ S.faults input.new }
    ensures sink_later { K.faults out.old ≤ K.faults out.new }
    ensures source_honest { S.honest input.new ≡ S.honest input.old }
    ensures sink_honest { K.honest out.new ≡ K.honest out.old }
{
    match command {
        AuditCommand::Audit(note) => {
            answer_input(alloc, &AuditAnswers::<PlainList>::new(note), input, out)
        }
        AuditCommand::Whole(note) => {
            answer_input(alloc, &AuditAnswers::<Office>::new(note), input, out)
        }
        AuditCommand::Clock => answer_input(alloc, &ClockAnswers, input, out),
    }
}

/// Does what the words say, and answers the status: `audit` says in one line whether the input is the export of a legal
/// history, and else its first bad line and why; `audit whole` says it of an input of up to 1,000,000 filings; `N HEX` behind either
/// is a note, how many filings were sealed at some time and the seal, against which the first filings are held; `clock` answers
/// each row of the input with a line. The whole input is read before the text is made, and the whole text is made before any of it
/// is written.
///
/// The status is 0 where all was done, and the text is written; 2 where the words are no row, 3 where a read failed, 4 where a write
/// failed, 8 where the input has more bytes than the command reads, and 9 where there is no memory. At each but 0 and 4 the text is
/// the line of the fault alone.
pub fn run_audit<S: Source, K: Sink>(
    alloc: Global,
    words: &Vec<String>,
    input: &mut S,
    out: &mut K,
) -> u8
    // All that a run does, by its words and by how it ended: the text, the counts, and the status.
    ensures ran { RanAudit K.Sink (edges (S.faults input.old, S.faults input.new) (K.faults out.old, K.faults out.new))
        (record { honest = S.honest input.old; before = S.left input.old; after = S.left input.new }) out.old out.new (command_in (map string_bytes words.now.items)) result }
    // Without a command nothing is read.
    ensures unread { command_in (map string_bytes words.now.items) ≡ None → input.new ≡ input.old }

    // Where a command was done, exactly the text that answers the input is written.
    ensures done { (it : CommandData) → command_in (map string_bytes words.now.items) ≡ Some it → result ≡ 0 → IsTrue (S.honest input.old) → IsTrue (K.honest out.old)
        → HasAnswered it (S.left input.old) (K.text out.old) (K.text out.new) }

    // 3 and 4 come only where the count of the source or the sink rose, and no fault is passed over.
    ensures shows { Shows (edges (S.faults input.old, S.faults input.new) (K.faults out.old, K.faults out.new)) result }

    // Where no count rose, a command over an input within the limit is done, if there is memory.
    ensures complete { (it : CommandData) → command_in (map string_bytes words.now.items) ≡ Some it → IsTrue (S.honest input.old) → length (S.left input.old) ≤ limit_of it
        → ¬ (Rose (S.faults input.old) (S.faults input.new)) → ¬ (Rose (K.faults out.old) (K.faults out.new)) → (result ≡ 0) ⊎ (result ≡ 9) }

    ensures source_later { S.faults input.old ≤ S.faults input.new }
    ensures sink_later { K.faults out.old ≤ K.faults out.new }
    ensures source_honest { S.honest input.new ≡ S.honest input.old }
    ensures sink_honest { K.honest out.new ≡ K.honest out.old }
{
    match command_by(words.as_slice()) {
        Some(command) => {
            let ended = do_command(alloc, command, input, out);
            end(ended, out)
        }
        None => end(Err(RunStop::Usage), out),
    }
}
