//! A run of `found`, or of `file`, over a list under rules.
ghost use Rattle.std.specs.Prelude.{◌≡◌, false, map, string_bytes};
ghost use Rattle.log_runs.specs.Lists.{reads_input};
ghost use Rattle.log_rules.specs.Lines.{table_texts};
ghost use Rattle.run_rules.specs.Runs.{RanRuled, table_rows};
ghost use Rattle.run_rules.specs.Words.{are_word as are_this_word, command_in};

use io_traits::{Disk, Sink, Source};
use log_rules::{OutcomeText, RuleMachine, TableRowFormat};
use log_runs::{ListCommand, run_list};
use std::alloc::Global;

// Whether the words are this one alone.
fn are_word(name: &str, words: &[String]) -> bool
    ensures { result ≡ are_this_word name.now (map string_bytes words.now) }
{
    match words {
        [word] => word.as_str() == name,
        _ => false,
    }
}

// The command that the words say, if any.
fn command_of(words: &Vec<String>) -> Option<ListCommand>
    ensures { result ≡ command_in (map string_bytes words.now.items) }
{
    if are_word("found", words.as_slice()) {
        Some(ListCommand::Found)
    } else if are_word("file", words.as_slice()) {
        Some(ListCommand::File)
    } else {
        None
    }
}

/// Does what the words say, and answers the status and the disk as it is then: `found` founds a list in the disk's file, and
/// `file` files the rows of the input into it. The whole input is read before the journal is, and the line of a row is written before
/// the next row is filed.
///
/// The status is 0 where all was done, 2 where the words are no row, 3 where a read failed, 4 where a write failed, 5 where the
/// disk failed, 6 where the file is none for the command, 7 where it is damaged, 8 where the input has more than `INPUT_LIMIT`
/// bytes, and 9 where there is no memory. At each but 0 and 4 the last line of the text names the fault.
pub fn run_ruled<D: Disk, S: Source, K: Sink, R: OutcomeText>(
    alloc: Global,
    words: &Vec<String>,
    disk: D,
    input: &mut S,
    out: &mut K,
) -> (u8, D)
    ensures ran { RanRuled R.ruling R.IsWithin (table_texts R.code_of R.numbers_of R.outcome_text) (table_rows R.words R.key R.kinds) D.Disk K.Sink
        (record { source = (S.faults input.old, S.faults input.new); sink = (K.faults out.old, K.faults out.new); disk = (D.faults disk, D.faults result.1) })
        (command_in (map string_bytes words.now.items)) disk result.1 (record { honest = S.honest input.old; before = S.left input.old; after = S.left input.new }) out.old out.new result.0 }
    // The input is read by `file` alone.
    ensures unread { reads_input (command_in (map string_bytes words.now.items)) ≡ false → input.new ≡ input.old }
    ensures source_honest { S.honest input.new ≡ S.honest input.old }
{
    let forms = TableRowFormat::<R>::new();
    run_list::<D, S, K, RuleMachine<R>, TableRowFormat<R>>(
        alloc,
        command_of(words),
        disk,
        &forms,
        input,
        out,
    )
}
