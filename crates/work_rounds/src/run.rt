//! A run of `found`, of `file`, or of a round, over a work-study office.
ghost use Rattle.std.specs.Prelude.{◌≡◌, ◌⊎◌, ◌≤◌, false, Some, List, ℕ, length, map, string_bytes};
ghost use Rattle.io_traits.specs.Faults.{Rose};
ghost use Rattle.io_traits.specs.DiskState.{EachImage, EachMoment, IsHonest};
ghost use Rattle.log_runs.specs.Counts.{Shows};
ghost use Rattle.work_rounds.specs.Plans.{policies_give};
ghost use Rattle.work_rounds.specs.Runs.{CanBeDone, MayRecoverWork, RanWork, RecoversWork, StandsWork, StoodBefore, reads_input};
ghost use Rattle.work_rounds.specs.Words.{WorkCommand, command_in};
ghost use Rattle.law_work.specs.declared.filing.WorkFiling.{WorkFiling};
ghost use Rattle.law_work.specs.AddsUp.{AddsUp};

use crate::plan::WorkRound;
use crate::run_headed_round;
use crate::words::{list_of, round_of};
use io_traits::{Disk, Sink, Source};
use law_funds::Rule;
use log_rules::{RuleMachine, TableRowFormat};
use log_runs::run_list;
use std::alloc::Global;
use work_study::{SchoolPolicies, WorkStudy};

/// Does what the words say, and answers the status and the disk as it is then: `found` founds a work-study office in the disk's file,
/// `file` files the rows of the input into it, and `round SCHOOL YEAR NUMBER` awards what is left of the school's fund of the year to
/// those whom the rows of the input name, by the policy of the school. The whole input is read before the journal is. A round writes
/// the lines of rows that are none first, and behind the lines of its awards what is left of the fund. The line of a row or an award
/// is written before the next is filed.
///
/// The status is 0 where all was done, 2 where the words are no row, 3 where a read failed, 4 where a write failed, 5 where the
/// disk failed, 6 where the file is none for the command, 7 where it is damaged, 8 where the input has more than `INPUT_LIMIT`
/// bytes, and 9 where there is no memory. At each but 0 and 4 the last line of the text names the fault.
pub fn run_work<D: Disk, S: Source, K: Sink>(
    alloc: Global,
    words: &Vec<String>,
    disk: D,
    input: &mut S,
    out: &mut K,
    policies: &SchoolPolicies,
) -> (u8, D)
    // What a file recovers is one list at most, in which each fund adds up.
    ensures within { (file : List ℕ) (history : List WorkFiling) → RecoversWork file history → AddsUp history }
    ensures one { (file : List ℕ) (history other : List WorkFiling) → RecoversWork file history → RecoversWork file other → history ≡ other }

    // All that a run does, by its words and by how it ended: the text, the disk at every moment, the counts, and the status.
    ensures ran { RanWork (policies_give policies.now.list.items (λ policy. ⟦<Rule as Fn(u32, i32, u8) -> u32>⟧.post policy.rule)) D.Disk K.Sink
        (record { source = (S.faults input.old, S.faults input.new); sink = (K.faults out.old, K.faults out.new); disk = (D.faults disk, D.faults result.1) })
        disk result.1 (record { honest = S.honest input.old; before = S.left input.old; after = S.left input.new }) out.old out.new (command_in policies.now.list.items (map string_bytes words.now.items)) result.0 }
    // The input is read by `file` and by a round.
    ensures unread { reads_input (command_in policies.now.list.items (map string_bytes words.now.items)) ≡ false → input.new ≡ input.old }

    // Whatever a run comes to, each image at each moment of it recovers the list before it, with what some rows in front of the
    // input's add, or some awards in front of a round's; where it was done, with what all of them add.
    ensures moments { (past : List WorkFiling) → IsHonest (D.tells disk) → EachImage (D.tells disk) (λ file. RecoversWork file past)
        → EachMoment (D.tells disk) (D.tells result.1)
        (MayRecoverWork (policies_give policies.now.list.items (λ policy. ⟦<Rule as Fn(u32, i32, u8) -> u32>⟧.post policy.rule)) (command_in policies.now.list.items (map string_bytes words.now.items)) (record { honest = S.honest input.old; before = S.left input.old; after = S.left input.new }) past) }
    ensures stands { (it : WorkCommand) (past : List WorkFiling) → command_in policies.now.list.items (map string_bytes words.now.items) ≡ Some it → result.0 ≡ 0 → IsHonest (D.tells disk)
        → StoodBefore it (D.tells disk).reads past
        → StandsWork (policies_give policies.now.list.items (λ policy. ⟦<Rule as Fn(u32, i32, u8) -> u32>⟧.post policy.rule)) it (record { honest = S.honest input.old; before = S.left input.old; after = S.left input.new }) past (D.tells result.1) }

    // 3, 4 and 5 come only where the count of the source, the sink or the disk rose, and no fault is passed over.
    ensures shows { Shows (record { source = (S.faults input.old, S.faults input.new); sink = (K.faults out.old, K.faults out.new); disk = (D.faults disk, D.faults result.1) }) result.0 }

    // Where no count rose, a command that can be done is done, if there is memory.
    ensures complete { (it : WorkCommand) → command_in policies.now.list.items (map string_bytes words.now.items) ≡ Some it → CanBeDone it (S.honest input.old) (length (S.left input.old)) (D.tells disk)
        → ¬ (Rose (S.faults input.old) (S.faults input.new)) → ¬ (Rose (K.faults out.old) (K.faults out.new)) → ¬ (Rose (D.faults disk) (D.faults result.1))
        → (result.0 ≡ 0) ⊎ (result.0 ≡ 9) }

    ensures source_later { S.faults input.old ≤ S.faults input.new }
    ensures sink_later { K.faults out.old ≤ K.faults out.new }
    ensures disk_later { D.faults disk ≤ D.faults result.1 }
    ensures source_honest { S.honest input.new ≡ S.honest input.old }
    ensures sink_honest { K.honest out.new ≡ K.honest out.old }
    ensures disk_honest { (D.tells result.1).honest ≡ (D.tells disk).honest }
{
    match round_of(words, policies) {
        Some((request, policy)) => {
            let round = WorkRound { request, policy };
            run_headed_round::<D, S, K, RuleMachine<WorkStudy>, WorkRound>(
                alloc, disk, &round, input, out,
            )
        }
        None => {
            let forms = TableRowFormat::<WorkStudy>::new();
            run_list::<D, S, K, RuleMachine<WorkStudy>, TableRowFormat<WorkStudy>>(
                alloc,
                list_of(words),
                disk,
                &forms,
                input,
                out,
            )
        }
    }
}
