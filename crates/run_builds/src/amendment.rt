// A journal is copied into a new one with corrections.
ghost use Rattle.std.specs.Prelude.{◌≡◌, ◌⊎◌, ◌≤◌, ◌<◌, ◌++◌, [], ℕ, List, Option, Some, length, false, IsTrue, IfOk, IfErr, OnOk, reverse};
ghost use Rattle.aid_types.specs.Ranges.{IsBetween};
ghost use Rattle.aid_filings.specs.declared.filing.Filing.{Filing};
ghost use Rattle.aid_stamps.specs.declared.stamp.Stamp.{Stamp as StampData};
ghost use Rattle.io_traits.specs.Faults.{Rose};
ghost use Rattle.io_traits.specs.DiskState.{EachImage, EachMoment, IsHonest, IsRead};
ghost use Rattle.log_journal.specs.Stands.{IsUnborn};
ghost use Rattle.log_runs.specs.Ends.{IsShort, Moved};
ghost use Rattle.log_stamps.specs.Entries.{entries};
ghost use Rattle.log_stamps.specs.declared.entry.StampedEntry.{StampedEntry as AnyEntry};
ghost use Rattle.office_amends.specs.Amended.{amended};
ghost use Rattle.office_amends.specs.Plans.{Plans, amended_text, errors_text, refused_text};
ghost use Rattle.office_amends.specs.declared.correction.Correction.{Correction};
ghost use Rattle.office_history.specs.Answer.{IsLegal};
ghost use Rattle.office_log.specs.Openable.{IsOffice};
ghost use Rattle.office_log.specs.Recovers.{Recovers};
ghost use Rattle.run_builds.specs.Amendments.{Amending, Amends, IsAmended, IsNotAmended, MakesOf, NoneOrAmended, ended_amendment as ended_amendment_of};
ghost use Rattle.run_builds.specs.Ends.{is_build_fault, is_input_stop, is_source_stop, is_target_stop};
ghost use Rattle.run_builds.specs.Targets.{Builds};

use crate::ending::{AmendEnd, BuildFault};
use crate::source::read_list;
use crate::target::build_office;
use aid_stamps::Stamp;
use io_traits::{Disk, Sink, Source};
use log_machine::StateMachine;
use log_session::read_input;
use office_amends::{Amended, Amendment, plan_amendment};
use office_log::StampedOfficeMachine;
use std::alloc::{AllocError, Global};

/// Under which stamp corrections are filed, and the number of the first record that has one of its own, 1 to 999,000,000,000.
#[derive(Clone, Copy)]
pub struct AmendRequest {
    pub stamp: Stamp,
    pub number: u64,
    pub ghost in_range: { IsBetween 1 999000000000 number },
}

// What the rows of an input make of the list of an office.
fn plan(
    alloc: Global,
    machine: &StampedOfficeMachine,
    request: &AmendRequest,
    input: Vec<u8>,
) -> Result<Amendment, AllocError>
    requires short { length input.items ≤ 16777216 }
    ensures { IfOk result (λ plan. Plans (⟦<StampedOfficeMachine as StateMachine>⟧.history machine.now) request.now.stamp request.now.number input.items plan) }
{
    let stamps = machine.stamps();
    plan_amendment(
        alloc,
        machine.inner().office(),
        stamps,
        &request.stamp,
        request.number,
        input,
    )
}

// How an amendment ended by how its target was built.
fn ended_amendment(ended: Result<(), BuildFault>) -> AmendEnd
    ensures value { result ≡ ended_amendment_of ended }
    ensures input { is_input_stop result ≡ false }
    ensures source { is_source_stop result ≡ false }
{
    match ended {
        Ok(()) => AmendEnd::Made,
        Err(fault) => AmendEnd::Target(fault),
    }
}

// Builds the target where the new list is legal; and the text that tells what becomes of it.
fn make<B: Disk>(alloc: Global, plan: Amendment, target: B) -> (AmendEnd, Vec<u8>, B)
    ensures makes { (past : List (AnyEntry Filing)) (stamp : StampData) (number : ℕ) (bytes : List ℕ) → Plans past stamp number bytes plan
        → MakesOf B.Disk past stamp number bytes target result.2 result.0 result.1.items }
    ensures honest { (B.tells result.2).honest ≡ (B.tells target).honest }
    ensures later { B.faults target ≤ B.faults result.2 }
    ensures input { is_input_stop result.0 ≡ false }
    ensures source { is_source_stop result.0 ≡ false }
    ensures cause { IsTrue (is_target_stop result.0) → Rose (B.faults target) (B.faults result.2) }
    ensures unmoved { is_target_stop result.0 ≡ false → B.faults result.2 ≡ B.faults target }
{
    match plan {
        Amendment::NotMade(text) => (AmendEnd::NotMade, text, target),
        Amendment::Made(made) => {
            let _few = made.office.front();
            let Amended {
                office,
                stamps,
                text,
                position: _,
            } = made;
            let (ended, target) = build_office(alloc, office.into_filings(alloc), stamps, target);
            (ended_amendment(ended), text, target)
        }
    }
}

// All but what is written.
fn read_and_amend<A: Disk, B: Disk, S: Source>(
    alloc: Global,
    request: &AmendRequest,
    source: A,
    target: B,
    input: &mut S,
) -> (AmendEnd, Vec<u8>, A, B)
    ensures amends { Amends A.Disk B.Disk request.now.stamp request.now.number (record { honest = S.honest input.old; before = S.left input.old; after = S.left input.new })
        source target result.3 result.0 result.1.items }
    ensures source_read { IsHonest (A.tells source) → IsRead (A.tells source) (A.tells result.2) }
    ensures source_honest { (A.tells result.2).honest ≡ (A.tells source).honest }
    ensures target_honest { (B.tells result.3).honest ≡ (B.tells target).honest }
    ensures input_honest { S.honest input.new ≡ S.honest input.old }
    ensures input_cause { Moved (is_input_stop result.0) (S.faults input.old, S.faults input.new) }
    ensures source_cause { Moved (is_source_stop result.0) (A.faults source, A.faults result.2) }
    ensures target_cause { Moved (is_target_stop result.0) (B.faults target, B.faults result.3) }
    ensures input_later { S.faults input.old ≤ S.faults input.new }
    ensures source_later { A.faults source ≤ A.faults result.2 }
    ensures target_later { B.faults target ≤ B.faults result.3 }
{
    let text = match read_input(alloc, input) {
        Ok(text) => text,
        Err(stop) => return (AmendEnd::Input(stop), Vec::new(alloc), source, target),
    };
    let (machine, source) = match read_list(alloc, source) {
        Ok((machine, source)) => (machine, source),
        Err((fault, source)) => {
            return (AmendEnd::Source(fault), Vec::new(alloc), source, target);
        }
    };
    match plan(alloc, &machine, request, text) {
        Ok(plan) => {
            let (end, text, target) = make(alloc, plan, target);
            (end, text, source, target)
        }
        Err(_) => (AmendEnd::NoMemory, Vec::new(alloc), source, target),
    }
}

/// Copies a journal, the source, into one that is built in the target, with the corrections of an input: filings replaced, taken out
/// or put in under the stamp of the request, and a record of each; the first record with a number of its own has the request's.
/// Every other filing stays in its order, under its stamp.
///
/// The new list is built exactly where every row is a correction that fits and the list is legal. Else nothing is made, and the text
/// names each row that is none, or each filing that doesn't stand. The whole input and the whole source are read before any call on
/// the target, and the source is never written.
///
/// The status is 0 where the new list was made, and 1 where it wasn't: then the target had no call. It is 3 where a read failed, 4
/// where the text couldn't be written, and then the list may be made; 5 where a disk failed, 6 where the source is no office of
/// version 2 or the target isn't unborn, 7 where the source is damaged or its list isn't legal, 8 where the input is too long, and 9
/// where there is no memory. At each but 0, 1 and 4 the text is the line of the fault alone.
pub fn amend<A: Disk, B: Disk, S: Source, K: Sink>(
    alloc: Global,
    request: AmendRequest,
    source: A,
    target: B,
    input: &mut S,
    out: &mut K,
) -> (u8, A, B)
    // All that an amendment does, by how it ends: the list, the target at every moment, the counts, the text and the status.
    ensures amending { Amending A.Disk B.Disk K.Sink
        (record { input = (S.faults input.old, S.faults input.new); source = (A.faults source, A.faults result.1); target = (B.faults target, B.faults result.2); sink = (K.faults out.old, K.faults out.new) })
        request.stamp request.number (record { honest = S.honest input.old; before = S.left input.old; after = S.left input.new }) source target result.2 out.old out.new result.0 }

    // The source is never written, neither is a target that isn't unborn, and at 1 no call was made on the target.
    ensures source_read { IsHonest (A.tells source) → IsRead (A.tells source) (A.tells result.1) }
    ensures untouched { IsHonest (B.tells target) → IsUnborn (B.tells target).reads ⊎ IsRead (B.tells target) (B.tells result.2) }
    ensures not_made { result.0 ≡ 1 → result.2 ≡ target }

    // At every moment each image of the target is one of those that there were to begin with, or no office, or recovers the whole new list.
    ensures moments { (past : List (AnyEntry Filing)) → IsHonest (A.tells source) → Recovers (A.tells source).reads past → IsTrue (S.honest input.old) → IsHonest (B.tells target)
        → EachMoment (B.tells target) (B.tells result.2) (λ file. (B.tells target).image file ⊎ NoneOrAmended past request.stamp request.number (S.left input.old) file) }

    // At 0 the new list was made, and at 1 it can't be; either text was written.
    ensures made { (past : List (AnyEntry Filing)) → result.0 ≡ 0 → IsHonest (A.tells source) → Recovers (A.tells source).reads past → IsTrue (S.honest input.old)
        → (text : List ℕ) × IsAmended B.Disk past request.stamp request.number (S.left input.old) target result.2 text × (IsTrue (K.honest out.old) → K.text out.new ≡ K.text out.old ++ text) }
    ensures refused { (past : List (AnyEntry Filing)) → result.0 ≡ 1 → IsHonest (A.tells source) → Recovers (A.tells source).reads past → IsTrue (S.honest input.old)
        → (text : List ℕ) × IsNotAmended past request.stamp request.number (S.left input.old) text × (IsTrue (K.honest out.old) → K.text out.new ≡ K.text out.old ++ text) }

    // Where no count rose, an undamaged source, an input within its limit and an unborn target give 0 or 1, if there is memory.
    ensures complete { IsOffice (A.tells source) → IsHonest (B.tells target) → IsUnborn (B.tells target).reads → IsShort (S.honest input.old) (length (S.left input.old))
        → ¬ (Rose (S.faults input.old) (S.faults input.new)) → ¬ (Rose (A.faults source) (A.faults result.1)) → ¬ (Rose (B.faults target) (B.faults result.2))
        → ¬ (Rose (K.faults out.old) (K.faults out.new)) → (result.0 ≡ 0) ⊎ ((result.0 ≡ 1) ⊎ (result.0 ≡ 9)) }

    ensures input_later { S.faults input.old ≤ S.faults input.new }
    ensures source_later { A.faults source ≤ A.faults result.1 }
    ensures target_later { B.faults target ≤ B.faults result.2 }
    ensures sink_later { K.faults out.old ≤ K.faults out.new }
    ensures input_honest { S.honest input.new ≡ S.honest input.old }
    ensures source_honest { (A.tells result.1).honest ≡ (A.tells source).honest }
    ensures target_honest { (B.tells result.2).honest ≡ (B.tells target).honest }
    ensures sink_honest { K.honest out.new ≡ K.honest out.old }
{
    let (end, text, source, target) = read_and_amend(alloc, &request, source, target, input);
    (end.tell(text.as_slice(), out), source, target)
}
