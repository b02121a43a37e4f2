// A round is planned on the list as it is opened, and filed.
ghost use Rattle.std.specs.Prelude.{◌≡◌, ◌≢◌, ◌≤◌, false, Err, IsTrue, IfOk, IfErr, OnOk, length};
ghost use Rattle.io_traits.specs.Faults.{Rose};
ghost use Rattle.log_session.specs.Edges.{IsReadWhole};
ghost use Rattle.log_session.specs.Sessions.{IsUnread, is_disk_fault};
ghost use Rattle.work_rounds.specs.Headed.{Headed, HeadedSession};

use crate::{PlannedRound, RoundPlan};
use io_traits::{Disk, Sink, Source, write_whole};
use log_machine::StateMachine;
use log_session::{FileStop, INPUT_LIMIT, ReadStop, SessionStop, file_planned, open, read_input};
use std::alloc::Global;

// Opens the list of the disk's file, plans a round on it from a text, and files the round.
fn answer_headed<D: Disk, K: Sink, R: StateMachine, P: RoundPlan<R>>(
    alloc: Global,
    disk: D,
    plan: &P,
    text: Vec<u8>,
    out: &mut K,
) -> (Result<(), SessionStop>, D)
    requires short { length text.items ≤ 16777216 }
    ensures headed { Headed D.Disk R.scheme R.semantics P.Rows.texts (P.plans plan.now text.items) disk result.1
        (record { honest = K.honest out.old; before = K.text out.old; after = K.text out.new }) result.0 }
    ensures write_fault { result.0 ≡ Err (SessionStop.Filing FileStop.Write) → Rose (K.faults out.old) (K.faults out.new) }
    ensures disk_fault { IfErr result.0 (λ stop. IsTrue (is_disk_fault stop) → Rose (D.faults disk) (D.faults result.1)) }
    ensures disk_unmoved { OnOk result.0 (D.faults result.1 ≡ D.faults disk) }
    ensures sink_unmoved { OnOk result.0 (K.faults out.new ≡ K.faults out.old) }
    ensures disk_unmoved_err { IfErr result.0 (λ stop. is_disk_fault stop ≡ false → D.faults result.1 ≡ D.faults disk) }
    ensures sink_unmoved_err { IfErr result.0 (λ stop. stop ≢ SessionStop.Filing FileStop.Write → K.faults out.new ≡ K.faults out.old) }
    ensures disk_later { D.faults disk ≤ D.faults result.1 }
    ensures sink_later { K.faults out.old ≤ K.faults out.new }
    ensures disk_honest { (D.tells result.1).honest ≡ (D.tells disk).honest }
    ensures sink_honest { K.honest out.new ≡ K.honest out.old }
{
    let mut kept = match open::<D, R>(alloc, disk) {
        Ok(kept) => kept,
        Err((error, disk)) => return (Err(SessionStop::Opening(error)), disk),
    };
    let round = match plan.plan(alloc, text, kept.machine()) {
        Ok(round) => round,
        Err(_) => return (
            Err(SessionStop::Filing(FileStop::NoMemory)),
            kept.into_disk(),
        ),
    };
    let PlannedRound {
        heading,
        rows,
        closing,
    } = round;
    if write_whole(out, &heading).is_err() {
        return (Err(SessionStop::Filing(FileStop::Write)), kept.into_disk());
    }
    match file_planned::<D, K, R, P::Rows>(alloc, &mut kept, rows, &closing, out) {
        Ok(()) => (Ok(()), kept.into_disk()),
        Err(stop) => (Err(SessionStop::Filing(stop)), kept.into_disk()),
    }
}

/// A round: reads the whole input, opens the list of the disk's file, and plans a heading, asks and a closing text on it from the
/// text of the input. The heading is written, then the asks are filed, the line of each is written before the next is filed, and
/// the closing text is written behind the last. It answers why it ended early, and the disk as it is then.
pub fn file_headed_round<D: Disk, S: Source, K: Sink, R: StateMachine, P: RoundPlan<R>>(
    alloc: Global,
    disk: D,
    plan: &P,
    input: &mut S,
    out: &mut K,
) -> (Result<(), SessionStop>, D)
    ensures session { HeadedSession D.Disk R.scheme R.semantics P.Rows.texts (P.plans plan.now) INPUT_LIMIT disk result.1
        (record { honest = S.honest input.old; before = S.left input.old; after = S.left input.new })
        (record { honest = K.honest out.old; before = K.text out.old; after = K.text out.new }) result.0 }

    // A fault is told only where its count rose, and no fault is passed over: every other answer leaves the count as it was.
    ensures read_fault { result.0 ≡ Err (SessionStop.Reading ReadStop.Read) → Rose (S.faults input.old) (S.faults input.new) }
    ensures write_fault { result.0 ≡ Err (SessionStop.Filing FileStop.Write) → Rose (K.faults out.old) (K.faults out.new) }
    ensures disk_fault { IfErr result.0 (λ stop. IsTrue (is_disk_fault stop) → Rose (D.faults disk) (D.faults result.1)) }
    ensures source_unmoved { OnOk result.0 (S.faults input.new ≡ S.faults input.old) }
    ensures sink_unmoved { OnOk result.0 (K.faults out.new ≡ K.faults out.old) }
    ensures disk_unmoved { OnOk result.0 (D.faults result.1 ≡ D.faults disk) }
    ensures source_unmoved_err { IfErr result.0 (λ stop. stop ≢ SessionStop.Reading ReadStop.Read → S.faults input.new ≡ S.faults input.old) }
    ensures disk_unmoved_err { IfErr result.0 (λ stop. is_disk_fault stop ≡ false → D.faults result.1 ≡ D.faults disk) }
    ensures sink_unmoved_err { IfErr result.0 (λ stop. stop ≢ SessionStop.Filing FileStop.Write → K.faults out.new ≡ K.faults out.old) }
    ensures source_later { S.faults input.old ≤ S.faults input.new }
    ensures sink_later { K.faults out.old ≤ K.faults out.new }
    ensures disk_later { D.faults disk ≤ D.faults result.1 }
    ensures source_honest { S.honest input.new ≡ S.honest input.old }
    ensures sink_honest { K.honest out.new ≡ K.honest out.old }
    ensures disk_honest { (D.tells result.1).honest ≡ (D.tells disk).honest }
{
    match read_input::<S>(alloc, input) {
        Ok(text) => answer_headed::<D, K, R, P>(alloc, disk, plan, text, out),
        Err(stop) => (Err(SessionStop::Reading(stop)), disk),
    }
}
