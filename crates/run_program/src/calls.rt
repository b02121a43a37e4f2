//! The one call of the program.
ghost use Rattle.std.specs.Prelude.{map, string_bytes};
ghost use Rattle.run_office.specs.Rounds.{gives_at};
ghost use Rattle.work_rounds.specs.Plans.{policies_give};
ghost use Rattle.run_program.specs.Performed.{Performed};

use crate::task::{KnownPolicies, Task};
use audit::run_audit;
use desk_sheets::run_desk_sheets;
use io_traits::{Disk, NoSyncPoint, Sink, Source};
use law_funds::Rule;
use loans::Loans;
use run_builds::{amend, changes, upgrade};
use run_office::{run, run_desks};
use run_rules::{run_ruled, run_ruled_desks};
use run_server::run_web;
use run_sheets::run_sheets;
use std::alloc::Global;
use std::sync::Wait;
use std::thread::Threads;
use web_session::Acceptor;
use work_rounds::run_work;
use work_study::WorkStudy;

/// Performs a task, and answers the status, and what was opened as it is then. `words` are those that the task's run reads, and
/// `input` is the one input of a run that has no desks. Which status it is, what is written and what becomes of the journal is that
/// which the task's own call says: `run`, `run_desks`, `run_web`, `upgrade`, `amend`, `run_ruled`, `run_ruled_desks`, `run_work`,
/// `run_sheets`, `run_desk_sheets`, `changes` or `run_audit`.
pub fn perform<
    D: Disk + Send,
    B: Disk,
    S: Source,
    F: Source,
    P: Acceptor + Send,
    K: Sink,
    H: Threads + Wait + Sync,
>(
    rt: &H,
    alloc: Global,
    task: Task<D, B, F, P>,
    words: &Vec<String>,
    known: &KnownPolicies,
    input: &mut S,
    out: &mut K,
) -> (u8, Task<D, B, F, P>)
where
    P::Connection: Send,
    ensures { Performed (map (λ p. p.name) known.now.office.list.items) (gives_at known.now.office.list.items (λ p. ⟦<Rule as Fn(u32, i32, u8) -> u32>⟧.post p.rule))
        known.now.schools.list.items (policies_give known.now.schools.list.items (λ policy. ⟦<Rule as Fn(u32, i32, u8) -> u32>⟧.post policy.rule))
        (record { disk = D.Disk; to_read = B.Disk; desk = F.Source; port = P.tells; port_faults = P.faults; sink = K.Sink })
        (S.faults input.old, S.faults input.new) (record { honest = S.honest input.old; before = S.left input.old; after = S.left input.new })
        (map string_bytes words.now.items) out.old out.new task result.1 result.0 }
{
    match task {
        Task::Office(disk) => {
            let (status, disk) = run(alloc, words, disk, input, out, &known.office);
            (status, Task::Office(disk))
        }
        Task::OfficeDesks { disk, mut desks } => {
            let (status, disk) = run_desks(rt, alloc, &mut desks, disk, &NoSyncPoint, out);
            (status, Task::of_desks(disk, desks))
        }
        Task::Serve {
            disk,
            mut ports,
            sessions,
            stamp,
        } => {
            let under = stamp;
            let (status, disk) = run_web(rt, alloc, &mut ports, sessions, under, disk, out);
            (status, Task::of_server(disk, ports, sessions, stamp))
        }
        Task::Upgrade { source, target } => {
            let (status, source, target) = upgrade(alloc, source, target, out);
            (status, Task::Upgrade { source, target })
        }
        Task::Amend {
            source,
            target,
            request,
        } => {
            let under = request;
            let (status, source, target) = amend(alloc, under, source, target, input, out);
            (status, Task::of_amendment(source, target, request))
        }
        Task::Loans(disk) => {
            let (status, disk) = run_ruled::<D, S, K, Loans>(alloc, words, disk, input, out);
            (status, Task::Loans(disk))
        }
        Task::LoanDesks { disk, mut desks } => {
            let (status, disk) = run_ruled_desks::<D, F, NoSyncPoint, K, H, Loans>(
                rt,
                alloc,
                &mut desks,
                disk,
                &NoSyncPoint,
                out,
            );
            (status, Task::of_loan_desks(disk, desks))
        }
        Task::Work(disk) => {
            let (status, disk) = run_work(alloc, words, disk, input, out, &known.schools);
            (status, Task::Work(disk))
        }
        Task::Sheet(disk) => {
            let (status, disk) = run_sheets(alloc, words, disk, out);
            (status, Task::Sheet(disk))
        }
        Task::LoanSheet(disk) => {
            let (status, disk) = run_desk_sheets::<B, K, Loans>(alloc, words, disk, out);
            (status, Task::LoanSheet(disk))
        }
        Task::WorkSheet(disk) => {
            let (status, disk) = run_desk_sheets::<B, K, WorkStudy>(alloc, words, disk, out);
            (status, Task::WorkSheet(disk))
        }
        Task::Changes { old, new } => {
            let (status, old, new) = changes(alloc, old, new, out);
            (status, Task::Changes { old, new })
        }
        Task::Audit => (run_audit(alloc, words, input, out), Task::Audit),
    }
}
