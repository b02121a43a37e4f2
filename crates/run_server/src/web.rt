// The web desk of the office: ports whose connections are served at once.
ghost use Rattle.std.specs.Prelude.{◌≡◌, ◌≤◌, ◌<◌, [], false, true, ℕ, List, IsTrue, Err, None, IfOk, IfErr, length, map};
ghost use Rattle.std.specs.List.{All};
ghost use Rattle.aid_filings.specs.declared.filing.Filing.{Filing};
ghost use Rattle.io_traits.specs.DiskState.{EachImage, IsHonest};
ghost use Rattle.log_stamps.specs.Entries.{entries};
ghost use Rattle.log_stamps.specs.declared.entry.StampedEntry.{StampedEntry};
ghost use Rattle.office_history.specs.Within.{IsWithinEveryLimit};
ghost use Rattle.run_claims.specs.Office.{Recovers};
ghost use Rattle.web_workers.specs.Workers.{ports_of, worker_of};
ghost use Rattle.run_server.specs.RanPorts.{RanPorts};
ghost use Rattle.run_server.specs.RanWeb.{CanServe, RanWeb, web_end as web_end_of};

use crate::workers::{give_back, into_workers, web_end};
use aid_filings::{Operation, Response};
use aid_stamps::Stamp;
use io_traits::{Disk, Sink};
use log_machine::LogReply;
use log_runs::{RunStop, end};
use log_session::{FileStop, open};
use office_log::{OfficeMachine, StampedOfficeMachine};
use std::alloc::{AllocError, Global};
use std::marker::Brand;
use std::sync::Wait;
use std::thread::Threads;
use web_json::{ask_of, status_of, text_of};
use web_session::{Acceptor, ApiCall, Status};
use web_workers::{MachineApi, serve_ports};

/// At most so many ports are served at once.
const MOST_DESKS: usize = 16;

/// A port hands out at most so many connections.
const MOST_SESSIONS: u32 = 1_000_000;

/// How the office's asks are read from requests, and its replies written. No value of it is made.
pub struct OfficeApi;

impl MachineApi<OfficeMachine> for OfficeApi {
    ghost use Rattle.run_server.specs.OfficeApi.{office_web};
    ghost use Rattle.run_server.specs.WebLaws.{created, unavailable};

    ghost scheme = { office_web };

    ghost unavailable = { unavailable };

    ghost created = { created };

    fn read(alloc: Global, call: ApiCall, body: &[u8]) -> Result<Option<Operation>, AllocError> {
        ask_of(alloc, call, body)
    }

    fn status(reply: &LogReply<Response>) -> Status {
        status_of(reply)
    }

    fn write(alloc: Global, reply: &LogReply<Response>) -> Result<Vec<u8>, AllocError> {
        text_of(alloc, reply)
    }
}

// Whether so many ports can be served at once, so many connections each.
fn can_serve(ports: usize, sessions: u32) -> bool
    ensures no { result ≡ false → CanServe ports sessions → ⊥ }
    ensures yes { result ≡ true → CanServe ports sessions }
{
    0 < ports && ports <= MOST_DESKS && 0 < sessions && sessions <= MOST_SESSIONS
}

// The run, by how it ended.
fn serve<D: Disk + Send, P: Acceptor + Send, K: Sink, H: Threads + Wait + Sync>(
    rt: &H,
    alloc: Global,
    ports: &mut Vec<P>,
    sessions: u32,
    stamp: Stamp,
    disk: D,
    out: &mut K,
) -> (u8, D)
where
    P::Connection: Send,
    ensures { RanWeb D.Disk K.Sink P.tells P.faults sessions stamp disk result.1 ports.old.items ports.new.items out.old out.new result.0 }
{
    if !can_serve(ports.len(), sessions) {
        return (end(Err(RunStop::Usage), out), disk);
    }
    let kept = match open::<D, StampedOfficeMachine>(alloc, disk) {
        Ok(kept) => kept,
        Err((error, disk)) => return (end(Err(RunStop::File(error.into())), out), disk),
    };
    let starved = RunStop::File(FileStop::NoMemory.into());
    let Ok(mut workers) = into_workers(alloc, ports) else {
        return (end(Err(starved), out), kept.into_disk());
    };
    match serve_ports::<D, OfficeMachine, Brand, OfficeApi, P, H>(
        rt,
        alloc,
        kept,
        sessions,
        stamp,
        &mut workers,
    ) {
        Ok((kept, _)) => {
            let status = end(web_end(&workers), out);
            give_back(workers, ports);
            (status, kept.into_disk())
        }
        Err(kept) => {
            give_back(workers, ports);
            (end(Err(starved), out), kept.into_disk())
        }
    }
}

/// Serves the office of the disk's file over these ports, and answers the status and the disk as it is then. So many
/// connections of each port are served, one after the other, while the others' are; it ends early only where the port fails.
/// A port's number is its place, counted from 1. One stamp is that of all filings that join by any of the connections.
/// Afterwards the ports stand in the vector as before.
///
/// The status is 2 where there is no port or more than 16, or where `sessions` is 0 or above 1,000,000, and 4, 5, 6, 7 and 9
/// as that of `run`, up to the opened journal. It is 9 with no call made on a port where there is no memory to begin, and once
/// the ports were served 9 where a session ended for want of memory, else 10 where a port failed, else 0; and 4 where the line
/// that says so can't be written.
pub fn run_web<D: Disk + Send, P: Acceptor + Send, K: Sink, H: Threads + Wait + Sync>(
    rt: &H,
    alloc: Global,
    ports: &mut Vec<P>,
    sessions: u32,
    stamp: Stamp,
    disk: D,
    out: &mut K,
) -> (u8, D)
where
    P::Connection: Send,
    // The headline, in few words. Over an honest disk each image of which recovers a history, and over honest ports: each request that
    // was answered 201 or 200 `again` is one whose filing stands, at the position that it was told, in the history at the end; what joined has
    // the stamp; and each image at each moment recovers what stood, with what joined up to then. Where any request was answered 507, at
    // least as many as there are ports were answered 200, 201, 422 or 503. What a file recovers is one history at most, in which no
    // student stands above a limit.
    ensures headline { (past : List (StampedEntry Filing)) → IsHonest (D.tells disk) → All (λ p. IsTrue (P.tells p).honest) ports.old.items → EachImage (D.tells disk) (λ file. Recovers file past)
        → RanPorts P.tells stamp sessions past (D.tells disk) (D.tells result.1) ports.old.items ports.new.items result.0 }
    ensures within { (file : List ℕ) (history : List (StampedEntry Filing)) → Recovers file history → IsWithinEveryLimit (entries history) }
    ensures one { (file : List ℕ) (history other : List (StampedEntry Filing)) → Recovers file history → Recovers file other → history ≡ other }
    ensures disk_honest { (D.tells result.1).honest ≡ (D.tells disk).honest }

    // All that a run does, by how it ended: the journal, the connections of each port, the counts, and the status.
    ensures ran { RanWeb D.Disk K.Sink P.tells P.faults sessions stamp disk result.1 ports.old.items ports.new.items out.old out.new result.0 }
{
    serve(rt, alloc, ports, sessions, stamp, disk, out)
}
