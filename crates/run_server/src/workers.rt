// Ports become workers of the office, and workers ports again.
ghost use Rattle.std.specs.Prelude.{◌≡◌, ◌+◌, ◌≤◌, [], ◌++◌, IfOk, OnOk, OnErr, length, map, vec_capacity, vec_len};
ghost use Rattle.std.specs.List.{list_any};
ghost use Rattle.web_workers.specs.Workers.{ports_of, worker_of};
ghost use Rattle.run_server.specs.RanWeb.{has_failed, web_end as web_end_of};

use log_runs::RunStop;
use log_session::{FileStop, SessionStop};
use office_log::StampedOfficeMachine;
use std::alloc::{AllocError, Global};
use web_session::Acceptor;
use web_workers::{WebEnd, Worker};

/// A worker of the office.
type OfficeWorker<P> = Worker<StampedOfficeMachine, P>;

/// Takes the ports out of the vector, and makes a worker of each. Where there is no memory they stay there.
pub fn into_workers<P: Acceptor>(
    alloc: Global,
    ports: &mut Vec<P>,
) -> Result<Vec<OfficeWorker<P>>, AllocError>
    ensures workers { IfOk result (λ workers. workers.items ≡ map worker_of ports.old.items) }
    ensures count { IfOk result (λ workers. length workers.items ≡ length ports.old.items) }
    ensures emptied { OnOk result (ports.new.items ≡ []) }
    ensures room { OnOk result (length ports.old.items ≤ vec_capacity ports.new) }
    ensures same { OnErr result (ports.new ≡ ports.old) }
{
    let mut workers = Vec::with_capacity(alloc, ports.len())?;
    while let Some(port) = ports.pop() {
        workers.push_reserved(Worker::new(port));
    }
    workers.reverse();
    Ok(workers)
}

/// Puts the ports of these workers behind those in the vector, in order.
pub fn give_back<P: Acceptor>(workers: Vec<OfficeWorker<P>>, ports: &mut Vec<P>)
    requires room { vec_len ports.old + length workers.items ≤ vec_capacity ports.old }
    ensures { ports.new.items ≡ ports.old.items ++ ports_of workers.items }
{
    let mut rest = workers;
    rest.reverse();
    while let Some(worker) = rest.pop() {
        ports.push_reserved(worker.into_port());
    }
    rest.destroy_empty();
}

// Whether the worker's port failed.
fn is_failed<P: Acceptor>(worker: &OfficeWorker<P>) -> bool
    ensures { result ≡ has_failed worker.now.ended }
{
    matches!(worker.ended(), WebEnd::AcceptorFault)
}

// Whether a session of a worker ended for want of memory.
fn any_starved<P: Acceptor>(workers: &[OfficeWorker<P>]) -> bool
    ensures { result ≡ list_any (λ d. d.starved) workers.now }
{
    workers.iter().any(|worker| worker.is_starved())
}

// Whether the port of a worker failed.
fn any_failed<P: Acceptor>(workers: &[OfficeWorker<P>]) -> bool
    ensures { result ≡ list_any (λ d. has_failed d.ended) workers.now }
{
    workers.iter().any(|worker| is_failed(worker))
}

/// How the run ends once the workers have served.
pub fn web_end<P: Acceptor>(workers: &[OfficeWorker<P>]) -> Result<(), RunStop>
    ensures { result ≡ web_end_of workers.now }
{
    if any_starved(workers) {
        return Err(RunStop::File(SessionStop::Filing(FileStop::NoMemory)));
    }
    if any_failed(workers) {
        return Err(RunStop::Socket);
    }
    Ok(())
}
