//! What a plan names is opened, its task is performed, and the program ends. Of the real outside nothing is promised here.
ghost use Rattle.std.specs.Prelude.{◌≡◌, IfOk, length, map, string_bytes};
ghost use Rattle.run_program.specs.Requests.{IsOfSheet, IsReading, TakesRequest};

use crate::calls::perform;
use crate::task::{KnownPolicies, Task};
use crate::usage::{AUDIT, OFFICE, usage_of};
use aid_stamps::Stamp;
use aid_types::School;
use io_host::{
    HostAcceptor, HostDisk, HostDiskToRead, HostReader, HostWriter, fill_streams, is_born,
    keep_in_folder, open_input, open_journal, say, take, take_to_read, words_of,
};
use io_traits::Sink;
use law_funds::{Rule, level, quarter, standard};
use log_journal::OpenError;
use log_runs::{RunStop, end};
use log_session::ReadStop;
use run_builds::AmendRequest;
use run_office::DeskInput;
use run_plan::{JournalPlan, Opening, Plan, Program, desk_files, plan_of};
use run_rules::RuleDeskInput;
use run_words::{MainRow, amend_request, changes_file, upgrade_file};
use std::alloc::{AllocError, Global};
use std::fs::{File, metadata};
use std::io;
use std::io::ErrorKind;
use std::net::{Ipv4Addr, Net, TcpListener, TcpStream};
use std::process::ExitCode;
use std::sync::Wait;
use std::thread::Threads;
use std::time::Clock;
use work_study::SchoolPolicies;

// A task over the real outside.
type HostTask<'a, H> = Task<HostDisk, HostDiskToRead, HostReader<File>, HostAcceptor<'a, H>>;

// The schools that have a policy of work-study, the first by level and the other by quarter.
const SCHOOLS: [School; 2] = [School(101), School(102)];

// Why nothing is done: what is wrong was said on standard error, or the run tells it in its last line.
enum NotOpened {
    Said,
    Told(RunStop),
}

// Want of memory.
fn no_memory() -> RunStop {
    RunStop::File(ReadStop::NoMemory.into())
}

// A fault of the disk.
fn disk_fault() -> RunStop {
    RunStop::File(OpenError::DiskFault.into())
}

// A file that was opened. Where it couldn't be, standard error says so.
fn said_open(rt: &HostRuntime, what: &str, opened: io::Result<File>) -> Result<File, NotOpened> {
    match opened {
        Ok(file) => Ok(file),
        Err(error) => {
            let _ = eprintln!(rt; "{what} can't be opened: {error}");
            Err(NotOpened::Said)
        }
    }
}

// The journal of a path, opened as the plan has it.
fn open_disk(rt: &HostRuntime, path: String, opening: Opening) -> Result<HostDisk, NotOpened> {
    let file = said_open(rt, "the journal", open_journal(rt, path.as_str()))?;
    let is_held = matches!(opening, Opening::Hold | Opening::Found);
    if is_held && !take(rt, &file) {
        return Err(NotOpened::Said);
    }
    // Of a file that can't be read its folder is synced, and the run tells of the fault.
    let is_to_be_founded = matches!(opening, Opening::Found) && !is_born(&file).unwrap_or(false);
    if is_to_be_founded && keep_in_folder(rt, path.as_str()).is_err() {
        say(rt, "the journal's folder can't be written for good");
        return Err(NotOpened::Said);
    }
    Ok(HostDisk::at_path(rt, file, path))
}

// The file of a path, to read alone.
fn open_to_read(rt: &HostRuntime, what: &str, path: &str) -> Result<HostDiskToRead, NotOpened> {
    // (a pipe that nobody writes would be waited for as it is opened)
    if metadata(rt, path).is_ok_and(|there| !there.is_file()) {
        let _ = eprintln!(rt; "{what} can't be opened: it is no regular file");
        return Err(NotOpened::Said);
    }
    let file = said_open(rt, what, File::open(rt, path))?;
    if take_to_read(rt, &file) {
        Ok(HostDiskToRead::new(file))
    } else {
        Err(NotOpened::Said)
    }
}

// The file from which a desk reads.
fn open_desk(rt: &HostRuntime, path: &str) -> Result<HostReader<File>, NotOpened> {
    match open_input(rt, path) {
        Some(input) => Ok(input),
        None => Err(NotOpened::Told(RunStop::File(ReadStop::Read.into()))),
    }
}

// The inputs of desks of the aid office, one for each file in order, which file under one stamp.
fn open_desks(
    rt: &HostRuntime,
    paths: &[String],
    stamp: &Stamp,
) -> Result<Vec<DeskInput<HostReader<File>>>, NotOpened>
    ensures { IfOk result (λ desks. length desks.items ≡ length paths.now) }
{
    let mut desks = Vec::new(rt.alloc());
    for path in paths {
        let input = open_desk(rt, path.as_str())?;
        let desk = DeskInput {
            input,
            stamp: *stamp,
        };
        if desks.push(desk).is_err() {
            return Err(NotOpened::Told(no_memory()));
        }
    }
    Ok(desks)
}

// The inputs of loan desks, one for each file in order.
fn open_loan_desks(
    rt: &HostRuntime,
    paths: &[String],
) -> Result<Vec<RuleDeskInput<HostReader<File>>>, NotOpened>
    ensures { IfOk result (λ desks. length desks.items ≡ length paths.now) }
{
    let mut desks = Vec::new(rt.alloc());
    for path in paths {
        let input = open_desk(rt, path.as_str())?;
        if desks.push(RuleDeskInput { input }).is_err() {
            return Err(NotOpened::Told(no_memory()));
        }
    }
    Ok(desks)
}

// The listener of a port of this machine alone.
fn listen<H: Net<Listener = TcpListener, Stream = TcpStream>>(
    host: &H,
    port: u16,
) -> Result<TcpListener, NotOpened> {
    match TcpListener::bind(host, (Ipv4Addr::LOCALHOST, port)) {
        Ok(listener) => Ok(listener),
        Err(_) => Err(NotOpened::Told(RunStop::Socket)),
    }
}

// The ports of so many workers, which take their connections from one listener.
fn ports_of<'a, H: Clock>(
    host: &'a H,
    alloc: Global,
    listener: &'a TcpListener,
    workers: u8,
) -> Result<Vec<HostAcceptor<'a, H>>, NotOpened>
    ensures { IfOk result (λ ports. length ports.items ≡ workers) }
{
    let mut ports = Vec::new(alloc);
    for _ in 0..workers {
        if ports.push(HostAcceptor::new(host, listener)).is_err() {
            return Err(NotOpened::Told(no_memory()));
        }
    }
    Ok(ports)
}

// The task of a run of the aid office, or of its desks, or of a copy.
fn office_task<'a, H>(
    rt: &HostRuntime,
    disk: HostDisk,
    row: MainRow,
    words: &[String],
) -> Result<HostTask<'a, H>, NotOpened> {
    match row {
        MainRow::Desks { stamp, .. } => Ok(Task::OfficeDesks {
            disk,
            desks: open_desks(rt, desk_files(words), &stamp)?,
        }),
        MainRow::Upgrade => {
            let from = upgrade_file(words).unwrap_or("");
            Ok(Task::Upgrade {
                source: open_to_read(rt, from, from)?,
                target: disk,
            })
        }
        MainRow::Amend => amend_task(rt, disk, words),
        MainRow::Run | MainRow::Serve { .. } | MainRow::Changes => Ok(Task::Office(disk)),
    }
}

// The task of an amendment: its stamp and its number are those that the words say. Other words have none.
fn amend_task<'a, H>(
    rt: &HostRuntime,
    disk: HostDisk,
    words: &[String],
) -> Result<HostTask<'a, H>, NotOpened>
    ensures { IfOk result (TakesRequest (map string_bytes words.now)) }
{
    match amend_request(words) {
        Some((stamp, from, number)) => Ok(Task::Amend {
            source: open_to_read(rt, from, from)?,
            target: disk,
            request: AmendRequest { stamp, number },
        }),
        None => Ok(Task::Office(disk)),
    }
}

// The task of a sheet, or of a comparison with the journal that the words name.
fn sheet_task<'a, H>(
    rt: &HostRuntime,
    path: &str,
    words: &[String],
) -> Result<HostTask<'a, H>, NotOpened>
    ensures { IfOk result (IsOfSheet (map string_bytes words.now)) }
{
    let new = open_to_read(rt, "the journal", path)?;
    match changes_file(words) {
        Some(from) => Ok(Task::Changes {
            old: open_to_read(rt, from, from)?,
            new,
        }),
        None => Ok(Task::Sheet(new)),
    }
}

// The task of a text of a journal that is read alone: a sheet, or a text of a desk's list.
fn reading_task<'a, H>(
    rt: &HostRuntime,
    program: Program,
    path: &str,
    words: &[String],
) -> Result<HostTask<'a, H>, NotOpened>
    ensures { IfOk result (IsReading program (map string_bytes words.now)) }
{
    match program {
        Program::Loans => Ok(Task::LoanSheet(open_to_read(rt, "the journal", path)?)),
        Program::Work => Ok(Task::WorkSheet(open_to_read(rt, "the journal", path)?)),
        Program::Office | Program::Sheet => sheet_task(rt, path, words),
    }
}

// The task of a run of the loan desk, or of several.
fn loan_task<'a, H>(
    rt: &HostRuntime,
    disk: HostDisk,
    row: MainRow,
    words: &[String],
) -> Result<HostTask<'a, H>, NotOpened> {
    match row {
        MainRow::Desks { .. } => Ok(Task::LoanDesks {
            disk,
            desks: open_loan_desks(rt, desk_files(words))?,
        }),
        MainRow::Run | MainRow::Serve { .. } => Ok(Task::Loans(disk)),
        MainRow::Upgrade | MainRow::Amend | MainRow::Changes => Ok(Task::Loans(disk)),
    }
}

// Opens what the plan names, and performs its task.
fn run_plan<
    H: Net<Listener = TcpListener, Stream = TcpStream> + Clock + Threads + Wait + Sync,
    K: Sink,
>(rt: &HostRuntime, host: &H, plan: JournalPlan, out: &mut K) -> Result<u8, NotOpened> {
    let JournalPlan {
        program,
        path,
        words,
        row,
        opening,
    } = plan;
    if let Opening::Read = opening {
        let task = reading_task(rt, program, path.as_str(), &words)?;
        return Ok(perform_host(rt, host, task, &words, out));
    }
    let disk = open_disk(rt, path, opening)?;
    if let MainRow::Serve {
        port,
        workers,
        sessions,
        stamp,
    } = row
    {
        let listener = listen(host, port)?;
        let task = Task::Serve {
            disk,
            ports: ports_of(host, rt.alloc(), &listener, workers)?,
            sessions,
            stamp,
        };
        return Ok(perform_host(rt, host, task, &words, out));
    }
    let task = match program {
        Program::Office => office_task(rt, disk, row, &words)?,
        Program::Loans => loan_task(rt, disk, row, &words)?,
        Program::Work | Program::Sheet => Task::Work(disk),
    };
    Ok(perform_host(rt, host, task, &words, out))
}

// Performs a task over the standard input, with both policies by their names, and each at its school.
fn perform_with_policies<
    'a,
    H: Net<Listener = TcpListener, Stream = TcpStream> + Clock + Threads + Wait + Sync,
    K: Sink,
>(
    rt: &HostRuntime,
    host: &'a H,
    task: HostTask<'a, H>,
    words: &Vec<String>,
    out: &mut K,
) -> Result<u8, AllocError> {
    let alloc = rt.alloc();
    let level_rule: Rule = Box::new(
        alloc,
        |need: u32, sai: i32, intensity: u8| level(need, sai, intensity),
    )?;
    let quarter_rule: Rule = Box::new(
        alloc,
        |need: u32, sai: i32, intensity: u8| quarter(need, sai, intensity),
    )?;
    let school_level: Rule = Box::new(
        alloc,
        |need: u32, sai: i32, intensity: u8| level(need, sai, intensity),
    )?;
    let school_quarter: Rule = Box::new(
        alloc,
        |need: u32, sai: i32, intensity: u8| quarter(need, sai, intensity),
    )?;
    let office = standard(alloc, level_rule, quarter_rule)?;
    let by_school = standard(alloc, school_level, school_quarter)?;
    let mut list = Vec::new(alloc);
    for (school, policy) in SCHOOLS.iter().zip(by_school.list) {
        list.push((*school, policy))?;
    }
    let known = KnownPolicies {
        office,
        schools: SchoolPolicies::new(list),
    };
    let mut input = HostReader::new(rt.stdin());
    Ok(perform(host, alloc, task, words, &known, &mut input, out).0)
}

// Performs a task, and answers the status.
fn perform_host<
    'a,
    H: Net<Listener = TcpListener, Stream = TcpStream> + Clock + Threads + Wait + Sync,
    K: Sink,
>(rt: &HostRuntime, host: &'a H, task: HostTask<'a, H>, words: &Vec<String>, out: &mut K) -> u8 {
    match perform_with_policies(rt, host, task, words, out) {
        Ok(status) => status,
        Err(_) => end(Err(no_memory()), out),
    }
}

// The status, which standard error explains where it is 2.
fn told(rt: &HostRuntime, usage: &str, status: u8) -> u8 {
    if status == RunStop::Usage.status() {
        say(rt, usage);
    }
    status
}

// Carries out a plan, and answers the status.
fn carry_out<
    H: Net<Listener = TcpListener, Stream = TcpStream> + Clock + Threads + Wait + Sync,
    K: Sink,
>(rt: &HostRuntime, host: &H, plan: Plan, out: &mut K) -> u8 {
    match plan {
        Plan::NoJournal(program) => told(rt, usage_of(program), RunStop::Usage.status()),
        Plan::Audit(words) => told(rt, AUDIT, perform_host(rt, host, Task::Audit, &words, out)),
        Plan::Journal(plan) => {
            let usage = usage_of(plan.program);
            match run_plan(rt, host, plan, out) {
                Ok(status) => told(rt, usage, status),
                Err(NotOpened::Said) => disk_fault().status(),
                Err(NotOpened::Told(stop)) => end(Err(stop), out),
            }
        }
    }
}

/// Runs the program by the words behind its name, and answers its status.
pub fn start<H: Net<Listener = TcpListener, Stream = TcpStream> + Clock + Threads + Wait + Sync>(
    rt: &HostRuntime,
    host: &H,
) -> ExitCode {
    let Ok(_streams) = fill_streams(rt) else {
        say(rt, "the program may open too few files at once");
        return ExitCode::from(disk_fault().status());
    };
    let mut out = HostWriter::new(rt.stdout());
    let status = match words_of(rt) {
        Ok(words) => carry_out(rt, host, plan_of(words), &mut out),
        Err(error) if error.kind() == ErrorKind::OutOfMemory => end(Err(no_memory()), &mut out),
        // A word that is no text is no row of words.
        Err(_) => told(rt, OFFICE, end(Err(RunStop::Usage), &mut out)),
    };
    ExitCode::from(status)
}
