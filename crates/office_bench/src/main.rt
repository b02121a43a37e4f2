//! What the scripts of `bench/` time, by the first word: filings into an office, the awards of applications, the text of a book,
//! or the payloads of a journal.
#![tactic(auto)]

mod applications;
mod book;
mod desk;
mod filings;
mod generator;
mod journal;
mod long;
mod need;
mod office;
mod tally;
mod words;
mod year;

use crate::book::print_book;
use crate::journal::{count_of, fill};
use crate::need::sum_of_rounds;
use crate::office::file_offices;
use crate::words::{Task, task_of};
use std::{env, io};

const USAGE: &str = "usage: office_bench office students|kinds|one|priors FILINGS OFFICES
       office_bench need
       office_bench book ROUNDS < BOOK.toml
       office_bench journal PATH COUNT
       office_bench open PATH";

fn main(rt: HostRuntime) -> io::Result<()> {
    let words: Vec<String> = env::args(&rt)?.skip(1).collect(rt.alloc())?;
    match task_of(&words) {
        Some(task) => run(&rt, task),
        None => {
            eprintln!(rt; "{USAGE}")?;
            Err(io::ErrorKind::InvalidInput.into())
        }
    }
}

// Does a task, and prints what it comes to.
fn run(rt: &HostRuntime, task: Task) -> io::Result<()> {
    match task {
        Task::Office {
            order,
            filings,
            offices,
        } => {
            let tally = file_offices(rt.alloc(), order, filings, offices)?;
            println!(rt; "{tally}")
        }
        Task::Need => {
            let total = sum_of_rounds(rt.alloc())?;
            println!(rt; "{total}")
        }
        Task::Book { rounds } => print_book(rt, rounds),
        Task::Journal { path, count } => {
            fill(rt, path, count)?;
            println!(rt; "{count}")
        }
        Task::Open { path } => {
            let count = count_of(rt, path)?;
            println!(rt; "{count}")
        }
    }
}
