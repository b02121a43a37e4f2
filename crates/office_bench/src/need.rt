//! Need and award: the awards of a fixed sequence of applications.

use crate::applications::Sequence;
use aid_books::Book;
use aid_types::Application;
use law_pell::decide;
use law_sai::index;
use specimen::specimen_book;
use std::alloc::{AllocError, Global};

const APPLICATIONS: u32 = 1000;

const ROUNDS: u32 = 1000;

/// The awards of so many applications, worked out so many times over, as one sum.
pub fn sum_of_rounds(alloc: Global) -> Result<u64, AllocError> {
    let book = specimen_book();
    let applications = applications(alloc, APPLICATIONS)?;
    let mut total: u64 = 0;
    for _ in 0..ROUNDS {
        total = total.wrapping_add(sum_of_awards(&book, applications.as_slice()));
    }
    Ok(total)
}

// The first applications of the sequence.
fn applications(alloc: Global, count: u32) -> Result<Vec<Application>, AllocError> {
    let mut sequence = Sequence::new();
    let mut applications = Vec::new(alloc);
    for _ in 0..count {
        applications.push(sequence.application())?;
    }
    Ok(applications)
}

// The sum of their Scheduled Awards and final indexes, in a number that wraps.
fn sum_of_awards(book: &Book, applications: &[Application]) -> u64 {
    let mut total: u64 = 0;
    for a in applications {
        let decision = decide(book, a, index(book, a).index);
        total = total
            .wrapping_add(u64::from(decision.scheduled))
            .wrapping_add(u64::from(decision.sai.unsigned_abs()));
    }
    total
}
