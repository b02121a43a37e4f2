//! Filings into an office.

use crate::desk::Desk;
use crate::filings::prior;
use crate::long::file_long;
use crate::tally::Tally;
use crate::words::Order;
use crate::year::{file_kinds, file_students};
use aid_types::Student;
use std::alloc::{AllocError, Global};

// A student of the generated year files four times at most, and one in sixteen a fifth time: fewer than four on average.
const FILINGS_OF_STUDENT: u32 = 4;

/// Files about so many filings into so many offices, one after the other, and answers what came of the last one: how many were
/// accepted and refused, the Pell paid and the schools' returns. All offices are kept until then, so that each takes memory of
/// its own, as one in a program of its own does.
pub fn file_offices(
    alloc: Global,
    order: Order,
    filings: u32,
    offices: u32,
) -> Result<Tally, AllocError> {
    let mut tally = Tally::default();
    let mut desks = Vec::new(alloc);
    for _ in 0..offices {
        let desk = file_office(alloc, order, filings)?;
        tally = desk.tally;
        desks.push(desk)?;
    }
    Ok(tally)
}

// An office of its own, into which was filed.
fn file_office(alloc: Global, order: Order, filings: u32) -> Result<Desk, AllocError> {
    let mut desk = Desk::new(alloc);
    desk.reserve(filings)?;
    file(&mut desk, alloc, order, filings)?;
    Ok(desk)
}

// Files in an order.
fn file(desk: &mut Desk, alloc: Global, order: Order, filings: u32) -> Result<(), AllocError> {
    match order {
        Order::Students => file_students(desk, alloc, filings / FILINGS_OF_STUDENT),
        Order::Kinds => file_kinds(desk, alloc, filings / FILINGS_OF_STUDENT),
        Order::One => file_long(desk, alloc, filings),
        Order::Priors => file_priors(desk, filings),
    }
}

// Files a prior use of each of so many students.
fn file_priors(desk: &mut Desk, students: u32) -> Result<(), AllocError> {
    for student in 1..=students {
        let number = u64::from(student);
        desk.file(0, number, prior(Student(number)))?;
    }
    Ok(())
}
