// What the verdicts of a generated year come to.
ghost use Rattle.std.specs.Prelude.{◌≡◌, ◌≤◌, ◌++◌, OnOk};
ghost use Rattle.aid_types.specs.Cents.{fraction_text};
ghost use Rattle.aid_types.specs.Whole.{natural_text};
ghost use Rattle.run_generate.specs.Counted.{accepted_by as accepted_by_of, accepts as accepts_of, count_line, paid_by as paid_by_of, refused_by as refused_by_of, refuses as refuses_of, returned_by as returned_by_of, sum_line};

use crate::YearResponse;
use aid_filings::{Outcome, Response};
use itoa::Buffer;
use log_machine::StateMachine;
use log_session::Tally;
use std::alloc::AllocError;

/// How many rows of a year were accepted and refused, and the cents of the Pell payments and of the schools' returns that
/// were accepted in this run.
#[derive(Clone, Copy)]
pub struct YearTally {
    pub accepted: u32,
    pub refused: u32,
    pub paid: u128,
    pub returned: u128,
}

impl YearTally {
    /// A tally of no verdicts.
    pub const EMPTY: YearTally = YearTally {
        accepted: 0,
        refused: 0,
        paid: 0,
        returned: 0,
    };
}

fn accepts(response: &Response) -> u32
    ensures value { result ≡ accepts_of response.now }
    ensures one { result ≤ 1 }
{
    match response {
        Response::Admit(_) | Response::Again { .. } => 1,
        _ => 0,
    }
}

fn refuses(response: &Response) -> u32
    ensures value { result ≡ refuses_of response.now }
    ensures one { result ≤ 1 }
{
    match response {
        Response::Refused(_) => 1,
        _ => 0,
    }
}

fn accepted_by(response: &YearResponse) -> u32
    ensures value { result ≡ accepted_by_of response.now }
    ensures one { result ≤ 1 }
{
    match response {
        YearResponse::Filed(response) | YearResponse::Paid { response, .. } => accepts(response),
        YearResponse::NothingToPay => 0,
    }
}

fn refused_by(response: &YearResponse) -> u32
    ensures value { result ≡ refused_by_of response.now }
    ensures one { result ≤ 1 }
{
    match response {
        YearResponse::Filed(response) | YearResponse::Paid { response, .. } => refuses(response),
        YearResponse::NothingToPay => 0,
    }
}

fn paid_by(response: &YearResponse) -> u64
    ensures { result ≡ paid_by_of response.now }
{
    match response {
        YearResponse::Paid {
            cents,
            response: Response::Admit(_),
        } => *cents,
        _ => 0,
    }
}

fn returned_by(response: &YearResponse) -> u64
    ensures { result ≡ returned_by_of response.now }
{
    match response {
        YearResponse::Filed(Response::Admit(Outcome::Returned { school, .. })) => *school,
        _ => 0,
    }
}

// Appends the line of a count.
fn put_count(name: &[u8], count: u32, out: &mut Vec<u8>) -> Result<(), AllocError>
    ensures { OnOk result (out.new.items ≡ out.old.items ++ count_line name.now count) }
{
    let mut digits = Buffer::new();
    out.extend_from_slice(name)?;
    out.extend_from_slice(digits.format(count).as_bytes())?;
    out.extend_from_slice(b"\n")
}

// Appends whole dollars.
fn put_dollars(dollars: u128, out: &mut Vec<u8>) -> Result<(), AllocError>
    ensures { OnOk result (out.new.items ≡ out.old.items ++ natural_text dollars) }
{
    let mut digits = Buffer::new();
    out.extend_from_slice(digits.format(dollars).as_bytes())
}

// Appends a point and the two digits of a part of a dollar.
fn put_fraction(cents: u128, out: &mut Vec<u8>) -> Result<(), AllocError>
    ensures { OnOk result (out.new.items ≡ out.old.items ++ fraction_text cents) }
{
    let tens = b'0' + (cents / 10 % 10) as u8;
    let ones = b'0' + (cents % 10) as u8;
    out.extend_from_slice(&[b'.', tens, ones])
}

// Appends the line of a sum in cents.
fn put_sum(name: &[u8], cents: u128, out: &mut Vec<u8>) -> Result<(), AllocError>
    ensures { OnOk result (out.new.items ≡ out.old.items ++ sum_line name.now cents) }
{
    out.extend_from_slice(name)?;
    put_dollars(cents / 100, out)?;
    put_fraction(cents, out)?;
    out.extend_from_slice(b"\n")
}

impl<R: StateMachine<Response = YearResponse>> Tally<R> for YearTally {
    ghost use Rattle.run_generate.specs.Counted.{year_counted, year_ending, year_room};

    ghost counted = { year_counted };

    ghost ending = { year_ending };

    ghost room = { year_room };

    fn count(&mut self, response: &YearResponse) {
        self.accepted += accepted_by(response);
        self.refused += refused_by(response);
        self.paid += u128::from(paid_by(response));
        self.returned += u128::from(returned_by(response));
    }

    fn put_ending(&self, out: &mut Vec<u8>) -> Result<(), AllocError> {
        put_count(b"accepted ", self.accepted, out)?;
        put_count(b"refused ", self.refused, out)?;
        put_sum(b"pell ", self.paid, out)?;
        put_sum(b"returned ", self.returned, out)
    }
}
