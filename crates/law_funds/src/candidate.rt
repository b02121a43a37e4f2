//! Those who may be awarded of a fund.
ghost use Rattle.law_funds.specs.Answers.{IsAsked};

use aid_types::Student;

/// A student with need: the Student Aid Index, the need in whole dollars, and the enrollment intensity in percent.
#[derive(Clone, Copy, PartialEq, Eq)]
pub struct Candidate {
    pub student: Student,
    pub sai: i32,
    pub need: u32,
    pub intensity: u8,
    pub ghost in_range: { IsAsked need sai intensity },
}
