//! The index of the loan desk.
ghost use Rattle.std.specs.Prelude.{◌≡◌, ◌+◌, ◌<◌, ◌≤◌, ◌∷◌, [], length, OnErr, OnOk};
ghost use Rattle.law_loans.specs.Loans.{before_sub as before_sub_of, before_total as before_total_of, limits_under};
ghost use Rattle.law_loans.specs.Rules.{AreSmall, facts_of, most_loan_filings};
ghost use Rattle.law_loans.specs.Changes.{AreCovered};

use crate::names::{StudentYear, student_named, year_named};
use crate::rows::{LimitsRow, StudentRow, YearRow, limits_told, student_told, year_told};
use crate::written::{write_limits, write_student, write_year};
use crate::{BeforeFacts, BorrowerFacts, LimitFacts, LoanFacts, LoanFiling, LoanNets};
use sorted_rows::Table;
use std::alloc::{AllocError, Global};
use std::marker::Model;

/// The filings of a loan office with sorted rows that tell what is on file, and room for more. A contract sees the filings, the
/// newest first, and the room. There are never more than 200,000 filings.
#[derive(Drop)]
pub struct LoanIndex {
    filings: Vec<LoanFiling>,
    limits: Table<u16, LimitsRow>,
    students: Table<u64, StudentRow>,
    years: Table<StudentYear, YearRow>,
    room: u32,
}

impl Model for LoanIndex {
    ghost use Rattle.std.specs.Prelude.{◌+◌, ◌≤◌, reverse, vec_len, vec_capacity};
    ghost use Rattle.law_loans.specs.Register.{OnFile};

    ghost Value = { OnFile };

    ghost use Rattle.law_loans.specs.Rows.{AreIndexed};

    ghost view = { λ o. record { history = reverse o.filings.items; room = o.room } };

    ghost invariant = { λ o. AreIndexed (reverse o.filings.items) o.limits.rows o.students.rows o.years.rows
        × (vec_len o.filings + o.room ≤ vec_capacity o.filings)
        × (o.room ≤ o.limits.room) × (o.room ≤ o.students.room) × (o.room ≤ o.years.room) };
}

impl LoanIndex {
    /// No filing.
    pub fn new(alloc: Global) -> Self
        ensures history { result.history ≡ [] }
        ensures room { result.room ≡ 0 }
    {
        LoanIndex {
            filings: Vec::new(alloc),
            limits: Table::new(alloc),
            students: Table::new(alloc),
            years: Table::new(alloc),
            room: 0,
        }
    }

    /// Makes room for `n` filings more. An `Err` is want of memory.
    pub fn reserve(&mut self, n: u32) -> Result<(), AllocError>
        ensures history { self.new.history ≡ self.old.history }
        ensures room { OnOk result (n ≤ self.new.room) }
        ensures kept { self.old.room ≤ self.new.room }
        ensures err { OnErr result (self.new ≡ self.old) }
    {
        if self.room < n {
            self.filings.reserve(n as usize)?;
            self.limits.reserve(n)?;
            self.students.reserve(n)?;
            self.years.reserve(n)?;
            self.room = n;
        }
        Ok(())
    }

    /// What a filing is judged on. Each row is found by one search of its table.
    pub fn facts(&self, filing: &LoanFiling) -> LoanFacts
        ensures value { result ≡ facts_of self.now.history filing.now }
        ensures small { AreSmall result.nets }
    {
        let student = student_named(&filing.what);
        let year = year_named(&filing.what);
        let limits = limits_told(self.limits.at(&year));
        let of_student = student_told(self.students.at(&student));
        let of_year = year_told(self.years.at(&StudentYear { student, year }));
        let last_limits = self.limits_of(&of_student.last);
        LoanFacts {
            count: self.count(),
            limits_at: limits.at,
            limits: limits.limits,
            record: of_year.in_force,
            last: of_student.last,
            last_limits,
            before_at: of_student.before_at,
            before_sub: before_sub(&of_student.before),
            before_total: before_total(&of_student.before),
            loan_at: of_student.loan_at,
            nets: LoanNets {
                sub: of_year.nets.sub,
                unsub: of_year.nets.unsub,
                sub_all: of_student.nets.sub,
                unsub_all: of_student.nets.unsub,
            },
        }
    }

    // How many filings there are.
    fn count(&self) -> u32
        ensures { result ≡ length self.now.history }
    {
        self.filings.as_slice().len() as u32
    }

    // The limits of the year of a record.
    fn limits_of(&self, borrower: &Option<BorrowerFacts>) -> Option<LimitFacts>
        ensures { result ≡ limits_under self.now.history borrower.now }
    {
        match borrower {
            Some(borrower) => limits_told(self.limits.at(&borrower.year.number())).limits,
            None => None,
        }
    }

    /// Appends a filing. It takes no memory, but one of the places of `reserve`. At most two rows are written.
    pub fn admit(&mut self, filing: &LoanFiling)
        requires covered { AreCovered self.old.history }
        requires few { length self.old.history < most_loan_filings }
        requires room { 1 ≤ self.old.room }
        ensures history { self.new.history ≡ filing.now ∷ self.old.history }
        ensures room { self.new.room + 1 ≡ self.old.room }
    {
        let position = self.count() + 1;
        write_limits(&mut self.limits, filing, position);
        write_student(&mut self.students, filing, position);
        write_year(&mut self.years, filing);
        let LoanFiling { key, what } = *filing;
        self.filings.push_reserved(LoanFiling { key, what });
        self.room -= 1;
    }
}

// The subsidized part of what was borrowed before.
fn before_sub(before: &Option<BeforeFacts>) -> u32
    ensures { result ≡ before_sub_of before.now }
{
    match before {
        Some(before) => before.sub,
        None => 0,
    }
}

// All of what was borrowed before.
fn before_total(before: &Option<BeforeFacts>) -> u32
    ensures { result ≡ before_total_of before.now }
{
    match before {
        Some(before) => before.total,
        None => 0,
    }
}
