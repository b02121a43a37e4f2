//! The index of the work-study desk.
ghost use Rattle.std.specs.Prelude.{◌≡◌, ◌+◌, ◌≤◌, ◌∷◌, [], length, None, OnErr, OnOk, nat_lt};
ghost use Rattle.law_work.specs.Funds.{award_at, rest as rest_of};
ghost use Rattle.law_work.specs.Rules.{AreSmall, breaks, facts_of};
ghost use Rattle.law_work.specs.Rows.{AreSmallAwards, AreSmallFunds, award_row, fund_row};

use crate::names::{AwardName, FundName, award_named, fund_named};
use crate::rows::{AwardRow, FundRow, award_told, fund_told};
use crate::written::{write_award, write_fund};
use crate::{WorkFacts, WorkFiling};
use aid_types::{School, Student, Year};
use sorted_rows::Table;
use std::alloc::{AllocError, Global};
use std::marker::Model;

/// The filings of a work-study office with sorted rows that tell what is on file, and room for more. A contract sees the filings, the
/// newest first, and the room. Each filing breaks no rule on those before it.
#[derive(Drop)]
pub struct WorkIndex {
    filings: Vec<WorkFiling>,
    funds: Table<FundName, FundRow>,
    awards: Table<AwardName, AwardRow>,
    room: u32,
}

impl Model for WorkIndex {
    ghost use Rattle.std.specs.Prelude.{◌+◌, ◌≤◌, reverse, vec_len, vec_capacity};
    ghost use Rattle.law_work.specs.Register.{OnFile};

    ghost Value = { OnFile };

    ghost use Rattle.law_work.specs.Rows.{AreIndexed};

    ghost view = { λ o. record { history = reverse o.filings.items; room = o.room } };

    ghost invariant = { λ o. AreIndexed (reverse o.filings.items) o.funds.rows o.awards.rows
        × (vec_len o.filings + o.room ≤ vec_capacity o.filings) × (o.room ≤ o.funds.room) × (o.room ≤ o.awards.room) };
}

impl WorkIndex {
    /// No filing.
    pub fn new(alloc: Global) -> Self
        ensures history { result.history ≡ [] }
        ensures room { result.room ≡ 0 }
    {
        WorkIndex {
            filings: Vec::new(alloc),
            funds: Table::new(alloc),
            awards: Table::new(alloc),
            room: 0,
        }
    }

    /// Makes room for `n` filings more. An `Err` is want of memory.
    pub fn reserve(&mut self, n: u32) -> Result<(), AllocError>
        ensures history { self.new.history ≡ self.old.history }
        ensures room { OnOk result (n ≤ self.new.room) }
        ensures kept { self.old.room ≤ self.new.room }
        ensures err { OnErr result (self.new ≡ self.old) }
    {
        if self.room < n {
            self.filings.reserve(n as usize)?;
            self.funds.reserve(n)?;
            self.awards.reserve(n)?;
            self.room = n;
        }
        Ok(())
    }

    /// What a filing is judged on. Each row is found by one search of its table.
    pub fn facts(&self, filing: &WorkFiling) -> WorkFacts
        ensures value { result ≡ facts_of self.now.history filing.now }
        ensures small { AreSmall result }
    {
        let fund = self.fund(&fund_named(filing));
        let award = self.award(&award_named(filing));
        WorkFacts {
            count: self.count(),
            fund_at: fund.at,
            fund: fund.dollars,
            awards: fund.awards,
            award_at: award.at,
            award: award.award,
            earned: award.earned,
        }
    }

    /// What is left to award of a fund, in dollars; 0 where there is no fund. It takes no memory.
    pub fn rest(&self, school: School, year: Year) -> u32
        ensures { result ≡ rest_of self.now.history school year }
    {
        let fund = self.fund(&FundName {
            school: school.0,
            year: year.0,
        });
        fund.dollars.saturating_sub(fund.awards)
    }

    /// Whether an award of a student there is on file. It takes no memory.
    pub fn has_award(&self, school: School, student: Student, year: Year) -> bool
        ensures { result ≡ nat_lt 0 (award_at self.now.history school year student) }
    {
        let award = self.award(&AwardName {
            student: student.0,
            school: school.0,
            year: year.0,
        });
        0 < award.at
    }

    /// Appends a filing that breaks no rule. It takes no memory, but one of the places of `reserve`. At most two rows are written.
    pub fn admit(&mut self, filing: &WorkFiling)
        requires allowed { breaks self.old.history filing.now ≡ None }
        requires room { 1 ≤ self.old.room }
        ensures history { self.new.history ≡ filing.now ∷ self.old.history }
        ensures room { self.new.room + 1 ≡ self.old.room }
    {
        let position = self.count() + 1;
        let fund_name = fund_named(filing);
        let award_name = award_named(filing);
        let fund = self.fund(&fund_name).after(&filing.what, position);
        let award = self.award(&award_name).after(&filing.what, position);
        write_fund(&mut self.funds, filing, fund_name, fund);
        write_award(&mut self.awards, filing, award_name, award);
        let WorkFiling { key, what } = *filing;
        self.filings.push_reserved(WorkFiling { key, what });
        self.room -= 1;
    }

    // How many filings there are.
    fn count(&self) -> u32
        ensures { result ≡ length self.now.history }
    {
        self.filings.as_slice().len() as u32
    }

    // What is on file of a fund.
    fn fund(&self, name: &FundName) -> FundRow
        ensures value { result ≡ fund_row self.now.history name.now }
        ensures small { AreSmallFunds result }
    {
        fund_told(self.funds.at(name))
    }

    // What is on file of an award.
    fn award(&self, name: &AwardName) -> AwardRow
        ensures value { result ≡ award_row self.now.history name.now }
        ensures small { AreSmallAwards result }
    {
        award_told(self.awards.at(name))
    }
}
