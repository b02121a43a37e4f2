//! What the rows of the index tell, and what a filing makes of them.
ghost use Rattle.std.specs.Prelude.{◌≡◌};
ghost use Rattle.law_work.specs.Funds.{earlier_or as earlier_of};
ghost use Rattle.law_work.specs.Changes.{award_after, fund_after};
ghost use Rattle.law_work.specs.Rows.{AreSmallAwards, AreSmallFunds, award_or, fund_or};

use crate::{WorkWhat, earning};

/// A school's fund of an award year: its position, 0 where there is none, its dollars, and the dollars of its awards in force.
#[derive(Clone, Copy)]
pub struct FundRow {
    pub at: u32,
    pub dollars: u32,
    pub awards: u32,
}

/// A student's award of a fund: its position, 0 where there is none, the dollars of the award in force, and the cents that are earned.
#[derive(Clone, Copy)]
pub struct AwardRow {
    pub at: u32,
    pub award: u32,
    pub earned: u64,
}

/// The fund that a row tells, nothing where there is no row.
pub(crate) fn fund_told(row: Option<FundRow>) -> FundRow
    ensures { result ≡ fund_or row }
{
    match row {
        Some(row) => row,
        None => FundRow {
            at: 0,
            dollars: 0,
            awards: 0,
        },
    }
}

/// The award that a row tells, nothing where there is no row.
pub(crate) fn award_told(row: Option<AwardRow>) -> AwardRow
    ensures { result ≡ award_or row }
{
    match row {
        Some(row) => row,
        None => AwardRow {
            at: 0,
            award: 0,
            earned: 0,
        },
    }
}

impl FundRow {
    /// The fund once a filing stands at a position that is about it. The fund that was filed first stays.
    pub(crate) fn after(self, what: &WorkWhat, position: u32) -> FundRow
        requires room { AreSmallFunds self }
        ensures { result ≡ fund_after position what.now self }
    {
        match what {
            WorkWhat::Fund(fund) => FundRow {
                at: earlier_or(self.at, position),
                dollars: if self.at == 0 {
                    fund.dollars
                } else {
                    self.dollars
                },
                ..self
            },
            WorkWhat::Award(award) => FundRow {
                awards: self.awards + award.dollars,
                ..self
            },
            WorkWhat::Earn(_) => self,
            WorkWhat::Release(part) => FundRow {
                awards: self.awards.saturating_sub(part.dollars),
                ..self
            },
        }
    }
}

impl AwardRow {
    /// The award once a filing stands at a position that is about it.
    pub(crate) fn after(self, what: &WorkWhat, position: u32) -> AwardRow
        requires room { AreSmallAwards self }
        ensures { result ≡ award_after position what.now self }
    {
        match what {
            WorkWhat::Fund(_) => self,
            WorkWhat::Award(award) => AwardRow {
                at: earlier_or(self.at, position),
                award: self.award + award.dollars,
                ..self
            },
            WorkWhat::Earn(work) => AwardRow {
                earned: self.earned + earning(work),
                ..self
            },
            WorkWhat::Release(part) => AwardRow {
                award: self.award.saturating_sub(part.dollars),
                ..self
            },
        }
    }
}

// The position that stood before, or else this one.
fn earlier_or(before: u32, position: u32) -> u32
    ensures { result ≡ earlier_of before position }
{
    if before == 0 { position } else { before }
}
