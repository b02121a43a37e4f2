//! Rows of the index after one filing more.
ghost use Rattle.std.specs.Prelude.{◌≡◌, ◌+◌, ◌≤◌, ◌∷◌, List, length};
ghost use Rattle.law_work.specs.declared.filing.WorkFiling.{WorkFiling as Filed};
ghost use Rattle.law_work.specs.Changes.{HasReleases, award_after, fund_after};
ghost use Rattle.law_work.specs.Rows.{AreAwards, AreFunds, award_name, award_row, fund_name, fund_row};

use crate::names::{AwardName, FundName};
use crate::rows::{AwardRow, FundRow};
use crate::{WorkFiling, WorkWhat};
use sorted_rows::Table;

/// Writes the row of the fund that a filing is about, where the filing changes it.
#[tactic(auto, using(crate::proofs::Funds::fund_filed))]
pub(crate) fn write_fund(
    funds: &mut Table<FundName, FundRow>,
    filing: &WorkFiling,
    name: FundName,
    row: FundRow,
)
    requires name { name ≡ fund_name filing.now }
    requires room { 1 ≤ funds.old.room }
    ensures rows { (past : List Filed) → HasReleases past → row ≡ fund_after (length past + 1) filing.now.what (fund_row past name)
        → AreFunds past funds.old.rows → AreFunds (filing.now ∷ past) funds.new.rows }
    ensures room { funds.old.room ≤ funds.new.room + 1 }
{
    if let WorkWhat::Earn(_) = &filing.what {
        return;
    }
    funds.set(name, row);
}

/// Writes the row of the award that a filing is about, where it is about one.
pub(crate) fn write_award(
    awards: &mut Table<AwardName, AwardRow>,
    filing: &WorkFiling,
    name: AwardName,
    row: AwardRow,
)
    requires name { name ≡ award_name filing.now }
    requires room { 1 ≤ awards.old.room }
    ensures rows { (past : List Filed) → HasReleases past → row ≡ award_after (length past + 1) filing.now.what (award_row past name)
        → AreAwards past awards.old.rows → AreAwards (filing.now ∷ past) awards.new.rows }
    ensures room { awards.old.room ≤ awards.new.room + 1 }
{
    if let WorkWhat::Fund(_) = &filing.what {
        return;
    }
    awards.set(name, row);
}
