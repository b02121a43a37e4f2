//! Applications that tests begin with.
ghost use Rattle.aid_types.specs.Ranges.{IsAmount, IsBetween, IsSignedAmount};

use aid_types::{Application, Region, Side, Student, Year};
use law_sai::ParentLines;

/// A household without income and assets.
pub(crate) fn nothing() -> Side {
    Side {
        agi: 0,
        ira: 0,
        interest: 0,
        ira_untaxed: 0,
        pension: 0,
        foreign: 0,
        grants: 0,
        credits: 0,
        work_study: 0,
        tax: 0,
        earned_first: 0,
        earned_second: 0,
        support: 0,
        cash: 0,
        investments: 0,
        business: 0,
    }
}

/// The application of an unmarried student without dependents, from a household that had to file.
pub(crate) fn applicant(birth_year: u16, family: u8, own: Side, parents: Side) -> Application
    requires born { IsBetween 1900 2099 birth_year }
    requires members { IsBetween 1 30 family }
{
    Application {
        student: Student(5001),
        year: Year(2025),
        transaction: 1,
        birth_year,
        region: Region::Contiguous,
        family,
        married: false,
        graduate: false,
        bachelor: false,
        veteran: false,
        dependents: false,
        orphan: false,
        ward: false,
        foster: false,
        emancipated: false,
        homeless: false,
        student_file: true,
        own,
        parents_married: true,
        parents_file: true,
        parent_age: 48,
        parents,
    }
}

/// A household with an adjusted gross income, all of it earned by one, and the tax on it.
pub(crate) fn earner(agi: i32, tax: i32) -> Side
    requires agi_in_range { IsAmount agi }
    requires tax_in_range { IsSignedAmount tax }
{
    let mut side = nothing();
    side.agi = agi;
    side.tax = tax;
    side.earned_first = agi;
    side
}

/// A family of four: parents who earned 50,000 and 35,000 dollars and a student who earned 6,000.
pub(crate) fn family_of_four(agi: i32) -> Application
    requires { IsSignedAmount agi }
{
    let mut own = earner(6000, 0);
    own.cash = 900;
    let mut parents = nothing();
    parents.agi = agi;
    parents.tax = 5200;
    parents.earned_first = 50_000;
    parents.earned_second = 35_000;
    parents.cash = 12_000;
    parents.investments = 20_000;
    applicant(2006, 4, own, parents)
}

/// The lines that a formula doesn't have.
pub(crate) fn no_lines() -> ParentLines {
    ParentLines {
        total: 0,
        tax: 0,
        payroll: 0,
        protection: 0,
        employment: 0,
        allowances: 0,
        available: 0,
        business: 0,
        worth: 0,
        asset_protection: 0,
        discretionary: 0,
        from_assets: 0,
        adjusted: 0,
        contribution: 0,
    }
}
