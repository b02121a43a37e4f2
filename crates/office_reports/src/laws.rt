//! Laws of reports, each as the contract of a function that computes nothing. A slice of filings has the oldest first.
ghost use Rattle.std.specs.Prelude.{◌≡◌, ◌↔◌, ◌<◌, ◌++◌, ◌∷◌, ℕ, List, reverse};
ghost use Rattle.std.specs.List.{AllPairs, Contains};
ghost use Rattle.office_export.specs.Applicants.{applicant, applicants};
ghost use Rattle.office_reports.specs.Rows.{lifetime_user, lifetime_users, paid_place, paid_places, return_rows, returns_in};
ghost use Rattle.office_export.specs.Told.{IsTold};
ghost use Rattle.office_reports.specs.Before.{IsBefore};
ghost use Rattle.office_reports.specs.declared.rows.PaidPlace.{PaidPlace};
ghost use Rattle.office_reports.specs.declared.rows.ReturnOf.{ReturnOf};

use aid_filings::Filing;

/// The students of a report of standings, and those of one of lifetime units, rise by number, and are exactly those whom a filing
/// tells: of an application in the year, of a prior use or a Pell payment.
pub fn students_of_reports(history: &[Filing])
    ensures applicants_rise { (year : ℕ) → AllPairs (λ s t. s < t) (applicants (reverse history.now) year) }
    ensures applicants { (year student : ℕ) → Contains (applicants (reverse history.now) year) student ↔ IsTold (λ f. applicant year f.what) (reverse history.now) student }
    ensures users_rise { AllPairs (λ s t. s < t) (lifetime_users (reverse history.now)) }
    ensures users { (student : ℕ) → Contains (lifetime_users (reverse history.now)) student ↔ IsTold (λ f. lifetime_user f.what) (reverse history.now) student }
{
    let _ = history;
}

/// The places of a report of awards rise by school, student and term, and are exactly those that a payment in the year tells.
pub fn places_of_awards(history: &[Filing])
    ensures rise { (year : ℕ) → AllPairs IsBefore (paid_places (reverse history.now) year) }
    ensures told { (year : ℕ) (place : PaidPlace) → Contains (paid_places (reverse history.now) year) place ↔ IsTold (λ f. paid_place year f.key f.what) (reverse history.now) place }
{
    let _ = history;
}

/// The lines of a report of returns come in the order of the filings: behind those of the filings before it comes a filing's own,
/// on those filings, which is one where it is a withdrawal in the year, and none else.
pub fn returns_in_order(before: &[Filing], filing: &Filing, after: &[Filing])
    ensures { (year : ℕ) → (rest : List ReturnOf)
        × (return_rows (reverse (before.now ++ filing.now ∷ after.now)) year ≡ return_rows (reverse before.now) year ++ (returns_in (reverse before.now) year filing.now filing.now.what ++ rest)) }
{
    let _ = before;
    let _ = filing;
    let _ = after;
}
