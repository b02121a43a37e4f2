//! Whom and what the lines of reports are about.
ghost use Rattle.std.specs.Prelude.{◌≡◌};
ghost use Rattle.office_export.specs.Applicants.{applicant as applicant_in};
ghost use Rattle.office_reports.specs.Rows.{lifetime_user as lifetime_user_in, paid_place as paid_place_in};

use crate::rows::PaidPlace;
use aid_filings::{Filing, What};
use aid_types::{Program, Student, Year};

/// The student of an application in the year.
pub(crate) fn applicant(filing: &Filing, year: Year) -> Option<Student>
    ensures { result ≡ applicant_in year filing.now.what }
{
    match &filing.what {
        What::Apply(application) if application.year == year => Some(application.student),
        _ => None,
    }
}

/// The term of a school in which a student was paid in the year.
pub(crate) fn paid_place(filing: &Filing, year: Year) -> Option<PaidPlace>
    ensures { result ≡ paid_place_in year filing.now.key filing.now.what }
{
    match &filing.what {
        What::Pay(amount) if amount.year == year => Some(PaidPlace {
            school: filing.key.school,
            student: amount.student,
            term: amount.term,
        }),
        _ => None,
    }
}

/// The student of a prior use or of a Pell payment.
pub(crate) fn lifetime_user(filing: &Filing) -> Option<Student>
    ensures { result ≡ lifetime_user_in filing.now.what }
{
    match &filing.what {
        What::Prior(prior) => Some(prior.student),
        What::Pay(amount) if amount.program == Program::Pell => Some(amount.student),
        _ => None,
    }
}
