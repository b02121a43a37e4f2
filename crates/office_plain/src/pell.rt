//! A student's Pell: in a term, and the lifetime use of the years.
ghost use Rattle.std.specs.Prelude.{◌≡◌, ◌+◌, ◌-◌, ◌*◌, ◌%◌, ◌<◌, ℕ, IfSome, false, get_or, is_some, true};
ghost use Rattle.aid_filings.specs.declared.filing.What.TheVariants.{Pay};
ghost use Rattle.office_history.specs.Past.{pell_payment_in};
ghost use Rattle.office_history.specs.Net.{cell_at, in_year, is_cell, paid as paid_at, pell_term, used as used_in_all};

use crate::moved::Cells;
use crate::plain::PlainHistory;
use aid_filings::{Amount, What};
use aid_types::{Program, School, Student, Year};
use law_terms::use_of;
use office_history::{HistoryView, Place};

impl PlainHistory<'_> {
    /// Marks of terms, of which several may share one: where a school's term has no mark, the student has no Pell payment there.
    pub(crate) fn pell_terms(&self, student: Student) -> [bool; 1024]
        ensures { (school year term : ℕ) → get_or result ((9 * school + term) % 1024) true ≡ false → paid_at self.now (is_cell (cell_at school student year term 3)) ≡ 0 }
    {
        let mut terms = [false; 1024];
        let filings = self.filings;
        for filing in filings {
            if let Some(payment) = pell_in(&filing.what, student) {
                terms[mark(filing.key.school, payment.term)] = true;
            }
        }
        terms
    }

    /// The net Pell of a student's term at a school, in cents. A term without a mark has none.
    pub(crate) fn net_pell(&self, pell_terms: &[bool; 1024], place: &Place) -> u64
        requires { get_or pell_terms.now ((9 * place.now.school + place.now.term) % 1024) true ≡ false
            → paid_at self.now (is_cell (cell_at place.now.school place.now.student place.now.year place.now.term 3)) ≡ 0 }
        ensures { result ≡ pell_term self.now place.now.school place.now.student place.now.year place.now.term }
    {
        if !pell_terms[mark(place.school, place.term)] {
            return 0;
        }
        self.account_of(place).net(Program::Pell)
    }

    /// The lifetime units that a student has used, thousandths of a percent: before this office, and in each year of it (HEA
    /// 401(d)(5)).
    pub(crate) fn used(&self, student: Student) -> u32
        ensures { result ≡ used_in_all self.now student }
    {
        // The front tells that the list is legal.
        let _filings = self.front();
        let (_, mut units) = self.prior_of(student);
        let are_paid = self.pell_years(student);
        for year in 2000..2100 {
            if !are_paid[usize::from(year - 2000)] {
                continue;
            }
            let paid = self.net_of(&Cells::InYear(student, Year(year), Program::Pell));
            if 0 < paid {
                units += use_of(paid, self.scheduled(student, Year(year)));
            }
        }
        units
    }

    // The years from 2000 on, of which those are marked in which the student has a Pell payment.
    fn pell_years(&self, student: Student) -> [bool; 100]
        ensures { (year : ℕ) → get_or result (year - 2000) true ≡ false → paid_at self.now (in_year student year 3) ≡ 0 }
    {
        let mut years = [false; 100];
        let filings = self.filings;
        for filing in filings {
            if let Some(payment) = pell_in(&filing.what, student) {
                years[usize::from(payment.year.number() - 2000)] = true;
            }
        }
        years
    }
}

// The student's Pell payment, where that is filed.
fn pell_in(what: &What, student: Student) -> Option<&Amount>
    ensures some { is_some result ≡ pell_payment_in student what.now }
    ensures payment { IfSome result (λ a. what.now ≡ Pay a.now) }
{
    match what {
        What::Pay(amount) if amount.student == student && matches!(amount.program, Program::Pell) =>
            { Some(amount) }
        _ => None,
    }
}

/// The mark of a school's term.
pub(crate) fn mark(school: School, term: u8) -> usize
    ensures value { result ≡ (9 * school + term) % 1024 }
    ensures in_range { result < 1024 }
{
    (9 * school.0 as usize + usize::from(term)) % 1024
}
