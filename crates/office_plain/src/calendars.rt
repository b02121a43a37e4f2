//! Terms on file that a rule compares with others.
ghost use Rattle.std.specs.Prelude.{◌≡◌, ◌≤◌, ◌+◌, ◌*◌, ◌%◌, Bool, Some, false, filter, get_or, option_copied, option_map, true};
ghost use Rattle.office_history.specs.Net.{cell_at, is_cell, paid as paid_at};
ghost use Rattle.office_history.specs.Past.{FiledTerm as TermOnFile, terms_on_file};
ghost use Rattle.office_history.specs.Positions.{is_over as is_over_of, is_paid_beside, least_code, least_term, lesser_code, main_term_count, overlap_at, payment_at as payment_of_term, term_over as term_over_of};
ghost use Rattle.office_plain.specs.Asked.{Tests};
ghost use Rattle.office_plain.specs.Terms.{calendar_in as calendar_filed, earlier_place, on_file_at, place_of};

use crate::moved::place;
use crate::plain::PlainHistory;
use aid_filings::{CalendarFacts, What};
use aid_types::{Refusal, School, Student, Term, Year};
use law_terms::{intensity, period_pay, shares_day};
use office_history::{HistoryView, Place};

impl PlainHistory<'_> {
    /// The position of the school's earliest term on file that shares a day with this one, 0 where there is none.
    pub(crate) fn overlap(&self, school: School, term: &Term) -> u32
        ensures { result ≡ overlap_at self.now school term.now }
    {
        let (position, _) = self.first(|filing| match &filing.what {
            What::Calendar(facts)
                if filing.key.school == school && shares_day(term, &facts.to_term()) => { Some(()) }
            _ => None,
        });
        position
    }

    /// How many main terms the school has on file in the year.
    #[tactic(auto, using(office_history::proofs::Bounds::short))]
    pub(crate) fn main_terms(&self, school: School, year: Year) -> u32
        ensures { result ≡ main_term_count self.now school year }
    {
        let main = self.filings.iter().filter(|filing| match &filing.what {
            What::Calendar(facts) => {
                filing.key.school == school && facts.year == year && !facts.extra
            }
            _ => false,
        });
        main.count() as u32
    }

    // The least school code of the terms on file that pass, 0 where there is none, and the school and the number of the first
    // of them.
    fn least<F: Fn(School, &CalendarFacts) -> bool>(&self, passes: F) -> (u32, Option<(School, u8)>)
        requires { F.IsAlwaysCallable passes }
        ensures code { (test : TermOnFile → Bool) → Tests (F.post passes) test → result.0 ≡ least_code test (terms_on_file self.now) }
        ensures first { (test : TermOnFile → Bool) → Tests (F.post passes) test
            → result.1 ≡ option_map place_of (least_term (filter test (terms_on_file self.now))) }
    {
        let filings = self.filings;
        let mut least = 0;
        let mut first = None;
        for filing in filings {
            let school = filing.key.school;
            let Some(calendar) = calendar_in(&filing.what) else {
                continue;
            };
            if passes(school, calendar) {
                least = lesser(school.0, least);
                first = Some(earlier(school, calendar.term, first));
            }
        }
        (least, first)
    }

    /// The least code of another school that has a term which shares a day with this one and holds net Pell of the student;
    /// 0 where there is none.
    pub(crate) fn other_school(&self, student: Student, school: School, this: &Option<Term>) -> u32
        ensures { result ≡ least_code (is_paid_beside self.now school student this.now) (terms_on_file self.now) }
    {
        let Some(this) = this else {
            return 0;
        };
        let pell_terms = self.pell_terms(student);
        let (code, _) = self.least(|other, calendar| {
            let beside = place(other, student, calendar.year, calendar.term);
            other != school
                && shares_day(this, &calendar.to_term())
                && 0 < self.net_pell(&pell_terms, &beside)
        });
        code
    }

    /// The first term of the year, by school and number, that holds more net Pell of the student than an award gives it, told
    /// as a refusal.
    pub(crate) fn term_over(&self, award: u32, student: Student, year: Year) -> Option<Refusal>
        requires { award ≤ 100000 }
        ensures { result ≡ term_over_of self.now award student year }
    {
        let pell_terms = self.pell_terms(student);
        let (_, first) = self.least(|school, calendar| {
            self.is_over(award, &pell_terms, student, year, school, calendar)
        });
        let (school, term) = first?;
        let place = place(school, student, year, term);
        Some(Refusal {
            rule: 93,
            kept: self.net_pell(&pell_terms, &place),
            bound: self.payment_at(award, &place),
        })
    }

    // Whether a term of the year holds more net Pell of the student than an award gives it.
    fn is_over(
        &self,
        award: u32,
        pell_terms: &[bool; 1024],
        student: Student,
        year: Year,
        school: School,
        calendar: &CalendarFacts,
    ) -> bool
        requires award { award ≤ 100000 }
        requires marks { get_or pell_terms.now ((9 * school + calendar.now.term) % 1024) true ≡ false
            → paid_at self.now (is_cell (cell_at school student year calendar.now.term 3)) ≡ 0 }
        ensures { result ≡ is_over_of self.now award student year (on_file_at school 0 calendar.now) }
    {
        if calendar.year != year {
            return false;
        }
        let place = place(school, student, year, calendar.term);
        let kept = self.net_pell(pell_terms, &place);
        0 < kept && self.payment_at(award, &place) < kept
    }

    // The payment of a term in cents, at the credits in force and an award in dollars.
    fn payment_at(&self, award: u32, place: &Place) -> u64
        requires { award ≤ 100000 }
        ensures { result ≡ payment_of_term self.now award place.now.school place.now.student place.now.year place.now.term }
    {
        // The front tells that the list is legal.
        let _filings = self.front();
        let code = place.school;
        let Some(facts) = self.school_of(code.0).1 else {
            return 0;
        };
        let credits = self.credits(place);
        if credits == 0 {
            return 0;
        }
        100 * u64::from(period_pay(award, intensity(credits, facts.full), facts.terms))
    }
}

// The calendar that is filed.
fn calendar_in(what: &What) -> Option<&CalendarFacts>
    ensures { option_copied result ≡ calendar_filed what.now }
{
    match what {
        What::Calendar(calendar) => Some(calendar),
        _ => None,
    }
}

// The lesser of two codes, of which the second may be 0 for none.
fn lesser(code: u32, least: u32) -> u32
    ensures { result ≡ lesser_code true code least }
{
    if least == 0 { code } else { code.min(least) }
}

// The earlier of two terms, by school and number.
fn earlier(school: School, number: u8, least: Option<(School, u8)>) -> (School, u8)
    ensures { Some result ≡ earlier_place (school, number) least }
{
    match least {
        Some((code, other)) if 9 * code.0 + u32::from(other) <= 9 * school.0 + u32::from(number) =>
            { (code, other) }
        _ => (school, number),
    }
}
