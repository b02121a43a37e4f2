//! Walks along a student's first enrollments, from the newest to the oldest, so that each term at a school in which the student
//! is enrolled is visited once. A step is a look at the link of an enrollment, at where the one before it stands, at the row of
//! its place, or at the filing of its school or its term.
ghost use Rattle.std.specs.Prelude.{◌≡◌, ◌+◌, ◌*◌, ◌≤◌, ◌<◌, ℕ, true, List, Some, IsSome, length, reverse};
ghost use Rattle.std.specs.List.{slice_get};
ghost use Rattle.sorted_rows.specs.Places.{value_at};
ghost use Rattle.aid_filings.specs.declared.filing.Filing.{Filing as Filed};
ghost use Rattle.law_terms.specs.Terms.{intensity_of, payment_of};
ghost use Rattle.office_history.specs.Answer.{IsLegal};
ghost use Rattle.office_history.specs.Positions.{full_of, is_paid_beside as is_paid_beside_of, least_code, lesser_code, terms_of, term_over as term_over_of};
ghost use Rattle.office_history.specs.Past.{terms_on_file};
ghost use Rattle.office_history.specs.FirstEnrollments.{places_of};
ghost use Rattle.office_history.specs.Names.{place_cmp};
ghost use Rattle.office_history.specs.declared.names.StudentPlace.{StudentPlace as PlaceName};
ghost use Rattle.office_history.specs.declared.rows.PlaceRow.{PlaceRow as Row};
ghost use Rattle.office_updates.specs.Enrollments.{IsEnrollment, earlier_over, is_beside, over_of, refusal_of, school_told, term_told};
ghost use Rattle.office_updates.specs.Placed.{ArePlaces};
ghost use Rattle.office_updates.specs.Links.{AreLinked, is_enrolled, newest_place};

use crate::links::EnrollmentLink;
use aid_filings::{Filing, What};
use aid_types::{Program, Refusal, School, Student, Term, Year};
use law_terms::{intensity, period_pay, shares_day};
use office_history::{PlaceRow, StudentPlace};
use sorted_rows::{Slots, Steps};
use std::sync::ledger::Ledger;

/// A term that holds more net Pell in cents than an award gives it: the code of its school, its number, its net Pell and its
/// payment.
#[derive(Clone, Copy, PartialEq, Eq)]
pub struct Over {
    pub school: u32,
    pub term: u8,
    pub kept: u64,
    pub bound: u64,
}

/// The least code of another school that has a term which shares a day with this one and holds net Pell of the student; 0
/// where there is none. `newest` is the position of the newest of the student's first enrollments.
pub fn paid_beside<L: Ledger>(
    filings: &[Filing],
    befores: &[u32],
    links: &[EnrollmentLink],
    places: &Slots<StudentPlace, PlaceRow>,
    newest: u32,
    student: Student,
    school: School,
    this: &Option<Term>,
    steps: &mut Steps<L>,
) -> u32
    requires legal { IsLegal (reverse filings.now) }
    requires linked { AreLinked (reverse filings.now) places.now.rows befores.now links.now }
    requires newest { newest ≡ newest_place (reverse filings.now) student }
    requires rows { ArePlaces (reverse filings.now) places.now.rows }
    ensures value { result ≡ least_code (is_paid_beside_of (reverse filings.now) school student this.now) (terms_on_file (reverse filings.now)) }
    ensures cost { steps.new ≤ steps.old + 4 * places_of (reverse filings.now) student }
    ensures counted { IsSome this.now → steps.old + 3 * places_of (reverse filings.now) student ≤ steps.new }
    ensures later { steps.old ≤ steps.new }
{
    let Some(term) = this else {
        return 0;
    };
    let mut least = 0;
    let mut at = newest;
    while 0 < at {
        let index = at as usize - 1;
        steps.tick(); // the link
        least = with_beside(filings, places, &links[index], school, term, least, steps);
        steps.tick(); // where the one before it stands
        at = befores[index];
    }
    least
}

// The least code found so far, with an enrollment more.
fn with_beside<L: Ledger>(
    filings: &[Filing],
    places: &Slots<StudentPlace, PlaceRow>,
    link: &EnrollmentLink,
    school: School,
    this: &Term,
    least: u32,
    steps: &mut Steps<L>,
) -> u32
    requires rows { ArePlaces (reverse filings.now) places.now.rows }
    requires enrollment { (f : Filed) × IsEnrollment (reverse filings.now) places.now.rows f link.now }
    ensures value { (f : Filed) (student : ℕ) → IsEnrollment (reverse filings.now) places.now.rows f link.now → is_enrolled student f ≡ true
        → result ≡ lesser_code (is_beside (reverse filings.now) school student this.now f) f.key.school least }
    ensures cost { steps.new ≤ steps.old + 2 }
    ensures later { steps.old + 1 ≤ steps.new }
{
    let place = places.look(link.slot, steps);
    if is_paid_beside(filings, place, link, school, this, steps) {
        lesser(place.0.school, least)
    } else {
        least
    }
}

// The lesser of two codes, of which the second may be 0 for none.
fn lesser(code: u32, least: u32) -> u32
    ensures { result ≡ lesser_code true code least }
{
    if least == 0 { code } else { code.min(least) }
}

// Whether an enrollment's term is another school's, holds net Pell and shares a day with this one. `place` is the row at the slot
// that the link tells.
fn is_paid_beside<L: Ledger>(
    filings: &[Filing],
    place: &(StudentPlace, PlaceRow),
    link: &EnrollmentLink,
    school: School,
    this: &Term,
    steps: &mut Steps<L>,
) -> bool
    requires { (f : Filed) × (rows : List (PlaceName × Row)) × IsEnrollment (reverse filings.now) rows f link.now }
    ensures value { (f : Filed) (student : ℕ) (rows : List (PlaceName × Row)) → ArePlaces (reverse filings.now) rows
        → IsEnrollment (reverse filings.now) rows f link.now → slice_get rows link.now.slot ≡ Some place.now
        → value_at place_cmp place.now.0 rows ≡ Some place.now.1 → is_enrolled student f ≡ true
        → result ≡ is_beside (reverse filings.now) school student this.now f }
    ensures cost { steps.new ≤ steps.old + 1 }
    ensures later { steps.old ≤ steps.new }
{
    // Most places hold none.
    if place.1.account.net(Program::Pell) == 0 {
        return false;
    }
    if place.0.school == school.0 {
        return false;
    }
    steps.tick();
    match term_in(&filings[link.term_at as usize - 1].what) {
        Some(term) => shares_day(this, &term),
        None => false,
    }
}

// The term that is filed.
fn term_in(what: &What) -> Option<Term>
    ensures { result ≡ term_told what.now }
{
    match what {
        What::Calendar(calendar) => Some(calendar.to_term()),
        _ => None,
    }
}

/// The first term of the year, by school and number, that holds more net Pell of the student than an award in dollars gives
/// it, told as a refusal. `newest` is the position of the newest of the student's first enrollments.
pub fn term_over<L: Ledger>(
    filings: &[Filing],
    befores: &[u32],
    links: &[EnrollmentLink],
    places: &Slots<StudentPlace, PlaceRow>,
    newest: u32,
    student: Student,
    award: u32,
    year: Year,
    steps: &mut Steps<L>,
) -> Option<Refusal>
    requires legal { IsLegal (reverse filings.now) }
    requires linked { AreLinked (reverse filings.now) places.now.rows befores.now links.now }
    requires newest { newest ≡ newest_place (reverse filings.now) student }
    requires rows { ArePlaces (reverse filings.now) places.now.rows }
    requires award { award ≤ 100000 }
    ensures value { result ≡ term_over_of (reverse filings.now) award student year }
    ensures cost { steps.new ≤ steps.old + 4 * places_of (reverse filings.now) student }
    ensures counted { steps.old + 3 * places_of (reverse filings.now) student ≤ steps.new }
{
    let mut first = None;
    let mut at = newest;
    while 0 < at {
        let index = at as usize - 1;
        steps.tick(); // the link
        let over = over_in(filings, places, &links[index], award, year, steps);
        first = earlier(over, first);
        steps.tick(); // where the one before it stands
        at = befores[index];
    }
    refusal(first)
}

// What an enrollment's term holds over an award, where it is one of the year.
fn over_in<L: Ledger>(
    filings: &[Filing],
    places: &Slots<StudentPlace, PlaceRow>,
    link: &EnrollmentLink,
    award: u32,
    year: Year,
    steps: &mut Steps<L>,
) -> Option<Over>
    requires legal { IsLegal (reverse filings.now) }
    requires rows { ArePlaces (reverse filings.now) places.now.rows }
    requires enrollment { (f : Filed) × IsEnrollment (reverse filings.now) places.now.rows f link.now }
    requires award { award ≤ 100000 }
    ensures value { (f : Filed) (student : ℕ) → IsEnrollment (reverse filings.now) places.now.rows f link.now → is_enrolled student f ≡ true
        → result ≡ over_of (reverse filings.now) award student year f }
    ensures cost { steps.new ≤ steps.old + 2 }
    ensures later { steps.old + 1 ≤ steps.new }
{
    let place = places.look(link.slot, steps);
    if place.0.year != year.0 {
        return None;
    }
    let kept = place.1.account.net(Program::Pell);
    steps.tick();
    let bound = payment(
        &filings[link.school_at as usize - 1].what,
        place.1.credits,
        award,
    );
    if bound < kept {
        Some(Over {
            school: place.0.school,
            term: place.0.term,
            kept,
            bound,
        })
    } else {
        None
    }
}

// The payment of a term in cents, at credits in force and an award in dollars, by the facts of its school.
fn payment(school: &What, credits: u8, award: u32) -> u64
    requires credits { credits ≤ 40 }
    requires award { award ≤ 100000 }
    ensures { result ≡ 100 * payment_of award (intensity_of credits (full_of (school_told school.now))) (terms_of (school_told school.now)) }
{
    let What::School(facts) = school else {
        return 0;
    };
    if credits == 0 {
        return 0;
    }
    100 * u64::from(period_pay(award, intensity(credits, facts.full), facts.terms))
}

// The earlier of two terms, by school and number; of one term the one found before.
fn earlier(over: Option<Over>, first: Option<Over>) -> Option<Over>
    ensures { result ≡ earlier_over over first }
{
    match (over, first) {
        (None, _) => first,
        (Some(_), None) => over,
        (Some(a), Some(b)) => {
            if a.school < b.school || (a.school == b.school && a.term < b.term) {
                over
            } else {
                first
            }
        }
    }
}

// What is told of that term.
fn refusal(first: Option<Over>) -> Option<Refusal>
    ensures { result ≡ refusal_of first }
{
    let over = first?;
    Some(Refusal {
        rule: 93,
        kept: over.kept,
        bound: over.bound,
    })
}
