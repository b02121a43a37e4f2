//! What the filings move: in a student's term at a school, and at the cells of a net.
ghost use Rattle.std.specs.Prelude.{◌≡◌, ◌==◌, ◌∷◌, ℕ, IfSome, None, Some, get_or, if◌then◌else◌, is_some};
ghost use Rattle.aid_types.specs.Programs.{rank, six};
ghost use Rattle.office_history.specs.Accounts.{AreSums, IsAccount};
ghost use Rattle.office_history.specs.Answer.{IsLegal};
ghost use Rattle.office_history.specs.Net.{cell_at, in_year, is_cell, moved, net, net_at, payments_in, sheet as sheet_after, takings_in};
ghost use Rattle.office_history.specs.Own.{IsOwnEntry, own_place};
ghost use Rattle.office_history.specs.Past.{is_extra as is_extra_term, the_term, the_withdrawal};
ghost use Rattle.office_history.specs.Sheets.{CanBeWorkedOut};
ghost use Rattle.office_plain.specs.CellTests.{are_at, cents_of, test_of};

use crate::pell::mark;
use crate::plain::PlainHistory;
use crate::search::withdrawal_in;
use aid_filings::{Filing, What, WithdrawFacts};
use aid_types::{ByProgram, Key, Program, School, Student, Year};
use law_r2t4::Lines;
use office_answers::{adjusted, paid, repaid, returned, sent, sheet};
use office_history::{Account, HistoryView, Place};

/// The cells that a net is of: a student's program in a year at all schools, a student's Pell in the main terms of a
/// year, and all programs of a student at a school in a year.
#[derive(Clone, Copy)]
pub enum Cells {
    InYear(Student, Year, Program),
    InMainTerms(Student, Year),
    AtSchool(School, Student, Year),
}

/// A student's term at a school.
pub(crate) fn place(school: School, student: Student, year: Year, term: u8) -> Place
    ensures { result ≡ record { school = school; student = student; year = year; term = term } }
{
    Place {
        school,
        student,
        year,
        term,
    }
}

impl PlainHistory<'_> {
    /// A student's account in a term of a school's year. A withdrawal is worked out on what moved in its own term before it.
    pub(crate) fn account_of(&self, place: &Place) -> Account
        ensures { IsAccount self.now place.now.school place.now.student place.now.year place.now.term result }
    {
        let filings = self.filings;
        let mut so_far = Account::EMPTY;
        let mut withdrawn = false;
        for index in 0..filings.len() {
            let filing = &filings[index];
            PlainHistory::new(&filings[..index]).add_entry(filing, place, withdrawn, &mut so_far);
            withdrawn = withdrawn || withdrawal_in(filing, place).is_some();
        }
        so_far
    }

    // Adds to the account what a filing more moves there, where it is told whether the student had withdrawn before it.
    fn add_entry(&self, filing: &Filing, place: &Place, withdrawn: bool, so_far: &mut Account)
        requires legal { IsLegal (filing.now ∷ self.now) }
        requires withdrawn { withdrawn ≡ is_some (the_withdrawal self.now place.now.school place.now.student place.now.year place.now.term) }
        requires account { IsAccount self.now place.now.school place.now.student place.now.year place.now.term so_far.old }
        ensures { IsAccount (filing.now ∷ self.now) place.now.school place.now.student place.now.year place.now.term so_far.new }
    {
        match Place::of(filing) {
            Some(own) if own.is(place) => {
                *so_far = so_far.joined(&self.entry(filing, &own, withdrawn, so_far));
            }
            _ => {}
        }
    }

    // What a filing after these moves in the term that it is about, on the account of that term.
    fn entry(&self, filing: &Filing, own: &Place, withdrawn: bool, so_far: &Account) -> Account
        requires legal { IsLegal (filing.now ∷ self.now) }
        requires own { own_place filing.now.key filing.now.what ≡ Some own.now }
        requires withdrawn { withdrawn ≡ is_some (the_withdrawal self.now own.now.school own.now.student own.now.year own.now.term) }
        requires account { IsAccount self.now own.now.school own.now.student own.now.year own.now.term so_far.now }
        ensures { IsOwnEntry self.now filing.now.key filing.now.what result }
    {
        match &filing.what {
            // A payment comes after the withdrawal from its term where there was one.
            What::Pay(amount) => paid(amount, withdrawn),
            What::Repay(amount) => repaid(amount),
            What::Adjust(amount) => adjusted(amount),
            What::Withdraw(facts) => returned(&self.sheet(&filing.key, facts, so_far)),
            What::Sent(facts) => sent(facts),
            _ => Account::EMPTY,
        }
    }

    /// The worksheet of a withdrawal, on the account of the student's term.
    pub(crate) fn sheet(&self, key: &Key, facts: &WithdrawFacts, so_far: &Account) -> Lines
        requires worked_out { CanBeWorkedOut self.now key.now facts.now }
        requires account { IsAccount self.now key.now.school facts.now.student facts.now.year facts.now.term so_far.now }
        ensures { result ≡ sheet_after self.now key.now facts.now }
    {
        // The front tells that the list is legal.
        let _filings = self.front();
        match self.term_of(key.school, facts.year, facts.term).1 {
            Some(term) => sheet(&term, facts, so_far),
            None => unreachable!(),
        }
    }

    // What a filing after these pays and takes back in the term that it is about, by program. A withdrawal alone needs the
    // account of that term.
    fn paid_and_taken(&self, filing: &Filing, own: &Place) -> (ByProgram, ByProgram)
        requires legal { IsLegal (filing.now ∷ self.now) }
        requires own { own_place filing.now.key filing.now.what ≡ Some own.now }
        ensures paid { result.0 ≡ six (λ p. moved (is_cell (cell_at own.now.school own.now.student own.now.year own.now.term p)) (payments_in filing.now.key filing.now.what)) }
        ensures taken { result.1 ≡ six (λ p. moved (is_cell (cell_at own.now.school own.now.student own.now.year own.now.term p)) (takings_in self.now (net_at self.now) filing.now.key filing.now.what)) }
    {
        match &filing.what {
            What::Pay(amount) => (
                ByProgram::of(amount.program, amount.cents),
                ByProgram::EMPTY,
            ),
            What::Repay(amount) | What::Adjust(amount) => {
                (
                    ByProgram::EMPTY,
                    ByProgram::of(amount.program, amount.cents),
                )
            }
            What::Withdraw(facts) => {
                let lines = self.sheet(&filing.key, facts, &self.account_of(own));
                (ByProgram::EMPTY, lines.returned)
            }
            _ => (ByProgram::EMPTY, ByProgram::EMPTY),
        }
    }

    // What a filing after these pays and takes back of such cells in the term that it is about, all of whose amounts by program
    // a withdrawal alone needs.
    fn cents_moved(&self, filing: &Filing, own: &Place, cells: &Cells) -> (u64, u64)
        requires legal { IsLegal (filing.now ∷ self.now) }
        requires own { own_place filing.now.key filing.now.what ≡ Some own.now }
        ensures paid { result.0 ≡ cents_of cells.now (six (λ p. moved (is_cell (cell_at own.now.school own.now.student own.now.year own.now.term p)) (payments_in filing.now.key filing.now.what))) }
        ensures taken { result.1 ≡ cents_of cells.now (six (λ p. moved (is_cell (cell_at own.now.school own.now.student own.now.year own.now.term p)) (takings_in self.now (net_at self.now) filing.now.key filing.now.what))) }
    {
        match &filing.what {
            What::Pay(amount) => (cells.cents_in(amount.program, amount.cents), 0),
            What::Repay(amount) => (0, cells.cents_in(amount.program, amount.cents)),
            What::Adjust(amount) => (0, cells.cents_in(amount.program, amount.cents)),
            What::Withdraw(_) => {
                let (_, taken) = self.paid_and_taken(filing, own);
                (0, cells.cents_of(&taken))
            }
            _ => (0, 0),
        }
    }

    /// The nets of a year by program.
    pub(crate) fn nets(&self, student: Student, year: Year) -> ByProgram
        ensures { result ≡ six (λ p. net self.now (in_year student year p)) }
    {
        let filings = self.filings;
        let mut paid = ByProgram::EMPTY;
        let mut taken = ByProgram::EMPTY;
        for index in 0..filings.len() {
            let past = PlainHistory::new(&filings[..index]);
            let (more_paid, more_taken) = past.moved_in(&filings[index], student, year);
            paid = paid.plus(&more_paid);
            taken = taken.plus(&more_taken);
        }
        paid.minus(&taken)
    }

    // What a filing after these pays and takes back in a student's year, by program.
    fn moved_in(&self, filing: &Filing, student: Student, year: Year) -> (ByProgram, ByProgram)
        requires { IsLegal (filing.now ∷ self.now) }
        ensures paid { result.0 ≡ six (λ p. moved (in_year student year p) (payments_in filing.now.key filing.now.what)) }
        ensures taken { result.1 ≡ six (λ p. moved (in_year student year p) (takings_in self.now (net_at self.now) filing.now.key filing.now.what)) }
    {
        match Place::of(filing) {
            Some(own) if own.student == student && own.year == year => {
                self.paid_and_taken(filing, &own)
            }
            _ => (ByProgram::EMPTY, ByProgram::EMPTY),
        }
    }

    /// Payments less school returns, repayments and adjustments at the cells, in cents.
    pub(crate) fn net_of(&self, cells: &Cells) -> u64
        ensures { result ≡ net self.now (test_of self.now cells.now) }
    {
        let filings = self.filings;
        let mut asked = [None; 64];
        let mut paid = 0;
        let mut taken = 0;
        for index in 0..filings.len() {
            let past = PlainHistory::new(&filings[..index]);
            let (more_paid, more_taken) = past.moved_at(&filings[index], self, cells, &mut asked);
            paid += more_paid;
            taken += more_taken;
        }
        paid - taken
    }

    // What a filing after these pays and takes back at the cells, of which a whole list tells the main ones.
    fn moved_at(
        &self,
        filing: &Filing,
        whole: &PlainHistory<'_>,
        cells: &Cells,
        asked: &mut [Option<(Place, bool)>; 64],
    ) -> (u64, u64)
        requires legal { IsLegal (filing.now ∷ self.now) }
        requires asked { (i : ℕ) → IfSome (get_or asked.old i None) (λ a. a.1 ≡ is_extra_term (the_term whole.now a.0.school a.0.year a.0.term)) }
        ensures paid { result.0 ≡ moved (test_of whole.now cells.now) (payments_in filing.now.key filing.now.what) }
        ensures taken { result.1 ≡ moved (test_of whole.now cells.now) (takings_in self.now (net_at self.now) filing.now.key filing.now.what) }
        ensures asked { (i : ℕ) → IfSome (get_or asked.new i None) (λ a. a.1 ≡ is_extra_term (the_term whole.now a.0.school a.0.year a.0.term)) }
    {
        match Place::of(filing) {
            Some(own) if whole.has(cells, &own, asked) => { self.cents_moved(filing, &own, cells) }
            _ => (0, 0),
        }
    }

    // Whether some of the cells are of a student's term at a school.
    fn has(&self, cells: &Cells, place: &Place, asked: &mut [Option<(Place, bool)>; 64]) -> bool
        requires { (i : ℕ) → IfSome (get_or asked.old i None) (λ a. a.1 ≡ is_extra_term (the_term self.now a.0.school a.0.year a.0.term)) }
        ensures value { result ≡ are_at self.now cells.now place.now }
        ensures asked { (i : ℕ) → IfSome (get_or asked.new i None) (λ a. a.1 ≡ is_extra_term (the_term self.now a.0.school a.0.year a.0.term)) }
    {
        match *cells {
            Cells::InYear(student, year, _) => place.student == student && place.year == year,
            Cells::InMainTerms(student, year) => {
                place.student == student && place.year == year && !self.asks_extra(place, asked)
            }
            Cells::AtSchool(school, student, year) => {
                place.school == school && place.student == student && place.year == year
            }
        }
    }

    // Whether the term on file is beyond the main terms. Of some terms that were asked it is known, and they aren't looked for.
    fn asks_extra(&self, place: &Place, asked: &mut [Option<(Place, bool)>; 64]) -> bool
        requires { (i : ℕ) → IfSome (get_or asked.old i None) (λ a. a.1 ≡ is_extra_term (the_term self.now a.0.school a.0.year a.0.term)) }
        ensures value { result ≡ is_extra_term (the_term self.now place.now.school place.now.year place.now.term) }
        ensures asked { (i : ℕ) → IfSome (get_or asked.new i None) (λ a. a.1 ≡ is_extra_term (the_term self.now a.0.school a.0.year a.0.term)) }
    {
        let slot = mark(place.school, place.term) % 64;
        let last = asked[slot];
        match &last {
            Some((known, extra)) if known.is(place) => *extra,
            _ => {
                let extra = self.is_extra(place);
                asked[slot] = Some((*place, extra));
                extra
            }
        }
    }

    // Whether the term on file is beyond the main terms.
    fn is_extra(&self, place: &Place) -> bool
        ensures { result ≡ is_extra_term (the_term self.now place.now.school place.now.year place.now.term) }
    {
        match self.term_of(place.school, place.year, place.term).1 {
            Some(term) => term.extra,
            None => false,
        }
    }
}

impl Cells {
    // What of an amount of one program stands at them.
    fn cents_in(&self, program: Program, cents: u64) -> u64
        ensures { result ≡ cents_of self.now (six (λ p. if rank program == p then cents else 0)) }
    {
        let counts = match *self {
            Cells::InYear(_, _, wanted) => program.rank() == wanted.rank(),
            Cells::InMainTerms(..) => program.rank() == Program::Pell.rank(),
            Cells::AtSchool(..) => true,
        };
        if counts { cents } else { 0 }
    }

    // What of a term's amounts stands at them.
    fn cents_of(&self, amounts: &ByProgram) -> u64
        requires { AreSums amounts.now }
        ensures { result ≡ cents_of self.now amounts.now }
    {
        match *self {
            Cells::InYear(_, _, program) => amounts.at(program),
            Cells::InMainTerms(..) => amounts.at(Program::Pell),
            Cells::AtSchool(..) => {
                let [unsub, sub, plus, pell, fseog, teach] = amounts.cents();
                unsub + sub + plus + pell + fseog + teach
            }
        }
    }
}
