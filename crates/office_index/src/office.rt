//! The office.
ghost use Rattle.std.specs.Prelude.{◌≡◌, ◌≢◌, ◌↔◌, ◌+◌, ◌-◌, ◌*◌, ◌^◌, ◌<◌, ◌≤◌, ◌∷◌, [], ℕ, Some, None, max, length, reverse, IsTrue, is_some, IsOk, IsSome, IfSome, OnOk, OnErr};
ghost use Rattle.std.specs.List.{AllPairs};
ghost use Rattle.std.specs.Option.{option_copied};
ghost use Rattle.aid_filings.specs.declared.filing.Amount.{Amount};
ghost use Rattle.aid_filings.specs.declared.filing.Filing.{Filing as Filed};
ghost use Rattle.aid_filings.specs.declared.filing.What.TheVariants.{Pay};
ghost use Rattle.aid_types.specs.declared.award.Refusal.{Refusal as Refusing};
ghost use Rattle.aid_types.specs.declared.number.Program.TheVariants.{Pell};
ghost use Rattle.aid_filings.specs.declared.reply.Operation.TheVariants.{File as FileAsked, Quote as QuoteAsked, Standing as StandingAsked};
ghost use Rattle.aid_filings.specs.declared.reply.Outcome.{Outcome as Brought};
ghost use Rattle.aid_filings.specs.declared.reply.StandingRow.{StandingRow as Row};
ghost use Rattle.aid_filings.specs.declared.reply.Response.TheVariants.{Admit, Again, Quoted, Refused, Standing};
ghost use Rattle.aid_types.specs.Programs.{rank as rank_of};
ghost use Rattle.office_history.specs.Answer.{breaks, outcome_of, outcome_at, answer_of, answer_to, is_admit, quote_of, standing_of, IsLegal};
ghost use Rattle.office_history.specs.Net.{cell_at, net_at as net_of_cell};
ghost use Rattle.office_history.specs.FirstEnrollments.{places_of};
ghost use Rattle.office_history.specs.Past.{key_at, the_term};
ghost use Rattle.office_history.specs.Within.{IsWithinEveryLimit};
ghost use Rattle.office_history.specs.Rows.{filing_in, place_row, school_row, school_year_row};
ghost use Rattle.office_index.specs.Register.{IsKeyUsedAt, IsPellPayment};
ghost use Rattle.office_index.specs.WalkedFor.{walked_for};

use crate::indexed::Indexed;
use aid_filings::{Filing, Operation, Outcome, Response, StandingRow};
use aid_types::{Key, Program, School, Student, Year};
use office_answers::{
    answer, key_position_on, quote, quote_on, rule_on, standing, standing_on, verdict_on,
};
use office_history::{HistoryView, PlaceRow, SchoolRow, SchoolYearRow};
use office_updates::{place_of, school_of, school_year_of};
use sorted_rows::Steps;
use std::alloc::{AllocError, Global};
use std::marker::Model;
use std::mem;
use std::sync::ledger::Ledger;

/// An office: the filings that were admitted, each with the outcome of its admission, and room for more. A contract sees
/// its history, the newest filing first, and its spare room. The history of every office is legal.
pub struct Office {
    indexed: Indexed,
}

// Written out, so that who lets an office go calls this and doesn't take its tables apart.
impl Drop for Office {
    fn drop(self) {
        let Office { indexed: _indexed } = self;
    }
}

impl Model for Office {
    ghost use Rattle.office_index.specs.Register.{Register};

    ghost Value = { Register };

    ghost view = { λ o. o.indexed };
}

impl Office {
    /// An office with no filing.
    pub fn new(alloc: Global) -> Self
        ensures history { result.history ≡ [] }
        ensures spare { result.spare ≡ 0 }
    {
        Office {
            indexed: Indexed::new(alloc),
        }
    }

    /// Makes room for `n` filings more. An `Err` is want of memory, and leaves the office as it was.
    pub fn reserve(&mut self, n: u32) -> Result<(), AllocError>
        ensures history { self.new.history ≡ self.old.history }
        ensures room { OnOk result (self.new.spare ≡ max self.old.spare n) }
        ensures succeeds { n ≤ self.old.spare → IsOk result }
        ensures err { OnErr result (self.new ≡ self.old) }
    {
        self.indexed.reserve(n)
    }

    /// The number of filings.
    pub fn front(&self) -> u32
        ensures value { result ≡ length self.now.history }
        ensures legal { IsLegal self.now.history }
        ensures few { result ≤ 1000000 }

        // No student stands above a limit.
        ensures within { IsWithinEveryLimit self.now.history }
        ensures keys { AllPairs (λ f g. f.key ≢ g.key) self.now.history }
    {
        self.indexed.front()
    }

    /// The filings, the oldest first.
    pub fn filings(&self) -> &[Filing]
        ensures { reverse result.now ≡ self.now.history }
    {
        self.indexed.filings()
    }

    /// The filings alone, the oldest first. It takes no memory.
    pub fn into_filings(mut self, alloc: Global) -> Vec<Filing>
        ensures { reverse result.items ≡ self.history }
    {
        let indexed = mem::replace(&mut self.indexed, Indexed::new(alloc));
        indexed.into_filings()
    }

    /// The filing at this position, counted from 1; `None` where there is no such position.
    pub fn filing(&self, position: u32) -> Option<&Filing>
        ensures value { option_copied result ≡ filing_in self.now.history position }
        ensures stands { IsSome result ↔ (1 ≤ position) × (position ≤ length self.now.history) }
    {
        self.indexed.filing(position)
    }

    /// The position of the filing with a key; 0 where there is none.
    pub fn position(&self, key: &Key) -> u32
        ensures { result ≡ key_at key.now self.now.history }
    {
        key_position_on(&self.indexed, key)
    }

    /// The outcome with which the filing at this position was admitted; `None` where there is no such position.
    pub fn outcome(&self, position: u32) -> Option<Outcome>
        ensures value { IfSome result (λ o. o ≡ outcome_at self.now.history position) }
        ensures stands { IsSome result ↔ (1 ≤ position) × (position ≤ length self.now.history) }
    {
        if position == 0 || position > self.front() {
            return None;
        }
        Some(self.indexed.outcome(position))
    }

    /// The net of a program in a student's term at a school, in cents: payments less school returns, repayments and
    /// adjustments; 0 where there is nothing.
    pub fn net(
        &self,
        student: Student,
        school: School,
        year: Year,
        term: u8,
        program: Program,
    ) -> u64
        ensures value { result ≡ net_of_cell self.now.history (cell_at school student year term (rank_of program)) }
        ensures at_most { result ≤ 99999999 }
    {
        // The front tells that the history is legal.
        let _filings = self.indexed.front();
        let account = place_of(&self.indexed, school, student, year, term).account;
        account.net(program)
    }

    /// What is on file of the school with a code.
    pub fn school(&self, code: u32) -> SchoolRow
        ensures { result ≡ school_row self.now.history code }
    {
        school_of(&self.indexed, code)
    }

    /// What is on file of a student's term at a school.
    pub fn place(&self, school: School, student: Student, year: Year, term: u8) -> PlaceRow
        ensures { result ≡ place_row self.now.history school student year term }
    {
        place_of(&self.indexed, school, student, year, term)
    }

    /// What is on file of a student's year at a school.
    pub fn school_year(&self, school: School, student: Student, year: Year) -> SchoolYearRow
        ensures { result ≡ school_year_row self.now.history school student year }
    {
        school_year_of(&self.indexed, school, student, year)
    }

    /// The verdict on a filing. It changes nothing and takes no memory.
    pub fn judge(&self, filing: &Filing) -> Response
        ensures answer { result ≡ answer_of self.now.history filing.now }

        // A filing that stands is answered by its position and the outcome of its admission, and no other is.
        ensures again { (position : ℕ) → filing_in self.now.history position ≡ Some filing.now
            → result ≡ Again position (outcome_at self.now.history position) }
        ensures stands { (position : ℕ) → (outcome : Brought) → result ≡ Again position outcome
            → filing_in self.now.history position ≡ Some filing.now }

        // A filing with a new key is admitted where it breaks no rule, and else refused by the first that it breaks.
        ensures accepts { key_at filing.now.key self.now.history ≡ 0 → breaks self.now.history filing.now ≡ None
            → result ≡ Admit (outcome_of self.now.history filing.now) }
        ensures refuses { (refusal : Refusing) → key_at filing.now.key self.now.history ≡ 0
            → breaks self.now.history filing.now ≡ Some refusal → result ≡ Refused refusal }

        // Rule 15 refuses a filing only where another one has its key.
        ensures used { (refusal : Refusing) → result ≡ Refused refusal → refusal.rule ≡ 15
            → IsKeyUsedAt self.now.history refusal.kept filing.now × (refusal.bound ≡ filing.now.key.number) }
    {
        // The front tells that the history is legal.
        let _filings = self.indexed.front();
        verdict_on(&self.indexed, filing)
    }

    /// The greatest Pell payment in cents, of whole dollars, that the school could file for the student's term under a new
    /// key; 0 where there is none. It changes nothing and takes no memory.
    pub fn quote(&self, school: School, student: Student, year: Year, term: u8) -> u64
        ensures value { result ≡ quote_of self.now.history school student year term }

        // Every Pell payment of whole dollars up to it breaks no rule, and every one above it breaks one.
        ensures payable { (filing : Filed) → (dollars : ℕ) → IsPellPayment filing school student year term dollars → 0 < dollars
            → 100 * dollars ≤ result → breaks self.now.history filing ≡ None }
        ensures greatest { (filing : Filed) → (dollars : ℕ) → IsPellPayment filing school student year term dollars
            → result < 100 * dollars → breaks self.now.history filing ≢ None }
        ensures at_most { result ≤ 99999900 }
    {
        quote_on(&self.indexed, school, student, year, term)
    }

    /// Where a student stands in a year. It changes nothing and takes no memory.
    pub fn standing(&self, student: Student, year: Year) -> StandingRow
        ensures value { result ≡ standing_of self.now.history student year }

        // Without an application in force nothing is paid.
        ensures unpaid { result.transaction ≡ 0 → result.paid ≡ 0 }
    {
        // The front tells that the history is legal.
        let _filings = self.indexed.front();
        standing_on(&self.indexed, student, year)
    }

    /// The verdict on an ask: `judge`, `quote` or `standing`. It changes nothing and takes no memory. `steps` counts the
    /// looks at rows of an index: at most twelve for each binary digit of the number of filings, and four for each term of the
    /// school that is asked about and each term at a school in which the student is enrolled.
    pub fn respond<L: Ledger>(&self, operation: &Operation, steps: &mut Steps<L>) -> Response
        ensures answer { result ≡ answer_to self.now.history operation.now }

        // A filing that stands is answered by its position and the outcome of its admission, and no other is.
        ensures again { (filing : Filed) → (position : ℕ) → operation.now ≡ FileAsked filing → filing_in self.now.history position ≡ Some filing
            → result ≡ Again position (outcome_at self.now.history position) }
        ensures stands { (filing : Filed) → (position : ℕ) → (outcome : Brought) → operation.now ≡ FileAsked filing
            → result ≡ Again position outcome → filing_in self.now.history position ≡ Some filing }

        // A filing with a new key is admitted where it breaks no rule, and else refused by the first that it breaks.
        ensures accepts { (filing : Filed) → operation.now ≡ FileAsked filing → key_at filing.key self.now.history ≡ 0
            → breaks self.now.history filing ≡ None → result ≡ Admit (outcome_of self.now.history filing) }
        ensures refuses { (filing : Filed) → (refusal : Refusing) → operation.now ≡ FileAsked filing → key_at filing.key self.now.history ≡ 0
            → breaks self.now.history filing ≡ Some refusal → result ≡ Refused refusal }

        // Rule 15 refuses a filing only where another one has its key.
        ensures used { (filing : Filed) → (refusal : Refusing) → operation.now ≡ FileAsked filing → result ≡ Refused refusal → refusal.rule ≡ 15
            → IsKeyUsedAt self.now.history refusal.kept filing × (refusal.bound ≡ filing.key.number) }

        // Every Pell payment of whole dollars up to its quote breaks no rule, and every one above it breaks one.
        ensures quoted { (filing : Filed) → (payment : Amount) → (dollars cents : ℕ) → filing.what ≡ Pay payment → payment.program ≡ Pell
            → payment.cents ≡ 100 * dollars → 0 < dollars → operation.now ≡ QuoteAsked filing.key.school payment.student payment.year payment.term
            → result ≡ Quoted cents → payment.cents ≤ cents → breaks self.now.history filing ≡ None }
        ensures greatest { (filing : Filed) → (payment : Amount) → (dollars cents : ℕ) → filing.what ≡ Pay payment → payment.program ≡ Pell
            → payment.cents ≡ 100 * dollars → operation.now ≡ QuoteAsked filing.key.school payment.student payment.year payment.term
            → result ≡ Quoted cents → cents < payment.cents → breaks self.now.history filing ≢ None }

        // Without an application in force nothing is paid.
        ensures unpaid { (student year : ℕ) → (row : Row) → operation.now ≡ StandingAsked student year → result ≡ Standing row
            → row.transaction ≡ 0 → row.paid ≡ 0 }

        // The search for a filing's key is counted: one look at least where the key stands, and about one for each binary digit
        // of the number of filings where it doesn't. So is the walk along the student's terms where a quote's term is on file:
        // three looks at least for each.
        ensures met { (filing : Filed) → operation.now ≡ FileAsked filing → key_at filing.key self.now.history ≢ 0 → steps.old + 1 ≤ steps.new }
        ensures missed { (filing : Filed) → operation.now ≡ FileAsked filing → key_at filing.key self.now.history ≡ 0
            → length self.now.history + 2 ≤ 2 ^ (steps.new - steps.old + 1) }
        ensures walked { (school student year term : ℕ) → operation.now ≡ QuoteAsked school student year term
            → IsSome (the_term self.now.history school year term) → steps.old + 3 * places_of self.now.history student ≤ steps.new }
        ensures later { steps.old ≤ steps.new }
        ensures counted { (digits : ℕ) → length self.now.history < 2 ^ digits
            → steps.new ≤ steps.old + 12 * digits + 4 * walked_for self.now.history operation.now }
    {
        // The front tells that the history is legal.
        let _filings = self.indexed.front();
        match operation {
            Operation::File(filing) => answer(&self.indexed, filing, steps),
            Operation::Quote {
                school,
                student,
                year,
                term,
            } => Response::Quoted(quote(&self.indexed, *school, *student, *year, *term, steps)),
            Operation::Standing { student, year } => {
                Response::Standing(standing(&self.indexed, *student, *year, steps))
            }
        }
    }

    /// The outcome with which a filing would be admitted; `None` where it would not be. It changes nothing and takes no memory.
    pub fn rule(&self, filing: &Filing) -> Option<Outcome>
        ensures admitted { is_some result ≡ is_admit (answer_of self.now.history filing.now) }
        ensures outcome { IfSome result (λ outcome. answer_of self.now.history filing.now ≡ Admit outcome) }
    {
        rule_on(&self.indexed, filing)
    }

    /// Appends a filing that the office admits, and answers its outcome. It takes no memory, but one of the places of
    /// `reserve`.
    pub fn admit(&mut self, filing: Filing) -> Outcome
        requires admitted { IsTrue (is_admit (answer_of self.old.history filing)) }
        requires room { 1 ≤ self.old.spare }
        ensures history { self.new.history ≡ filing ∷ self.old.history }
        ensures outcome { answer_of self.old.history filing ≡ Admit result }
        ensures spare { self.new.spare + 1 ≡ self.old.spare }
    {
        match self.rule(&filing) {
            Some(outcome) => {
                self.admit_with(filing, outcome);
                outcome
            }
            None => unreachable!(),
        }
    }

    /// The same with the outcome, which `judge` and `rule` work out.
    pub fn admit_with(&mut self, filing: Filing, outcome: Outcome)
        requires admitted { answer_of self.old.history filing ≡ Admit outcome }
        requires room { 1 ≤ self.old.spare }
        ensures history { self.new.history ≡ filing ∷ self.old.history }
        ensures spare { self.new.spare + 1 ≡ self.old.spare }
    {
        // The front tells that the history is legal.
        let _filings = self.indexed.front();
        self.indexed.admit(filing, outcome);
    }
}
