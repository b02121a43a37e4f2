//! What the lines of a student's ledger tell.
ghost use Rattle.std.specs.Prelude.{◌≡◌};
ghost use Rattle.office_sheets.specs.LedgerLines.{movement_text, word_text};
ghost use Rattle.office_sheets.specs.Ledgers.{sent_back};
ghost use Rattle.office_sheets.specs.declared.ledger_rows.Movement.TheVariants.{Return};

use aid_filings::{Amount, Outcome, SentFacts};
use aid_stamps::Stamp;
use aid_types::{Day, Key, Program, Year};

/// How money moved in a student's term.
#[derive(Clone, Copy)]
pub enum Movement {
    /// A disbursement.
    Payment,
    /// A school's return after a withdrawal.
    Return,
    /// A student's repayment of a grant.
    Repayment,
    /// A downward adjustment.
    Adjustment,
}

/// Money of a program that moved, in cents.
#[derive(Clone, Copy)]
pub struct Moved {
    pub movement: Movement,
    pub program: Program,
    pub cents: u64,
}

impl Moved {
    /// An amount that was filed.
    pub(crate) fn filed(movement: Movement, amount: &Amount) -> Moved
        ensures { result ≡ record { movement = movement; program = amount.now.program; cents = amount.now.cents } }
    {
        Moved {
            movement,
            program: amount.program,
            cents: amount.cents,
        }
    }

    /// What a school returns of a program.
    pub(crate) fn back(program: Program, cents: u64) -> Moved
        ensures { result ≡ record { movement = Return; program = program; cents = cents } }
    {
        Moved {
            movement: Movement::Return,
            program,
            cents,
        }
    }
}

/// What a school sent back of a program, in cents, on a day and under a reference of its own.
#[derive(Clone, Copy)]
pub struct SentBack {
    pub program: Program,
    pub cents: u64,
    pub day: Day,
    pub reference: u64,
}

impl SentBack {
    /// What a filing says of it.
    pub(crate) fn filed(sending: &SentFacts) -> SentBack
        ensures { result ≡ sent_back sending.now }
    {
        SentBack {
            program: sending.program,
            cents: sending.cents,
            day: sending.day,
            reference: sending.reference,
        }
    }
}

/// What a line tells: units used before this office, the outcome of an application or of a withdrawal, credits, a cost of
/// attendance in dollars, the first or a changed one, a return that was sent back, or money that moved. Behind money stand the
/// net of its program in the term, in cents, and the student's lifetime units, both with it.
#[derive(Clone, Copy)]
pub enum Told {
    Prior(u32),
    Application(Outcome),
    Enrollment(u8),
    Cost(u32),
    ChangedCost(u32),
    Withdrawal(Outcome),
    Sending(SentBack),
    Money { moved: Moved, net: u64, used: u32 },
}

/// A line of a ledger: the position, the stamp and the key of a filing, its year and its term where it has one, and what
/// it tells.
#[derive(Clone, Copy)]
pub struct LedgerRow {
    pub position: u32,
    pub stamp: Stamp,
    pub key: Key,
    pub year: Option<Year>,
    pub term: Option<u8>,
    pub told: Told,
}

/// The word of what a line tells.
pub(crate) fn word(told: &Told) -> &'static str
    ensures { result.now ≡ word_text told.now }
{
    match told {
        Told::Prior(_) => "prior",
        Told::Application(_) => "apply",
        Told::Enrollment(_) => "enrol",
        Told::Cost(_) => "originate",
        Told::ChangedCost(_) => "cost",
        Told::Withdrawal(_) => "withdraw",
        Told::Sending(_) => "sent",
        Told::Money { moved, .. } => movement_word(moved.movement),
    }
}

/// The word of how money moved.
pub(crate) fn movement_word(movement: Movement) -> &'static str
    ensures { result.now ≡ movement_text movement }
{
    match movement {
        Movement::Payment => "pay",
        Movement::Return => "return",
        Movement::Repayment => "repay",
        Movement::Adjustment => "adjust",
    }
}
