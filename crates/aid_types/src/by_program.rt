//! Amounts by program.
ghost use Rattle.std.specs.Prelude.{◌≡◌, ℕ, ◌+◌, ◌==◌, ◌^◌, ◌<◌, ◌≤◌, sum, slice_index, if◌then◌else◌};
ghost use Rattle.aid_types.specs.Programs.{minus as minus_of, plus as plus_of, rank, six};
ghost use Rattle.aid_types.specs.Ranges.{EachIsCents};

use crate::number::Program;
use std::marker::Model;

/// An amount of each program, in cents. A contract sees the list of the six, in the order of returns (34 CFR 668.22(i)).
#[derive(Clone, Copy, PartialEq, Eq, Debug)]
pub struct ByProgram {
    cents: [u64; 6],
}

impl Model for ByProgram {
    ghost use Rattle.std.specs.Prelude.{ℕ, ◌≡◌, List, length};

    ghost Value = { List ℕ };

    ghost view = { λ b. b.cents };

    ghost invariant = { λ b. length b.cents ≡ 6 };

    ghost inverse = { λ xs. record { cents = xs } };
}

impl ByProgram {
    /// Nothing of any program.
    pub const EMPTY: ByProgram = ByProgram { cents: [0; 6] };

    /// Amounts in the order of returns.
    pub fn new(cents: [u64; 6]) -> Self
        ensures { result ≡ cents }
    {
        ByProgram { cents }
    }

    /// An amount of one program, and nothing of the others.
    #[tactic(auto, using(crate::proofs::ProgramLemmas::six_of_program))]
    pub fn of(program: Program, cents: u64) -> Self
        ensures { result ≡ six (λ p. if rank program == p then cents else 0) }
    {
        let mut amounts = [0; 6];
        amounts[program.rank()] = cents;
        ByProgram { cents: amounts }
    }

    /// The amounts in the order of returns.
    pub fn cents(&self) -> [u64; 6]
        ensures { result ≡ self.now }
    {
        self.cents
    }

    /// The amount of a program.
    pub fn at(&self, program: Program) -> u64
        ensures { result ≡ slice_index self.now (rank program) }
    {
        self.cents[program.rank()]
    }

    /// The sum of the amounts, each of them below a million dollars.
    #[tactic(auto, using(crate::proofs::ProgramLemmas::cents_at))]
    pub fn sum(&self) -> u64
        requires { EachIsCents self.now }
        ensures value { result ≡ sum self.now }
        ensures at_most { result ≤ 599999994 }
    {
        let [unsub, sub, plus, pell, fseog, teach] = self.cents;
        unsub + sub + plus + pell + fseog + teach
    }

    /// The sums of these and other amounts, program by program.
    #[tactic(auto, using(crate::proofs::ProgramLemmas::plus_six))]
    pub fn plus(&self, other: &ByProgram) -> ByProgram
        requires { (p : ℕ) → slice_index self.now p + slice_index other.now p < 2 ^ 64 }
        ensures { result ≡ plus_of self.now other.now }
    {
        let (ours, theirs) = (self.cents, other.cents);
        ByProgram {
            cents: [
                ours[0] + theirs[0],
                ours[1] + theirs[1],
                ours[2] + theirs[2],
                ours[3] + theirs[3],
                ours[4] + theirs[4],
                ours[5] + theirs[5],
            ],
        }
    }

    /// What other amounts leave of these, program by program, and nothing where they are greater.
    #[tactic(auto, using(crate::proofs::ProgramLemmas::minus_six))]
    pub fn minus(&self, other: &ByProgram) -> ByProgram
        ensures { result ≡ minus_of self.now other.now }
    {
        let (ours, theirs) = (self.cents, other.cents);
        ByProgram {
            cents: [
                ours[0].saturating_sub(theirs[0]),
                ours[1].saturating_sub(theirs[1]),
                ours[2].saturating_sub(theirs[2]),
                ours[3].saturating_sub(theirs[3]),
                ours[4].saturating_sub(theirs[4]),
                ours[5].saturating_sub(theirs[5]),
            ],
        }
    }
}
