//! What moved in a student's term at a school.
ghost use Rattle.std.specs.Prelude.{◌≡◌, ◌-◌, slice_index};
ghost use Rattle.aid_types.specs.Programs.{rank as rank_of};
ghost use Rattle.office_history.specs.Accounts.{HasSums, joined};

use aid_types::{ByProgram, Program};

/// What moved in a student's term at a school, in cents and by program in the order of returns: what was paid and what
/// was taken back by returns, repayments and adjustments; what withdrawals left the student to repay and what was
/// repaid; what withdrawals return and what the school sent back of it; and what was paid after a withdrawal, of each
/// program and of all. `post` is the post-withdrawal amount (34 CFR 668.22).
#[derive(Clone, Copy, PartialEq, Eq)]
pub struct Account {
    pub paid: ByProgram,
    pub taken: ByProgram,
    pub owed: ByProgram,
    pub repaid: ByProgram,
    pub returned: ByProgram,
    pub sent: ByProgram,
    pub after: ByProgram,
    pub after_all: u64,
    pub post: u64,
}

impl Account {
    /// Nothing moved.
    pub const EMPTY: Account = Account {
        paid: ByProgram::EMPTY,
        taken: ByProgram::EMPTY,
        owed: ByProgram::EMPTY,
        repaid: ByProgram::EMPTY,
        returned: ByProgram::EMPTY,
        sent: ByProgram::EMPTY,
        after: ByProgram::EMPTY,
        after_all: 0,
        post: 0,
    };

    /// The net of a program: what was paid, less what was taken back.
    pub fn net(&self, program: Program) -> u64
        ensures { result ≡ slice_index self.now.paid (rank_of program) - slice_index self.now.taken (rank_of program) }
    {
        self.paid.at(program).saturating_sub(self.taken.at(program))
    }

    /// The sums of both.
    pub fn joined(&self, other: &Account) -> Account
        requires ours { HasSums self.now }
        requires theirs { HasSums other.now }
        ensures { result ≡ joined self.now other.now }
    {
        Account {
            paid: self.paid.plus(&other.paid),
            taken: self.taken.plus(&other.taken),
            owed: self.owed.plus(&other.owed),
            repaid: self.repaid.plus(&other.repaid),
            returned: self.returned.plus(&other.returned),
            sent: self.sent.plus(&other.sent),
            after: self.after.plus(&other.after),
            after_all: self.after_all + other.after_all,
            post: self.post + other.post,
        }
    }
}
