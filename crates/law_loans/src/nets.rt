//! Nets with a loan, and their sums.
ghost use Rattle.std.specs.Prelude.{◌≡◌, ◌≤◌};
ghost use Rattle.law_loans.specs.Loans.{is_sub as is_sub_of};
ghost use Rattle.law_loans.specs.Rules.{AreSmall, HaveRoom, net_of_program, of_all as of_all_of, of_year as of_year_of, with_loan as with_loan_of};

use crate::facts::LoanNets;
use aid_types::Program;

/// Whether a loan is subsidized.
pub(crate) fn is_sub(program: Program) -> bool
    ensures { result ≡ is_sub_of program }
{
    program == Program::Sub
}

/// The nets with a loan of so many cents.
pub(crate) fn with_loan(nets: &LoanNets, is_sub: bool, cents: u64) -> LoanNets
    requires small { AreSmall nets.now }
    requires amount { cents ≤ 99999999 }
    ensures value { result ≡ with_loan_of nets.now is_sub cents }
    ensures room { HaveRoom result }
{
    if is_sub {
        LoanNets {
            sub: nets.sub + cents,
            sub_all: nets.sub_all + cents,
            ..*nets
        }
    } else {
        LoanNets {
            unsub: nets.unsub + cents,
            unsub_all: nets.unsub_all + cents,
            ..*nets
        }
    }
}

/// The net of the year, subsidized or not.
pub(crate) fn of_program(nets: &LoanNets, is_sub: bool) -> u64
    ensures { result ≡ net_of_program nets.now is_sub }
{
    if is_sub { nets.sub } else { nets.unsub }
}

/// The net of the year.
pub(crate) fn of_year(nets: &LoanNets) -> u64
    requires { HaveRoom nets.now }
    ensures { result ≡ of_year_of nets.now }
{
    nets.sub + nets.unsub
}

/// The net of all years.
pub(crate) fn of_all(nets: &LoanNets) -> u64
    requires { HaveRoom nets.now }
    ensures { result ≡ of_all_of nets.now }
{
    nets.sub_all + nets.unsub_all
}
