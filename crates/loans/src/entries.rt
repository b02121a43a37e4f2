//! A loan filing as the list of its numbers, both ways.
ghost use Rattle.std.specs.Prelude.{◌≡◌, ◌≤◌, ◌++◌, [], length, IsSome};
ghost use Rattle.format_table.specs.Tables.{kind_at, slots_at};
ghost use Rattle.loans.specs.Kinds.{loan_kinds};
ghost use Rattle.loans.specs.Numbers.{code_of_loan, code_of_what, numbers_of_loan, what_numbers};
ghost use Rattle.loans.specs.Parts.{FitAnywhere, FitSomewhere, slots_of_what};
ghost use Rattle.loans.specs.Same.{same_loan};

use crate::facts::{
    before_of, borrower_of, key_of, loan_of, put_before, put_borrower, put_key, put_loan,
};
use crate::limits::{limits_of, put_limits};
use crate::table::Loans;
use format_table::{EntryCodec, Numbers};
use law_loans::{LoanFiling, LoanWhat};

impl EntryCodec for Loans {
    type Entry = LoanFiling;

    ghost code_of = { code_of_loan };

    ghost numbers_of = { numbers_of_loan };

    ghost one = { same_loan };

    fn code(entry: &LoanFiling) -> u8 {
        match entry.what {
            LoanWhat::Limits(_) => 101,
            LoanWhat::Borrower(_) => 102,
            LoanWhat::Before(_) => 103,
            LoanWhat::Lend(_) => 104,
            LoanWhat::Cancel(_) => 105,
        }
    }

    fn numbers(entry: &LoanFiling) -> Numbers {
        let mut numbers = Numbers::new();
        put_key(&entry.key, &mut numbers);
        put_what(&entry.what, &mut numbers);
        numbers
    }

    fn entry(code: u8, numbers: &[i64]) -> LoanFiling {
        let (key, facts) = numbers.split_at(2);
        LoanFiling {
            key: key_of(key),
            what: what_of(code, facts),
        }
    }
}

fn put_what(what: &LoanWhat, numbers: &mut Numbers)
    requires room { length numbers.old.items ≤ 2 }
    ensures added { numbers.new.items ≡ numbers.old.items ++ what_numbers what.now }
    ensures in_range { FitAnywhere (slots_of_what what.now) (what_numbers what.now) }
{
    match what {
        LoanWhat::Limits(limits) => put_limits(limits, numbers),
        LoanWhat::Borrower(record) => put_borrower(record, numbers),
        LoanWhat::Before(before) => put_before(before, numbers),
        LoanWhat::Lend(loan) => put_loan(loan, numbers),
        LoanWhat::Cancel(loan) => put_loan(loan, numbers),
    }
}

fn what_of(code: u8, numbers: &[i64]) -> LoanWhat
    requires known { IsSome (kind_at loan_kinds code) }
    requires in_range { FitSomewhere (slots_at [] loan_kinds code) numbers.now }
    ensures code { code_of_what result ≡ code }
    ensures value { what_numbers result ≡ numbers.now }
{
    match code {
        101 => LoanWhat::Limits(limits_of(numbers)),
        102 => LoanWhat::Borrower(borrower_of(numbers)),
        103 => LoanWhat::Before(before_of(numbers)),
        104 => LoanWhat::Lend(loan_of(numbers)),
        105 => LoanWhat::Cancel(loan_of(numbers)),
        _ => unreachable!(),
    }
}
