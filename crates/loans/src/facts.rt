//! The numbers of a key and of the facts of each kind but the limits.
ghost use Rattle.std.specs.Prelude.{◌≡◌, ◌+◌, ◌≤◌, ◌++◌, length};
ghost use Rattle.format_table.specs.Forms.{most_numbers};
ghost use Rattle.format_kinds.specs.Kinds.{key_slots};
ghost use Rattle.loans.specs.Kinds.{before_slots, borrower_slots, loan_slots};
ghost use Rattle.loans.specs.Numbers.{before_numbers, borrower_numbers, key_numbers, loan_numbers};
ghost use Rattle.loans.specs.Parts.{FitAnywhere, FitSomewhere};

use crate::scalar::{
    cents_from, dollars_from, flag_from, number_of_flag, number_of_program, number_of_student,
    number_of_year, program_from, student_from, year_from,
};
use aid_types::{Key, School};
use format_table::{Numbers, add_numbers};
use law_loans::{BeforeFacts, BorrowerFacts, LoanAmount};

pub(crate) fn put_key(key: &Key, numbers: &mut Numbers)
    requires room { length numbers.old.items + 2 ≤ most_numbers }
    ensures added { numbers.new.items ≡ numbers.old.items ++ key_numbers key.now }
    ensures in_range { FitAnywhere key_slots (key_numbers key.now) }
{
    add_numbers(&[i64::from(key.school.0), key.number as i64], numbers);
}

pub(crate) fn key_of(numbers: &[i64]) -> Key
    requires in_range { FitSomewhere key_slots numbers.now }
    ensures value { key_numbers result ≡ numbers.now }
{
    let [school, number] = numbers else {
        unreachable!();
    };
    Key {
        school: School(*school as u32),
        number: *number as u64,
    }
}

pub(crate) fn put_borrower(borrower: &BorrowerFacts, numbers: &mut Numbers)
    requires room { length numbers.old.items + 7 ≤ most_numbers }
    ensures added { numbers.new.items ≡ numbers.old.items ++ borrower_numbers borrower.now }
    ensures in_range { FitAnywhere borrower_slots (borrower_numbers borrower.now) }
{
    let student = number_of_student(borrower.student);
    let year = number_of_year(borrower.year);
    let independent = number_of_flag(borrower.independent);
    add_numbers(
        &[
            student,
            year,
            i64::from(borrower.transaction),
            i64::from(borrower.level),
            independent,
            i64::from(borrower.need),
            i64::from(borrower.cost),
        ],
        numbers,
    );
}

pub(crate) fn borrower_of(numbers: &[i64]) -> BorrowerFacts
    requires in_range { FitSomewhere borrower_slots numbers.now }
    ensures value { borrower_numbers result ≡ numbers.now }
{
    let [student, year, transaction, level, independent, need, cost] = numbers else {
        unreachable!();
    };
    BorrowerFacts {
        student: student_from(*student),
        year: year_from(*year),
        transaction: *transaction as u8,
        level: *level as u8,
        independent: flag_from(*independent),
        need: dollars_from(*need),
        cost: dollars_from(*cost),
    }
}

pub(crate) fn put_before(before: &BeforeFacts, numbers: &mut Numbers)
    requires room { length numbers.old.items + 3 ≤ most_numbers }
    ensures added { numbers.new.items ≡ numbers.old.items ++ before_numbers before.now }
    ensures in_range { FitAnywhere before_slots (before_numbers before.now) }
{
    let student = number_of_student(before.student);
    add_numbers(
        &[student, i64::from(before.sub), i64::from(before.total)],
        numbers,
    );
}

pub(crate) fn before_of(numbers: &[i64]) -> BeforeFacts
    requires in_range { FitSomewhere before_slots numbers.now }
    ensures value { before_numbers result ≡ numbers.now }
{
    let [student, sub, total] = numbers else {
        unreachable!();
    };
    BeforeFacts {
        student: student_from(*student),
        sub: dollars_from(*sub),
        total: dollars_from(*total),
    }
}

pub(crate) fn put_loan(loan: &LoanAmount, numbers: &mut Numbers)
    requires room { length numbers.old.items + 4 ≤ most_numbers }
    ensures added { numbers.new.items ≡ numbers.old.items ++ loan_numbers loan.now }
    ensures in_range { FitAnywhere loan_slots (loan_numbers loan.now) }
{
    let student = number_of_student(loan.student);
    let year = number_of_year(loan.year);
    let program = number_of_program(loan.program);
    add_numbers(&[student, year, program, loan.cents as i64], numbers);
}

pub(crate) fn loan_of(numbers: &[i64]) -> LoanAmount
    requires in_range { FitSomewhere loan_slots numbers.now }
    ensures value { loan_numbers result ≡ numbers.now }
{
    let [student, year, program, cents] = numbers else {
        unreachable!();
    };
    LoanAmount {
        student: student_from(*student),
        year: year_from(*year),
        program: program_from(*program),
        cents: cents_from(*cents),
    }
}
