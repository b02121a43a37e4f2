//! The numbers of a key and of the facts of each kind but books and applications.
ghost use Rattle.std.specs.Prelude.{◌≡◌, ℕ, ◌+◌, ◌*◌, ◌≤◌, ◌++◌, drop, flat_map, length, take};
ghost use Rattle.aid_types.specs.Ranges.{EachIsCents};
ghost use Rattle.format_table.specs.Forms.{most_numbers};
ghost use Rattle.format_kinds.specs.Kinds.{amend_slots, amount_slots, calendar_slots, enroll_slots, first_and_last, key_slots, originate_slots, prior_slots, school_slots, sent_slots, withdraw_slots};
ghost use Rattle.format_bytes.specs.Numbers.{amount_numbers, break_days, key_numbers};
ghost use Rattle.format_table.specs.Layout.{rows_again};
ghost use Rattle.format_bytes.specs.Parts.{FitAnywhere, FitSomewhere, amend_numbers, calendar_numbers, cents_slots, could_numbers, enroll_numbers, originate_numbers, prior_numbers, school_numbers, sent_numbers, withdraw_numbers, withdrawal_numbers};

use crate::scalar::{
    cents_from, day_from, flag_from, number_of_day, number_of_flag, number_of_program,
    number_of_student, number_of_year, program_from, reference_from, student_from, term_from,
    year_from,
};
use aid_filings::{
    AmendFacts, Amount, CalendarFacts, EnrollFacts, OriginateFacts, PriorFacts, SchoolFacts,
    SentFacts, WithdrawFacts,
};
use aid_types::{Breaks, ByProgram, Day, Key, School};
use format_table::{Numbers, add_numbers};

pub(crate) fn put_key(key: &Key, numbers: &mut Numbers)
    requires room { length numbers.old.items + 2 ≤ most_numbers }
    ensures added { numbers.new.items ≡ numbers.old.items ++ key_numbers key.now }
    ensures in_range { FitAnywhere key_slots (key_numbers key.now) }
{
    add_numbers(&[i64::from(key.school.0), key.number as i64], numbers);
}

pub(crate) fn key_of(numbers: &[i64]) -> Key
    requires in_range { FitSomewhere key_slots numbers.now }
    ensures value { key_numbers result ≡ numbers.now }
{
    let [school, number] = numbers else {
        unreachable!();
    };
    Key {
        school: School(*school as u32),
        number: *number as u64,
    }
}

pub(crate) fn put_school(facts: &SchoolFacts, numbers: &mut Numbers)
    requires room { length numbers.old.items + 3 ≤ most_numbers }
    ensures added { numbers.new.items ≡ numbers.old.items ++ school_numbers facts.now }
    ensures in_range { FitAnywhere school_slots (school_numbers facts.now) }
{
    add_numbers(
        &[
            i64::from(facts.code),
            i64::from(facts.terms),
            i64::from(facts.full),
        ],
        numbers,
    );
}

pub(crate) fn school_of(numbers: &[i64]) -> SchoolFacts
    requires in_range { FitSomewhere school_slots numbers.now }
    ensures value { school_numbers result ≡ numbers.now }
{
    let [code, terms, full] = numbers else {
        unreachable!();
    };
    SchoolFacts {
        code: *code as u32,
        terms: *terms as u8,
        full: *full as u8,
    }
}

pub(crate) fn put_prior(facts: &PriorFacts, numbers: &mut Numbers)
    requires room { length numbers.old.items + 2 ≤ most_numbers }
    ensures added { numbers.new.items ≡ numbers.old.items ++ prior_numbers facts.now }
    ensures in_range { FitAnywhere prior_slots (prior_numbers facts.now) }
{
    add_numbers(
        &[number_of_student(facts.student), i64::from(facts.units)],
        numbers,
    );
}

pub(crate) fn prior_of(numbers: &[i64]) -> PriorFacts
    requires in_range { FitSomewhere prior_slots numbers.now }
    ensures value { prior_numbers result ≡ numbers.now }
{
    let [student, units] = numbers else {
        unreachable!();
    };
    PriorFacts {
        student: student_from(*student),
        units: *units as u32,
    }
}

pub(crate) fn put_enroll(facts: &EnrollFacts, numbers: &mut Numbers)
    requires room { length numbers.old.items + 4 ≤ most_numbers }
    ensures added { numbers.new.items ≡ numbers.old.items ++ enroll_numbers facts.now }
    ensures in_range { FitAnywhere enroll_slots (enroll_numbers facts.now) }
{
    let student = number_of_student(facts.student);
    let year = number_of_year(facts.year);
    add_numbers(
        &[
            student,
            year,
            i64::from(facts.term),
            i64::from(facts.credits),
        ],
        numbers,
    );
}

pub(crate) fn enroll_of(numbers: &[i64]) -> EnrollFacts
    requires in_range { FitSomewhere enroll_slots numbers.now }
    ensures value { enroll_numbers result ≡ numbers.now }
{
    let [student, year, term, credits] = numbers else {
        unreachable!();
    };
    EnrollFacts {
        student: student_from(*student),
        year: year_from(*year),
        term: term_from(*term),
        credits: *credits as u8,
    }
}

pub(crate) fn put_originate(facts: &OriginateFacts, numbers: &mut Numbers)
    requires room { length numbers.old.items + 3 ≤ most_numbers }
    ensures added { numbers.new.items ≡ numbers.old.items ++ originate_numbers facts.now }
    ensures in_range { FitAnywhere originate_slots (originate_numbers facts.now) }
{
    let student = number_of_student(facts.student);
    let year = number_of_year(facts.year);
    add_numbers(&[student, year, i64::from(facts.cost)], numbers);
}

pub(crate) fn originate_of(numbers: &[i64]) -> OriginateFacts
    requires in_range { FitSomewhere originate_slots numbers.now }
    ensures value { originate_numbers result ≡ numbers.now }
{
    let [student, year, cost] = numbers else {
        unreachable!();
    };
    OriginateFacts {
        student: student_from(*student),
        year: year_from(*year),
        cost: *cost as u32,
    }
}

pub(crate) fn put_amount(amount: &Amount, numbers: &mut Numbers)
    requires room { length numbers.old.items + 5 ≤ most_numbers }
    ensures added { numbers.new.items ≡ numbers.old.items ++ amount_numbers amount.now }
    ensures in_range { FitAnywhere amount_slots (amount_numbers amount.now) }
{
    let student = number_of_student(amount.student);
    let year = number_of_year(amount.year);
    let program = number_of_program(amount.program);
    add_numbers(
        &[
            student,
            year,
            i64::from(amount.term),
            program,
            amount.cents as i64,
        ],
        numbers,
    );
}

pub(crate) fn amount_of(numbers: &[i64]) -> Amount
    requires in_range { FitSomewhere amount_slots numbers.now }
    ensures value { amount_numbers result ≡ numbers.now }
{
    let [student, year, term, program, cents] = numbers else {
        unreachable!();
    };
    Amount {
        student: student_from(*student),
        year: year_from(*year),
        term: term_from(*term),
        program: program_from(*program),
        cents: cents_from(*cents),
    }
}

pub(crate) fn put_sent(facts: &SentFacts, numbers: &mut Numbers)
    requires room { length numbers.old.items + 7 ≤ most_numbers }
    ensures added { numbers.new.items ≡ numbers.old.items ++ sent_numbers facts.now }
    ensures in_range { FitAnywhere sent_slots (sent_numbers facts.now) }
{
    let student = number_of_student(facts.student);
    let year = number_of_year(facts.year);
    let program = number_of_program(facts.program);
    let day = number_of_day(facts.day);
    add_numbers(
        &[
            student,
            year,
            i64::from(facts.term),
            program,
            facts.cents as i64,
            day,
            facts.reference as i64,
        ],
        numbers,
    );
}

pub(crate) fn sent_of(numbers: &[i64]) -> SentFacts
    requires in_range { FitSomewhere sent_slots numbers.now }
    ensures value { sent_numbers result ≡ numbers.now }
{
    let [student, year, term, program, cents, day, reference] = numbers else {
        unreachable!();
    };
    SentFacts {
        student: student_from(*student),
        year: year_from(*year),
        term: term_from(*term),
        program: program_from(*program),
        cents: cents_from(*cents),
        day: day_from(*day),
        reference: reference_from(*reference),
    }
}

pub(crate) fn put_amend(facts: &AmendFacts, numbers: &mut Numbers)
    requires room { length numbers.old.items + 5 ≤ most_numbers }
    ensures added { numbers.new.items ≡ numbers.old.items ++ amend_numbers facts.now }
    ensures in_range { FitAnywhere amend_slots (amend_numbers facts.now) }
{
    add_numbers(
        &[
            i64::from(facts.of.school.0),
            facts.of.number as i64,
            i64::from(facts.change),
            i64::from(facts.reason),
            facts.reference as i64,
        ],
        numbers,
    );
}

pub(crate) fn amend_of(numbers: &[i64]) -> AmendFacts
    requires in_range { FitSomewhere amend_slots numbers.now }
    ensures value { amend_numbers result ≡ numbers.now }
{
    let [school, number, change, reason, reference] = numbers else {
        unreachable!();
    };
    AmendFacts {
        of: Key {
            school: School(*school as u32),
            number: *number as u64,
        },
        change: *change as u8,
        reason: *reason as u8,
        reference: reference_from(*reference),
    }
}

pub(crate) fn put_withdraw(facts: &WithdrawFacts, numbers: &mut Numbers)
    requires room { length numbers.old.items + 12 ≤ most_numbers }
    ensures added { numbers.new.items ≡ numbers.old.items ++ withdraw_numbers facts.now }
    ensures in_range { FitAnywhere withdraw_slots (withdraw_numbers facts.now) }
{
    put_withdrawal(facts, numbers);
    put_could(&facts.could.cents(), numbers);
}

fn put_withdrawal(facts: &WithdrawFacts, numbers: &mut Numbers)
    requires room { length numbers.old.items + 6 ≤ most_numbers }
    ensures added { numbers.new.items ≡ numbers.old.items ++ withdrawal_numbers facts.now }
    ensures in_range { FitAnywhere (take 6 withdraw_slots) (withdrawal_numbers facts.now) }
{
    let student = number_of_student(facts.student);
    let year = number_of_year(facts.year);
    let last = number_of_day(facts.last);
    let determined = number_of_day(facts.determined);
    add_numbers(
        &[
            student,
            year,
            i64::from(facts.term),
            last,
            determined,
            facts.charges as i64,
        ],
        numbers,
    );
}

fn put_could(could: &[u64; 6], numbers: &mut Numbers)
    requires cents { EachIsCents could.now }
    requires room { length numbers.old.items + 6 ≤ most_numbers }
    ensures added { numbers.new.items ≡ numbers.old.items ++ could_numbers could.now }
    ensures in_range { FitAnywhere (drop 6 withdraw_slots) (could_numbers could.now) }
{
    let [unsub, sub, plus, pell, fseog, teach] = *could;
    add_numbers(
        &[
            unsub as i64,
            sub as i64,
            plus as i64,
            pell as i64,
            fseog as i64,
            teach as i64,
        ],
        numbers,
    );
}

pub(crate) fn withdraw_of(numbers: &[i64]) -> WithdrawFacts
    requires in_range { FitSomewhere withdraw_slots numbers.now }
    ensures value { withdraw_numbers result ≡ numbers.now }
{
    let (numbers, could) = numbers.split_at(6);
    withdrawal_of(numbers, could_of(could))
}

fn withdrawal_of(numbers: &[i64], could: [u64; 6]) -> WithdrawFacts
    requires in_range { FitSomewhere (take 6 withdraw_slots) numbers.now }
    requires cents { EachIsCents could }
    ensures value { withdraw_numbers result ≡ numbers.now ++ could_numbers could }
{
    let [student, year, term, last, determined, charges] = numbers else {
        unreachable!();
    };
    WithdrawFacts {
        student: student_from(*student),
        year: year_from(*year),
        term: term_from(*term),
        last: day_from(*last),
        determined: day_from(*determined),
        charges: cents_from(*charges),
        could: ByProgram::new(could),
    }
}

fn could_of(numbers: &[i64]) -> [u64; 6]
    requires in_range { FitSomewhere (cents_slots 6) numbers.now }
    ensures value { could_numbers result ≡ numbers.now }
    ensures cents { EachIsCents result }
{
    let [unsub, sub, plus, pell, fseog, teach] = numbers else {
        unreachable!();
    };
    [
        cents_from(*unsub),
        cents_from(*sub),
        cents_from(*plus),
        cents_from(*pell),
        cents_from(*fseog),
        cents_from(*teach),
    ]
}

pub(crate) fn put_calendar(facts: &CalendarFacts, numbers: &mut Numbers)
    requires room { length numbers.old.items + 22 ≤ most_numbers }
    ensures added { numbers.new.items ≡ numbers.old.items ++ calendar_numbers facts.now }
    ensures in_range { FitAnywhere calendar_slots (calendar_numbers facts.now) }
{
    let year = number_of_year(facts.year);
    let extra = number_of_flag(facts.extra);
    let first = number_of_day(facts.first);
    let last = number_of_day(facts.last);
    let count = facts.breaks.len() as i64;
    add_numbers(
        &[year, i64::from(facts.term), extra, first, last, count],
        numbers,
    );
    put_breaks(facts.breaks.as_slice(), numbers);
}

fn put_breaks(breaks: &[(Day, Day)], numbers: &mut Numbers)
    requires room { length numbers.old.items + 2 * length breaks.now ≤ most_numbers }
    ensures added { numbers.new.items ≡ numbers.old.items ++ flat_map break_days breaks.now }
    ensures in_range { FitAnywhere (rows_again (length breaks.now) first_and_last) (flat_map break_days breaks.now) }
{
    for &(first, last) in breaks {
        add_numbers(&[number_of_day(first), number_of_day(last)], numbers);
    }
}

pub(crate) fn calendar_of(numbers: &[i64]) -> CalendarFacts
    requires in_range { FitSomewhere calendar_slots numbers.now }
    ensures value { calendar_numbers result ≡ numbers.now }
{
    let [year, term, extra, first, last, _, days @ ..] = numbers else {
        unreachable!();
    };
    CalendarFacts {
        year: year_from(*year),
        term: term_from(*term),
        extra: flag_from(*extra),
        first: day_from(*first),
        last: day_from(*last),
        breaks: breaks_of(days),
    }
}

fn breaks_of(days: &[i64]) -> Breaks
    requires in_range { (n : ℕ) × (n ≤ 8) × FitSomewhere (rows_again n first_and_last) days.now }
    ensures value { flat_map break_days result ≡ days.now }
{
    let mut breaks = Breaks::new();
    let mut rest = days;
    while let [first, last, more @ ..] = rest {
        breaks.push(day_from(*first), day_from(*last));
        rest = more;
    }
    breaks
}
