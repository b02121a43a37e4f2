//! A work-study filing as the list of its numbers, both ways.
ghost use Rattle.std.specs.Prelude.{◌≡◌, ◌∷◌, [], IsTrue, pos};
ghost use Rattle.format_table.specs.Limits.{is_between};
ghost use Rattle.work_study.specs.Numbers.{code_of_work, key_numbers, numbers_of_work};
ghost use Rattle.work_study.specs.Same.{same_work};

use crate::table::WorkStudy;
use aid_types::{Key, School, Student, Year};
use format_table::{EntryCodec, Numbers, add_numbers};
use law_work::{DollarFacts, EarnFacts, FundFacts, WorkFiling, WorkWhat};

// The numbers of a key, and those behind them.
macro_rules! numbers_of {
    ($key:expr, $($number:expr),+) => {{
        let mut numbers = Numbers::new();
        add_numbers(&[i64::from($key.school.0), $key.number as i64, $($number),+], &mut numbers);
        numbers
    }};
}

// The filing of a kind by its numbers: those of its key, and those that are named.
macro_rules! filing_of {
    ($what:ident: $numbers:expr, [$($number:ident),+] => $facts:expr) => {{
        let [school, number, $($number),+] = $numbers else {
            unreachable!();
        };
        WorkFiling {
            key: key_from(*school, *number),
            what: WorkWhat::$what($facts),
        }
    }};
}

// The facts of an award, or of a part that is released.
macro_rules! dollars_of {
    ($student:ident, $year:ident, $dollars:ident) => {
        DollarFacts {
            student: Student(*$student as u64),
            year: Year(*$year as u16),
            dollars: *$dollars as u32,
        }
    };
}

impl EntryCodec for WorkStudy {
    type Entry = WorkFiling;

    ghost code_of = { code_of_work };

    ghost numbers_of = { numbers_of_work };

    ghost one = { same_work };

    fn code(entry: &WorkFiling) -> u8 {
        match entry.what {
            WorkWhat::Fund(_) => 201,
            WorkWhat::Award(_) => 202,
            WorkWhat::Earn(_) => 203,
            WorkWhat::Release(_) => 204,
        }
    }

    fn numbers(entry: &WorkFiling) -> Numbers {
        match &entry.what {
            WorkWhat::Fund(fund) => {
                numbers_of!(entry.key, i64::from(fund.year.0), i64::from(fund.dollars))
            }
            WorkWhat::Award(award) | WorkWhat::Release(award) => numbers_of!(
                entry.key,
                award.student.0 as i64,
                i64::from(award.year.0),
                i64::from(award.dollars)
            ),
            WorkWhat::Earn(work) => numbers_of!(
                entry.key,
                work.student.0 as i64,
                i64::from(work.year.0),
                i64::from(work.minutes),
                i64::from(work.wage)
            ),
        }
    }

    fn entry(code: u8, numbers: &[i64]) -> WorkFiling {
        match code {
            201 => filing_of!(Fund: numbers, [year, dollars] => FundFacts {
                year: Year(*year as u16),
                dollars: *dollars as u32,
            }),
            202 => {
                filing_of!(Award: numbers, [student, year, dollars] => dollars_of!(student, year, dollars))
            }
            203 => filing_of!(Earn: numbers, [student, year, minutes, wage] => EarnFacts {
                student: Student(*student as u64),
                year: Year(*year as u16),
                minutes: *minutes as u32,
                wage: *wage as u32,
            }),
            204 => {
                filing_of!(Release: numbers, [student, year, dollars] => dollars_of!(student, year, dollars))
            }
            _ => unreachable!(),
        }
    }
}

// The key of a school and a number.
fn key_from(school: i64, number: i64) -> Key
    requires school { IsTrue (is_between (pos 0) (pos 999999) school) }
    requires number { IsTrue (is_between (pos 1) (pos 999999999999) number) }
    ensures { key_numbers result ≡ school ∷ number ∷ [] }
{
    Key {
        school: School(school as u32),
        number: number as u64,
    }
}
