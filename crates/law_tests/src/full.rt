//! A full office: it holds 1,000,000 filings, and refuses the next by rule 90.
ghost use Rattle.std.specs.Prelude.{◌≤◌};

use aid_filings::{Filing, Outcome, PriorFacts, Response, What};
use aid_types::{Key, Refusal, School, Student};
use office_index::Office;
use std::alloc::AllocError;
use std::process::Abort;
use std::test::Fail;

/// How many filings an office holds.
const FILINGS: u32 = 1_000_000;

// Judges a filing, and admits it where the office would.
fn file(office: &mut Office, filing: Filing) -> Result<Response, AllocError> {
    office.reserve(1)?;
    let response = office.judge(&filing);
    if let Response::Admit(outcome) = response {
        office.admit_with(filing, outcome);
    }
    Ok(response)
}

// Files as many filings as an office holds.
fn fill(rt: &impl Abort, office: &mut Office) -> Result<(), Fail> {
    office.reserve(FILINGS)?;
    for number in 0..FILINGS {
        let response = file(office, prior(number))?;
        assert_eq!(rt; response, Response::Admit(Outcome::Noted), "{number}");
    }
    Ok(())
}

// What a full office answers.
fn assert_full(rt: &impl Abort, office: &Office) {
    assert_eq!(rt; office.front(), FILINGS);
    let full = Refusal {
        rule: 90,
        kept: 1_000_000,
        bound: 1_000_000,
    };
    assert_eq!(rt; office.judge(&prior(FILINGS)), Response::Refused(full));
    let first = Response::Again {
        position: 1,
        outcome: Outcome::Noted,
    };
    assert_eq!(rt; office.judge(&prior(0)), first);
}

#[test]
fn a_full_office(rt: HostRuntime) -> Result<(), Fail> {
    let mut office = Office::new(rt.alloc());
    fill(&rt, &mut office)?;
    assert_full(&rt, &office);
    Ok(())
}

// The use of a student of their own before this office, of 1 unit, under the next number of the desk.
fn prior(number: u32) -> Filing
    requires { number ≤ 1000000 }
{
    Filing {
        key: Key {
            school: School(0),
            number: u64::from(number) + 1,
        },
        what: What::Prior(PriorFacts {
            student: Student(u64::from(number) + 1),
            units: 1,
        }),
    }
}
