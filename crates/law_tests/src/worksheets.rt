//! Worksheets of a withdrawal.
use aid_types::{ByProgram, Program};
use law_r2t4::{Inputs, Lines, worksheet};

// The days completed and those of the term, the charges, the net of Unsub and of Pell, what could have been disbursed of Pell, and
// the percent, what the school returns, what is owed of Pell, and what is still to be disbursed. Past 60 percent of the days all is
// earned, though 242 of 403 rounds to 60.0 percent; 30 dollars are not owed.
const SHEETS: [(u32, u32, u64, u64, u64, (u16, u64, u64, u64)); 10] = [
    (60, 100, 0, 0, 0, (600, 0, 0, 0)),
    (61, 100, 0, 0, 0, (1000, 0, 0, 0)),
    (66, 111, 0, 0, 0, (595, 0, 0, 0)),
    (67, 111, 0, 0, 0, (1000, 0, 0, 0)),
    (241, 403, 0, 0, 0, (598, 0, 0, 0)),
    (242, 403, 0, 0, 0, (1000, 0, 0, 0)),
    (10, 100, 100_000, 300_000, 0, (100, 90_000, 30_000, 0)),
    (10, 100, 130_000, 300_000, 0, (100, 117_000, 0, 0)),
    (26, 75, 10_000, 76_300, 0, (347, 6_530, 5_144, 0)),
    (30, 100, 0, 0, 100_000, (300, 0, 0, 30_000)),
];

#[test]
fn worksheets(rt: HostRuntime) {
    for (completed, total, charges, net, could, wanted) in SHEETS {
        assert!(rt; 0 < completed && completed <= total && total <= 1_000);
        assert!(rt; charges < 100_000_000 && net < 100_000_000 && could < 100_000_000);
        let inputs = Inputs {
            completed,
            total,
            charges,
            net: ByProgram::of(Program::Pell, net),
            could: ByProgram::of(Program::Pell, could),
        };
        let lines = worksheet(&inputs);
        let found = (
            lines.percent,
            lines.school,
            lines.owed.at(Program::Pell),
            lines.post,
        );
        assert_eq!(rt; found, wanted, "{completed} of {total}");
    }
}

// Loans of 2,000 and Pell of 3,000 dollars, 30 of 100 days, charges of 4,000: the loan is returned first.
#[test]
fn loans_are_returned_first(rt: HostRuntime) {
    let inputs = Inputs {
        completed: 30,
        total: 100,
        charges: 400_000,
        net: ByProgram::new([200_000, 0, 0, 300_000, 0, 0]),
        could: ByProgram::EMPTY,
    };
    let wanted = Lines {
        percent: 300,
        earned: 150_000,
        unearned: 350_000,
        school: 280_000,
        returned: ByProgram::new([200_000, 0, 0, 80_000, 0, 0]),
        student: 70_000,
        laid: ByProgram::of(Program::Pell, 70_000),
        owed: ByProgram::EMPTY,
        post: 0,
    };
    assert_eq!(rt; worksheet(&inputs), wanted);
}
