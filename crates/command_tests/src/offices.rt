// Offices of a few rows that were worked by hand: each file and quote, with the text that answers it.
use crate::runs::{assert_runs, with_book};
use specimen::BOOK_TEXT as BOOK;
use std::test::Fail;
use whole_runs::Run;

#[test]
fn worked_offices(rt: HostRuntime) -> Result<(), Fail> {
    let alloc = rt.alloc();
    let book = with_book(&rt, alloc)?;
    for runs in ON_BOOK {
        assert_runs(&rt, alloc, book.image(), runs)?;
    }
    let base = assert_runs(&rt, alloc, book.image(), &[("file", BASE, 0, BASE_LINES)])?;
    for runs in ON_BASE {
        assert_runs(&rt, alloc, base.image(), runs)?;
    }
    Ok(())
}

// A school of two terms with 12 credits full time, and a student at full time in both whose Scheduled Award is 7,395 dollars.
const BASE: &str = "\
school,0,2,110,2,12\n\
calendar,110,1,2025,1,0,2025-08-25,2025-12-02,0\n\
calendar,110,2,2025,2,0,2026-01-12,2026-04-21,0\n\
apply,110,100,5001,2025,1,2006,0,4,0,0,0,0,0,0,0,0,0,0,1,0,0,0,0,0,0,0,0,0,0,0,0,0,0,0,0,1,0,48,0,0,0,0,0,0,0,0,0,0,0,0,0,0,0,0\n\
enrol,110,101,5001,2025,1,12\n\
enrol,110,102,5001,2025,2,12\n\
originate,110,103,5001,2025,24000\n";

const BASE_LINES: &str = "\
1 1 accepted 2 noted\n\
2 2 accepted 3 noted\n\
3 3 accepted 4 noted\n\
4 4 accepted 5 index A -1500 maximum 7395\n\
5 5 accepted 6 noted\n\
6 6 accepted 7 noted\n\
7 7 accepted 8 noted\n";

// On the book and these rows.
const ON_BASE: [&[Run]; 12] = [
    // 1, 7, 11, 12 and 15 of 12 credits are 8, 58, 92, 100 and 100 percent of half the award.
    &[
        (
            "file",
            "enrol,110,11,5001,2025,1,1\n",
            0,
            "1 8 accepted 9 noted\n",
        ),
        ("quote 110 5001 2025 1", "", 0, "quote 296\n"),
        (
            "file",
            "enrol,110,17,5001,2025,1,7\n",
            0,
            "1 9 accepted 10 noted\n",
        ),
        ("quote 110 5001 2025 1", "", 0, "quote 2145\n"),
        (
            "file",
            "enrol,110,21,5001,2025,1,11\n",
            0,
            "1 10 accepted 11 noted\n",
        ),
        ("quote 110 5001 2025 1", "", 0, "quote 3402\n"),
        (
            "file",
            "enrol,110,22,5001,2025,1,12\n",
            0,
            "1 11 accepted 12 noted\n",
        ),
        ("quote 110 5001 2025 1", "", 0, "quote 3698\n"),
        (
            "file",
            "enrol,110,25,5001,2025,1,15\n",
            0,
            "1 12 accepted 13 noted\n",
        ),
        ("quote 110 5001 2025 1", "", 0, "quote 3698\n"),
    ],
    // Half of the award is 3,697.50 dollars, so the second term takes a dollar less than the
    // first. A further term takes the year to one and a half awards, where it is at half time.
    &[
        (
            "file",
            "pay,110,9,5001,2025,1,pell,3698.00\n",
            0,
            "1 8 accepted 9 paid 3698.00 50007\n",
        ),
        ("quote 110 5001 2025 2", "", 0, "quote 3697\n"),
        ("quote 110 5009 2025 1", "", 0, "quote 0\n"),
        (
            "file",
            "\
pay,110,10,5001,2025,2,pell,3698.00\n\
pay,110,10,5001,2025,2,pell,3697.00\n",
            0,
            "\
1 9 refused 55 739600 739500\n\
2 9 accepted 10 paid 7395.00 100000\n",
        ),
        (
            "file",
            "\
calendar,110,11,2025,3,1,2026-05-11,2026-08-07,0\n\
enrol,110,12,5001,2025,3,5\n\
pay,110,13,5001,2025,3,pell,1553.00\n\
enrol,110,14,5001,2025,3,6\n",
            0,
            "\
1 10 accepted 11 noted\n\
2 11 accepted 12 noted\n\
3 12 refused 55 894800 739500\n\
4 12 accepted 13 noted\n",
        ),
        ("quote 110 5001 2025 3", "", 0, "quote 1849\n"),
        (
            "file",
            "pay,110,13,5001,2025,3,pell,1849.00\n",
            0,
            "1 13 accepted 14 paid 9244.00 125003\n",
        ),
    ],
    // At full time the further term takes the year to one and a half awards, which is 11,092.50
    // dollars.
    &[
        (
            "file",
            "\
pay,110,9,5001,2025,1,pell,3698.00\n\
pay,110,10,5001,2025,2,pell,3697.00\n\
calendar,110,11,2025,3,1,2026-05-11,2026-08-07,0\n\
enrol,110,12,5001,2025,3,12\n\
pay,110,13,5001,2025,3,pell,3698.00\n",
            0,
            "\
1 8 accepted 9 paid 3698.00 50007\n\
2 9 accepted 10 paid 7395.00 100000\n\
3 10 accepted 11 noted\n\
4 11 accepted 12 noted\n\
5 12 refused 55 1109300 1109250\n",
        ),
        ("quote 110 5001 2025 3", "", 0, "quote 3697\n"),
        (
            "file",
            "pay,110,13,5001,2025,3,pell,3697.00\n",
            0,
            "1 12 accepted 13 paid 11092.00 149993\n",
        ),
    ],
    // Half a year below the lifetime limit.
    &[
        (
            "file",
            "prior,0,3,5001,550000\n",
            0,
            "1 8 accepted 9 noted\n",
        ),
        ("quote 110 5001 2025 1", "", 0, "quote 3697\n"),
        (
            "file",
            "pay,110,9,5001,2025,1,pell,3698.00\n",
            0,
            "1 9 refused 56 600007 600000\n",
        ),
    ],
    // At the lifetime limit.
    &[
        (
            "file",
            "\
prior,0,3,5001,600001\n\
prior,0,3,5001,600000\n",
            0,
            "\
1 8 refused 81 600001 600000\n\
2 8 accepted 9 noted\n",
        ),
        ("quote 110 5001 2025 1", "", 0, "quote 0\n"),
        (
            "file",
            "pay,110,9,5001,2025,1,pell,1.00\n",
            0,
            "1 9 refused 56 600014 600000\n",
        ),
    ],
    // Past 60 percent of the days all is earned: 242 of 403 days are, though they round to it.
    &[(
        "file",
        "\
calendar,110,30,2025,3,1,2027-01-01,2027-04-10,0\n\
enrol,110,31,5001,2025,3,12\n\
withdraw,110,32,5001,2025,3,2027-03-01,2027-03-01,0.00,0.00,0.00,0.00,0.00,0.00,0.00\n\
calendar,110,33,2025,4,1,2027-04-11,2027-07-19,0\n\
enrol,110,34,5001,2025,4,12\n\
withdraw,110,35,5001,2025,4,2027-06-10,2027-06-10,0.00,0.00,0.00,0.00,0.00,0.00,0.00\n\
calendar,110,36,2025,5,1,2027-07-20,2027-11-07,0\n\
enrol,110,37,5001,2025,5,12\n\
withdraw,110,38,5001,2025,5,2027-09-23,2027-09-23,0.00,0.00,0.00,0.00,0.00,0.00,0.00\n\
calendar,110,39,2025,6,1,2027-11-08,2028-02-26,0\n\
enrol,110,40,5001,2025,6,12\n\
withdraw,110,41,5001,2025,6,2028-01-13,2028-01-13,0.00,0.00,0.00,0.00,0.00,0.00,0.00\n\
calendar,110,42,2025,7,1,2028-02-27,2029-04-04,0\n\
enrol,110,43,5001,2025,7,12\n\
withdraw,110,44,5001,2025,7,2028-10-24,2028-10-24,0.00,0.00,0.00,0.00,0.00,0.00,0.00\n\
calendar,110,45,2025,8,1,2029-04-05,2030-05-12,0\n\
enrol,110,46,5001,2025,8,12\n\
withdraw,110,47,5001,2025,8,2029-12-02,2029-12-02,0.00,0.00,0.00,0.00,0.00,0.00,0.00\n",
        0,
        "\
1 8 accepted 9 noted\n\
2 9 accepted 10 noted\n\
3 10 accepted 11 returned 60.0 0.00 0.00 0.00\n\
4 11 accepted 12 noted\n\
5 12 accepted 13 noted\n\
6 13 accepted 14 returned 100.0 0.00 0.00 0.00\n\
7 14 accepted 15 noted\n\
8 15 accepted 16 noted\n\
9 16 accepted 17 returned 59.5 0.00 0.00 0.00\n\
10 17 accepted 18 noted\n\
11 18 accepted 19 noted\n\
12 19 accepted 20 returned 100.0 0.00 0.00 0.00\n\
13 20 accepted 21 noted\n\
14 21 accepted 22 noted\n\
15 22 accepted 23 returned 59.8 0.00 0.00 0.00\n\
16 23 accepted 24 noted\n\
17 24 accepted 25 noted\n\
18 25 accepted 26 returned 100.0 0.00 0.00 0.00\n",
    )],
    // The school returns all of the loan and 800 dollars of the grant.
    &[
        (
            "file",
            "\
pay,110,9,5001,2025,1,pell,3000.00\n\
pay,110,10,5001,2025,1,unsub,2000.00\n\
withdraw,110,20,5001,2025,1,2025-09-23,2025-12-02,4000.00,0.00,0.00,0.00,0.00,0.00,0.00\n",
            0,
            "\
1 8 accepted 9 paid 3000.00 40568\n\
2 9 accepted 10 paid 2000.00 40568\n\
3 10 accepted 11 returned 30.0 2800.00 0.00 0.00\n",
        ),
        (
            "report awards 2025",
            "",
            0,
            "   110         5001 1 pell       2200.00\nrows 1\n",
        ),
    ],
    // Of 1,800 dollars laid on the grant 300 are owed.
    &[(
        "file",
        "\
pay,110,9,5001,2025,1,pell,3000.00\n\
withdraw,110,20,5001,2025,1,2025-09-03,2025-12-02,1000.00,0.00,0.00,0.00,0.00,0.00,0.00\n",
        0,
        "\
1 8 accepted 9 paid 3000.00 40568\n\
2 9 accepted 10 returned 10.0 900.00 300.00 0.00\n",
    )],
    // 30 dollars are owed, and are dropped.
    &[(
        "file",
        "\
pay,110,9,5001,2025,1,pell,3000.00\n\
withdraw,110,20,5001,2025,1,2025-09-03,2025-12-02,1300.00,0.00,0.00,0.00,0.00,0.00,0.00\n",
        0,
        "\
1 8 accepted 9 paid 3000.00 40568\n\
2 9 accepted 10 returned 10.0 1170.00 0.00 0.00\n",
    )],
    // Credits fall once the payment has.
    &[(
        "file",
        "\
pay,110,9,5001,2025,1,pell,3698.00\n\
enrol,110,10,5001,2025,1,6\n\
adjust,110,11,5001,2025,1,pell,1849.00\n\
enrol,110,10,5001,2025,1,6\n",
        0,
        "\
1 8 accepted 9 paid 3698.00 50007\n\
2 9 refused 33 369800 184900\n\
3 9 accepted 10 noted\n\
4 10 accepted 11 noted\n",
    )],
    // What could have been disbursed is paid after a withdrawal.
    &[
        (
            "file",
            "withdraw,110,20,5001,2025,1,2025-09-23,2025-12-02,0.00,0.00,0.00,0.00,1000.00,0.00,0.00\n",
            0,
            "1 8 accepted 9 returned 30.0 0.00 0.00 300.00\n",
        ),
        ("quote 110 5001 2025 1", "", 0, "quote 300\n"),
        (
            "file",
            "\
pay,110,21,5001,2025,1,pell,301.00\n\
pay,110,21,5001,2025,1,pell,300.00\n",
            0,
            "\
1 9 refused 52 30100 30000\n\
2 9 accepted 10 paid 300.00 4057\n",
        ),
    ],
    // A text of cents has one spelling, and an end.
    &[(
        "file",
        "\
pay,110,9,5001,2025,1,unsub,0.05\n\
pay,110,10,5001,2025,1,unsub,00.05\n\
pay,110,10,5001,2025,1,unsub,1.5\n\
pay,110,10,5001,2025,1,unsub,1000000.00\n",
        0,
        "\
1 8 accepted 9 paid 0.05 0\n\
2 error 8 3\n\
3 error 8 3\n\
4 error 8 4\n",
    )],
];

// On the book alone.
const ON_BOOK: [&[Run]; 4] = [
    // Students by the formulas B and C; one who isn't alone, and a transaction that stands.
    &[(
        "file",
        "\
apply,0,10,5002,2025,1,2000,0,1,0,0,0,0,0,0,0,0,0,0,1,20000,0,0,0,0,0,0,0,0,600,20000,0,0,1000,0,0,0,0,0,0,0,0,0,0,0,0,0,0,0,0,0,0,0,0,0\n\
apply,0,11,5002,2025,1,2000,0,2,0,0,0,0,0,0,0,0,0,0,1,20000,0,0,0,0,0,0,0,0,600,20000,0,0,1000,0,0,0,0,0,0,0,0,0,0,0,0,0,0,0,0,0,0,0,0,0\n\
apply,0,11,5002,2025,1,2000,0,1,0,0,0,0,0,0,0,0,0,0,1,20000,0,0,0,0,0,0,0,0,600,20000,0,0,1000,0,0,0,0,0,0,0,0,0,0,0,0,0,0,0,0,0,0,0,0,0\n\
apply,0,12,5003,2025,1,1990,0,2,0,0,0,0,1,0,0,0,0,0,1,60000,0,0,0,0,0,0,0,0,3000,60000,0,0,0,40000,0,1,1,48,0,0,0,0,0,0,0,0,0,0,0,0,0,0,0,0\n",
        0,
        "\
1 1 accepted 2 index B -20 maximum 7395\n\
2 2 refused 92 2 1\n\
3 2 refused 91 1 1\n\
4 2 accepted 3 index C -707 calculated 7395\n",
    )],
    // A book stands once, and one a year.
    &[
        ("book 1", BOOK, 0, "1 1 again 1 noted\n"),
        ("book 2", BOOK, 0, "1 1 refused 11 1 2025\n"),
    ],
    // Terms that share days, too many main ones, a break at an end, too many credits, and no
    // application.
    &[
        (
            "file",
            "\
school,0,2,110,2,12\n\
school,0,3,120,3,12\n\
calendar,110,1,2025,1,0,2025-08-25,2025-12-12,1,2025-11-22,2025-11-30\n\
calendar,110,2,2025,2,0,2026-01-12,2026-05-01,0\n\
calendar,120,1,2025,1,0,2025-09-22,2025-12-05,0\n\
calendar,120,2,2025,2,0,2026-01-05,2026-03-20,0\n",
            0,
            "\
1 1 accepted 2 noted\n\
2 2 accepted 3 noted\n\
3 3 accepted 4 noted\n\
4 4 accepted 5 noted\n\
5 5 accepted 6 noted\n\
6 6 accepted 7 noted\n",
        ),
        (
            "file",
            "\
calendar,110,9,2025,3,0,2026-04-27,2026-08-07,0\n\
calendar,110,9,2025,3,0,2026-05-11,2026-08-07,0\n\
calendar,110,9,2025,3,1,2026-05-11,2026-08-07,1,2026-05-11,2026-05-15\n\
enrol,110,9,5001,2025,1,41\n\
originate,110,9,5001,2025,0\n",
            0,
            "\
1 7 refused 22 5 3\n\
2 7 refused 24 2 2\n\
3 7 refused 23 1 1\n\
4 7 refused 32 41 40\n\
5 7 refused 31 5001 2025\n",
        ),
    ],
    // A cost of 3,000 dollars.
    &[
        (
            "file",
            "\
school,0,2,110,2,12\n\
calendar,110,1,2025,1,0,2025-08-25,2025-12-02,0\n\
calendar,110,2,2025,2,0,2026-01-12,2026-04-21,0\n\
apply,110,100,5001,2025,1,2006,0,4,0,0,0,0,0,0,0,0,0,0,1,0,0,0,0,0,0,0,0,0,0,0,0,0,0,0,0,1,0,48,0,0,0,0,0,0,0,0,0,0,0,0,0,0,0,0\n\
enrol,110,101,5001,2025,1,12\n\
enrol,110,102,5001,2025,2,12\n\
originate,110,103,5001,2025,3000\n",
            0,
            "\
1 1 accepted 2 noted\n\
2 2 accepted 3 noted\n\
3 3 accepted 4 noted\n\
4 4 accepted 5 index A -1500 maximum 7395\n\
5 5 accepted 6 noted\n\
6 6 accepted 7 noted\n\
7 7 accepted 8 noted\n",
        ),
        ("quote 110 5001 2025 1", "", 0, "quote 3000\n"),
        (
            "file",
            "\
pay,110,9,5001,2025,1,pell,3001.00\n\
pay,110,9,5001,2025,1,pell,3000.00\n",
            0,
            "\
1 8 refused 57 300100 300000\n\
2 8 accepted 9 paid 3000.00 40568\n",
        ),
    ],
];
