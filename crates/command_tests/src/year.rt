// The worked year of two schools: its rows, reports and rounds, and generated years.
use crate::plain_file::PlainFile;
use crate::runs::{assert_runs, with_book};
use io_memory::SteadySource;
use specimen::{BOOK_TEXT, NINE_LINES, NINE_ROWS, YEAR_LINES, YEAR_ROWS};
use std::test::Fail;
use whole_runs::{EMPTY, Run, disk, ran, ran_over};

#[test]
fn a_worked_year(rt: HostRuntime) -> Result<(), Fail> {
    let alloc = rt.alloc();
    let book = with_book(&rt, alloc)?;
    assert_runs(&rt, alloc, book.image(), &FIRST_NINE)?;
    let year = assert_runs(
        &rt,
        alloc,
        book.image(),
        &[("file", YEAR_ROWS, 0, YEAR_LINES)],
    )?;
    assert_runs(&rt, alloc, year.image(), &REPORTS)?;
    for runs in ROUNDS {
        assert_runs(&rt, alloc, year.image(), runs)?;
    }
    assert_runs(&rt, alloc, year.image(), &CHANGED_COST)?;
    assert_runs(&rt, alloc, year.image(), &SENT_BACK)?;
    Ok(())
}

// The same in a year of form 2, whose ceiling is twice the greatest award, of parents with the greatest income that a row may say.
#[test]
fn a_year_with_a_ceiling(rt: HostRuntime) -> Result<(), Fail> {
    let alloc = rt.alloc();
    let text = BOOK_TEXT.replace(alloc, "form = 1\n", "form = 2\nceiling.percent = 200\n")?;
    let before = disk(alloc, EMPTY, &[], None)?;
    let (status, sink, book) = ran(alloc, "book 1", text.as_bytes(), before, &[])?;
    assert_eq!(rt; sink.text(), b"1 0 accepted 1 noted\n".as_slice());
    assert_eq!(rt; status, 0);
    assert_runs(&rt, alloc, book.image(), &AT_THE_CEILING)?;
    Ok(())
}

const AT_THE_CEILING: [Run; 2] = [
    (
        "file",
        "\
school,0,2,110,2,12\n\
school,0,3,120,3,12\n\
calendar,110,1,2025,1,0,2025-08-25,2025-12-12,1,2025-11-22,2025-11-30\n\
calendar,110,2,2025,2,0,2026-01-12,2026-05-01,0\n\
calendar,120,1,2025,1,0,2025-09-22,2025-12-05,0\n\
calendar,120,2,2025,2,0,2026-01-05,2026-03-20,0\n\
apply,110,3,5001,2025,1,2006,0,4,0,0,0,0,0,0,0,0,0,0,1,6000,0,0,0,0,0,0,0,0,0,6000,0,0,900,0,0,1,1,48,99999999,0,0,0,0,0,0,0,0,5200,50000,35000,0,12000,20000,0\n\
enrol,110,4,5001,2025,1,12\n\
originate,110,5,5001,2025,24000\n\
pay,110,6,5001,2025,1,pell,1145.00\n",
        0,
        "\
1 1 accepted 2 noted\n\
2 2 accepted 3 noted\n\
3 3 accepted 4 noted\n\
4 4 accepted 5 noted\n\
5 5 accepted 6 noted\n\
6 6 accepted 7 noted\n\
7 7 accepted 8 index A 999999 nothing 0\n\
8 8 accepted 9 noted\n\
9 9 accepted 10 noted\n\
10 10 refused 43 999999 14790\n",
    ),
    ("quote 110 5001 2025 1", "", 0, "quote 0\n"),
];

// The first nine rows, and a quote behind them.
const FIRST_NINE: [Run; 2] = [
    ("file", NINE_ROWS, 0, NINE_LINES),
    ("quote 110 5001 2025 1", "", 0, "quote 1145\n"),
];

// What is printed behind the year, and where its rows are filed once more.
const REPORTS: [Run; 5] = [
    (
        "report standing 2025",
        "",
        0,
        "        5001 A    5104 calculated   2290      1791.26   78221\nrows 1\n",
    ),
    (
        "report awards 2025",
        "",
        0,
        "   110         5001 1 unsub      1000.00\n   110         5001 1 pell       1145.00\n   120         5001 2 pell        646.26\nrows 3\n",
    ),
    (
        "report returns 2025",
        "",
        0,
        "   120         5001 2  34.7        65.30        51.44         0.00 2026-03-22\nrows 1\n",
    ),
    (
        "report lifetime",
        "",
        0,
        "        5001       0   78221\nrows 1\n",
    ),
    ("file", YEAR_ROWS, 0, AGAIN),
];

const AGAIN: &str = "\
1 18 again 2 noted\n\
2 18 again 3 noted\n\
3 18 again 4 noted\n\
4 18 again 5 noted\n\
5 18 again 6 noted\n\
6 18 again 7 noted\n\
7 18 again 8 index A 5104 calculated 2290\n\
8 18 again 9 noted\n\
9 18 again 10 noted\n\
10 18 again 11 paid 1145.00 50000\n\
11 18 again 12 paid 1000.00 50000\n\
12 18 again 13 noted\n\
13 18 again 14 noted\n\
14 18 refused 58 110 120\n\
15 18 again 15 noted\n\
16 18 again 16 paid 1908.00 83319\n\
17 18 refused 93 114500 85500\n\
18 18 again 17 returned 34.7 65.30 51.44 0.00\n\
19 18 again 18 noted\n\
20 18 refused 70 5145 5144\n";

// A fund whose amount runs out, and then is used up; one of each policy, on the year anew; and a policy that isn't there.
const ROUNDS: [&[Run]; 4] = [
    &[
        (
            "fund 110 2025 1 600 level 50",
            "",
            0,
            "1 18 accepted 19 paid 600.00 78221\nleft 0\n",
        ),
        ("fund 110 2025 1 600 level 50", "", 0, "left 0\n"),
    ],
    &[(
        "fund 110 2025 1 20000 level 60",
        "",
        0,
        "1 18 accepted 19 paid 1000.00 78221\nleft 19000\n",
    )],
    &[(
        "fund 110 2025 1 20000 quarter 60",
        "",
        0,
        "1 18 accepted 19 paid 4000.00 78221\nleft 16000\n",
    )],
    &[("fund 110 2025 1 600 other 50", "", 2, "fault usage\n")],
];

// A changed cost from both sides of what was paid, and payments up to it.
const CHANGED_COST: [Run; 1] = [(
    "file",
    "\
cost,110,8,5001,2025,2144\n\
cost,110,8,5001,2025,0\n\
cost,110,8,5002,2025,2145\n\
cost,110,8,5001,2025,2145\n\
pay,110,9,5001,2025,1,unsub,0.01\n\
cost,110,10,5001,2025,26000\n\
pay,110,9,5001,2025,1,unsub,0.01\n\
originate,110,11,5001,2025,26000\n\
cost,110,11,5001,2025\n",
    0,
    "\
1 18 refused 45 214500 214400\n\
2 18 refused 42 0 1\n\
3 18 refused 50 5002 110\n\
4 18 accepted 19 noted\n\
5 19 refused 57 214501 214500\n\
6 19 accepted 20 noted\n\
7 20 accepted 21 paid 1000.01 78221\n\
8 21 refused 41 10 2025\n\
9 error 0 2\n",
)];

// A return that was sent back in two parts, and what of it can't have been.
const SENT_BACK: [Run; 1] = [(
    "file",
    "\
sent,120,11,5001,2025,2,pell,65.31,2026-03-20,4711\n\
sent,120,11,5001,2025,2,pell,40.00,2026-02-04,4711\n\
sent,120,11,5001,2025,2,pell,40.00,2026-03-20,4711\n\
sent,120,12,5001,2025,2,pell,25.31,2026-03-25,4712\n\
sent,120,12,5001,2025,2,pell,25.30,2026-03-25,4712\n\
sent,120,13,5001,2025,2,unsub,1.00,2026-03-25,4713\n\
sent,110,13,5001,2025,1,pell,1.00,2026-03-25,4713\n\
sent,120,13,5001,2025,2,pell,0.00,2026-03-25,4713\n\
sent,120,13,5001,2025,2,pell,1.00,2026-02-30,4713\n",
    0,
    "\
1 18 refused 66 6531 6530\n\
2 18 refused 65 46055 46056\n\
3 18 accepted 19 noted\n\
4 19 refused 66 6531 6530\n\
5 19 accepted 20 noted\n\
6 20 refused 66 100 0\n\
7 20 refused 64 5001 1\n\
8 20 refused 71 0 1\n\
9 error 9 4\n",
)];

#[test]
fn generated_years(rt: HostRuntime) -> Result<(), Fail> {
    for runs in GENERATED {
        assert_runs(&rt, rt.alloc(), EMPTY, runs)?;
    }
    Ok(())
}

// A year that is generated again pays nobody a second time. A return of nothing has a day too, on which it would be due.
const GENERATED: [&[Run]; 3] = [
    &[
        (
            "generate 11 3",
            BOOK_TEXT,
            0,
            "accepted 25\nrefused 0\npell 3374.00\nreturned 1054.00\n",
        ),
        (
            "generate 11 3",
            BOOK_TEXT,
            0,
            "accepted 23\nrefused 0\npell 0.00\nreturned 0.00\n",
        ),
        (
            "report returns 2025",
            "",
            0,
            "   102            1 1  47.3      1054.00         0.00         0.00 2025-12-06\nrows 1\n",
        ),
    ],
    &[
        (
            "generate 7 20",
            BOOK_TEXT,
            0,
            "accepted 92\nrefused 0\npell 40511.00\nreturned 0.00\n",
        ),
        (
            "generate 7 20",
            BOOK_TEXT,
            0,
            "accepted 74\nrefused 0\npell 0.00\nreturned 0.00\n",
        ),
        (
            "report returns 2025",
            "",
            0,
            "   103           10 1 100.0         0.00         0.00         0.00 2025-12-24\nrows 1\n",
        ),
    ],
    &[
        (
            "generate 7 200",
            BOOK_TEXT,
            0,
            "accepted 794\nrefused 0\npell 330887.00\nreturned 5081.53\n",
        ),
        (
            "generate 7 200",
            BOOK_TEXT,
            0,
            "accepted 623\nrefused 0\npell 0.00\nreturned 0.00\n",
        ),
    ],
];

#[test]
fn a_long_generated_year(rt: HostRuntime) -> Result<(), Fail> {
    let alloc = rt.alloc();
    let file = PlainFile::new(EMPTY.to_vec(alloc)?);
    let mut source = SteadySource::new(BOOK_TEXT.as_bytes().to_vec(alloc)?);
    let (status, sink, _) = ran_over(alloc, "generate 7 5000", &mut source, file, &[])?;
    let text = b"accepted 19459\nrefused 0\npell 8275700.00\nreturned 174994.03\n";
    assert_eq!(rt; sink.text(), text.as_slice());
    assert_eq!(rt; status, 0);
    Ok(())
}
