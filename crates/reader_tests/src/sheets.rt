// The sheets of the worked year, and those of students under the other formulas.
use io_memory::{MemoryDisk, MemorySink};
use run_sheets::run_sheets;
use specimen::{BOOK_TEXT, YEAR_LINES, YEAR_ROWS};
use std::alloc::Global;
use std::process::Abort;
use std::test::Fail;
use whole_runs::{EMPTY, disk, ran, words_of};

// The file of an office in which the specimen book, and then these rows, were filed with these answers.
pub(crate) fn office(
    rt: &impl Abort,
    alloc: Global,
    inputs: &[(&str, &str)],
) -> Result<MemoryDisk, Fail> {
    office_with(rt, alloc, BOOK_TEXT, "file", inputs)
}

// The same with this book, and with the rows filed by these words.
pub(crate) fn office_with(
    rt: &impl Abort,
    alloc: Global,
    book: &str,
    words: &str,
    inputs: &[(&str, &str)],
) -> Result<MemoryDisk, Fail> {
    let empty = disk(alloc, EMPTY, &[], None)?;
    let (_, _, mut kept) = ran(alloc, "book 1", book.as_bytes(), empty, &[])?;
    for &(rows, answers) in inputs {
        let (status, sink, next) = ran(alloc, words, rows.as_bytes(), kept, &[])?;
        assert_eq!(rt; sink.text(), answers.as_bytes());
        assert_eq!(rt; status, 0);
        kept = next;
    }
    Ok(kept)
}

// Asserts the status and the text of a run over a file with these bytes.
fn assert_sheet(
    rt: &impl Abort,
    alloc: Global,
    image: &[u8],
    line: &str,
    status: u8,
    text: &str,
) -> Result<(), Fail> {
    let words = words_of(alloc, line)?;
    let mut sink = MemorySink::new(alloc, Vec::new(alloc));
    let (ended, _disk) = run_sheets(alloc, &words, disk(alloc, image, &[], None)?, &mut sink);
    assert_eq!(rt; sink.text(), text.as_bytes(), "{line}");
    assert_eq!(rt; ended, status, "{line}");
    Ok(())
}

// Asserts that a run that is done writes this text, and behind it this line of a seal.
pub(crate) fn assert_sealed(
    rt: &impl Abort,
    alloc: Global,
    image: &[u8],
    line: &str,
    text: &str,
    seal: &str,
) -> Result<(), Fail> {
    let mut whole = String::from_str(alloc, text)?;
    whole.push_str(seal)?;
    assert_sheet(rt, alloc, image, line, 0, whole.as_str())
}

#[test]
fn a_worked_year(rt: HostRuntime) -> Result<(), Fail> {
    let alloc = rt.alloc();
    let year = office(&rt, alloc, &[(YEAR_ROWS, YEAR_LINES)])?;
    let image = year.image();
    assert_sealed(&rt, alloc, image, "list", LIST, SEAL_18)?;
    assert_sealed(&rt, alloc, image, "student 5001", LEDGER, SEAL_18)?;
    assert_sealed(&rt, alloc, image, "need 5001 2025", DEPENDENT, SEAL_18)?;
    assert_sealed(&rt, alloc, image, "upto 18 student 5001", LEDGER, SEAL_18)?;
    assert_sheet(&rt, alloc, image, "report seal", 0, SEAL_18)?;
    assert_sheet(&rt, alloc, image, "upto 17 report seal", 0, SEAL_17)?;
    assert_sheet(
        &rt,
        alloc,
        image,
        "upto 10 quotes 110 2025 1",
        0,
        FIRST_QUOTES,
    )?;
    assert_sheet(&rt, alloc, image, "payments 120 2025 2", 0, PAYMENTS)?;
    assert_sealed(
        &rt,
        alloc,
        image,
        "withdrawal 120 5001 2025 2",
        RETURN,
        SEAL_18,
    )
}

// The text of a book on file files the same bytes again.
#[test]
fn a_book_on_file(rt: HostRuntime) -> Result<(), Fail> {
    let alloc = rt.alloc();
    let ceiling = BOOK_TEXT.replace(alloc, "form = 1\n", "form = 2\nceiling.percent = 200\n")?;
    for book in [BOOK_TEXT, ceiling.as_str()] {
        let filed = office_with(&rt, alloc, book, "file", &[])?;
        let words = words_of(alloc, "book show 2025")?;
        let mut sink = MemorySink::new(alloc, Vec::new(alloc));
        let kept = disk(alloc, filed.image(), &[], None)?;
        let (ended, _disk) = run_sheets(alloc, &words, kept, &mut sink);
        assert_eq!(rt; ended, 0);
        let empty = disk(alloc, EMPTY, &[], None)?;
        let (_, _, again) = ran(alloc, "book 1", sink.text(), empty, &[])?;
        assert_eq!(rt; again.image(), filed.image());
    }
    Ok(())
}

// A term in which money of each kind moves, and what is still owed before a student repays.
#[test]
fn a_term_of_every_kind(rt: HostRuntime) -> Result<(), Fail> {
    let alloc = rt.alloc();
    let year = office(&rt, alloc, &[(YEAR_ROWS, YEAR_LINES), (ADJUSTED, NOTED)])?;
    let image = year.image();
    assert_sheet(&rt, alloc, image, "payments 110 2025 1", 0, FIRST_PAYMENTS)?;
    assert_sealed(
        &rt,
        alloc,
        image,
        "upto 17 withdrawal 120 5001 2025 2",
        OWED_RETURN,
        SEAL_17,
    )
}

// A return of which a part was sent back, and a changed cost.
#[test]
fn a_return_that_was_sent_back(rt: HostRuntime) -> Result<(), Fail> {
    let alloc = rt.alloc();
    let year = office(&rt, alloc, &[(YEAR_ROWS, YEAR_LINES), (SENT, ALL_NOTED)])?;
    let image = year.image();
    assert_sealed(&rt, alloc, image, "student 5001", SENT_LEDGER, SENT_SEAL_21)?;
    assert_sealed(
        &rt,
        alloc,
        image,
        "upto 19 withdrawal 120 5001 2025 2",
        SENT_RETURN,
        SENT_SEAL_19,
    )?;
    assert_sealed(
        &rt,
        alloc,
        image,
        "upto 18 withdrawal 120 5001 2025 2",
        RETURN,
        SEAL_18,
    )?;
    assert_sheet(&rt, alloc, image, "upto 19 due 2026-03-22 120", 0, DUE)?;
    assert_sheet(&rt, alloc, image, "upto 19 due 2026-03-23 120", 0, LATE)?;
    assert_sheet(&rt, alloc, image, "due 2026-03-23 120", 0, "none\n")?;
    assert_sheet(&rt, alloc, image, "returns 120 2025", 0, RETURNS)
}

#[test]
fn other_formulas(rt: HostRuntime) -> Result<(), Fail> {
    let alloc = rt.alloc();
    let year = office(&rt, alloc, &[(YEAR_ROWS, YEAR_LINES), (APPLIED, ANSWERED)])?;
    let image = year.image();
    assert_sealed(&rt, alloc, image, "need 5002 2025", SINGLE, APPLIED_SEAL)?;
    assert_sealed(&rt, alloc, image, "need 5003 2025", FAMILY, APPLIED_SEAL)
}

#[test]
fn names_that_are_on_no_file(rt: HostRuntime) -> Result<(), Fail> {
    let alloc = rt.alloc();
    let year = office(&rt, alloc, &[(YEAR_ROWS, YEAR_LINES)])?;
    for line in [
        "quotes 110 2025 3",
        "payments 110 2025 2",
        "payments 120 2026 2",
        "upto 15 payments 120 2025 2",
        "due 2026-03-23 110",
        "upto 16 due 2026-03-23 120",
        "returns 110 2025",
        "returns 120 2026",
        "upto 19 list",
        "upto 19 report seal",
        "upto 19 book show 2025",
        "upto 19 review 5001 2025",
        "upto 4294967295 list",
    ] {
        assert_sheet(&rt, alloc, year.image(), line, 0, "none\n")?;
    }
    for (line, seal) in [
        ("student 77", SEAL_18),
        ("need 77 2025", SEAL_18),
        ("need 5001 2026", SEAL_18),
        ("withdrawal 110 5001 2025 1", SEAL_18),
        ("withdrawal 120 5001 2025 1", SEAL_18),
        ("upto 16 withdrawal 120 5001 2025 2", SEAL_16),
        ("upto 7 need 5001 2025", SEAL_7),
    ] {
        assert_sealed(&rt, alloc, year.image(), line, "none\n", seal)?;
    }
    assert_sealed(
        &rt,
        alloc,
        year.image(),
        "book show 2026",
        "none\n# ",
        SEAL_18,
    )?;
    assert_sealed(&rt, alloc, EMPTY, "list", "rows 0\n", SEAL_0)?;
    assert_sealed(&rt, alloc, EMPTY, "report seals", SEAL_0, "rows 1\n")
}

#[test]
fn words_and_files_that_are_none(rt: HostRuntime) -> Result<(), Fail> {
    let alloc = rt.alloc();
    for line in [
        "lists",
        "list list",
        "student 0",
        "student 05001",
        "student 1000000000000",
        "need 5001 1999",
        "upto 0 list",
        "upto 1 upto 1 list",
        "quotes 110 2025 9",
        "payments 0 2025 1",
        "payments 110 2025",
        "payments 110 2025 1 1",
        "withdrawal 120 2025 2",
        "withdrawal 120 5001 2025 2 2",
        "withdrawal 5001 1000000000000 2025 2",
        "due 120",
        "due 120 2026-03-23",
        "due 2026-02-30 120",
        "due 2026-03-23 0",
        "returns 120",
        "returns 2025 120",
        "book 2025",
        "book show",
        "book show 1999",
        "book shown 2025",
        "review 5001",
        "review 0 2025",
        "review 5001 1999",
        "review 5001 2025 1",
        "report seal 2025",
        "report seals 2025",
        "found",
    ] {
        assert_sheet(&rt, alloc, EMPTY, line, 2, "fault usage\n")?;
    }
    assert_sheet(&rt, alloc, b"", "list", 6, "fault no office\n")
}

// The seals of the worked year and of its fronts, by Python's hashlib over the records of the journal.
pub(crate) const SEAL_0: &str =
    "sealed 0 092a3fdaeae11550f37fdfa66bd29ffd4929e9e0bd89325534e400ffeb7ac1c0\n";

const SEAL_7: &str = "sealed 7 6bbd205ebbd33084e9737cf4df681aeb5c22b8f253be9d47425e855397d14adf\n";

const SEAL_16: &str =
    "sealed 16 1da258f2d6c92b89154763495608ed563c4179bacc8d3490bf1ed5b90cb10139\n";

const SEAL_17: &str =
    "sealed 17 5b2ce25bd673b0a50c89acc913e0e2d6b1a94d2f57d33109008eaa05d560a740\n";

pub(crate) const SEAL_18: &str =
    "sealed 18 d35f528348bad3e0a53647fb2b439ef3cc00f1ff4cc9a8ec584b01e6313d9ba9\n";

// Those of the year with what was sent back, and with two more applications.
const SENT_SEAL_19: &str =
    "sealed 19 1b652754d21df13a3a349c25db85ab04ccb53a1896998e2afdf814896dbdb49c\n";

const SENT_SEAL_21: &str =
    "sealed 21 e4ea41d05e952802465c62c704fa922246f510814fb66acb11d6e82b763a3ade\n";

pub(crate) const APPLIED_SEAL: &str =
    "sealed 20 85eb2f930b35cfeb2e0fc09cea29a5959320ac8291f3e82ebd42d07bf6aadbc0\n";

// Applications of a student without dependents, and of one with a dependent.
pub(crate) const APPLIED: &str = "\
apply,110,50,5002,2025,1,2000,0,1,0,0,0,0,0,0,0,0,0,0,1,20000,0,0,0,0,0,0,0,0,600,20000,0,0,1000,0,0,1,1,48,0,0,0,0,0,0,0,0,0,0,0,0,0,0,0,0\n\
apply,110,51,5003,2025,1,1990,0,2,0,0,0,0,1,0,0,0,0,0,1,60000,0,0,0,0,0,0,0,0,3000,60000,0,0,0,40000,0,1,1,48,0,0,0,0,0,0,0,0,0,0,0,0,0,0,0,0\n";

pub(crate) const ANSWERED: &str = "\
1 18 accepted 19 index B -20 maximum 7395\n\
2 19 accepted 20 index C -707 calculated 7395\n";

// An adjustment of a loan.
const ADJUSTED: &str = "adjust,110,8,5001,2025,1,unsub,250.00\n";

const NOTED: &str = "1 18 accepted 19 noted\n";

// What moved in a term, with the totals of each program.
const PAYMENTS: &str = "\
position,school,number,kind,student,year,term,program,amount,total,day,clerk\n\
16,120,7,pay,5001,2025,2,pell,763.00,763.00,1970-01-01,-\n\
17,120,8,return,5001,2025,2,pell,-65.30,697.70,1970-01-01,-\n\
18,120,9,repay,5001,2025,2,pell,-51.44,646.26,1970-01-01,-\n";

const FIRST_PAYMENTS: &str = "\
position,school,number,kind,student,year,term,program,amount,total,day,clerk\n\
11,110,6,pay,5001,2025,1,pell,1145.00,1145.00,1970-01-01,-\n\
12,110,7,pay,5001,2025,1,unsub,1000.00,1000.00,1970-01-01,-\n\
19,110,8,adjust,5001,2025,1,unsub,-250.00,750.00,1970-01-01,-\n";

// The worksheet of a withdrawal, after the student repaid and before.
pub(crate) const RETURN: &str = "\
Return of funds: student 5001, school 120, award year 2025, term 2\n\
withdrawal at 17, number 8: last day 2026-01-30, determined 2026-02-05, return due 2026-03-22\n\
\x20                                   unsub        sub       plus       pell      fseog      teach        all\n\
E disbursed, net                     0.00       0.00       0.00     763.00       0.00       0.00     763.00\n\
\x20 could have been disbursed          0.00       0.00       0.00       0.00       0.00       0.00       0.00\n\
G both                               0.00       0.00       0.00     763.00       0.00       0.00     763.00\n\
\x20 days of the term                                                                                       75\n\
\x20 days completed                                                                                         26\n\
H percent earned                                                                                       34.7\n\
I earned                                                                                             264.76\n\
J post-withdrawal amount                                                                               0.00\n\
K unearned                                                                                           498.24\n\
L institutional charges                                                                              100.00\n\
M percent unearned                                                                                     65.3\n\
N unearned part of the charges                                                                        65.30\n\
O the school returns                 0.00       0.00       0.00      65.30       0.00       0.00      65.30\n\
Q laid on the student                0.00       0.00       0.00     432.94       0.00       0.00     432.94\n\
R loans the student repays                                                                             0.00\n\
S grants to return, at first                                                                         432.94\n\
T half of both, of all grants                                                                        381.50\n\
U grants the student returns                                                                          51.44\n\
\x20 half of both, of grants            0.00       0.00       0.00     381.50       0.00       0.00     381.50\n\
\x20 owed, program by program           0.00       0.00       0.00      51.44       0.00       0.00      51.44\n\
\x20 repaid since                       0.00       0.00       0.00      51.44       0.00       0.00      51.44\n\
\x20 still owed                         0.00       0.00       0.00       0.00       0.00       0.00       0.00\n\
\x20 paid since                         0.00       0.00       0.00       0.00       0.00       0.00       0.00\n\
\x20 net now                            0.00       0.00       0.00     646.26       0.00       0.00     646.26\n";

// What was sent back of a return, and a changed cost.
const SENT: &str = "\
sent,120,11,5001,2025,2,pell,40.00,2026-03-20,4711\n\
sent,120,12,5001,2025,2,pell,25.30,2026-03-25,4712\n\
cost,110,8,5001,2025,26000\n";

const ALL_NOTED: &str = "\
1 18 accepted 19 noted\n\
2 19 accepted 20 noted\n\
3 20 accepted 21 noted\n";

const SENT_LEDGER: &str = "\
\x20      8 1970-01-01 -           110            3 2025 - apply     index A 5104 calculated 2290\n\
\x20      9 1970-01-01 -           110            4 2025 1 enrol     12 credits\n\
\x20     10 1970-01-01 -           110            5 2025 - originate 24000 dollars\n\
\x20     11 1970-01-01 -           110            6 2025 1 pay       pell       1145.00      1145.00   50000\n\
\x20     12 1970-01-01 -           110            7 2025 1 pay       unsub      1000.00      1000.00   50000\n\
\x20     13 1970-01-01 -           120            3 2025 1 enrol     12 credits\n\
\x20     14 1970-01-01 -           120            4 2025 - originate 21000 dollars\n\
\x20     15 1970-01-01 -           120            6 2025 2 enrol     12 credits\n\
\x20     16 1970-01-01 -           120            7 2025 2 pay       pell        763.00       763.00   83319\n\
\x20     17 1970-01-01 -           120            8 2025 2 withdraw  returned 34.7 65.30 51.44 0.00\n\
\x20     17 1970-01-01 -           120            8 2025 2 return    pell        -65.30       697.70   80467\n\
\x20     18 1970-01-01 -           120            9 2025 2 repay     pell        -51.44       646.26   78221\n\
\x20     19 1970-01-01 -           120           11 2025 2 sent      pell  40.00 2026-03-20 4711\n\
\x20     20 1970-01-01 -           120           12 2025 2 sent      pell  25.30 2026-03-25 4712\n\
\x20     21 1970-01-01 -           110            8 2025 - cost      26000 dollars\n\
rows 15\n";

// What of the return was open on the days around the one on which it was due, and what came of it.
const DUE: &str = "\
due,late,student,year,term,program,returned,sent,open,position,number\n\
2026-03-22,0,5001,2025,2,pell,65.30,40.00,25.30,17,8\n";

const LATE: &str = "\
due,late,student,year,term,program,returned,sent,open,position,number\n\
2026-03-22,1,5001,2025,2,pell,65.30,40.00,25.30,17,8\n";

const RETURNS: &str = "\
student,term,program,determined,due,returned,sent,last_sent,sent_late,open,owed,repaid,position,number\n\
5001,2,pell,2026-02-05,2026-03-22,65.30,65.30,2026-03-25,25.30,0.00,51.44,51.44,17,8\n";

const SENT_RETURN: &str = "\
Return of funds: student 5001, school 120, award year 2025, term 2\n\
withdrawal at 17, number 8: last day 2026-01-30, determined 2026-02-05, return due 2026-03-22\n\
\x20                                   unsub        sub       plus       pell      fseog      teach        all\n\
E disbursed, net                     0.00       0.00       0.00     763.00       0.00       0.00     763.00\n\
\x20 could have been disbursed          0.00       0.00       0.00       0.00       0.00       0.00       0.00\n\
G both                               0.00       0.00       0.00     763.00       0.00       0.00     763.00\n\
\x20 days of the term                                                                                       75\n\
\x20 days completed                                                                                         26\n\
H percent earned                                                                                       34.7\n\
I earned                                                                                             264.76\n\
J post-withdrawal amount                                                                               0.00\n\
K unearned                                                                                           498.24\n\
L institutional charges                                                                              100.00\n\
M percent unearned                                                                                     65.3\n\
N unearned part of the charges                                                                        65.30\n\
O the school returns                 0.00       0.00       0.00      65.30       0.00       0.00      65.30\n\
Q laid on the student                0.00       0.00       0.00     432.94       0.00       0.00     432.94\n\
R loans the student repays                                                                             0.00\n\
S grants to return, at first                                                                         432.94\n\
T half of both, of all grants                                                                        381.50\n\
U grants the student returns                                                                          51.44\n\
\x20 half of both, of grants            0.00       0.00       0.00     381.50       0.00       0.00     381.50\n\
\x20 owed, program by program           0.00       0.00       0.00      51.44       0.00       0.00      51.44\n\
\x20 repaid since                       0.00       0.00       0.00      51.44       0.00       0.00      51.44\n\
\x20 still owed                         0.00       0.00       0.00       0.00       0.00       0.00       0.00\n\
\x20 paid since                         0.00       0.00       0.00       0.00       0.00       0.00       0.00\n\
\x20 net now                            0.00       0.00       0.00     646.26       0.00       0.00     646.26\n\
\x20 sent back since                    0.00       0.00       0.00      40.00       0.00       0.00      40.00\n\
\x20 still to send back                 0.00       0.00       0.00      25.30       0.00       0.00      25.30\n";

const OWED_RETURN: &str = "\
Return of funds: student 5001, school 120, award year 2025, term 2\n\
withdrawal at 17, number 8: last day 2026-01-30, determined 2026-02-05, return due 2026-03-22\n\
\x20                                   unsub        sub       plus       pell      fseog      teach        all\n\
E disbursed, net                     0.00       0.00       0.00     763.00       0.00       0.00     763.00\n\
\x20 could have been disbursed          0.00       0.00       0.00       0.00       0.00       0.00       0.00\n\
G both                               0.00       0.00       0.00     763.00       0.00       0.00     763.00\n\
\x20 days of the term                                                                                       75\n\
\x20 days completed                                                                                         26\n\
H percent earned                                                                                       34.7\n\
I earned                                                                                             264.76\n\
J post-withdrawal amount                                                                               0.00\n\
K unearned                                                                                           498.24\n\
L institutional charges                                                                              100.00\n\
M percent unearned                                                                                     65.3\n\
N unearned part of the charges                                                                        65.30\n\
O the school returns                 0.00       0.00       0.00      65.30       0.00       0.00      65.30\n\
Q laid on the student                0.00       0.00       0.00     432.94       0.00       0.00     432.94\n\
R loans the student repays                                                                             0.00\n\
S grants to return, at first                                                                         432.94\n\
T half of both, of all grants                                                                        381.50\n\
U grants the student returns                                                                          51.44\n\
\x20 half of both, of grants            0.00       0.00       0.00     381.50       0.00       0.00     381.50\n\
\x20 owed, program by program           0.00       0.00       0.00      51.44       0.00       0.00      51.44\n\
\x20 repaid since                       0.00       0.00       0.00       0.00       0.00       0.00       0.00\n\
\x20 still owed                         0.00       0.00       0.00      51.44       0.00       0.00      51.44\n\
\x20 paid since                         0.00       0.00       0.00       0.00       0.00       0.00       0.00\n\
\x20 net now                            0.00       0.00       0.00     697.70       0.00       0.00     697.70\n";

// All filings as rows, each with its outcome.
const LIST: &str = "\
1 1970-01-01 - book,0,1,2025 noted\n\
2 1970-01-01 - school,0,2,110,2,12 noted\n\
3 1970-01-01 - school,0,3,120,3,12 noted\n\
4 1970-01-01 - calendar,110,1,2025,1,0,2025-08-25,2025-12-12,1,2025-11-22,2025-11-30 noted\n\
5 1970-01-01 - calendar,110,2,2025,2,0,2026-01-12,2026-05-01,0 noted\n\
6 1970-01-01 - calendar,120,1,2025,1,0,2025-09-22,2025-12-05,0 noted\n\
7 1970-01-01 - calendar,120,2,2025,2,0,2026-01-05,2026-03-20,0 noted\n\
8 1970-01-01 - apply,110,3,5001,2025,1,2006,0,4,0,0,0,0,0,0,0,0,0,0,1,6000,0,0,0,0,0,0,0,0,0,6000,0,0,900,0,0,1,1,48,85000,0,0,0,0,0,0,0,0,5200,50000,35000,0,12000,20000,0 index A 5104 calculated 2290\n\
9 1970-01-01 - enrol,110,4,5001,2025,1,12 noted\n\
10 1970-01-01 - originate,110,5,5001,2025,24000 noted\n\
11 1970-01-01 - pay,110,6,5001,2025,1,pell,1145.00 paid 1145.00 50000\n\
12 1970-01-01 - pay,110,7,5001,2025,1,unsub,1000.00 paid 1000.00 50000\n\
13 1970-01-01 - enrol,120,3,5001,2025,1,12 noted\n\
14 1970-01-01 - originate,120,4,5001,2025,21000 noted\n\
15 1970-01-01 - enrol,120,6,5001,2025,2,12 noted\n\
16 1970-01-01 - pay,120,7,5001,2025,2,pell,763.00 paid 1908.00 83319\n\
17 1970-01-01 - withdraw,120,8,5001,2025,2,2026-01-30,2026-02-05,100.00,0.00,0.00,0.00,0.00,0.00,0.00 returned 34.7 65.30 51.44 0.00\n\
18 1970-01-01 - repay,120,9,5001,2025,2,pell,51.44 noted\n\
rows 18\n";

// All about one student.
pub(crate) const LEDGER: &str = "\
\x20      8 1970-01-01 -           110            3 2025 - apply     index A 5104 calculated 2290\n\
\x20      9 1970-01-01 -           110            4 2025 1 enrol     12 credits\n\
\x20     10 1970-01-01 -           110            5 2025 - originate 24000 dollars\n\
\x20     11 1970-01-01 -           110            6 2025 1 pay       pell       1145.00      1145.00   50000\n\
\x20     12 1970-01-01 -           110            7 2025 1 pay       unsub      1000.00      1000.00   50000\n\
\x20     13 1970-01-01 -           120            3 2025 1 enrol     12 credits\n\
\x20     14 1970-01-01 -           120            4 2025 - originate 21000 dollars\n\
\x20     15 1970-01-01 -           120            6 2025 2 enrol     12 credits\n\
\x20     16 1970-01-01 -           120            7 2025 2 pay       pell        763.00       763.00   83319\n\
\x20     17 1970-01-01 -           120            8 2025 2 withdraw  returned 34.7 65.30 51.44 0.00\n\
\x20     17 1970-01-01 -           120            8 2025 2 return    pell        -65.30       697.70   80467\n\
\x20     18 1970-01-01 -           120            9 2025 2 repay     pell        -51.44       646.26   78221\n\
rows 12\n";

// What could be paid before anything was.
const FIRST_QUOTES: &str = "\
student,credits,scheduled,pell,quote\n\
5001,12,2290,0.00,1145\n";

// Formula A.
pub(crate) const DEPENDENT: &str = "\
Student Aid Index of student 5001, award year 2025: formula A\n\
application at 8, transaction 1; year book at 1\n\
parents\n\
\x20  adjusted gross income                              85000\n\
\x20= total income                                       85000\n\
\x20  income tax, where above 0                           5200\n\
\x20+ payroll tax allowance                               6503\n\
\x20+ income protection, family of 4                     43870\n\
\x20+ employment expense allowance                        4730\n\
\x20= allowances                                         60303\n\
\x20  available income                                   24697\n\
\x20+ cash, savings and checking                         12000\n\
\x20+ net worth of investments                           20000\n\
\x20= net worth                                          32000\n\
\x20- asset protection allowance, age 48                  6000\n\
\x20= discretionary net worth                            26000\n\
\x20  contribution from assets, 12.00 percent             3120\n\
\x20  adjusted available income                          27817\n\
\x20  contribution, by the schedule                       6424\n\
student\n\
\x20  adjusted gross income                               6000\n\
\x20= total income                                        6000\n\
\x20  income tax, where above 0                              0\n\
\x20+ payroll tax allowance                                459\n\
\x20+ income protection                                  11770\n\
\x20+ parents' adjusted income below 0                       0\n\
\x20= allowances                                         12229\n\
\x20  available income                                   -6229\n\
\x20  least contribution from income                     -1500\n\
\x20  cash, savings and checking                           900\n\
\x20= net worth                                            900\n\
\x20  contribution from assets, 20.00 percent              180\n\
award\n\
\x20= sum of the contributions                            5104\n\
\x20  Student Aid Index, -1500 to 999999                  5104\n\
\x20  parents required to file a tax return                yes\n\
\x20  graduate student, or has a bachelor's degree          no\n\
\x20  parents' adjusted gross income                     85000\n\
\x20  poverty guideline, family of 4                     30000\n\
\x20  maximum award up to 175 percent                    52500\n\
\x20  minimum award up to 275 percent                    82500\n\
\x20  7395 less the index, to the nearest 5               2290\n\
\x20  minimum award of the year                            740\n\
\x20  Scheduled Award: calculated                         2290\n\
\x20  final Student Aid Index                             5104\n";

// Formula B, of a student who earned 20,000 dollars.
pub(crate) const SINGLE: &str = "\
Student Aid Index of student 5002, award year 2025: formula B\n\
application at 19, transaction 1; year book at 1\n\
student\n\
\x20  adjusted gross income                              20000\n\
\x20= total income                                       20000\n\
\x20  income tax, where above 0                            600\n\
\x20+ payroll tax allowance                               1530\n\
\x20+ income protection                                  18310\n\
\x20+ employment expense allowance                           0\n\
\x20= allowances                                         20440\n\
\x20  available income                                    -440\n\
\x20  contribution from income, 50.00 percent             -220\n\
\x20+ cash, savings and checking                          1000\n\
\x20= net worth                                           1000\n\
\x20- asset protection allowance, age 25                     0\n\
\x20= discretionary net worth                             1000\n\
\x20  contribution from assets, 20.00 percent              200\n\
award\n\
\x20= sum of the contributions                             -20\n\
\x20  Student Aid Index, -1500 to 999999                   -20\n\
\x20  student required to file a tax return                yes\n\
\x20  graduate student, or has a bachelor's degree          no\n\
\x20  student's adjusted gross income                    20000\n\
\x20  poverty guideline, family of 1                     14580\n\
\x20  maximum award up to 175 percent                    25515\n\
\x20  minimum award up to 275 percent                    40095\n\
\x20  7395 less 0 for the index, to the nearest 5         7395\n\
\x20  minimum award of the year                            740\n\
\x20  Scheduled Award: maximum                            7395\n\
\x20  final Student Aid Index                              -20\n";

// Formula C, of a student with a dependent who earned 60,000 dollars.
const FAMILY: &str = "\
Student Aid Index of student 5003, award year 2025: formula C\n\
application at 20, transaction 1; year book at 1\n\
student\n\
\x20  adjusted gross income                              60000\n\
\x20= total income                                       60000\n\
\x20  income tax, where above 0                           3000\n\
\x20+ payroll tax allowance                               4590\n\
\x20+ income protection, family of 2                     53660\n\
\x20+ employment expense allowance                        4730\n\
\x20= allowances                                         65980\n\
\x20  available income                                   -5980\n\
\x20+ net worth of investments                           40000\n\
\x20= net worth                                          40000\n\
\x20- asset protection allowance, age 35                   500\n\
\x20= discretionary net worth                            39500\n\
\x20  contribution from assets, 7.00 percent              2765\n\
\x20  adjusted available income                          -3215\n\
\x20  contribution, by the schedule                       -707\n\
award\n\
\x20= sum of the contributions                            -707\n\
\x20  Student Aid Index, -1500 to 999999                  -707\n\
\x20  student required to file a tax return                yes\n\
\x20  graduate student, or has a bachelor's degree          no\n\
\x20  student's adjusted gross income                    60000\n\
\x20  poverty guideline, family of 2                     19720\n\
\x20  maximum award up to 225 percent                    44370\n\
\x20  minimum award up to 400 percent                    78880\n\
\x20  7395 less 0 for the index, to the nearest 5         7395\n\
\x20  minimum award of the year                            740\n\
\x20  Scheduled Award: calculated                         7395\n\
\x20  final Student Aid Index                             -707\n";
