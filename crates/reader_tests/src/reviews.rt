// Reviews of a student's year: each part is the text of its own sheet.
use crate::sheets::{
    ANSWERED, APPLIED, APPLIED_SEAL, DEPENDENT, LEDGER, RETURN, SEAL_0, SEAL_18, SINGLE,
    assert_sealed, office,
};
use specimen::{YEAR_LINES, YEAR_ROWS};
use std::alloc::Global;
use std::process::Abort;
use std::test::Fail;
use whole_runs::EMPTY;

// Asserts that a run that is done writes these parts, and behind them this line of a seal.
fn assert_parts(
    rt: &impl Abort,
    alloc: Global,
    image: &[u8],
    line: &str,
    parts: &[&str],
    seal: &str,
) -> Result<(), Fail> {
    let mut whole = String::from_str(alloc, "")?;
    for &part in parts {
        whole.push_str(part)?;
    }
    assert_sealed(rt, alloc, image, line, whole.as_str(), seal)
}

// All that is on file of the worked year, and what was of it before anything was paid.
#[test]
fn a_worked_year(rt: HostRuntime) -> Result<(), Fail> {
    let alloc = rt.alloc();
    let year = office(&rt, alloc, &[(YEAR_ROWS, YEAR_LINES)])?;
    assert_parts(
        &rt,
        alloc,
        year.image(),
        "review 5001 2025",
        &[
            "== Applications\n",
            APPLICATION,
            "== Year book\n",
            BOOK,
            "== Need\n",
            DEPENDENT,
            "== Ledger\n",
            LEDGER,
            "== Withdrawal\n",
            RETURN,
            "== Standing\nstanding 5001 2025 1 A 5104 calculated 2290 1791.26 78221\n",
        ],
        SEAL_18,
    )?;
    assert_parts(
        &rt,
        alloc,
        year.image(),
        "upto 8 review 5001 2025",
        &[
            "== Applications\n",
            APPLICATION,
            "== Year book\n",
            BOOK,
            "== Need\n",
            DEPENDENT,
            "== Ledger\n",
            APPLIED_LEDGER,
            "== Standing\nstanding 5001 2025 1 A 5104 calculated 2290 0.00 0\n",
        ],
        SEAL_8,
    )
}

// A student without dependents, who had nothing yet.
#[test]
fn another_formula(rt: HostRuntime) -> Result<(), Fail> {
    let alloc = rt.alloc();
    let inputs = [(YEAR_ROWS, YEAR_LINES), (APPLIED, ANSWERED)];
    let year = office(&rt, alloc, &inputs)?;
    assert_parts(
        &rt,
        alloc,
        year.image(),
        "review 5002 2025",
        &[
            "== Applications\n",
            SINGLE_APPLICATION,
            "== Year book\n",
            BOOK,
            "== Need\n",
            SINGLE,
            "== Ledger\n",
            SINGLE_LEDGER,
            "== Standing\nstanding 5002 2025 1 B -20 maximum 7395 0.00 0\n",
        ],
        APPLIED_SEAL,
    )
}

// A year without a book, and a student of whom nothing is on file.
#[test]
fn names_that_are_on_no_file(rt: HostRuntime) -> Result<(), Fail> {
    let alloc = rt.alloc();
    let year = office(&rt, alloc, &[(YEAR_ROWS, YEAR_LINES)])?;
    let none = "== Applications\n== Year book\nnone\n== Need\nnone\n== Ledger\n";
    assert_parts(
        &rt,
        alloc,
        year.image(),
        "review 5001 2026",
        &[
            none,
            LEDGER,
            "== Standing\nstanding 5001 2026 0 A 0 nothing 0 0.00 78221\n",
        ],
        SEAL_18,
    )?;
    assert_parts(
        &rt,
        alloc,
        year.image(),
        "review 77 2026",
        &[
            none,
            "none\n== Standing\nstanding 77 2026 0 A 0 nothing 0 0.00 0\n",
        ],
        SEAL_18,
    )?;
    assert_parts(
        &rt,
        alloc,
        EMPTY,
        "review 5001 2025",
        &[
            none,
            "none\n== Standing\nstanding 5001 2025 0 A 0 nothing 0 0.00 0\n",
        ],
        SEAL_0,
    )
}

// By Python's hashlib over the records of the journal.
const SEAL_8: &str = "sealed 8 75ff9624509db99f80113380e48779fde0052713cfc6ec02e5584755db7f1855\n";

// The lines of the list.
const APPLICATION: &str = "\
8 1970-01-01 - apply,110,3,5001,2025,1,2006,0,4,0,0,0,0,0,0,0,0,0,0,1,6000,0,0,0,0,0,0,0,0,0,6000,0,0,900,0,0,1,1,48,85000,0,0,0,0,0,0,0,0,5200,50000,35000,0,12000,20000,0 index A 5104 calculated 2290\n";

const SINGLE_APPLICATION: &str = "\
19 1970-01-01 - apply,110,50,5002,2025,1,2000,0,1,0,0,0,0,0,0,0,0,0,0,1,20000,0,0,0,0,0,0,0,0,600,20000,0,0,1000,0,0,1,1,48,0,0,0,0,0,0,0,0,0,0,0,0,0,0,0,0 index B -20 maximum 7395\n";

// The ledgers of a student who has applied, and no more.
const APPLIED_LEDGER: &str = "\
\x20      8 1970-01-01 -           110            3 2025 - apply     index A 5104 calculated 2290\n\
rows 1\n";

const SINGLE_LEDGER: &str = "\
\x20     19 1970-01-01 -           110           50 2025 - apply     index B -20 maximum 7395\n\
rows 1\n";

// The figures of the specimen, in the order of the fields.
const BOOK: &str = "\
form = 1\n\
year = 2025\n\n\
[pell]\n\
maximum = 7395\n\
minimum = 740\n\n\
[percent]\n\
maximum_single = 225\n\
maximum_other = 175\n\
minimum_dependent_single = 325\n\
minimum_dependent_other = 275\n\
minimum_single_parent = 400\n\
minimum_parent = 350\n\
minimum_no_dependents = 275\n\n\
[poverty]\n\
contiguous = [14580, 19720, 24860, 30000, 35140, 40280, 45420, 50560]\n\
contiguous_extra = 5140\n\
alaska = [18210, 24640, 31070, 37500, 43930, 50360, 56790, 63220]\n\
alaska_extra = 6430\n\
hawaii = [16770, 22680, 28590, 34500, 40410, 46320, 52230, 58140]\n\
hawaii_extra = 5910\n\n\
[payroll]\n\
oasdi_cap = 168600\n\
oasdi_rate = 620\n\
medicare_rate = 145\n\
medicare_high = 235\n\
threshold_single = 200000\n\
threshold_married = 250000\n\n\
[protection]\n\
parents = [28530, 35510, 43870, 51750, 60540]\n\
parents_extra = 6840\n\
dependent_student = 11770\n\
single_student = 18310\n\
married_student = 29350\n\
single_parent = [53660, 66800, 82500, 97330, 113840]\n\
single_parent_extra = 12860\n\
married_parent = [42800, 53270, 65810, 77630, 90810]\n\
married_parent_extra = 10260\n\n\
[employment]\n\
cap = 4730\n\
rate = 3500\n\n\
[assets]\n\
parents_rate = 1200\n\
dependent_rate = 2000\n\
no_dependents_rate = 2000\n\
with_dependents_rate = 700\n\n\
[[business]]\n\
over = 0\n\
base = 0\n\
rate = 4000\n\n\
[[business]]\n\
over = 165000\n\
base = 66000\n\
rate = 5000\n\n\
[[business]]\n\
over = 490000\n\
base = 228500\n\
rate = 6000\n\n\
[[business]]\n\
over = 815000\n\
base = 423500\n\
rate = 10000\n\n\
[[age]]\n\
from = 0\n\
single = 0\n\
married = 0\n\n\
[[age]]\n\
from = 26\n\
single = 500\n\
married = 800\n\n\
[[age]]\n\
from = 40\n\
single = 2500\n\
married = 6000\n\n\
[[age]]\n\
from = 65\n\
single = 4000\n\
married = 10000\n\n\
[schedule]\n\
low_at = -6820\n\
low = -1500\n\
first_rate = 2200\n\
student_rate = 5000\n\
lowest_student = -1500\n\n\
[[bracket]]\n\
over = 20500\n\
base = 4510\n\
rate = 2500\n\n\
[[bracket]]\n\
over = 25700\n\
base = 5810\n\
rate = 2900\n\n\
[[bracket]]\n\
over = 30900\n\
base = 7318\n\
rate = 3400\n\n\
[[bracket]]\n\
over = 36200\n\
base = 9120\n\
rate = 4000\n\n\
[[bracket]]\n\
over = 41500\n\
base = 11240\n\
rate = 4700\n\n\
# book at 1, 1970-01-01 -\n";
