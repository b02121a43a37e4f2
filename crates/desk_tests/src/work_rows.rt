// Rows and rounds of the work-study desk, and the lines that answer them.
use crate::work_runs::{office, ran};
use std::test::Fail;

const ROUND: [&str; 4] = ["round", "101", "2025", "10"];

const STUDENTS: &[u8] = b"1,0,9000,100\n2,5,900,100\n3,9,5000,100\n";

// Three awards of a fund, an earning of the first, a release above what isn't earned, and the same round again.
#[test]
fn worked_rows(rt: HostRuntime) -> Result<(), Fail> {
    let alloc = rt.alloc();
    let awarded = ran(
        &rt,
        alloc,
        office(&rt, alloc)?,
        &ROUND,
        STUDENTS,
        (
            0,
            b"1 1 accepted 2 noted\n2 2 accepted 3 noted\n3 3 accepted 4 noted\nleft 0\n",
        ),
    )?;
    let earned = ran(
        &rt,
        alloc,
        awarded,
        &["file"],
        b"earn,101,20,1,2025,620,1550\nrelease,101,21,1,2025,840\n",
        (
            0,
            b"1 4 accepted 5 earned 160.17 839.83\n2 5 refused 219 84000 83983\n",
        ),
    )?;
    ran(&rt, alloc, earned, &ROUND, STUDENTS, (0, b"left 0\n"))?;
    Ok(())
}

// The lines of rows that are none come before the first award, and a later row of a student is one of them.
#[test]
fn heading_of_a_round(rt: HostRuntime) -> Result<(), Fail> {
    let alloc = rt.alloc();
    ran(
        &rt,
        alloc,
        office(&rt, alloc)?,
        &ROUND,
        b"1,0,9000\n1,x,9000,100\n1,0,9000,101\n1,0,9000,100\n1,1,50,100\n",
        (
            0,
            b"1 error 0 2\n2 error 2 3\n3 error 4 4\n5 error 1 5\n1 1 accepted 2 noted\nleft 1500\n",
        ),
    )?;
    Ok(())
}

// A minute at 20 cents an hour is nothing, an award that was released still stands, and a school without a policy has no round.
#[test]
fn edges(rt: HostRuntime) -> Result<(), Fail> {
    let alloc = rt.alloc();
    let kept = ran(
        &rt,
        alloc,
        office(&rt, alloc)?,
        &["file"],
        b"award,101,2,7,2025,100\nearn,101,3,7,2025,1,20\nrelease,101,4,7,2025,100\naward,101,5,7,2025,100\n",
        (
            0,
            b"1 1 accepted 2 noted\n2 2 refused 217 0 1\n3 2 accepted 3 noted\n4 3 refused 214 2 7\n",
        ),
    )?;
    ran(
        &rt,
        alloc,
        kept,
        &["round", "103", "2025", "10"],
        STUDENTS,
        (2, b"fault usage\n"),
    )?;
    Ok(())
}
