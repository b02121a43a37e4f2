//! Worked rounds of awards: three candidates with needs of 9,000, 900 and 5,000 dollars, by the level and the quarter policy.
use aid_types::Student;
use law_funds::{Candidate, Policies, Rule, is_in_order, level, quarter, round, standard};
use std::alloc::{AllocError, Global};
use std::process::Abort;

// The policy, the fund, the awards and what is left.
const ROUNDS: [(&[u8], u32, [u32; 3], u32); 5] = [
    (b"level", 2_500, [1_000, 900, 600], 0),
    (b"level", 1_950, [1_000, 900, 0], 50),
    (b"level", 99, [0, 0, 0], 99),
    (b"quarter", 10_000, [2_250, 225, 1_250], 6_275),
    (b"quarter", 2_350, [2_250, 100, 0], 0),
];

#[test]
fn rounds(rt: HostRuntime) -> Result<(), AllocError> {
    let alloc = rt.alloc();
    let level_rule: Rule = Box::new(
        alloc,
        |need: u32, sai: i32, intensity: u8| level(need, sai, intensity),
    )?;
    let quarter_rule: Rule = Box::new(
        alloc,
        |need: u32, sai: i32, intensity: u8| quarter(need, sai, intensity),
    )?;
    let policies = standard(alloc, level_rule, quarter_rule)?;
    for (name, fund, awards, left) in ROUNDS {
        assert_round(&rt, alloc, &policies, name, fund, awards, left)?;
    }
    assert!(rt; policies.find(b"other").is_none());
    Ok(())
}

fn assert_round<R: Abort>(
    rt: &R,
    alloc: Global,
    policies: &Policies,
    name: &[u8],
    fund: u32,
    awards: [u32; 3],
    left: u32,
) -> Result<(), AllocError> {
    let list = [
        Candidate {
            student: Student(7),
            sai: -1_500,
            need: 9_000,
            intensity: 100,
        },
        Candidate {
            student: Student(3),
            sai: 0,
            need: 900,
            intensity: 50,
        },
        Candidate {
            student: Student(5),
            sai: 0,
            need: 5_000,
            intensity: 100,
        },
    ];
    assert!(rt; is_in_order(&list));
    let Some(policy) = policies.find(name) else {
        panic!(rt; "no policy")
    };
    let awarded = round(alloc, fund, &list, policy)?;
    assert_eq!(rt; awarded.awards.as_slice(), awards.as_slice(), "of {fund}");
    assert_eq!(rt; awarded.left, left, "of {fund}");
    Ok(())
}
