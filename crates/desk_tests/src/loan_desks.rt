// Two desks that lend to one student at once, in either order.
use crate::loan_runs::office;
use io_memory::{HoldSyncPoint, MemoryDisk, MemorySink, SteadySource};
use loans::Loans;
use run_rules::{RuleDeskInput, run_ruled_desks};
use std::alloc::{AllocError, Global};
use std::process::Abort;
use std::sync::Wait;
use std::test::Fail;
use std::thread::Threads;

// Two loans of 3,000 dollars, where 5,500 may be lent: one is subsidized, and the other not.
const LOANS: [&[u8]; 2] = [
    b"lend,110,2,5001,2025,sub,3000.00\n",
    b"lend,120,2,5001,2025,unsub,3000.00\n",
];

fn two_desks(alloc: Global) -> Result<Vec<RuleDeskInput<SteadySource>>, AllocError> {
    let [one, other] = LOANS;
    let one = SteadySource::new(one.to_vec(alloc)?);
    let other = SteadySource::new(other.to_vec(alloc)?);
    Ok(vec![in alloc;
        RuleDeskInput { input: one },
        RuleDeskInput { input: other },
    ]?)
}

// The desks file behind a gate, and this is the text.
fn assert_lent<H: Threads + Wait + Abort + Sync>(
    rt: &H,
    alloc: Global,
    gate: &HoldSyncPoint,
    text: &[u8],
) -> Result<(), Fail> {
    let mut desks = two_desks(alloc)?;
    let mut sink = MemorySink::new(alloc, Vec::new(alloc));
    let (status, _) = run_ruled_desks::<
        MemoryDisk,
        SteadySource,
        HoldSyncPoint,
        MemorySink,
        H,
        Loans,
    >(rt, alloc, &mut desks, office(rt, alloc)?, gate, &mut sink);
    assert_eq!(rt; status, 0);
    assert_eq!(rt; sink.text(), text);
    Ok(())
}

#[test]
fn desk_1_lends_first(rt: HostRuntime) -> Result<(), Fail> {
    let gate = HoldSyncPoint::new(2, 1, 1_000_000);
    assert_lent(
        &rt,
        rt.alloc(),
        &gate,
        b"desk 1 1 2 accepted 3 lent 3000.00 3000.00\ndesk 2 1 3 refused 118 600000 550000\nadmitted 3 1 1\n",
    )
}

#[test]
fn desk_2_lends_first(rt: HostRuntime) -> Result<(), Fail> {
    let gate = HoldSyncPoint::new(1, 2, 1_000_000);
    assert_lent(
        &rt,
        rt.alloc(),
        &gate,
        b"desk 1 1 3 refused 118 600000 550000\ndesk 2 1 2 accepted 3 lent 3000.00 3000.00\nadmitted 3 2 1\n",
    )
}
