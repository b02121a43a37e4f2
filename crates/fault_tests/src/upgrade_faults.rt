// What is left where a disk fails or stops in the middle.
use crate::upgrade_files::{NEW, OLD};
use crate::upgrade_runs::{Ran, disk, stopped, upgraded};
use aid_stamps::Stamp;
use io_memory::{DiskStop, Fill, MemoryDisk};
use log_machine::{Log, OpenError, StateMachine};
use office_log::StampedOfficeMachine;
use std::alloc::Global;
use std::process::Abort;
use std::test::Fail;

/// More calls than an upgrade of two filings makes.
const CALLS: u64 = 60;

// The file is no office's, or it is that of both filings under the plain stamp.
fn assert_whole_or_none(rt: &impl Abort, alloc: Global, left: MemoryDisk) -> Result<(), Fail> {
    let again = disk(alloc, (left.image(), &[]), None)?;
    match opened(alloc, again) {
        Ok(office) => assert_plain(rt, office),
        Err(error) => assert!(rt; matches!(error, OpenError::NoOffice | OpenError::NotJournal)),
    }
    Ok(())
}

// The office that a disk's file leaves.
fn opened(
    alloc: Global,
    disk: MemoryDisk,
) -> Result<Log<MemoryDisk, StampedOfficeMachine>, OpenError> {
    match Log::recover(alloc, disk) {
        Ok(office) => Ok(office),
        Err((error, _disk)) => Err(error),
    }
}

// Both filings stand, each under the plain stamp, and the file is the whole.
fn assert_plain(rt: &impl Abort, office: Log<MemoryDisk, StampedOfficeMachine>) {
    assert_eq!(rt; office.machine().front(), 2);
    for position in 1..=2 {
        assert_eq!(rt; office.machine().stamp(position), Some(Stamp::plain()));
    }
    assert_eq!(rt; office.into_disk().image(), NEW);
}

// The target stops for good at each of its calls.
#[test]
fn a_target_that_stops(rt: HostRuntime) -> Result<(), Fail> {
    for fill in [Fill::Unwritten, Fill::Written, Fill::With(0), Fill::With(1)] {
        assert_stops(&rt, rt.alloc(), fill)?;
    }
    Ok(())
}

// The same where what isn't synced is left so.
fn assert_stops(rt: &impl Abort, alloc: Global, fill: Fill) -> Result<(), Fail> {
    let mut stopped_at = 0;
    for call in 1..CALLS {
        let after = stopped(alloc, (OLD, &[]), DiskStop { call, fill })?;
        if is_target_fault(rt, alloc, after)? {
            stopped_at = call;
        }
    }
    assert!(rt; 10 <= stopped_at && stopped_at < CALLS - 1);
    Ok(())
}

// Whether a fault of the target is said. Else all is copied.
fn is_target_fault(rt: &impl Abort, alloc: Global, after: Ran) -> Result<bool, Fail> {
    assert_eq!(rt; after.source.image(), OLD);
    if after.status == 0 {
        assert_eq!(rt; after.target.image(), NEW);
        return Ok(false);
    }
    assert_fault(rt, &after, "fault disk target\n");
    assert_whole_or_none(rt, alloc, after.target)?;
    Ok(true)
}

// A disk's fault is said so.
fn assert_fault(rt: &impl Abort, after: &Ran, text: &str) {
    assert_eq!(rt; after.status, 5);
    assert_eq!(rt; after.out.text(), text.as_bytes());
}

// Each call of either disk fails once. A call of the target that isn't needed may fail unsaid.
#[test]
fn a_call_that_fails(rt: HostRuntime) -> Result<(), Fail> {
    assert_source_fails(&rt, rt.alloc())?;
    assert_target_fails(&rt, rt.alloc())
}

// Each call of the source fails once.
fn assert_source_fails(rt: &impl Abort, alloc: Global) -> Result<(), Fail> {
    let mut failed = 0;
    for call in 1..CALLS {
        if is_source_fault(rt, alloc, call)? {
            failed = call;
        }
    }
    assert!(rt; 2 <= failed && failed < CALLS - 1);
    Ok(())
}

// Whether a fault of the source is said where this call fails. Else all is copied.
fn is_source_fault(rt: &impl Abort, alloc: Global, call: u64) -> Result<bool, Fail> {
    let after = upgraded(alloc, (OLD, &[call]), (b"", &[]), &[])?;
    assert_eq!(rt; after.source.image(), OLD);
    if after.status == 0 {
        assert_eq!(rt; after.target.image(), NEW);
        return Ok(false);
    }
    assert_fault(rt, &after, "fault disk source\n");
    assert_eq!(rt; after.target.image(), b"".as_slice());
    Ok(true)
}

// Each call of the target fails once.
fn assert_target_fails(rt: &impl Abort, alloc: Global) -> Result<(), Fail> {
    let mut failed = 0;
    for call in 1..CALLS {
        let after = upgraded(alloc, (OLD, &[]), (b"", &[call]), &[])?;
        if is_target_fault(rt, alloc, after)? {
            failed = call;
        }
    }
    assert!(rt; 10 <= failed && failed < CALLS - 1);
    Ok(())
}

// A source whose header is looked at a second time, and whose call fails then.
#[test]
fn a_second_look(rt: HostRuntime) -> Result<(), Fail> {
    let mut failed = 0;
    for call in 1..CALLS {
        if is_look_fault(&rt, rt.alloc(), call)? {
            failed = call;
        }
    }
    assert!(rt; 2 <= failed);
    Ok(())
}

// Whether a fault of a source of the new version is said where this call fails. Else its version is.
fn is_look_fault(rt: &impl Abort, alloc: Global, call: u64) -> Result<bool, Fail> {
    let after = upgraded(alloc, (NEW, &[call]), (b"", &[]), &[])?;
    assert_eq!(rt; after.source.image(), NEW);
    assert_eq!(rt; after.target.image(), b"".as_slice());
    if after.status == 5 {
        assert_eq!(rt; after.out.text(), b"fault disk source\n".as_slice());
        return Ok(true);
    }
    assert_eq!(rt; after.status, 6);
    assert_eq!(rt; after.out.text(), b"fault new version\n".as_slice());
    Ok(false)
}
