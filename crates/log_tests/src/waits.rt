// What a turn writes ahead of the rows that wait, by the syncs of a disk.
ghost use Rattle.std.specs.Prelude.{◌≡◌, None};

use crate::counting_disk::CountingDisk;
use crate::rising::Rising;
use log_desks::{SharedList, Since, Stage, WaitingRow};
use log_lock::{LockHandle, LockedState, TicketLock};
use log_machine::{Filed, Log, RowName, RowOperation, StateMachine};
use std::alloc::Global;
use std::process::Abort;
use std::sync::Wait;

// The gates, the lengths and the bytes of the numbers 1 to 3 behind the header.
const THREE: &[u8] =
    b"\x01NUMBERS1\x01\0\0\0\0\0\0\x01\x01\0\0\0\x01\x01\x01\0\0\0\x02\x01\x01\0\0\0\x03\0";

// What happens: a desk is about to draw a number for a row, a row of it comes later, or its row is filed.
#[derive(Clone, Copy)]
enum Event {
    Draws,
    Comes,
    Files,
}

// An event of a desk's row, which adds a number.
#[derive(Clone, Copy)]
struct Step {
    event: Event,
    by: RowName,
    number: u8,
}

// Steps in their order.
#[derive(Drop)]
struct Steps {
    steps: Vec<Step>,
}

impl Steps {
    fn new(alloc: Global) -> Self {
        Steps {
            steps: Vec::new(alloc),
        }
    }

    // The row of a desk that adds this number has this event.
    fn add(&mut self, rt: &impl Abort, event: Event, desk: u8, row: u8, number: u8) {
        let by = RowName {
            desk: u32::from(desk),
            row: u32::from(row),
        };
        self.steps
            .push(Step { event, by, number })
            .expect(rt, "memory");
    }
}

// Of the moments of the disk nothing is asked here. No value of it is made.
struct AnyMoment;

impl Since for AnyMoment {
    ghost moment = { 0 };

    ghost already = { λ t file. Unit {0} };
}

type Numbers = SharedList<CountingDisk, Rising, AnyMoment>;

// Posts a row.
fn post<R: Wait>(rt: &R, alloc: Global, turns: &TicketLock<Numbers>, step: Step, stage: Stage) {
    if let Some(row) = WaitingRow::new(alloc, step.by.desk, stage, &[step.number]) {
        turns.post(rt, row);
    }
}

fn take_step<R: Wait>(
    rt: &R,
    alloc: Global,
    turns: &TicketLock<Numbers>,
    handle: &mut LockHandle<Filed<u8>>,
    step: Step,
)
    requires { handle.old.lock ≡ turns.now.id }
    ensures lock { handle.new.lock ≡ handle.old.lock }
    ensures share { handle.new.allowance ≡ handle.old.allowance }
{
    match step.event {
        Event::Draws => post(rt, alloc, turns, step, Stage::Drawing),
        Event::Comes => post(rt, alloc, turns, step, Stage::Coming),
        Event::Files => {
            let operation = RowOperation {
                operation: step.number,
                by: step.by,
            };
            turns.submit(rt, handle, operation);
        }
    }
}

fn take_steps<R: Wait>(
    rt: &R,
    alloc: Global,
    turns: &TicketLock<Numbers>,
    handle: &mut LockHandle<Filed<u8>>,
    steps: &[Step],
)
    requires { handle.old.lock ≡ turns.now.id }
    ensures lock { handle.new.lock ≡ handle.old.lock }
    ensures share { handle.new.allowance ≡ handle.old.allowance }
{
    for step in steps {
        take_step(rt, alloc, turns, handle, *step);
    }
}

// A new list that is shared.
fn shared(rt: &impl Abort, alloc: Global) -> Numbers
    ensures { result.pending ≡ None }
{
    match Log::<CountingDisk, Rising>::found(alloc, CountingDisk::new(Vec::new(alloc))) {
        Ok(kept) => SharedList::new(alloc, kept),
        Err((error, _)) => panic!(rt; "{error:?}"),
    }
}

// Takes steps over a shared list.
fn taken(rt: &(impl Abort + Wait), alloc: Global, numbers: Numbers, steps: &[Step]) -> Numbers
    requires { numbers.pending ≡ None }
{
    let Ok((turns, mut handle)) = TicketLock::new(alloc, numbers, 1) else {
        panic!(rt; "no memory")
    };
    take_steps(rt, alloc, &turns, &mut handle, steps);
    turns.close(handle)
}

// Takes steps over a new list. Gives its file.
fn run(rt: &(impl Abort + Wait), alloc: Global, steps: &Steps) -> CountingDisk {
    let numbers = shared(rt, alloc);
    let (kept, _) = taken(rt, alloc, numbers, steps.steps.as_slice()).into_parts();
    kept.into_disk()
}

// Desks that file in turn, each row the next number, and the row of a desk that dies.
struct Turns {
    desks: u8,
    // So many rows behind the one that is filed were drawn.
    drawn: u8,
    rows: u8,
    // The numbers up to this one come.
    known: u8,
    // What the dead desk announced.
    dead: Option<Event>,
    // The syncs beside those that found the list.
    syncs: u64,
}

// The first row takes two syncs, and each later one takes one. A row of a desk that never comes misleads one turn, or two where it
// was about to draw. The rows that another desk files between two of a desk's don't mislead it.
static TURNS: [Turns; 11] = [
    Turns {
        desks: 4,
        drawn: 3,
        rows: 1,
        known: 1,
        dead: None,
        syncs: 2,
    },
    Turns {
        desks: 4,
        drawn: 3,
        rows: 2,
        known: 2,
        dead: None,
        syncs: 3,
    },
    Turns {
        desks: 4,
        drawn: 3,
        rows: 7,
        known: 7,
        dead: None,
        syncs: 8,
    },
    Turns {
        desks: 4,
        drawn: 3,
        rows: 30,
        known: 30,
        dead: None,
        syncs: 31,
    },
    Turns {
        desks: 1,
        drawn: 0,
        rows: 1,
        known: 1,
        dead: None,
        syncs: 2,
    },
    Turns {
        desks: 1,
        drawn: 0,
        rows: 2,
        known: 2,
        dead: None,
        syncs: 3,
    },
    Turns {
        desks: 1,
        drawn: 0,
        rows: 7,
        known: 7,
        dead: None,
        syncs: 8,
    },
    Turns {
        desks: 1,
        drawn: 0,
        rows: 30,
        known: 30,
        dead: None,
        syncs: 31,
    },
    Turns {
        desks: 1,
        drawn: 0,
        rows: 20,
        known: 20,
        dead: Some(Event::Comes),
        syncs: 22,
    },
    Turns {
        desks: 1,
        drawn: 0,
        rows: 20,
        known: 20,
        dead: Some(Event::Draws),
        syncs: 23,
    },
    Turns {
        desks: 2,
        drawn: 0,
        rows: 20,
        known: 22,
        dead: None,
        syncs: 22,
    },
];

#[test]
fn one_sync_a_filing(rt: HostRuntime) {
    let founded = run(&rt, rt.alloc(), &Steps::new(rt.alloc())).syncs();
    for turns in &TURNS {
        assert_turns(&rt, rt.alloc(), turns, founded);
    }
}

// The turns take their syncs.
fn assert_turns(rt: &(impl Abort + Wait), alloc: Global, turns: &Turns, founded: u64) {
    let steps = steps_of(rt, alloc, turns);
    let syncs = run(rt, alloc, &steps).syncs();
    let (desks, rows) = (turns.desks, turns.rows);
    assert_eq!(rt;
        syncs,
        founded.saturating_add(turns.syncs),
        "{desks} desks, {rows} rows"
    );
}

// What happens in turns.
fn steps_of(rt: &impl Abort, alloc: Global, turns: &Turns) -> Steps {
    let mut steps = Steps::new(alloc);
    if let Some(event) = turns.dead {
        steps.add(rt, event, 9, 7, 200);
    }
    for number in 1..=turns.rows.saturating_add(turns.drawn) {
        add_turn(rt, turns, number, &mut steps);
    }
    steps
}

// The row of this number draws where there is one, the next row of its desk comes, and the first that was drawn is filed.
fn add_turn(rt: &impl Abort, turns: &Turns, number: u8, steps: &mut Steps) {
    if number <= turns.rows {
        add_row(rt, turns, Event::Draws, number, steps);
    }
    let next = number.saturating_add(turns.desks);
    if next <= turns.known {
        add_row(rt, turns, Event::Comes, next, steps);
    }
    let filed = number.saturating_sub(turns.drawn);
    if filed > 0 {
        add_row(rt, turns, Event::Files, filed, steps);
    }
}

// The row that adds this number has this event. The desks have their rows in turn.
fn add_row(rt: &impl Abort, turns: &Turns, event: Event, number: u8, steps: &mut Steps) {
    let desk = number.checked_rem(turns.desks).unwrap_or(0);
    let row = number.checked_div(turns.desks).unwrap_or(0);
    steps.add(rt, event, desk, row, number);
}

// How many requests come at once, and the syncs that 24 take beside those that found the list: of those that come at once the first
// takes two, and each later one takes one.
const AT_ONCE: [(u8, u64); 4] = [(1, 48), (2, 36), (8, 27), (24, 25)];

#[test]
fn requests_at_once(rt: HostRuntime) {
    let founded = run(&rt, rt.alloc(), &Steps::new(rt.alloc())).syncs();
    for (at_once, syncs) in AT_ONCE {
        let steps = one_connection(&rt, rt.alloc(), at_once);
        let taken = run(&rt, rt.alloc(), &steps).syncs();
        assert_eq!(rt; taken, founded.saturating_add(syncs), "{at_once} at once");
    }
}

// One connection with 24 requests, of which some came at once: all are filed under one name, and each but the last of those that
// came at once is known ahead.
fn one_connection(rt: &impl Abort, alloc: Global, at_once: u8) -> Steps {
    let mut steps = Steps::new(alloc);
    for number in 1..=24u8 {
        steps.add(rt, Event::Draws, 1, 1, number);
        if number.checked_rem(at_once) != Some(0) {
            steps.add(rt, Event::Comes, 1, 1, number + 1);
        }
        steps.add(rt, Event::Files, 1, 1, number);
    }
    steps
}

// Rows of which one is refused, and one never comes: the events, their desks, and the numbers.
const REFUSED: [(Event, u8, u8); 9] = [
    (Event::Draws, 1, 1),
    (Event::Draws, 2, 1),
    (Event::Draws, 3, 2),
    (Event::Files, 1, 1),
    (Event::Files, 2, 1),
    (Event::Files, 3, 2),
    (Event::Draws, 4, 3),
    (Event::Comes, 9, 250),
    (Event::Files, 4, 3),
];

// What is written ahead of a row that is refused, or of one that never comes, counts for nothing.
#[test]
fn a_refused_row_leaves_the_list(rt: HostRuntime) {
    let alloc = rt.alloc();
    let mut steps = Steps::new(alloc);
    for (event, desk, number) in REFUSED {
        steps.add(&rt, event, desk, 1, number);
    }
    let file = run(&rt, alloc, &steps);
    assert!(rt; file.image().starts_with(THREE));
    match Log::<CountingDisk, Rising>::recover(alloc, file) {
        Ok(list) => assert_eq!(rt; list.machine().front(), 3),
        Err((error, _)) => panic!(rt; "{error:?}"),
    }
}
