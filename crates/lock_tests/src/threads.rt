// Two threads and many, over a device that fails once.
ghost use Rattle.std.specs.Prelude.{◌≡◌, None};

use crate::counter::{Answer, Counter, Device};
use crate::desks::{Desk, run};
use crate::pair::{file_and_meet, file_two};
use std::test::Fail;

// Its poke number `bad` fails.
#[derive(Drop)]
struct Flaky {
    pokes: u64,
    bad: u64,
    faults: u64,
}

impl Device for Flaky {
    ghost use Rattle.std.specs.Prelude.{true};

    ghost faults = { λ d. d.faults };

    ghost honest = { λ d. true };

    fn poke(&mut self) -> bool {
        self.pokes = self.pokes.wrapping_add(1);
        if self.pokes == self.bad {
            self.faults = self.faults.saturating_add(1);
            return false;
        }
        true
    }
}

// A counter without entries, over a device whose poke number `bad` fails.
fn counter(rt: &HostRuntime, bad: u64) -> Counter<Flaky>
    ensures { result.waiting ≡ None }
{
    Counter {
        device: Flaky {
            pokes: 0,
            bad,
            faults: 0,
        },
        log: Vec::new(rt.alloc()),
        waiting: None,
    }
}

#[test]
fn two_threads_file_in_one_list(rt: HostRuntime) -> Result<(), Fail> {
    let state = counter(&rt, 0);
    let Ok((closed, here, there)) = file_two(&rt, rt.alloc(), state, 10, 20) else {
        return Err(Fail::new("no memory"));
    };
    let log = closed.log.as_slice();
    let in_order = log == [10, 20].as_slice()
        && here == Answer::Accepted(1)
        && there == Answer::Accepted(2);
    let other_order = log == [20, 10].as_slice()
        && here == Answer::Accepted(2)
        && there == Answer::Accepted(1);
    assert!(rt; in_order || other_order);
    Ok(())
}

#[test]
fn a_pass_meets_another(rt: HostRuntime) -> Result<(), Fail> {
    let state = counter(&rt, 0);
    let Ok((closed, answer)) = file_and_meet(&rt, rt.alloc(), state, 10) else {
        return Err(Fail::new("no memory"));
    };
    assert!(rt; answer == Answer::Accepted(1) && closed.log.as_slice() == [10].as_slice());
    Ok(())
}

#[test]
fn many_threads_file_in_one_list(rt: HostRuntime) -> Result<(), Fail> {
    // The device fails in no poke, or in one of those whose entry another turn settles then.
    for bad in [0u64, 1, 2, 5] {
        let mut desks = Vec::new(rt.alloc());
        for operation in 0..8u64 {
            desks.push(Desk {
                handle: None,
                operation,
                answer: None,
            })?;
        }
        let state = counter(&rt, bad);
        let all = desks.as_mut_slice();
        assert!(rt; all.len() < 64);
        let Ok(closed) = run(&rt, rt.alloc(), state, all) else {
            return Err(Fail::new("no memory"));
        };
        assert!(rt; closed.device.faults == u64::from(bad > 0) && closed.waiting.is_none());
        assert!(rt; closed.log.len() == 8);
        for desk in desks.as_slice() {
            let Some(Answer::Accepted(position) | Answer::Undecided(position)) = desk.answer else {
                return Err(Fail::new("no position"));
            };
            let place = (position as usize).wrapping_sub(1);
            assert!(rt; desk.handle.is_none() && closed.log.get(place) == Some(&desk.operation));
        }
    }
    Ok(())
}
