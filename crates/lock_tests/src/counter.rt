// A list of numbers beside a device that may fail.
ghost use Rattle.std.specs.Prelude.{◌≡◌, ◌≤◌, ℕ, Bool, true, false};
ghost use Rattle.log_lock.specs.Turning.{RoseBy};

use log_lock::LockedState;

/// A device that counts its faults.
pub trait Device {
    ghost faults: { Self → ℕ };

    ghost honest: { Self → Bool };

    /// True if it worked.
    fn poke(&mut self) -> bool
        ensures later { faults self.old ≤ faults self.new }
        ensures rose { result ≡ false → RoseBy 1 (faults self.old) (faults self.new) }
        ensures still { result ≡ true → faults self.new ≡ faults self.old }
        ensures honest { honest self.new ≡ honest self.old };
}

/// What a turn answers: the position of the ask or of what is undecided.
#[derive(Clone, Copy, Drop, Debug, PartialEq, Eq)]
pub enum Answer {
    Accepted(u64),
    Undecided(u64),
    NoMemory,
}

/// The state.
#[derive(Drop)]
pub struct Counter<D: Device> {
    pub device: D,
    pub log: Vec<u64>,
    pub waiting: Option<u64>,
}

impl<D: Device> LockedState for Counter<D> {
    ghost use Rattle.std.specs.Prelude.{Some, reverse};
    ghost use Rattle.lock_tests.specs.Counts.{said, wants_memory};

    type Operation = u64;

    type Reply = Answer;

    type Entry = u64;

    type Hint = ();

    ghost snapshot = { λ s. record { list = reverse s.log.items; pending = s.waiting; faults = D.faults s.device; fixed = D.honest s.device } };

    ghost own = { λ operation. Some operation };

    ghost says = { said };

    ghost meets = { λ old operation answer new. Unit {0} };

    ghost reached = { λ start s. start.faults ≤ D.faults s.device };

    // it may ask for memory at each turn
    ghost room = { λ s. 0 };

    ghost wants = { wants_memory };

    fn submit(&mut self, operation: u64) -> Answer {
        if self.log.reserve(2).is_err() {
            return Answer::NoMemory;
        }
        if let Some(entry) = self.waiting {
            if !self.device.poke() {
                return Answer::Undecided(self.log.len() as u64 + 1);
            }
            self.log.push_reserved(entry);
            self.waiting = None;
        }
        if !self.device.poke() {
            self.waiting = Some(operation);
            return Answer::Undecided(self.log.len() as u64 + 1);
        }
        self.log.push_reserved(operation);
        Answer::Accepted(self.log.len() as u64)
    }

    fn hint(&mut self, _note: ()) {}
}
