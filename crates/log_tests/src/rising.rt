// Numbers that rise, as a docket.
ghost use Rattle.std.specs.Prelude.{◌≡◌};

use io_traits::PayloadBuffer;
use log_journal::Header;
use log_machine::{Decided, DecodeError, NewEntry, StateMachine};
use log_session::Report;
use std::alloc::{AllocError, Global};
use std::marker::Model;

/// Numbers of one byte of which each is greater than the one before it.
#[derive(Drop)]
pub struct Rising {
    numbers: Vec<u8>,
    spare: u32,
}

impl Model for Rising {
    ghost use Rattle.std.specs.Prelude.{◌+◌, ◌≤◌, ◌<◌, ◌^◌, reverse, vec_len, vec_capacity};
    ghost use Rattle.log_tests.specs.Rising.{Numbers, Rises};

    ghost Value = { Numbers };

    ghost view = { λ r. record { list = reverse r.numbers.items; spare = r.spare } };

    ghost invariant = { λ r. Rises (reverse r.numbers.items) × (vec_len r.numbers + r.spare + 1 < 2 ^ 32)
        × (vec_len r.numbers + r.spare ≤ vec_capacity r.numbers) };
}

impl Rising {
    ghost use Rattle.log_tests.specs.Rising.{is_next};

    /// So many numbers more are taken without memory.
    pub fn room(&self) -> u32
        ensures { result ≡ self.now.spare }
    {
        self.spare
    }

    // Whether a number may follow those that stand.
    fn takes(&self, number: u8) -> bool
        ensures { result ≡ is_next self.now.list number }
    {
        match self.numbers.last() {
            Some(last) => *last < number,
            None => true,
        }
    }
}

impl StateMachine for Rising {
    ghost use Rattle.std.specs.Prelude.{⊤};
    ghost use Rattle.log_tests.specs.Rising.{rising_scheme, rising_judging};
    ghost use Rattle.log_tests.specs.RisingLaws.{keepable, alone, added_admitted};

    type Entry = u8;

    type Ruling = ();

    type Operation = u8;

    type Response = bool;

    ghost scheme = { rising_scheme };

    ghost semantics = { rising_judging };

    ghost keepable = { keepable };

    ghost alone = { alone };

    ghost none_legal = { tt };

    ghost admitted_legal = { λ past n legal next. (legal, next) };

    ghost legal_admitted = { λ past n legal. legal.1 };

    ghost legal_past = { λ past n legal. legal.0 };

    ghost added_admitted = { added_admitted };

    ghost IsRuling = { λ past n ruling. ⊤ };

    ghost history = { λ r. r.list };

    ghost spare = { λ r. r.spare };

    fn header() -> Header {
        Header {
            name: *b"NUMBERS1",
            version: 1,
            old: None,
        }
    }

    fn new(alloc: Global) -> Rising {
        Rising {
            numbers: Vec::new(alloc),
            spare: 0,
        }
    }

    fn front(&self) -> u32 {
        self.numbers.len() as u32
    }

    fn reserve(&mut self, n: u32) -> Result<(), AllocError> {
        if n <= self.spare {
            return Ok(());
        }
        if n >= u32::MAX - self.front() {
            return Err(AllocError);
        }
        self.numbers.reserve(n as usize)?;
        self.spare = n;
        Ok(())
    }

    fn judge(&self, operation: u8) -> Decided<u8, (), bool> {
        match self.rule(&operation) {
            Some(ruling) => Decided {
                response: true,
                added: Some(NewEntry {
                    entry: operation,
                    ruling,
                }),
            },
            None => Decided {
                response: false,
                added: None,
            },
        }
    }

    fn rule(&self, entry: &u8) -> Option<()> {
        if self.takes(*entry) { Some(()) } else { None }
    }

    fn admit(&mut self, entry: u8, _ruling: ()) {
        self.numbers.push_reserved(entry);
        self.spare -= 1;
    }

    fn encode(entry: &u8, room: &mut PayloadBuffer) {
        room.clear();
        room.append(&[*entry]);
    }

    fn encode_expected(operation: &u8, room: &mut PayloadBuffer) {
        Self::encode(operation, room);
    }

    fn decode(_alloc: Global, bytes: &[u8]) -> Result<u8, DecodeError> {
        match bytes {
            [number] => Ok(*number),
            _ => Err(DecodeError::NotEntry),
        }
    }
}

/// All numbers that stand, the oldest first, a byte each.
pub struct AllNumbers;

impl Report<Rising> for AllNumbers {
    ghost use Rattle.std.specs.Prelude.{reverse};

    ghost text = { λ report past. reverse past };

    fn write(&self, alloc: Global, machine: &Rising) -> Result<Vec<u8>, AllocError> {
        machine.numbers.to_vec(alloc)
    }
}
