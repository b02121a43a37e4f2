//! The rules of marks.
ghost use Rattle.std.specs.Prelude.{◌++◌};

use crate::{Left, Mark, MarkIndex, Marks};
use aid_types::{Key, Refusal, School};
use arrayvec::ArrayString;
use itoa::Buffer;
use log_rules::{OfficeRules, OutcomeText};
use std::alloc::{AllocError, Global};

impl OfficeRules for Marks {
    ghost use Rattle.desk_tests.specs.Marks.{IsFew, marking};
    ghost use Rattle.desk_tests.specs.MarkLaws.{full as is_full, legal_within as legal_is_within, mark_rows};

    type Outcome = Left;

    type Index = MarkIndex;

    ghost ruling = { marking };

    ghost IsWithin = { IsFew };

    ghost on_file = { λ index. index.list };

    ghost room = { λ index. index.room };

    ghost rows = { mark_rows };

    ghost full = { is_full };

    ghost legal_within = { legal_is_within };

    fn key(mark: &Mark) -> Key {
        Key {
            school: School(0),
            number: u64::from(mark.number),
        }
    }

    fn new_index(alloc: Global) -> MarkIndex {
        MarkIndex::new(alloc)
    }

    fn reserve(index: &mut MarkIndex, n: u32) -> Result<(), AllocError> {
        index.reserve(n)
    }

    fn judge(index: &MarkIndex, mark: &Mark) -> Result<Left, Refusal> {
        let kept = index.total();
        let all = kept + u32::from(mark.amount) + 1;
        if all <= 1000 {
            Ok(Left {
                points: (1000 - all) as u16,
            })
        } else {
            Err(Refusal {
                rule: 201,
                kept: u64::from(kept),
                bound: 1000,
            })
        }
    }

    fn admit(index: &mut MarkIndex, mark: &Mark) {
        index.push(*mark);
    }
}

impl OutcomeText for Marks {
    ghost use Rattle.desk_tests.specs.Marks.{left_text};

    ghost outcome_text = { left_text };

    fn push_outcome(outcome: &Left, line: &mut ArrayString<160>) {
        line.push_str("left ");
        let mut digits = Buffer::new();
        line.push_str(digits.format(outcome.points));
    }
}
