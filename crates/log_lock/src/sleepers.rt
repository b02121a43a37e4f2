// Where seats sleep that wait for their turns: each by a word of its own, so that a turn that ends wakes one seat alone, and
// makes no system call where that one is awake.
ghost use Rattle.std.specs.Prelude.{◌≡◌, ◌<◌};

use atomic_table::{Play, Table, TableRule};
use std::alloc::{AllocError, Global};
use std::sync::Wait;

// A lock has no more passes than that, and the numbers that are out at once follow one another. So no two of them have the
// same word.
const WORDS: usize = 64;

// A word becomes 1 before a seat sleeps by it, and 0 when that is woken. Nothing that is proved rests on it.
pub struct AnyWords;

impl TableRule<(), (), ()> for AnyWords {
    ghost holds = { λ _ _. Unit {0} };

    ghost first = { λ _. tt };
}

impl Play<(), ()> for AnyWords {
    ghost then = { λ _ _ _ _. Unit {0} };
}

// The words that seats sleep by.
#[derive(Drop)]
pub(crate) struct Sleepers {
    words: Table<(), (), (), AnyWords, Global>,
    ghost count: { words.shared.table_id.words ≡ 64 },
}

impl Sleepers {
    // No seat sleeps.
    pub(crate) fn new(alloc: Global) -> Result<Sleepers, AllocError> {
        let (words, _) = Table::of_words(alloc, &[0; WORDS], &())?;
        Ok(Sleepers { words })
    }

    // Tells that the seat with this number is about to sleep.
    pub(crate) fn announce(&self, number: u64) {
        self.words
            .shared
            .swap_new_seat::<AnyWords>(word_of(number), 1);
    }

    // Sleeps until the seat with this number is woken, where it wasn't since it told that it is about to. The sleep may also
    // end for no reason.
    pub(crate) fn sleep<R: Wait>(&self, rt: &R, number: u64) {
        self.words.shared.park(rt, word_of(number), 1);
    }

    // Wakes the seat with this number, where it sleeps or is about to. A call that comes late may find a later number at the
    // same word: the seat that has it looks then, and sleeps again.
    pub(crate) fn wake(&self, number: u64) {
        let word = word_of(number);
        let (was, _) = self.words.shared.swap_new_seat::<AnyWords>(word, 0);
        if was == 1 {
            self.words.shared.wake_one(word);
        }
    }
}

// The word of a number.
fn word_of(number: u64) -> usize
    ensures { result < 64 }
{
    number as usize % WORDS
}
