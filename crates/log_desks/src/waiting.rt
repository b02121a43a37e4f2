// Which rows wait for their turns, and by whose a turn goes.
use std::alloc::Global;
use std::collections::VecDeque;

// So many bytes are noted of a row at most: as many as a journal writes ahead.
const MOST_BYTES: usize = 512;

// So many rows of each stage are known at most: one of each desk.
const MOST_ROWS: usize = 64;

/// How far a row is that wasn't served yet.
#[derive(Clone, Copy, PartialEq, Eq)]
pub enum Stage {
    /// Its desk is about to draw a number for it.
    Drawing,
    /// Its desk files another row first.
    Coming,
}

/// What a desk posts of a row that wasn't served yet: the bytes that it will likely add. Nothing that is promised rests on it.
#[derive(Drop)]
pub struct WaitingRow {
    desk: u32,
    stage: Stage,
    bytes: Vec<u8>,
}

impl WaitingRow {
    /// A row of this desk with these bytes. Of no bytes, of more than 512, and where there is no memory for them, nothing is to
    /// be posted.
    pub fn new(alloc: Global, desk: u32, stage: Stage, bytes: &[u8]) -> Option<WaitingRow> {
        if bytes.is_empty() || bytes.len() > MOST_BYTES {
            return None;
        }
        let bytes = bytes.to_vec(alloc).ok()?;
        Some(WaitingRow { desk, stage, bytes })
    }
}

// The desk by whose row a turn goes: it will likely be served next.
#[derive(Clone, Copy)]
struct Guess {
    desk: u32,
    // Whether the row is forgotten where another one is served next.
    is_last: bool,
}

// The rows that wait, as far as they were posted: of each desk at most one that is drawing, and one that is coming. Rows that
// are drawing stand in the order of their numbers, nearly; coming ones in that of the turns before theirs.
#[derive(Drop)]
pub(crate) struct Waiting {
    drawing: VecDeque<WaitingRow>,
    coming: VecDeque<WaitingRow>,
    guess: Option<Guess>,
}

// A desk's row, taken out of a queue.
fn take_row(rows: &mut VecDeque<WaitingRow>, desk: u32) {
    if let Some(place) = rows.iter().position(|row| row.desk == desk) {
        rows.remove(place);
    }
}

// Puts a row at the end of a queue, where there is room. The queue doesn't grow.
fn join(rows: &mut VecDeque<WaitingRow>, row: WaitingRow) {
    if rows.len() < rows.capacity() {
        rows.push_back_reserved(row);
    }
}

// The first other desk that has a row in a queue.
fn first_other(rows: &VecDeque<WaitingRow>, desk: u32) -> Option<u32> {
    rows.iter().find(|row| row.desk != desk).map(|row| row.desk)
}

// The bytes of a desk's row, none where it has none in the queue.
fn bytes_of(rows: &VecDeque<WaitingRow>, desk: u32) -> &[u8] {
    match rows.iter().find(|row| row.desk == desk) {
        Some(row) => row.bytes.as_slice(),
        None => &[],
    }
}

impl Waiting {
    // No row waits. Where there is no memory, none ever does.
    pub(crate) fn new(alloc: Global) -> Waiting {
        let mut drawing = VecDeque::new(alloc);
        let mut coming = VecDeque::new(alloc);
        let _ = drawing.reserve(MOST_ROWS);
        let _ = coming.reserve(MOST_ROWS);
        Waiting {
            drawing,
            coming,
            guess: None,
        }
    }

    // Takes a row that was posted, in place of its desk's one before. A row that is drawing now was the desk's coming one, and
    // stands where its number does.
    pub(crate) fn hint(&mut self, row: WaitingRow) {
        take_row(&mut self.coming, row.desk);
        match row.stage {
            Stage::Drawing => {
                take_row(&mut self.drawing, row.desk);
                join(&mut self.drawing, row);
            }
            Stage::Coming => join(&mut self.coming, row),
        }
    }

    // The turn of a desk begins: its row waits no longer, and the row by which the turn goes is chosen.
    pub(crate) fn begin(&mut self, desk: u32) {
        let missed = self.miss(desk);
        take_row(&mut self.drawing, desk);
        self.guess = self.choose(desk, missed);
    }

    // The desk whose row was taken for the one that is served now, where it is another one. Its row still waits, unless this was
    // its last time: a desk that stopped, or is slow, is to mislead no turn after that. It posts its row again when it draws.
    fn miss(&mut self, desk: u32) -> Option<u32> {
        let guess = self.guess.take()?;
        if guess.desk == desk {
            return None;
        }
        if guess.is_last {
            take_row(&mut self.drawing, guess.desk);
            take_row(&mut self.coming, guess.desk);
        }
        Some(guess.desk)
    }

    // The desk whose row will likely be served next: the first other one that is drawing, else the first other one whose row is
    // coming, else the desk itself, if its next row is. A row that is drawing has its turn for certain, and its own next row a
    // desk knows best, so each of these is spared once.
    fn choose(&self, desk: u32, missed: Option<u32>) -> Option<Guess> {
        let drawing = first_other(&self.drawing, desk);
        let coming = first_other(&self.coming, desk);
        let own = self.coming.front().map(|row| row.desk);
        let desk = drawing.or(coming).or(own)?;
        let is_last = missed == Some(desk) || drawing.is_none() && coming.is_some();
        Some(Guess { desk, is_last })
    }

    // What the row by which the turn goes will likely add.
    pub(crate) fn bytes(&self) -> &[u8] {
        match self.guess {
            Some(guess) => {
                let drawing = bytes_of(&self.drawing, guess.desk);
                if drawing.is_empty() {
                    bytes_of(&self.coming, guess.desk)
                } else {
                    drawing
                }
            }
            None => &[],
        }
    }
}
