// The rows and lines of numbers that rise.
ghost use Rattle.std.specs.Prelude.{◌≡◌, ◌≤◌, length};

use crate::rising::Rising;
use log_machine::{RowFormat, Rows};
use std::alloc::{AllocError, Global};
use std::vec::IntoIter;

/// Each byte of a text is a row: its number, but for 0.
pub struct ByteRowFormat;

/// The bytes that weren't taken yet.
#[derive(Drop)]
pub struct BytesLeft {
    bytes: IntoIter<u8>,
    ghost few: { length bytes.rest.items ≤ 16777216 },
}

impl Rows<Rising> for BytesLeft {
    ghost use Rattle.log_tests.specs.Rising.{byte_rows, rising_texts};

    type Error = u8;

    type RowFormat = ByteRowFormat;

    ghost texts = { rising_texts };

    ghost left = { λ rows. byte_rows rows.bytes.rest.items };

    ghost rows_of = { λ forms. byte_rows };

    fn at_most(&self) -> u32 {
        self.bytes.len() as u32
    }

    fn most() -> u32 {
        1000
    }

    fn next(&mut self) -> Result<Option<Result<u8, u8>>, AllocError> {
        Ok(match self.bytes.next() {
            Some(0) => Some(Err(0)),
            Some(byte) => Some(Ok(byte)),
            None => None,
        })
    }

    fn put_answer(
        _number: u32,
        _front: u32,
        response: &bool,
        out: &mut Vec<u8>,
    ) -> Result<(), AllocError> {
        let line = if *response { "kept\n" } else { "refused\n" };
        out.extend_from_slice(line.as_bytes())
    }

    fn put_error(_error: &u8, out: &mut Vec<u8>) -> Result<(), AllocError> {
        out.extend_from_slice(b"no number\n")
    }
}

impl RowFormat<Rising> for ByteRowFormat {
    ghost use Rattle.std.specs.Prelude.{codes};

    type Rows = BytesLeft;

    ghost fine_line = { λ number. codes "fine\n" };

    fn read(&self, _alloc: Global, text: Vec<u8>) -> Result<BytesLeft, AllocError> {
        Ok(BytesLeft {
            bytes: text.into_iter(),
        })
    }

    fn put_fine(_number: u32, out: &mut Vec<u8>) -> Result<(), AllocError> {
        out.extend_from_slice(b"fine\n")
    }
}
