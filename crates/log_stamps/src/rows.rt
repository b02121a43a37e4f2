// Rows that are filed under one stamp.
use crate::{Stampable, StampedError, StampedMachine, StampedOperation};
use aid_stamps::Stamp;
use log_machine::{RowFormat, Rows, StateMachine};
use std::alloc::{AllocError, Global};

/// Rows that weren't taken yet, each of which is filed under one stamp.
#[derive(Drop)]
pub struct StampedRows<T> {
    pub rows: T,
    pub stamp: Stamp,
}

/// How rows are read from a text, and the stamp under which they are filed.
#[derive(Drop)]
pub struct StampedRowFormat<F> {
    pub forms: F,
    pub stamp: Stamp,
}

impl<R: Stampable, T: Rows<R>> Rows<StampedMachine<R>> for StampedRows<T> {
    ghost use Rattle.log_stamps.specs.Rows.{stamped_rows, stamped_texts};

    type Error = StampedError<T::Error>;

    type RowFormat = StampedRowFormat<T::RowFormat>;

    ghost texts = { stamped_texts T.texts };

    ghost left = { λ r. stamped_rows r.stamp (T.left r.rows) };

    ghost rows_of = { λ forms text. stamped_rows forms.stamp (T.rows_of forms.forms text) };

    fn at_most(&self) -> u32 {
        self.rows.at_most()
    }

    fn most() -> u32 {
        T::most()
    }

    fn next(
        &mut self,
    ) -> Result<
        Option<Result<StampedOperation<R::Operation>, StampedError<T::Error>>>,
        AllocError,
    > {
        let stamp = self.stamp;
        match self.rows.next()? {
            Some(Ok(operation)) => Ok(Some(Ok(StampedOperation { operation, stamp }))),
            Some(Err(error)) => Ok(Some(Err(StampedError { error, stamp }))),
            None => Ok(None),
        }
    }

    fn put_answer(
        number: u32,
        front: u32,
        response: &R::Response,
        out: &mut Vec<u8>,
    ) -> Result<(), AllocError> {
        T::put_answer(number, front, response, out)
    }

    fn put_error(error: &StampedError<T::Error>, out: &mut Vec<u8>) -> Result<(), AllocError> {
        T::put_error(&error.error, out)
    }
}

impl<R: Stampable, F: RowFormat<R>> RowFormat<StampedMachine<R>> for StampedRowFormat<F> {
    type Rows = StampedRows<F::Rows>;

    ghost fine_line = { F.fine_line };

    fn read(&self, alloc: Global, text: Vec<u8>) -> Result<StampedRows<F::Rows>, AllocError> {
        let rows = self.forms.read(alloc, text)?;
        Ok(StampedRows {
            rows,
            stamp: self.stamp,
        })
    }

    fn put_fine(number: u32, out: &mut Vec<u8>) -> Result<(), AllocError> {
        F::put_fine(number, out)
    }
}
