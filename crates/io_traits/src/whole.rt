//! A whole input, and a whole text.
ghost use Rattle.std.specs.Prelude.{◌≡◌, ◌≢◌, ◌<◌, ◌≤◌, ◌+◌, ◌++◌, ◌^◌, [], ℕ, Ok, Err, IsTrue, IfOk, OnOk, OnErr, length};
ghost use Rattle.io_traits.specs.Faults.{Rose};
ghost use Rattle.io_traits.specs.Whole.{IsTaken, IsCutShort};

use crate::{Failed, Sink, Source};
use std::alloc::{AllocError, Global};

/// Why an input wasn't read to its end.
#[derive(Clone, Copy, PartialEq, Eq, Debug)]
pub enum ReadError {
    /// A read failed.
    Failed,
    /// The input has more bytes than may be read.
    TooLong,
    /// There is no memory for it.
    NoMemory,
}

const PIECE: usize = 4096;

/// Reads a source to its end, where it has at most `limit` bytes, and one byte more than that where it has more.
/// After an error what was read is lost.
pub fn read_to_limit<S: Source>(
    alloc: Global,
    source: &mut S,
    limit: usize,
) -> Result<Vec<u8>, ReadError>
    requires { limit < 2 ^ 62 }
    ensures honest { S.honest source.new ≡ S.honest source.old }
    ensures short { IfOk result (λ bytes. length bytes.items ≤ limit) }
    ensures bytes { IsTrue (S.honest source.old) → IfOk result (λ bytes. bytes.items ≡ S.left source.old) }
    ensures end { IsTrue (S.honest source.old) → OnOk result (S.left source.new ≡ []) }
    ensures too_long { IsTrue (S.honest source.old) → result ≡ Err ReadError.TooLong
        → length (S.left source.old) ≡ limit + 1 + length (S.left source.new) }
    ensures within { IsTrue (S.honest source.old) → result ≡ Err ReadError.Failed
        → length (S.left source.old) ≤ limit + length (S.left source.new) }
    ensures taken { IsTrue (S.honest source.old) → IsTaken (S.left source.old) (S.left source.new) }
    ensures no_further { IsTrue (S.honest source.old)
        → length (S.left source.old) ≤ limit + 1 + length (S.left source.new) }
    ensures later { S.faults source.old ≤ S.faults source.new }
    ensures cause { result ≡ Err ReadError.Failed → Rose (S.faults source.old) (S.faults source.new) }
    ensures unmoved { OnOk result (S.faults source.new ≡ S.faults source.old) }
    ensures unmoved_too_long { result ≡ Err ReadError.TooLong → S.faults source.new ≡ S.faults source.old }
    ensures unmoved_no_memory { result ≡ Err ReadError.NoMemory → S.faults source.new ≡ S.faults source.old }
{
    let mut bytes = Vec::new(alloc);
    let mut piece = [0; PIECE];
    while bytes.len() <= limit {
        let room = usize::min(PIECE, limit + 1 - bytes.len());
        let Ok(count) = source.read(&mut piece[..room]) else {
            return Err(ReadError::Failed);
        };
        if count == 0 {
            return Ok(bytes);
        }
        if bytes.extend_from_slice(&piece[..count]).is_err() {
            return Err(ReadError::NoMemory);
        }
    }
    Err(ReadError::TooLong)
}

/// Writes all the bytes to a sink.
pub fn write_whole<K: Sink>(sink: &mut K, bytes: &[u8]) -> Result<(), Failed>
    ensures honest { K.honest sink.new ≡ K.honest sink.old }
    ensures written { IsTrue (K.honest sink.old) → OnOk result (K.text sink.new ≡ K.text sink.old ++ bytes.now) }
    ensures failed { IsTrue (K.honest sink.old) → OnErr result (IsCutShort bytes.now (K.text sink.old) (K.text sink.new)) }
    ensures later { K.faults sink.old ≤ K.faults sink.new }
    ensures cause { OnErr result (Rose (K.faults sink.old) (K.faults sink.new)) }
    ensures unmoved { OnOk result (K.faults sink.new ≡ K.faults sink.old) }
{
    let mut done = 0;
    while done < bytes.len() {
        done += sink.write(&bytes[done..])?;
    }
    Ok(())
}
