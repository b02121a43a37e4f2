//! What a link brings, piece by piece.
ghost use Rattle.std.specs.Prelude.{◌≡◌, ◌≢◌, ◌++◌, ◌+◌, ◌<◌, ◌≤◌, [], true, false, length, take, IfOk, IfErr, OnOk, IsErrOf};
ghost use Rattle.io_traits.specs.Faults.{Rose};
ghost use Rattle.web_session.specs.ConnectionState.{IsHonest, IsPrefix};
ghost use Rattle.web_session.specs.Found.{HasGrown, FindsIn};

use crate::Connection;
use crate::scan::Scan;
use crate::stop::Stop;

const PIECE: usize = 4096;

/// A head block ends among the first so many bytes of a request, or the request is rejected.
pub const HEAD_LIMIT: usize = 16_384;

/// What the search for a head block found.
#[derive(Clone, Copy, PartialEq, Eq)]
pub enum Found {
    /// The head block has so many bytes.
    End(usize),
    /// It isn't in the first 16,384 bytes.
    TooLarge,
    /// The input ended before.
    InputEnded,
}

/// Reads a piece behind the bytes held. `false` is the end of the input.
pub fn fill<L: Connection>(link: &mut L, held: &mut Vec<u8>) -> Result<bool, Stop>
    ensures honest { (L.tells link.new).honest ≡ (L.tells link.old).honest }
    ensures text { IsHonest (L.tells link.old) → (L.tells link.new).text ≡ (L.tells link.old).text }
    ensures bytes { IsHonest (L.tells link.old)
        → OnOk result (held.new.items ++ (L.tells link.new).left ≡ held.old.items ++ (L.tells link.old).left) }
    ensures grown { IfOk result (λ more. HasGrown more held.old.items held.new.items) }
    ensures no_further { IsHonest (L.tells link.old) → length (L.tells link.old).left ≤ length (L.tells link.new).left + 4096 }
    ensures end { IsHonest (L.tells link.old) → IfOk result (λ more. more ≡ false → (L.tells link.new).left ≡ []) }
    ensures later { L.faults link.old ≤ L.faults link.new }
    ensures cause { IsErrOf result Stop.Fault → Rose (L.faults link.old) (L.faults link.new) }
    ensures unmoved { OnOk result (L.faults link.new ≡ L.faults link.old) }
    ensures unmoved_err { IfErr result (λ stop. stop ≢ Stop.Fault → L.faults link.new ≡ L.faults link.old) }
{
    let mut piece = [0; PIECE];
    let Ok(count) = link.read(&mut piece) else {
        return Err(Stop::Fault);
    };
    if held.extend_from_slice(&piece[..count]).is_err() {
        return Err(Stop::NoMemory);
    }
    Ok(count > 0)
}

/// The first 16,384 bytes.
pub fn front(held: &[u8]) -> &[u8]
    ensures front { result.now ≡ take 16384 held.now }
    ensures within { length result.now ≤ length held.now }
{
    if held.len() <= HEAD_LIMIT {
        held
    } else {
        &held[..HEAD_LIMIT]
    }
}

/// Reads until the bytes held have a head block, or as many bytes as a head block may have.
pub fn find_head<L: Connection>(link: &mut L, held: &mut Vec<u8>) -> Result<Found, Stop>
    ensures honest { (L.tells link.new).honest ≡ (L.tells link.old).honest }
    ensures text { IsHonest (L.tells link.old) → (L.tells link.new).text ≡ (L.tells link.old).text }
    ensures bytes { IsHonest (L.tells link.old)
        → OnOk result (held.new.items ++ (L.tells link.new).left ≡ held.old.items ++ (L.tells link.old).left) }
    ensures finds { IfOk result (FindsIn held.new.items) }
    ensures no_further { IsHonest (L.tells link.old) → length held.old.items ≤ 86015 → length (held.old.items ++ (L.tells link.old).left) ≤ length (L.tells link.new).left + 86015 }
    ensures end { IsHonest (L.tells link.old) → IfOk result (λ found. found ≡ Found.InputEnded → (L.tells link.new).left ≡ []) }
    ensures later { L.faults link.old ≤ L.faults link.new }
    ensures cause { IsErrOf result Stop.Fault → Rose (L.faults link.old) (L.faults link.new) }
    ensures unmoved { OnOk result (L.faults link.new ≡ L.faults link.old) }
    ensures unmoved_err { IfErr result (λ stop. stop ≢ Stop.Fault → L.faults link.new ≡ L.faults link.old) }
{
    let mut scan = Scan::new();
    while held.len() < HEAD_LIMIT {
        if let Some(end) = scan.advance(front(held)) {
            return Ok(Found::End(end));
        }
        if !fill(link, held)? {
            return Ok(Found::InputEnded);
        }
    }
    match scan.advance(front(held)) {
        Some(end) => Ok(Found::End(end)),
        None => Ok(Found::TooLarge),
    }
}

/// Reads until at least so many bytes are held. `false` is the end of the input before.
pub fn await_bytes<L: Connection>(
    link: &mut L,
    held: &mut Vec<u8>,
    count: usize,
) -> Result<bool, Stop>
    ensures honest { (L.tells link.new).honest ≡ (L.tells link.old).honest }
    ensures text { IsHonest (L.tells link.old) → (L.tells link.new).text ≡ (L.tells link.old).text }
    ensures bytes { IsHonest (L.tells link.old)
        → OnOk result (held.new.items ++ (L.tells link.new).left ≡ held.old.items ++ (L.tells link.old).left) }
    ensures grown { OnOk result (IsPrefix held.old.items held.new.items) }
    ensures no_further { IsHonest (L.tells link.old) → length held.old.items ≤ 86015 → count ≤ 81920 → length (held.old.items ++ (L.tells link.old).left) ≤ length (L.tells link.new).left + 86015 }
    ensures enough { IfOk result (λ enough. enough ≡ true → count ≤ length held.new.items) }
    ensures few { IfOk result (λ enough. enough ≡ false → length held.new.items < count) }
    ensures end { IsHonest (L.tells link.old) → IfOk result (λ enough. enough ≡ false → (L.tells link.new).left ≡ []) }
    ensures later { L.faults link.old ≤ L.faults link.new }
    ensures cause { IsErrOf result Stop.Fault → Rose (L.faults link.old) (L.faults link.new) }
    ensures unmoved { OnOk result (L.faults link.new ≡ L.faults link.old) }
    ensures unmoved_err { IfErr result (λ stop. stop ≢ Stop.Fault → L.faults link.new ≡ L.faults link.old) }
{
    while held.len() < count {
        if !fill(link, held)? {
            return Ok(false);
        }
    }
    Ok(true)
}
