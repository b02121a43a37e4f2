//! What the link brings of the next request.
ghost use Rattle.std.specs.Prelude.{◌≡◌, ◌≢◌, ◌≤◌, ◌+◌, ◌++◌, [], List, ℕ, length, take, Some, IfOk, IfErr, OnOk, IsErrOf};
ghost use Rattle.io_traits.specs.Faults.{Rose};
ghost use Rattle.web_session.specs.ConnectionState.{IsHonest, IsPrefix};
ghost use Rattle.web_session.specs.Calls.{the_routes};
ghost use Rattle.web_session.specs.Ends.{head_end};
ghost use Rattle.web_session.specs.Exchange.{Tells};
ghost use Rattle.web_session.specs.NextRequests.{RequestFits, IsBad, IsMore, told_of};

use crate::call::{ApiCall, Route};
use crate::head::{Head, read_head};
use crate::pieces::{Found, await_bytes, find_head, front};
use crate::scan::Scan;
use crate::stop::Stop;
use crate::{Connection, Status};
use matchit::Router;

/// What the link brought of the next request.
#[derive(Clone, Copy, PartialEq, Eq)]
pub enum NextRequest {
    /// The input ended before the request did.
    More,
    /// Its head is rejected with this status.
    Bad(Status),
    /// It has come whole; its head block has `end` bytes.
    Whole { head: Head, end: usize },
}

// Reads the head block of `end` bytes, and awaits the body. A head that is rejected is answered at once: its body isn't awaited.
fn await_request<L: Connection>(
    router: &Router<Route>,
    link: &mut L,
    held: &mut Vec<u8>,
    end: usize,
) -> Result<NextRequest, Stop>
    requires routes { router.now ≡ the_routes }
    requires within { end ≤ length held.old.items }
    ensures honest { (L.tells link.new).honest ≡ (L.tells link.old).honest }
    ensures text { IsHonest (L.tells link.old) → (L.tells link.new).text ≡ (L.tells link.old).text }
    ensures bytes { IsHonest (L.tells link.old)
        → OnOk result (held.new.items ++ (L.tells link.new).left ≡ held.old.items ++ (L.tells link.old).left) }
    ensures request { IsHonest (L.tells link.old) → head_end (take 16384 held.old.items) ≡ Some end
        → IfOk result (λ l. Tells (held.old.items ++ (L.tells link.old).left) (told_of (held.old.items ++ (L.tells link.old).left) l)) }
    ensures fits { IfOk result (RequestFits (length held.new.items)) }
    ensures end { IsHonest (L.tells link.old) → IfOk result (λ l. IsMore l → (L.tells link.new).left ≡ []) }
    ensures no_further { IsHonest (L.tells link.old) → length held.old.items ≤ 86015 → end ≤ 16384 → length (held.old.items ++ (L.tells link.old).left) ≤ length (L.tells link.new).left + 86015 }
    ensures at_once { IfOk result (λ l. IsBad l → (link.new ≡ link.old) × (held.new ≡ held.old)) }
    ensures later { L.faults link.old ≤ L.faults link.new }
    ensures cause { IsErrOf result Stop.Fault → Rose (L.faults link.old) (L.faults link.new) }
    ensures unmoved { OnOk result (L.faults link.new ≡ L.faults link.old) }
    ensures unmoved_err { IfErr result (λ stop. stop ≢ Stop.Fault → L.faults link.new ≡ L.faults link.old) }
{
    match read_head(router, &held[..end]) {
        Err(status) => Ok(NextRequest::Bad(status)),
        Ok(head) => {
            if await_bytes(link, held, end + head.length)? {
                Ok(NextRequest::Whole { head, end })
            } else {
                Ok(NextRequest::More)
            }
        }
    }
}

/// Reads until the bytes held tell of a request. `More` comes where the input ended before.
pub fn read_request<L: Connection>(
    router: &Router<Route>,
    link: &mut L,
    held: &mut Vec<u8>,
) -> Result<NextRequest, Stop>
    requires { router.now ≡ the_routes }
    ensures honest { (L.tells link.new).honest ≡ (L.tells link.old).honest }
    ensures text { IsHonest (L.tells link.old) → (L.tells link.new).text ≡ (L.tells link.old).text }
    ensures bytes { IsHonest (L.tells link.old)
        → OnOk result (held.new.items ++ (L.tells link.new).left ≡ held.old.items ++ (L.tells link.old).left) }
    ensures request { IsHonest (L.tells link.old)
        → IfOk result (λ l. Tells (held.old.items ++ (L.tells link.old).left) (told_of (held.old.items ++ (L.tells link.old).left) l)) }
    ensures no_further { IsHonest (L.tells link.old) → length held.old.items ≤ 86015 → length (held.old.items ++ (L.tells link.old).left) ≤ length (L.tells link.new).left + 86015 }
    ensures fits { IfOk result (RequestFits (length held.new.items)) }
    ensures end { IsHonest (L.tells link.old) → IfOk result (λ l. IsMore l → (L.tells link.new).left ≡ []) }
    ensures later { L.faults link.old ≤ L.faults link.new }
    ensures cause { IsErrOf result Stop.Fault → Rose (L.faults link.old) (L.faults link.new) }
    ensures unmoved { OnOk result (L.faults link.new ≡ L.faults link.old) }
    ensures unmoved_err { IfErr result (λ stop. stop ≢ Stop.Fault → L.faults link.new ≡ L.faults link.old) }
{
    match find_head(link, held)? {
        Found::End(end) => await_request(router, link, held, end),
        Found::TooLarge => Ok(NextRequest::Bad(Status::HeadTooLarge)),
        Found::InputEnded => Ok(NextRequest::More),
    }
}

/// What the request calls for, and its body, that stands in front of the bytes held, where it has come whole and calls for
/// something. It reads no more.
pub fn held_request<'a>(router: &Router<Route>, held: &'a [u8]) -> Option<(ApiCall, &'a [u8])>
    requires { router.now ≡ the_routes }
{
    let end = Scan::new().advance(front(held))?;
    let head = read_head(router, &held[..end]).ok()?;
    let call = head.call.ok()?;
    let size = end + head.length;
    if size > held.len() {
        return None;
    }
    Some((call, &held[end..size]))
}
