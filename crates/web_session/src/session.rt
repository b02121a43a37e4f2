//! The session.
ghost use Rattle.std.specs.Prelude.{◌≡◌, ◌≢◌, ◌⊎◌, ◌++◌, ◌+◌, ◌≤◌, ℕ, suc, length, drop, take, OnOk, OnErr, IfOk, IfErr, MatchOption, Some, IsErrOf, List};
ghost use Rattle.io_traits.specs.Faults.{Rose};
ghost use Rattle.web_session.specs.ConnectionState.{IsHonest, AppendsFront};
ghost use Rattle.web_session.specs.Ends.{has_begun};
ghost use Rattle.web_session.specs.Calls.{the_routes};
ghost use Rattle.web_session.specs.Responses.{response_of};
ghost use Rattle.web_session.specs.Asks.{IsAsked, AnswersCall, Answers, Reaches, IsStopped};
ghost use Rattle.web_session.specs.Exchange.{Tells, whole, request_at, rejection_of, Serves, ServesNear, IsGoing, IsAnswered, IsHalfAnswered, IsUntouched, end_of};

use crate::call::{ApiCall, Route, routes};
use crate::head::Head;
use crate::next_request::{NextRequest, held_request, read_request};
use crate::response::{Answer, failure};
use crate::stop::Stop;
use crate::{Api, Connection, End, Handler, Status, write_all};
use matchit::Router;
use std::alloc::{AllocError, Global};

/// A session has at most so many requests.
const REQUEST_LIMIT: u32 = 10_000;

// Whether a request has begun.
fn has_begun(bytes: &[u8]) -> bool
    ensures { result ≡ has_begun bytes.now }
{
    let mut rest = bytes;
    while let [byte, after @ ..] = rest {
        if *byte != 13 && *byte != 10 {
            return true;
        }
        rest = after;
    }
    false
}

// The ask that stands in front of the bytes held, where its request has come whole. Without memory there is none.
fn held_ask<F: Api>(alloc: Global, router: &Router<Route>, held: &[u8]) -> Option<F::Operation>
    requires { router.now ≡ the_routes }
{
    let Some((call, body)) = held_request(router, held) else {
        return None;
    };
    match F::read(alloc, call, body) {
        Ok(operation) => operation,
        Err(_) => None,
    }
}

// Answers a call: the clerk is asked where the body is an ask, and told the ask behind it.
fn answer_call<F: Api, C: Handler<F>>(
    alloc: Global,
    clerk: &mut C,
    call: ApiCall,
    body: &[u8],
    next: Option<F::Operation>,
) -> Result<Answer, AllocError>
    ensures ok { IfOk result (λ answer. AnswersCall F.scheme C.asked C.faults clerk.old (Ok call) body.now answer clerk.new) }
    ensures err { OnErr result (IsStopped (λ answer. AnswersCall F.scheme C.asked C.faults clerk.old (Ok call) body.now answer clerk.new) clerk.old clerk.new) }
    ensures reached { Reaches (IsAsked C.asked C.faults F.scheme.status) clerk.old clerk.new }
{
    let Some(operation) = F::read(alloc, call, body)? else {
        return failure(alloc, Status::BadRequest);
    };
    let reply = clerk.handle(operation, next);
    let text = F::write(alloc, &reply)?;
    Ok(Answer::new(F::status(&reply), text))
}

// Answers a request.
fn answer_to<F: Api, C: Handler<F>>(
    alloc: Global,
    clerk: &mut C,
    head: Head,
    body: &[u8],
    next: Option<F::Operation>,
) -> Result<Answer, AllocError>
    ensures ok { IfOk result (λ answer. Answers F.scheme C.asked C.faults clerk.old (record { head = head; body = body.now }) answer clerk.new) }
    ensures err { OnErr result (IsStopped (λ answer. Answers F.scheme C.asked C.faults clerk.old (record { head = head; body = body.now }) answer clerk.new) clerk.old clerk.new) }
    ensures reached { Reaches (IsAsked C.asked C.faults F.scheme.status) clerk.old clerk.new }
{
    match head.call {
        Ok(call) => answer_call::<F, C>(alloc, clerk, call, body, next),
        Err(status) => failure(alloc, status),
    }
}

// Writes the response that gives an answer.
fn write_answer<L: Connection>(
    alloc: Global,
    link: &mut L,
    answer: &Answer,
    closes: bool,
) -> Result<(), Stop>
    ensures honest { (L.tells link.new).honest ≡ (L.tells link.old).honest }
    ensures left { IsHonest (L.tells link.old) → (L.tells link.new).left ≡ (L.tells link.old).left }
    ensures ok { IsHonest (L.tells link.old) → OnOk result ((L.tells link.new).text ≡ (L.tells link.old).text ++ response_of closes answer.now) }
    ensures err { IsHonest (L.tells link.old) → OnErr result (AppendsFront (L.tells link.old).text (L.tells link.new).text (response_of closes answer.now)) }
    ensures later { L.faults link.old ≤ L.faults link.new }
    ensures cause { IsErrOf result Stop.Fault → Rose (L.faults link.old) (L.faults link.new) }
    ensures unmoved { OnOk result (L.faults link.new ≡ L.faults link.old) }
    ensures unmoved_err { IfErr result (λ stop. stop ≢ Stop.Fault → L.faults link.new ≡ L.faults link.old) }
{
    let Ok(response) = answer.response(alloc, closes) else {
        return Err(Stop::NoMemory);
    };
    match write_all(link, &response) {
        Ok(()) => Ok(()),
        Err(_) => Err(Stop::Fault),
    }
}

// Answers a request, and writes the response whole.
fn respond_to<F: Api, C: Handler<F>, L: Connection>(
    alloc: Global,
    clerk: &mut C,
    link: &mut L,
    head: Head,
    body: &[u8],
    next: Option<F::Operation>,
) -> Result<(), Stop>
    ensures honest { (L.tells link.new).honest ≡ (L.tells link.old).honest }
    ensures left { IsHonest (L.tells link.old) → (L.tells link.new).left ≡ (L.tells link.old).left }
    ensures ok { IsHonest (L.tells link.old)
        → OnOk result (IsAnswered (Answers F.scheme C.asked C.faults) (record { head = head; body = body.now }) clerk.old clerk.new (L.tells link.old).text (L.tells link.new).text) }
    ensures err { IsHonest (L.tells link.old)
        → OnErr result (IsUntouched clerk.old clerk.new (L.tells link.old).text (L.tells link.new).text
        ⊎ IsHalfAnswered (Answers F.scheme C.asked C.faults) (record { head = head; body = body.now }) clerk.old clerk.new (L.tells link.old).text (L.tells link.new).text) }
    ensures reached { Reaches (IsAsked C.asked C.faults F.scheme.status) clerk.old clerk.new }
    ensures later { L.faults link.old ≤ L.faults link.new }
    ensures cause { IsErrOf result Stop.Fault → Rose (L.faults link.old) (L.faults link.new) }
    ensures unmoved { OnOk result (L.faults link.new ≡ L.faults link.old) }
    ensures unmoved_err { IfErr result (λ stop. stop ≢ Stop.Fault → L.faults link.new ≡ L.faults link.old) }
{
    let closes = head.closes;
    let Ok(answer) = answer_to::<F, C>(alloc, clerk, head, body, next) else {
        return Err(Stop::NoMemory);
    };
    write_answer(alloc, link, &answer, closes)
}

// Writes the response to a head that is rejected.
fn reject<L: Connection>(alloc: Global, link: &mut L, status: Status) -> Result<(), Stop>
    ensures ok { IsHonest (L.tells link.old) → OnOk result ((L.tells link.new).text ≡ (L.tells link.old).text ++ rejection_of status) }
    ensures err { IsHonest (L.tells link.old) → OnErr result (AppendsFront (L.tells link.old).text (L.tells link.new).text (rejection_of status)) }
    ensures left { IsHonest (L.tells link.old) → (L.tells link.new).left ≡ (L.tells link.old).left }
    ensures honest { (L.tells link.new).honest ≡ (L.tells link.old).honest }
    ensures later { L.faults link.old ≤ L.faults link.new }
    ensures cause { IsErrOf result Stop.Fault → Rose (L.faults link.old) (L.faults link.new) }
    ensures unmoved { OnOk result (L.faults link.new ≡ L.faults link.old) }
    ensures unmoved_err { IfErr result (λ stop. stop ≢ Stop.Fault → L.faults link.new ≡ L.faults link.old) }
{
    let Ok(answer) = failure(alloc, status) else {
        return Err(Stop::NoMemory);
    };
    write_answer(alloc, link, &answer, true)
}

// How a session ends that can't go on.
fn end_of(stop: Stop) -> End
    ensures { result ≡ end_of stop }
{
    match stop {
        Stop::Fault => End::ConnectionFault,
        Stop::NoMemory => End::NoMemory,
    }
}

// Drops the front of the bytes held.
fn drop_front(alloc: Global, held: &mut Vec<u8>, count: usize) -> Result<(), AllocError>
    requires { count ≤ length held.old.items }
    ensures { OnOk result (held.new.items ≡ drop count held.old.items) }
{
    let mut rest = Vec::new(alloc);
    rest.extend_from_slice(&held[count..])?;
    *held = rest;
    Ok(())
}

// Answers a request whose head block of `end` bytes and whose body stand in front of the bytes held. `None`: the session
// goes on.
fn respond<F: Api, C: Handler<F>, L: Connection>(
    alloc: Global,
    router: &Router<Route>,
    clerk: &mut C,
    link: &mut L,
    held: &mut Vec<u8>,
    head: Head,
    end: usize,
) -> Option<End>
    requires routes { router.now ≡ the_routes }
    requires within { end + head.length ≤ length held.old.items }
    ensures step { IsHonest (L.tells link.old) → (n : ℕ)
        → Tells (held.old.items ++ (L.tells link.old).left) (whole (request_at (held.old.items ++ (L.tells link.old).left) end head))
        → MatchOption result
        (IsGoing (Answers F.scheme C.asked C.faults) (suc n) (held.old.items ++ (L.tells link.old).left) clerk.old clerk.new (L.tells link.old).text (L.tells link.new).text n (held.new.items ++ (L.tells link.new).left))
        (Serves (Answers F.scheme C.asked C.faults) (suc n) (held.old.items ++ (L.tells link.old).left) clerk.old clerk.new (L.tells link.old).text (L.tells link.new).text) }
    ensures left { IsHonest (L.tells link.old) → (L.tells link.new).left ≡ (L.tells link.old).left }
    ensures honest { (L.tells link.new).honest ≡ (L.tells link.old).honest }
    ensures reached { Reaches (IsAsked C.asked C.faults F.scheme.status) clerk.old clerk.new }
    ensures later { L.faults link.old ≤ L.faults link.new }
    ensures cause { result ≡ Some End.ConnectionFault → Rose (L.faults link.old) (L.faults link.new) }
    ensures unmoved { result ≢ Some End.ConnectionFault → L.faults link.new ≡ L.faults link.old }
{
    let size = end + head.length;
    let closes = head.closes;
    let body = &held[end..size];
    let next = held_ask::<F>(alloc, router, &held[size..]);
    if let Err(stop) = respond_to::<F, C, L>(alloc, clerk, link, head, body, next) {
        return Some(end_of(stop));
    }
    if closes {
        return Some(End::Closed);
    }
    match drop_front(alloc, held, size) {
        Ok(()) => None,
        Err(_) => Some(End::NoMemory),
    }
}

// Reads and answers one request more. `None`: the session goes on.
fn serve_one<F: Api, C: Handler<F>, L: Connection>(
    alloc: Global,
    router: &Router<Route>,
    clerk: &mut C,
    link: &mut L,
    held: &mut Vec<u8>,
) -> Option<End>
    requires { router.now ≡ the_routes }
    ensures step { IsHonest (L.tells link.old) → (n : ℕ)
        → MatchOption result
        (IsGoing (Answers F.scheme C.asked C.faults) (suc n) (held.old.items ++ (L.tells link.old).left) clerk.old clerk.new (L.tells link.old).text (L.tells link.new).text n (held.new.items ++ (L.tells link.new).left))
        (Serves (Answers F.scheme C.asked C.faults) (suc n) (held.old.items ++ (L.tells link.old).left) clerk.old clerk.new (L.tells link.old).text (L.tells link.new).text) }
    ensures no_further { IsHonest (L.tells link.old) → length held.old.items ≤ 86015 → length (held.old.items ++ (L.tells link.old).left) ≤ length (L.tells link.new).left + 86015 }
    ensures honest { (L.tells link.new).honest ≡ (L.tells link.old).honest }
    ensures reached { Reaches (IsAsked C.asked C.faults F.scheme.status) clerk.old clerk.new }
    ensures later { L.faults link.old ≤ L.faults link.new }
    ensures cause { result ≡ Some End.ConnectionFault → Rose (L.faults link.old) (L.faults link.new) }
    ensures unmoved { result ≢ Some End.ConnectionFault → L.faults link.new ≡ L.faults link.old }
{
    match read_request(router, link, held) {
        Err(stop) => Some(end_of(stop)),
        Ok(NextRequest::More) => Some(if has_begun(held) {
            End::Cut
        } else {
            End::Closed
        }),
        Ok(NextRequest::Bad(status)) => match reject(alloc, link, status) {
            Ok(()) => Some(End::Rejected),
            Err(stop) => Some(end_of(stop)),
        },
        Ok(NextRequest::Whole { head, end }) => respond::<F, C, L>(
            alloc, router, clerk, link, held, head, end,
        ),
    }
}

// Serves a connection up to so many requests.
fn serve_up_to<F: Api, C: Handler<F>, L: Connection>(
    alloc: Global,
    router: &Router<Route>,
    clerk: &mut C,
    link: &mut L,
    limit: u32,
) -> End
    requires { router.now ≡ the_routes }
    ensures exchange { IsHonest (L.tells link.old)
        → ServesNear (Answers F.scheme C.asked C.faults) limit (L.tells link.old).left (L.tells link.new).left clerk.old clerk.new (L.tells link.old).text (L.tells link.new).text result }
    ensures reached { Reaches (IsAsked C.asked C.faults F.scheme.status) clerk.old clerk.new }
    ensures later { L.faults link.old ≤ L.faults link.new }
    ensures cause { result ≡ End.ConnectionFault → Rose (L.faults link.old) (L.faults link.new) }
    ensures unmoved { result ≢ End.ConnectionFault → L.faults link.new ≡ L.faults link.old }
{
    let mut held = Vec::new(alloc);
    let mut room = limit;
    while room > 0 {
        room -= 1;
        if let Some(end) = serve_one::<F, C, L>(alloc, router, clerk, link, &mut held) {
            return end;
        }
    }
    End::Limit
}

/// Serves a connection: what is written is the exchange of its bytes for a run of the clerk, however the link cuts them.
/// At the ends `ConnectionFault` and `NoMemory` it is a front of that, and a link that tells nothing is promised the clerk's
/// part alone: the clerk's asks follow one another, and nothing else changes it. Behind the requests answered, no more than a
/// head, a body and a piece less one byte were taken from the link. No call is made on the link once one has failed: its count
/// of faults rose at `ConnectionFault`, and stood still at every other end.
pub fn serve<F: Api, C: Handler<F>, L: Connection>(
    alloc: Global,
    clerk: &mut C,
    link: &mut L,
) -> End
    ensures exchange { IsHonest (L.tells link.old)
        → ServesNear (Answers F.scheme C.asked C.faults) 10000 (L.tells link.old).left (L.tells link.new).left clerk.old clerk.new (L.tells link.old).text (L.tells link.new).text result }
    ensures reached { Reaches (IsAsked C.asked C.faults F.scheme.status) clerk.old clerk.new }
    ensures later { L.faults link.old ≤ L.faults link.new }
    ensures cause { result ≡ End.ConnectionFault → Rose (L.faults link.old) (L.faults link.new) }
    ensures unmoved { result ≢ End.ConnectionFault → L.faults link.new ≡ L.faults link.old }
{
    let Ok(router) = routes(alloc) else {
        return End::NoMemory;
    };
    serve_up_to::<F, C, L>(alloc, &router, clerk, link, REQUEST_LIMIT)
}
