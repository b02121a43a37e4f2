//! What a request's method and target ask.
ghost use Rattle.std.specs.Prelude.{◌≡◌, pos, ◌≤ℤ◌, IfOk, IfSome};
ghost use Rattle.std.specs.Str.{bytes_eq};
ghost use Rattle.web_session.specs.Calls.{before_slash, after_slash, piece, number_in, the_routes, route_of, call_on, call_at, method_of, call_of};

use crate::Status;
use aid_types::{School, Student, Year, read_whole};
use matchit::{InsertError, Router};
use std::alloc::Global;
use std::str;

/// What a request calls for.
#[derive(Clone, Copy, PartialEq, Eq)]
pub enum ApiCall {
    /// `POST /desks/{school}/filings`: to file the filing of the body under a key of this school's.
    File {
        school: School,
    },
    /// `GET /desks/{school}/quote/{student}/{year}/{term}`: the greatest Pell payment that would be taken.
    Quote {
        school: School,
        student: Student,
        year: Year,
        term: u8,
    },
    /// `GET /standing/{student}/{year}`: where a student stands in a year.
    Standing {
        student: Student,
        year: Year,
    },
}

impl ApiCall {
    /// Its method.
    pub fn method(&self) -> &'static [u8]
        ensures { result.now ≡ method_of self.now }
    {
        match self {
            ApiCall::File { .. } => b"POST",
            ApiCall::Quote { .. } | ApiCall::Standing { .. } => b"GET",
        }
    }
}

/// The three patterns of targets.
#[derive(Clone, Copy, PartialEq, Eq)]
pub enum Route {
    Filings,
    Quote,
    Standing,
}

/// A router with the three patterns.
pub fn routes(alloc: Global) -> Result<Router<Route>, InsertError>
    ensures { IfOk result (λ r. r ≡ the_routes) }
{
    let mut router = Router::new(alloc);
    router.insert("/desks/{school}/filings", Route::Filings)?;
    router.insert(
        "/desks/{school}/quote/{student}/{year}/{term}",
        Route::Quote,
    )?;
    router.insert("/standing/{student}/{year}", Route::Standing)?;
    Ok(router)
}

// The pattern that a target fits.
fn route_of(router: &Router<Route>, target: &[u8]) -> Option<Route>
    requires { router.now ≡ the_routes }
    ensures { result ≡ route_of target.now }
{
    let Ok(text) = str::from_utf8(target) else {
        return None;
    };
    match router.at(text) {
        Ok(found) => Some(*found.value),
        Err(_) => None,
    }
}

// The bytes before the first slash.
fn before_slash(text: &[u8]) -> &[u8]
    ensures { result.now ≡ before_slash text.now }
{
    let mut count = 0;
    while count < text.len() && text[count] != b'/' {
        count += 1;
    }
    &text[..count]
}

// The bytes behind the first slash.
fn after_slash(text: &[u8]) -> &[u8]
    ensures { result.now ≡ after_slash text.now }
{
    let mut rest = text;
    while let [byte, after @ ..] = rest {
        rest = after;
        if *byte == b'/' {
            return rest;
        }
    }
    rest
}

// The piece of a target behind so many slashes.
fn piece(target: &[u8], slashes: u8) -> &[u8]
    ensures { result.now ≡ piece slashes target.now }
{
    let mut rest = target;
    let mut left = slashes;
    while left > 0 {
        rest = after_slash(rest);
        left -= 1;
    }
    before_slash(rest)
}

// The number that a text spells, where it is from `low` to `high`.
fn number_in(text: &[u8], low: i64, high: i64) -> Option<u64>
    requires { pos 0 ≤ℤ low }
    ensures value { result ≡ number_in low high text.now }
    ensures in_range { IfSome result (λ n. (low ≤ℤ pos n) × (pos n ≤ℤ high)) }
{
    match read_whole(text, low, high) {
        Ok(number) => Some(number.unsigned_abs()),
        Err(_) => None,
    }
}

fn school_in(text: &[u8]) -> Option<School>
    ensures { result ≡ number_in (pos 0) (pos 999999) text.now }
{
    Some(School(number_in(text, 0, 999_999)? as u32))
}

fn student_in(text: &[u8]) -> Option<Student>
    ensures { result ≡ number_in (pos 1) (pos 999999999999) text.now }
{
    Some(Student(number_in(text, 1, 999_999_999_999)?))
}

fn year_in(text: &[u8]) -> Option<Year>
    ensures { result ≡ number_in (pos 2000) (pos 2099) text.now }
{
    Some(Year(number_in(text, 2000, 2099)? as u16))
}

fn term_in(text: &[u8]) -> Option<u8>
    ensures { result ≡ number_in (pos 1) (pos 8) text.now }
{
    Some(number_in(text, 1, 8)? as u8)
}

// What a target on a route asks, where each of its parameters is a number in range.
fn call_on(route: Route, target: &[u8]) -> Option<ApiCall>
    ensures { result ≡ call_on route target.now }
{
    match route {
        Route::Filings => Some(ApiCall::File {
            school: school_in(piece(target, 2))?,
        }),
        Route::Quote => Some(ApiCall::Quote {
            school: school_in(piece(target, 2))?,
            student: student_in(piece(target, 4))?,
            year: year_in(piece(target, 5))?,
            term: term_in(piece(target, 6))?,
        }),
        Route::Standing => Some(ApiCall::Standing {
            student: student_in(piece(target, 2))?,
            year: year_in(piece(target, 3))?,
        }),
    }
}

// Whether two texts are the same.
pub fn is_same(one: &[u8], other: &[u8]) -> bool
    ensures { result ≡ bytes_eq one.now other.now }
{
    one == other
}

/// What a method and a target ask, or the status of the first check that they don't pass.
pub fn call_of(router: &Router<Route>, method: &[u8], target: &[u8]) -> Result<ApiCall, Status>
    requires { router.now ≡ the_routes }
    ensures { result ≡ call_of method.now target.now }
{
    let Some(route) = route_of(router, target) else {
        return Err(Status::NotFound);
    };
    let Some(call) = call_on(route, target) else {
        return Err(Status::NotFound);
    };
    if is_same(method, call.method()) {
        Ok(call)
    } else {
        Err(Status::MethodNotAllowed)
    }
}
