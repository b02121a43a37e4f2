//! What follows from the definitions alone. Each of these functions does nothing.
ghost use Rattle.std.specs.Prelude.{◌≡◌, ◌≤◌, ℕ, List, Some, None, Result, [], ◌∷◌, true, codes, length, take};
ghost use Rattle.web_session.specs.Ends.{IsEnded, IsFirstEnd, head_end};
ghost use Rattle.web_session.specs.Exchange.{Told, Tells, Ending, Brings, IsFront, IsFrontOf, rejection_of};
ghost use Rattle.web_session.specs.Asks.{Request, Answers};
ghost use Rattle.web_session.specs.Calls.{call_of};
ghost use Rattle.web_session.specs.Heads.{Judges};
ghost use Rattle.web_session.specs.declared.head.Head.{Head};
ghost use Rattle.web_session.specs.declared.status.Status.{Status};

use crate::{Api, End, Handler};

/// The end of a head block is the first place at which bytes end as a head block does, and there is none where they
/// never do.
pub fn first_end()
    ensures first { (bytes : List ℕ) (k : ℕ) → head_end bytes ≡ Some k → IsFirstEnd bytes k }
    ensures none { (bytes : List ℕ) → head_end bytes ≡ None → (k : ℕ) → k ≤ length bytes → ¬ (IsEnded (take k bytes)) }
{}

/// A head block says one thing.
pub fn one_judgment()
    ensures { (block : List ℕ) (one other : Result Head Status) → Judges block one → Judges block other → one ≡ other }
{}

/// Bytes tell one thing of the next request, so they bring one list of requests, and end a session in one way.
pub fn one_exchange()
    ensures telling { (bytes : List ℕ) (one other : Told) → Tells bytes one → Tells bytes other → one ≡ other }
    ensures brought { (limit : ℕ) (bytes : List ℕ) (one other : List Request) (end other_end : Ending) → Brings limit bytes one end → Brings limit bytes other other_end → (one ≡ other) × (end ≡ other_end) }
{}

/// What a session leaves that can't go on begins the exchange of all the bytes.
pub fn front_begins<F: Api, C: Handler<F>>()
    ensures { (limit : ℕ) (bytes : List ℕ) (requests : List Request) (ending : Ending) (before after : C) (old new : List ℕ) → IsFront (Answers F.scheme C.asked C.faults) limit bytes before after old new
        → Brings limit bytes requests ending → IsFrontOf (Answers F.scheme C.asked C.faults) requests ending before after old new }
{}

/// The exchange of one literal request, and of a head that is rejected.
pub fn two_exchanges()
    ensures get { Brings 10000 (codes "GET / HTTP/1.0\r\n\r\n") (record { head = record { call = call_of (codes "GET") (codes "/"); length = 0; closes = true }; body = [] } ∷ []) (record { text = []; way = End.Closed }) }
    ensures post { Brings 10000 (codes "POST / HTTP/1.1\r\n\r\n") [] (record { text = rejection_of Status.LengthRequired; way = End.Rejected }) }
{}
