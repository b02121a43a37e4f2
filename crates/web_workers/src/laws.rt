//! What follows from the definitions alone, said of no call. The functions do nothing.
ghost use Rattle.std.specs.Prelude.{◌≡◌, ℕ, List, length};
ghost use Rattle.std.specs.List.{All};
ghost use Rattle.log_lock.specs.declared.turned.Snapshot.{Snapshot};
ghost use Rattle.log_machine.specs.declared.names.Filed.{Filed};
ghost use Rattle.web_session.specs.Asks.{Request};
ghost use Rattle.web_session.specs.Exchange.{Brings, Ending, Run};
ghost use Rattle.web_session.specs.Responses.{Answer};
ghost use Rattle.aid_stamps.specs.declared.stamp.Stamp.{Stamp};
ghost use Rattle.log_stamps.specs.Rows.{semantics_under, own_under};
ghost use Rattle.log_stamps.specs.declared.entry.StampedEntry.{StampedEntry};
ghost use Rattle.web_workers.specs.AllTold.{AreCounted, CreatedStand, EachIsBrought, EachIsTold, HaveRoom};
ghost use Rattle.web_workers.specs.Clerks.{Clerking, HandleAnswers};
ghost use Rattle.web_workers.specs.Closed.{IsBegunBy, IsPart};
ghost use Rattle.web_workers.specs.Told.{HasTold, IsAvailable};
ghost use Rattle.web_workers.specs.Workers.{HasServed, WorkerView};

use crate::MachineApi;
use log_machine::{SingleEntryMachine, StateMachine};
use web_session::Acceptor;

/// What the requests of one connection are told by the turns of a pass, and what they make of what the pass knows: each
/// answer with a front is the answer on that many entries of what the pass then has seen, and what the pass admits besides is
/// of these requests alone.
pub fn told<R: SingleEntryMachine, T: MachineApi<R>>()
    ensures { (stamp : Stamp) (requests : List Request) (answers : List Answer) (before after : Clerking (StampedEntry R.Entry)) → Run (HandleAnswers (semantics_under stamp R.semantics) (own_under stamp R.own) T.scheme) before requests answers after
        → HasTold (semantics_under stamp R.semantics) (own_under stamp R.own) T.scheme before.by requests answers before.handle after.handle }
{}

/// A request's target is rejected neither by 503 nor by 507, so each 503 tells of a fault of the disk, and each 507 of want of memory.
pub fn available()
    ensures { (limit : ℕ) (bytes : List ℕ) (requests : List Request) (ending : Ending) → Brings limit bytes requests ending → All IsAvailable requests }
{}

/// What a session leaves that can't go on begins the exchange of all the bytes, whatever would be answered to the requests
/// that weren't.
pub fn part_begins()
    ensures { (bytes text : List ℕ) (done : List Request) (answers : List Answer) (requests : List Request) (ending : Ending) → IsPart bytes text done answers → length answers ≡ length done → Brings 10000 bytes requests ending
        → IsBegunBy text done answers requests ending }
{}

/// What the connections of all workers were told is of the list at the end, and each entry past the opening list is of a
/// request that one of them brought.
pub fn all_told<R: SingleEntryMachine, T: MachineApi<R>, P: Acceptor>()
    ensures told { (stamp : Stamp) (limit : ℕ) (opening closed : Snapshot (Filed (StampedEntry R.Entry))) (before after : List (WorkerView (StampedEntry R.Entry) P)) (served : HasServed (semantics_under stamp R.semantics) (own_under stamp R.own) T.scheme P.tells P.faults limit opening closed before after)
        → EachIsTold (semantics_under stamp R.semantics) (own_under stamp R.own) T.scheme P.tells P.faults limit opening closed before after served }
    ensures brought { (stamp : Stamp) (limit : ℕ) (opening closed : Snapshot (Filed (StampedEntry R.Entry))) (before after : List (WorkerView (StampedEntry R.Entry) P)) (served : HasServed (semantics_under stamp R.semantics) (own_under stamp R.own) T.scheme P.tells P.faults limit opening closed before after)
        (told : EachIsTold (semantics_under stamp R.semantics) (own_under stamp R.own) T.scheme P.tells P.faults limit opening closed before after served) → EachIsBrought (semantics_under stamp R.semantics) (own_under stamp R.own) T.scheme P.tells P.faults limit opening closed before after served told }
{}

/// Over honest ports the disk's count of faults rose by at least the number of all 503 that were answered, or stands at its
/// last value; and where no 503 was answered it stood still.
pub fn faults_are_counted<R: SingleEntryMachine, T: MachineApi<R>, P: Acceptor>()
    ensures { (stamp : Stamp) (limit : ℕ) (opening closed : Snapshot (Filed (StampedEntry R.Entry))) (before after : List (WorkerView (StampedEntry R.Entry) P)) (served : HasServed (semantics_under stamp R.semantics) (own_under stamp R.own) T.scheme P.tells P.faults limit opening closed before after)
        (told : EachIsTold (semantics_under stamp R.semantics) (own_under stamp R.own) T.scheme P.tells P.faults limit opening closed before after served) → AreCounted (semantics_under stamp R.semantics) (own_under stamp R.own) T.scheme P.tells P.faults limit opening closed before after served told }
{}

/// Over honest ports, where any request was answered 507, at least as many asks were answered otherwise as there are ports.
pub fn memory_is_reserved<R: SingleEntryMachine, T: MachineApi<R>, P: Acceptor>()
    ensures { (stamp : Stamp) (limit : ℕ) (opening closed : Snapshot (Filed (StampedEntry R.Entry))) (before after : List (WorkerView (StampedEntry R.Entry) P)) (served : HasServed (semantics_under stamp R.semantics) (own_under stamp R.own) T.scheme P.tells P.faults limit opening closed before after)
        (told : EachIsTold (semantics_under stamp R.semantics) (own_under stamp R.own) T.scheme P.tells P.faults limit opening closed before after served) → HaveRoom (semantics_under stamp R.semantics) (own_under stamp R.own) T.scheme P.tells P.faults limit opening closed before after served told }
{}

/// Where 201 was answered on an honest port with a front, the request's own entry stands in the list at the end behind so
/// many others, under the name of its connection.
pub fn created_stand<R: SingleEntryMachine, T: MachineApi<R>, P: Acceptor>()
    ensures { (stamp : Stamp) (limit : ℕ) (opening closed : Snapshot (Filed (StampedEntry R.Entry))) (before after : List (WorkerView (StampedEntry R.Entry) P)) (served : HasServed (semantics_under stamp R.semantics) (own_under stamp R.own) T.scheme P.tells P.faults limit opening closed before after)
        (told : EachIsTold (semantics_under stamp R.semantics) (own_under stamp R.own) T.scheme P.tells P.faults limit opening closed before after served) → CreatedStand (semantics_under stamp R.semantics) (own_under stamp R.own) T.scheme P.tells P.faults limit opening closed before after served told }
{}
