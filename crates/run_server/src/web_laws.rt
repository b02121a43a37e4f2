// What a run of the web desk shows of its causes and its answers. It follows from the definitions alone; the functions do nothing.
ghost use Rattle.std.specs.Prelude.{◌≡◌, ◌⊎◌, ◌<◌, ℕ, List, get_or, length};
ghost use Rattle.aid_filings.specs.declared.filing.Filing.{Filing};
ghost use Rattle.io_traits.specs.DiskState.{IsHonest};
ghost use Rattle.log_machine.specs.Recovers.{Recovers};
ghost use Rattle.office_log.specs.Scheme.{office_scheme};
ghost use Rattle.aid_stamps.specs.declared.stamp.Stamp.{Stamp};
ghost use Rattle.log_stamps.specs.declared.entry.StampedEntry.{StampedEntry};
ghost use Rattle.run_server.specs.RanWeb.{CanServe, HasAcceptorFault, HasServedAll, IsUnrisen, RanWeb};
ghost use Rattle.run_server.specs.WebAnswers.{CountsFaults, KeepsCreated, ReservesMemory};

use io_traits::{Disk, Sink};
use web_session::Acceptor;

/// The causes of a status: 2 comes only for numbers out of range, 10 only where a port failed, and 0 only where each port has
/// back as many connections as it was to hand out, and its count of faults stood still. Over an honest disk whose file isn't damaged, where no count rose, the
/// status is 0 or 9.
pub fn web_causes<D: Disk, P: Acceptor, K: Sink>()
    ensures usage { (sessions : ℕ) (stamp : Stamp) (old new : D) (before after : List P) (out out' : K) (status : ℕ) → RanWeb D.Disk K.Sink P.tells P.faults sessions stamp old new before after out out' status
        → status ≡ 2 → CanServe (length before) sessions → ⊥ }
    ensures socket { (sessions : ℕ) (stamp : Stamp) (old new : D) (before after : List P) (out out' : K) (status : ℕ) → RanWeb D.Disk K.Sink P.tells P.faults sessions stamp old new before after out out' status
        → status ≡ 10 → HasAcceptorFault P.faults before after }
    ensures all { (sessions : ℕ) (stamp : Stamp) (old new : D) (before after : List P) (out out' : K) (status : ℕ) → RanWeb D.Disk K.Sink P.tells P.faults sessions stamp old new before after out out' status
        → status ≡ 0 → (k : ℕ) (p : P) → k < length before → HasServedAll P.tells sessions (get_or before k p) (get_or after k p) }
    ensures still { (sessions : ℕ) (stamp : Stamp) (old new : D) (before after : List P) (out out' : K) (status : ℕ) → RanWeb D.Disk K.Sink P.tells P.faults sessions stamp old new before after out out' status
        → status ≡ 0 → (k : ℕ) (p : P) → k < length before → P.faults (get_or after k p) ≡ P.faults (get_or before k p) }
    ensures complete { (sessions : ℕ) (stamp : Stamp) (old new : D) (before after : List P) (out out' : K) (status : ℕ) → RanWeb D.Disk K.Sink P.tells P.faults sessions stamp old new before after out out' status
        → CanServe (length before) sessions → IsHonest (D.tells old) → (past : List (StampedEntry Filing)) → Recovers office_scheme (D.tells old).reads past
        → IsUnrisen (D.faults old) (D.faults new) → IsUnrisen (K.faults out) (K.faults out') → (HasAcceptorFault P.faults before after → ⊥)
        → (status ≡ 0) ⊎ (status ≡ 9) }
{}

/// Unless the ports stayed as they were, they were served: over honest ports the disk's count of faults rose by at least the number
/// of all 503 that were answered, or stands at its last value; and where none was it stood still.
pub fn faults_are_counted<D: Disk, P: Acceptor, K: Sink>()
    ensures { (sessions : ℕ) (stamp : Stamp) (old new : D) (before after : List P) (out out' : K) (status : ℕ) → RanWeb D.Disk K.Sink P.tells P.faults sessions stamp old new before after out out' status
        → (after ≡ before) ⊎ CountsFaults D.Disk P.tells P.faults sessions stamp old new before after }
{}

/// Unless the ports stayed as they were, they were served: over honest ports, where any request was answered 507, at least as many
/// asks as there are ports were answered otherwise.
pub fn memory_is_reserved<D: Disk, P: Acceptor, K: Sink>()
    ensures { (sessions : ℕ) (stamp : Stamp) (old new : D) (before after : List P) (out out' : K) (status : ℕ) → RanWeb D.Disk K.Sink P.tells P.faults sessions stamp old new before after out out' status
        → (after ≡ before) ⊎ ReservesMemory D.Disk P.tells P.faults sessions stamp new before after }
{}

/// Unless the ports stayed as they were, they were served: where 201 was answered on an honest port with a front, the request's own
/// filing stands in the list at the end behind so many others, under the name of its connection and the stamp of the run.
pub fn created_stand<D: Disk, P: Acceptor, K: Sink>()
    ensures { (sessions : ℕ) (stamp : Stamp) (old new : D) (before after : List P) (out out' : K) (status : ℕ) → RanWeb D.Disk K.Sink P.tells P.faults sessions stamp old new before after out out' status
        → (after ≡ before) ⊎ KeepsCreated D.Disk P.tells P.faults sessions stamp new before after }
{}
