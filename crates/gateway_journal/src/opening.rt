//! Opening the journal of a gate's clients.

ghost use Rattle.std.specs.Prelude.{◌≡◌, List, ℕ, Some, is_some, IfOk, IfErr};
ghost use Rattle.account_journal.specs.Slots.{bodies};
ghost use Rattle.account_journal.specs.Recovery.{IsPartlyRecovered, IsRecoveredFrom};
ghost use Rattle.account_journal.specs.Reading.{IsFaultOf, IsIntact, RoseIfFailed};
ghost use Rattle.gateway_workers.specs.PassedOn.{limits_of};
ghost use Rattle.gateway_journal.specs.Kept.{IsKeptFor};

use account_journal::{Journal, OpenFault};
use gateway_workers::Gate;
use journal_disk::Disk;
use std::alloc::Global;

/// Opens the journal on a disk for the clients of a gate, for whom a mark stands. What it leaves open is settled at its bound.
///
/// # Errors
///
/// The disk is handed back where the journal is refused, as `Journal::open` says. It then has the history that it had, and some first
/// ones of the settlements that it owes, unless a call on it failed.
pub fn open_for<D: Disk>(
    alloc: Global,
    gate: &Gate,
    disk: D,
    mark: [u8; 32],
) -> Result<Journal<D>, (D, OpenFault)>
    ensures kept { IfOk result (λ j. IsKeptFor D.reads j gate.now) }
    ensures idle { IfOk result (λ j. j.opened ≡ 0) }
    ensures tells { IfOk result (λ j. is_some (D.reads j.disk) ≡ is_some (D.reads disk)) }
    ensures intact { IfOk result (λ j. (b : List ℕ) → D.reads disk ≡ Some b → IsIntact (limits_of gate.now) mark (bodies b)) }
    ensures recovered { IfOk result (λ j. (b : List ℕ) → D.reads disk ≡ Some b → IsRecoveredFrom D.reads D.image j b) }
    ensures refused { IfErr result (λ e. (b : List ℕ) → D.reads disk ≡ Some b → IsFaultOf e.1 (limits_of gate.now) mark (bodies b)) }
    ensures left { IfErr result (λ e. (e.1 ≡ OpenFault.Failed → ⊥) → (b file : List ℕ) → D.reads disk ≡ Some b → D.reads e.0 ≡ Some file → IsPartlyRecovered b file) }
    ensures cause { IfErr result (λ e. RoseIfFailed e.1 (D.faults disk) (D.faults e.0)) }
{
    match gate.limits(alloc) {
        Ok(limits) => Journal::open(alloc, disk, mark, limits),
        Err(_) => Err((disk, OpenFault::Memory)),
    }
}
