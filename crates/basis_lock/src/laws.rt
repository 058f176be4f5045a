//! What holds of the run whenever nobody has the turn.
ghost use Rattle.std.specs.Prelude.{◌≡◌};
ghost use Rattle.ruled_lock.specs.Plays.{IsIdle};
ghost use Rattle.basis_core.specs.Logs.{base};
ghost use Rattle.basis_core.specs.Shown.{Shown};
ghost use Rattle.basis_lock.specs.Calls.{IsFreeState};

use crate::calls::{BasisLock, BasisSeat};
use std::sync::Wait;

/// At each point of the one history at which the lock is free, the state that it holds replays its history and holds the
/// invariant of a run (`HoldsInvariant` of `basis_steps`), whatever the workers have done and in whatever order.
///
/// So says a hold that is no event, which any seat may do at any time: it gets the turn where nobody has it, with the state
/// that is in the lock there, and puts the state back as it was. That state is of this run, its history is all that the seat
/// has seen by then, and this begins with all that it had seen before. It waits for the turn.
pub fn free_states<R: Wait>(rt: &R, lock: &BasisLock, seat: &mut BasisSeat)
    requires { IsIdle lock.now.table.shared.table_id (base lock.now.table.shared.key.value) seat.old.place }
    ensures seat { IsIdle lock.now.table.shared.table_id (base lock.now.table.shared.key.value) seat.new.place }
    ensures state { (s : Shown) × IsFreeState (base lock.now.table.shared.key.value) seat.old.place.me.0 seat.new.place.me.0 s }
{
    let state = lock.take(rt, &mut seat.place);
    state.kept();
    lock.put(&mut seat.place, state);
}
