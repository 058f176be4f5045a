// The constants of a map leave step by step.
ghost use Rattle.std.specs.Prelude.{◌≡◌, IfErr, IfOk, OnOk, length};
ghost use Rattle.term_lists.specs.Rings.{variables};
ghost use Rattle.term_lists.specs.Vectors.{sums_of};
ghost use Rattle.column_passes.specs.Constants.{HasNoConstants};
ghost use Rattle.minimal_betti.specs.Carried.{LeadsTo, graded_maps};
ghost use Rattle.minimal_betti.specs.Minimising.{CancellationStops};
ghost use Rattle.minimal_betti.specs.Splitting.{IsCancellationUnderway, in_turn};

use crate::carried::Carried;
use crate::splitting::cancel;
use column_passes::first_constant;
use module_vectors::{Ring, WorkStop};
use std::alloc::Global;

/// The map at hand when its constants have left, the first one at each step: slower than one pass, but a stop comes with its trail.
/// After an error the maps are lost.
pub(crate) fn cancelled_by_steps(
    alloc: Global,
    ring: &Ring,
    positions: &mut Vec<u32>,
    done: &mut Vec<Carried>,
    current: Carried,
    rest: &mut Vec<Carried>,
) -> Result<Carried, WorkStop>
    requires underway { IsCancellationUnderway ring.now positions.old.items done.old.items (in_turn done.old.items current rest.old.items) }
    ensures underway { IfOk result (λ m. IsCancellationUnderway ring.now positions.new.items done.new.items (in_turn done.new.items m rest.new.items)) }
    ensures none { IfOk result (λ m. HasNoConstants ring.now.modulus.value (sums_of (variables ring.now) m.columns)) }
    ensures leads { IfOk result (λ m. LeadsTo ring.now.modulus.value
        (graded_maps ring.now positions.old.items (in_turn done.old.items current rest.old.items))
        (graded_maps ring.now positions.new.items (in_turn done.new.items m rest.new.items))) }
    ensures rest { OnOk result (length rest.new.items ≡ length rest.old.items) }
    ensures stop { IfErr result (CancellationStops ring.now
        (graded_maps ring.now positions.old.items (in_turn done.old.items current rest.old.items))) }
{
    let mut map = current;
    loop {
        match first_constant(ring, map.columns.as_slice()) {
            None => return Ok(map),
            Some(at) => match cancel(alloc, ring, positions, done, map, rest, at) {
                Ok(split) => map = split,
                Err(stop) => return Err(stop),
            },
        }
    }
}
