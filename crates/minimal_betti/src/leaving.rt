// Rows and columns leave the maps before and after the one at hand.
ghost use Rattle.std.specs.Prelude.{◌≡◌, List, ℕ, IfOk, OnOk};
ghost use Rattle.minimal_laws.specs.Cancellation.{remove_at};
ghost use Rattle.column_passes.specs.Placing.{ArePlacesAfter};
ghost use Rattle.minimal_betti.specs.Carried.{AreOrdered};
ghost use Rattle.minimal_betti.specs.Splitting.{IsFewer, IsFormerLeft, IsNextLeft};

use crate::carried::Carried;
use column_passes::{Leaving, columns_without, kept_items};
use module_vectors::{NoMemory, Ring, VectList};
use std::alloc::Global;
use std::mem::replace;

/// The degree leaves, where there is one.
pub(crate) fn drop_degree(degrees: &mut Vec<u32>, at: u64)
    ensures { degrees.new.items ≡ remove_at at degrees.old.items }
{
    if at < degrees.len() as u64 {
        degrees.remove(at as usize);
    }
}

// The map without the columns that leave.
fn fewer_columns(alloc: Global, leaving: &Leaving, map: Carried) -> Result<Carried, NoMemory>
    ensures { (rows : List ℕ) → ArePlacesAfter rows leaving.now → IfOk result (IsFewer rows map) }
{
    let Carried { columns, degrees } = map;
    let degrees = kept_items(alloc, leaving, degrees)?;
    let columns = kept_items(alloc, leaving, columns.into_vec())?;
    Ok(Carried {
        columns: VectList::from_vec(columns),
        degrees,
    })
}

/// Columns of the last map of those that are done leave, or where there is none positions. After an error the maps are lost.
pub(crate) fn leave_former(
    alloc: Global,
    leaving: &Leaving,
    positions: &mut Vec<u32>,
    done: &mut Vec<Carried>,
) -> Result<(), NoMemory>
    ensures { (rows : List ℕ) → ArePlacesAfter rows leaving.now
        → OnOk result (IsFormerLeft rows positions.old.items positions.new.items done.old.items done.new.items) }
{
    match done.pop() {
        Some(last) => done.push(fewer_columns(alloc, leaving, last)?)?,
        None => {
            let all = Vec::from_slice(alloc, positions)?;
            let kept = kept_items(alloc, leaving, all)?;
            drop(replace(positions, kept));
        }
    }
    Ok(())
}

/// Rows of the next map, which stands last, leave, where there is one. After an error the maps are lost.
pub(crate) fn leave_next(
    alloc: Global,
    ring: &Ring,
    leaving: &Leaving,
    rest: &mut Vec<Carried>,
) -> Result<(), NoMemory>
    requires leaving { (rows : List ℕ) × ArePlacesAfter rows leaving.now }
    requires ordered { AreOrdered ring.now rest.old.items }
    ensures { (rows : List ℕ) → ArePlacesAfter rows leaving.now → OnOk result (IsNextLeft ring.now rows rest.old.items rest.new.items) }
{
    if let Some(next) = rest.pop() {
        rest.push(Carried {
            columns: columns_without(alloc, ring, leaving, next.columns)?,
            degrees: next.degrees,
        })?;
    }
    Ok(())
}
