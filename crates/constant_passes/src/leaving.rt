// What leaves a map after a pass.
ghost use Rattle.std.specs.Prelude.{◌≡◌, IfOk};
ghost use Rattle.column_passes.specs.Passing.{LeaveNumbered, indices_of};
ghost use Rattle.column_passes.specs.Placing.{ArePlacesAfter};

use column_passes::{Leaving, leaving_rows, push_place};
use module_vectors::NoMemory;
use std::alloc::Global;

/// The rows and the columns that leave a map.
pub struct Chosen {
    pub rows: Leaving,
    pub indices: Leaving,
}

// By hand, so that each drop of one is a call.
impl Drop for Chosen {
    fn drop(self) {
        let Chosen {
            rows: _,
            indices: _,
        } = self;
    }
}

// The columns that have a choice leave.
fn leaving_columns(alloc: Global, choices: &[Option<(u64, u32)>]) -> Result<Leaving, NoMemory>
    ensures { IfOk result (ArePlacesAfter (indices_of 0 choices.now)) }
{
    let mut leaving = Leaving {
        places: Vec::with_capacity(alloc, choices.len())?,
        count: 0,
    };
    for choice in choices {
        push_place(&mut leaving, choice.is_some())?;
    }
    Ok(leaving)
}

/// What leaves after all columns: the rows that have a number, and the columns that have a choice.
pub(crate) fn finish(
    alloc: Global,
    numbers: &[u64],
    choices: &[Option<(u64, u32)>],
) -> Result<Chosen, NoMemory>
    ensures rows { IfOk result (λ c. LeaveNumbered numbers.now c.rows) }
    ensures indices { IfOk result (λ c. ArePlacesAfter (indices_of 0 choices.now) c.indices) }
{
    let rows = leaving_rows(alloc, numbers)?;
    let indices = leaving_columns(alloc, choices)?;
    Ok(Chosen { rows, indices })
}
