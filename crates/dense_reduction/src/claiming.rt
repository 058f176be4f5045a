// Claims of columns for a helper's rows.
ghost use Rattle.std.specs.Prelude.{◌≡◌, ◌<◌, length, IfOk, MatchOption};
ghost use Rattle.formal_sums.specs.FormalSums.{Each};
ghost use Rattle.pivot_table.specs.Law.{IsSeatOf, told};
ghost use Rattle.dense_reduction.specs.LostRows.{AreClaimed, IsLost};
ghost use Rattle.dense_reduction.specs.Pivots.{lead_column};
ghost use Rattle.dense_reduction.specs.Words.{IsToldAfter, IsTold, row_leads_of};

use crate::lefts::Lost;
use crate::reduction::PassShared;
use module_vectors::NoMemory;
use pivot_table::{Claim, ClaimSeat};
use std::alloc::Global;
use worker_gate::{Gate, Point, SharedGate};

// Claims the first column of the row, and passes the gate. The answer is the row that lost, where another has its column.
fn claim_row(
    shared: PassShared<'_>,
    gate: &SharedGate,
    helper: u32,
    seat: &mut ClaimSeat,
    number: u64,
) -> Option<Lost>
    requires known { shared.claims.now.rows.leads.items ≡ row_leads_of shared.rows.now }
    requires seat { IsSeatOf shared.claims.now.table.shared.table_id shared.claims.now.rows.leads.items seat.old }
    requires number { number < length shared.rows.now }
    ensures seat { IsSeatOf shared.entry.claims.now.table.shared.table_id shared.entry.claims.now.rows.leads.items seat.new }
    ensures follows { IsToldAfter (told seat.old) (told seat.new) }
    ensures claimed { MatchOption result (IsTold shared.entry.rows.now (told seat.new) (lead_column shared.entry.rows.now number) number)
        (λ l. (l.number ≡ number) × IsLost shared.entry.rows.now (told seat.new) l) }
{
    let answer = shared.claims.claim(seat, number);
    gate.pass(helper, Point::RowClaimed);
    match answer {
        Claim::Won => None,
        Claim::Lost(winner) => {
            if winner == number {
                None
            } else {
                Some(Lost { number, winner })
            }
        }
    }
}

/// Claims the first column of each of the rows with these numbers, and passes the gate with each. The answer are those whose column
/// another row has. `NoMemory` is the only error.
pub fn claim_rows(
    alloc: Global,
    shared: PassShared<'_>,
    gate: &SharedGate,
    helper: u32,
    seat: &mut ClaimSeat,
    mine: &[u64],
) -> Result<Vec<Lost>, NoMemory>
    requires known { shared.claims.now.rows.leads.items ≡ row_leads_of shared.rows.now }
    requires seat { IsSeatOf shared.claims.now.table.shared.table_id shared.claims.now.rows.leads.items seat.old }
    requires mine { Each (λ m. m < length shared.rows.now) mine.now }
    ensures seat { IsSeatOf shared.entry.claims.now.table.shared.table_id shared.entry.claims.now.rows.leads.items seat.new }
    ensures claimed { IfOk result (λ lost. AreClaimed shared.entry.rows.now mine.now (told seat.new) lost.items) }
{
    let mut lost = Vec::with_capacity(alloc, mine.len())?;
    for number in mine {
        match claim_row(shared, gate, helper, seat, *number) {
            None => {}
            Some(one) => lost.push(one)?,
        }
    }
    Ok(lost)
}
