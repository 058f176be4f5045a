// The pairs of a new member, by what is asked of two of them.
ghost use Rattle.std.specs.Prelude.{◌≡◌, ◌<◌, IfOk, length};
ghost use Rattle.bases.specs.Leads.{leads as leads_of};
ghost use Rattle.pair_updates.specs.Dropping.{AreNewPairs, IsNewPair};
ghost use Rattle.pair_updates.specs.Leads.{sums_shown};
ghost use Rattle.pair_updates.specs.Rows.{lead_row};

use crate::leads::Leads;
use crate::rows::exceeding_places;
use module_vectors::NoMemory;
use std::alloc::Global;

/// A pair of an earlier member i and a new one j, and in which of the first sixteen variables the lead of i exceeds that of j by more than
/// 0, 1, 2 and 3. Where the lcm of such a pair divides that of another one, each bit of its `above` is one of the other's.
#[derive(Clone, Copy)]
pub(crate) struct NewPair {
    pub i: u64,
    pub j: u64,
    pub above: u64,
}

// The word of the pair of i and the new member h, whose lead stands at this position and has these first exponents: nothing where that of
// i stands at another.
fn new_pair(leads: &Leads, i: usize, h: usize, position: u64, row: &[u16; 16]) -> Option<u64>
    requires order { i < h }
    requires within { h < length leads.now.keys }
    requires position { position ≡ (leads_of (sums_shown leads.now) h).0 }
    requires row { row.now ≡ lead_row leads.now h }
    ensures { IsNewPair leads.now h i result }
{
    if leads.at(i).position != position {
        return None;
    }
    Some(exceeding_places(leads.row(i), row))
}

/// The words of the pairs of each earlier member and member h, in their order: nothing where the leads stand at two positions.
#[inline(never)]
pub(crate) fn pairs_with(
    alloc: Global,
    leads: &Leads,
    h: usize,
) -> Result<Vec<Option<u64>>, NoMemory>
    requires { h < length leads.now.keys }
    ensures { IfOk result (λ pairs. AreNewPairs leads.now h pairs.items) }
{
    // Copied ahead of the loop, which reads the lead's own again behind each pair that it writes.
    let position = leads.at(h).position;
    let row = *leads.row(h);
    let mut pairs = Vec::with_capacity(alloc, h)?;
    for i in 0..h {
        pairs.push_reserved(new_pair(leads, i, h, position, &row));
    }
    Ok(pairs)
}
