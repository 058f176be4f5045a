// Pairs that need rows: where both members have one term, the S-vector is zero.
ghost use Rattle.std.specs.Prelude.{IfOk, filter, length, ◌<◌, ◌≡◌};
ghost use Rattle.formal_sums.specs.FormalSums.{Each};
ghost use Rattle.f4_job.specs.Tails.{IsPairWithin, needs_rows};

use module_vectors::{NoMemory, Vectors};
use pair_criteria::Pair;
use std::alloc::Global;

// Has a member of the pair a term behind its lead?
fn has_tail<L: Vectors>(members: &L, pair: &Pair) -> bool
    requires left { pair.now.i < length (L.listed members.now) }
    requires right { pair.now.j < length (L.listed members.now) }
    ensures { result ≡ needs_rows (L.listed members.now) pair.now }
{
    let left = members.at(pair.i as usize).terms().len();
    let right = members.at(pair.j as usize).terms().len();
    left > 1 || right > 1
}

/// How many of the pairs need rows.
pub(crate) fn count_needing<L: Vectors>(members: &L, pairs: &[Pair]) -> usize
    requires { Each (IsPairWithin (length (L.listed members.now))) pairs.now }
    ensures { result ≡ length (filter (needs_rows (L.listed members.now)) pairs.now) }
{
    let mut count = 0;
    for pair in pairs {
        if has_tail(members, pair) {
            count += 1;
        }
    }
    count
}

/// Copies of the pairs that need rows, with room for so many.
pub(crate) fn pairs_needing<L: Vectors>(
    alloc: Global,
    members: &L,
    pairs: &[Pair],
    count: usize,
) -> Result<Vec<Pair>, NoMemory>
    requires { Each (IsPairWithin (length (L.listed members.now))) pairs.now }
    ensures { IfOk result (λ needing. needing.items ≡ filter (needs_rows (L.listed members.now)) pairs.now) }
{
    let mut needing = Vec::with_capacity(alloc, count)?;
    for pair in pairs {
        if has_tail(members, pair) {
            let lcm = pair.lcm.try_copy(alloc)?;
            needing.push(Pair {
                i: pair.i,
                j: pair.j,
                lcm,
            })?;
        }
    }
    Ok(needing)
}
