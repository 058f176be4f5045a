// The trail of a job that meets a product of too great a degree.
ghost use Rattle.std.specs.Prelude.{◌≡◌, ◌<◌, IfOk, length, get_or};
ghost use Rattle.term_lists.specs.Rings.{variables};
ghost use Rattle.term_lists.specs.Vectors.{key_of};
ghost use Rattle.basis_core.specs.Jobs.{pairs_of};
ghost use Rattle.basis_core.specs.Stops.{IsTrailBy};
ghost use Rattle.pair_criteria.specs.declared.pair.Pair.{Pair as CodePair};
ghost use Rattle.s_vectors.specs.PairProducts.{IsPairChain};

use crate::stops::Chain;
use basis_core::Job;
use module_vectors::{KeptTrail, NoMemory, TrailStart, Vect, VectList};
use std::alloc::Global;

/// The trail of the job's pair with this number, by these products.
pub(crate) fn keep_trail(
    alloc: Global,
    job: &Job,
    number: usize,
    chain: Chain,
) -> Result<KeptTrail, NoMemory>
    requires known { number < length job.now.pairs }
    requires chain { let n = variables job.now.shared.ring in (x : CodePair) → x ≡ get_or job.now.pairs number x
        → IsPairChain n job.now.shared.ring.weights job.now.members (key_of n x.lcm) chain.products.items chain.last }
    ensures { IfOk result (IsTrailBy job.now.shared job.now.members (pairs_of job.now.pairs)) }
{
    job.kept();
    let pair = &job.pairs()[number];
    let shared = job.shared();
    let members = job.members();
    members.kept();
    let ring = shared.ring.try_copy(alloc)?;
    let generators = VectList::copy_of(alloc, &shared.generators)?;
    let vectors = VectList::copy_of(alloc, members)?;
    Ok(KeptTrail {
        ring,
        rank: shared.rank,
        generators,
        below: Vec::new(alloc),
        start: TrailStart::Pair(pair.i, pair.j),
        vector: Vect::zero(alloc),
        members: vectors,
        products: chain.products,
        last: chain.last,
    })
}
