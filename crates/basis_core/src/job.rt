// What a worker takes.
ghost use Rattle.std.specs.Prelude.{◌≡◌, length};
ghost use Rattle.std.specs.Arc.{arc_value};
ghost use Rattle.basis_core.specs.Members.{shared_of};

use crate::members::Members;
use member_products::Shared;
use pair_criteria::Pair;
use std::alloc::Global;
use std::marker::Model;
use std::sync::Arc;

/// Pairs of members that a worker is to bring to lcm representations. There is at least one pair; the members are monic,
/// over one list of generators; each pair is of two of them with leads at one position, and has the lcm of these.
pub struct Job {
    worker: u32,
    members: Members,
    pairs: Vec<Pair>,
}

// By hand, so that each drop of one is a call.
impl Drop for Job {
    fn drop(self) {
        let Job {
            worker: _,
            members: _,
            pairs: _,
        } = self;
    }
}

impl Model for Job {
    ghost use Rattle.basis_core.specs.Jobs.{JobShown, IsJobOver};

    ghost Value = { JobShown };

    ghost view = { λ j. record { shared = j.members.shared; worker = j.worker; members = j.members.list; pairs = j.pairs.items } };

    ghost invariant = { λ j. IsJobOver (record { shared = j.members.shared; worker = j.worker; members = j.members.list; pairs = j.pairs.items }) };
}

impl Job {
    ghost use Rattle.basis_core.specs.Jobs.{IsJobOver};

    /// What holds of each job.
    pub fn kept(&self)
        ensures { IsJobOver self.now }
    {
        let _ = &self.pairs;
    }

    pub(crate) fn new(worker: u32, members: Members, pairs: Vec<Pair>) -> Job
        requires { IsJobOver (record { shared = members.shared; worker = worker; members = members.list; pairs = pairs.items }) }
        ensures shared { result.shared ≡ members.shared }
        ensures worker { result.worker ≡ worker }
        ensures members { result.members ≡ members.list }
        ensures pairs { result.pairs ≡ pairs.items }
    {
        Job {
            worker,
            members,
            pairs,
        }
    }

    /// Ring, rank and generators of the run.
    pub fn shared(&self) -> &Arc<Shared, Global>
        ensures { shared_of (arc_value result.now) ≡ self.now.shared }
    {
        self.members.shared()
    }

    /// The worker's number.
    pub fn worker(&self) -> u32
        ensures { result ≡ self.now.worker }
    {
        self.worker
    }

    /// The number of its members.
    pub fn base(&self) -> u64
        ensures { result ≡ length self.now.members }
    {
        self.members.len() as u64
    }

    /// The members that the run had when the job was taken.
    pub fn members(&self) -> &Members
        ensures shared { result.now.shared ≡ self.now.shared }
        ensures list { result.now.list ≡ self.now.members }
    {
        &self.members
    }

    /// The pairs, in the order of the queue.
    pub fn pairs(&self) -> &[Pair]
        ensures { result.now ≡ self.now.pairs }
    {
        &self.pairs
    }
}
