// The operations that give a value its list, on the stored lists of other values.
ghost use Rattle.std.specs.Prelude.{◌≡◌, ◌≤◌, IfErr, IfOk, OnOk};
ghost use Rattle.groebner_iface.specs.Calls.{CallStops};
ghost use Rattle.risen_counts.specs.Counts.{RoseAtMost};
ghost use Rattle.session_values.specs.Operations.{AreRunsOf, AreTrailsOf, IsResult, result_rank};
ghost use Rattle.session_values.specs.Runs.{most_runs};
ghost use Rattle.session_values.specs.Tasks.{HasParts, work_of};

use groebner_iface::{Groebner, OpStop};
use ideal_ops::{colon, eliminate, intersect, product, quotient, saturate, sum};
use module_vectors::{Ring, Vect, VectList};
use ring_maps::preimage;
use std::alloc::Global;
use std::sync::Wait;
use std::thread::Threads;
use syzygy_engine::syzygies;

// How many blocks of up to 64 positions have room among the positions of 64 bits, and more than vectors in any memory.
const MOST_BLOCKS: u64 = 72057594037927936;

/// An operation with the rank of its vectors and the lists that it works on.
#[derive(Clone, Copy)]
pub enum Task<'a> {
    /// The sum of two modules.
    Sum(u64, &'a VectList, &'a VectList),
    /// The product of an ideal and a module: the first list is of polynomials, and the rank that of the second.
    Product(u64, &'a VectList, &'a VectList),
    /// The intersection of two modules.
    Intersect(u64, &'a VectList, &'a VectList),
    /// The ideal of what takes the second module into the first.
    Colon(u64, &'a VectList, &'a VectList),
    /// The vectors that a polynomial takes into the module.
    Quotient(u64, &'a VectList, &'a Vect),
    /// The vectors that a power of a polynomial takes into the module.
    Saturate(u64, &'a VectList, &'a Vect),
    /// The members without the first so many variables.
    Eliminate(u64, &'a VectList, u32),
    /// The syzygies of a list.
    Syzygies(u64, &'a VectList),
    /// The polynomials with an image in an ideal: the images of the variables, and the list of the ideal.
    Preimage(&'a VectList, &'a VectList),
}

/// The rank of the result.
pub fn rank_of_result(task: Task<'_>) -> u64
    ensures { result ≡ result_rank (work_of task.entry) }
{
    match task {
        Task::Sum(rank, _, _) => rank,
        Task::Product(rank, _, _) => rank,
        Task::Intersect(rank, _, _) => rank,
        Task::Colon(_, _, _) => 1,
        Task::Quotient(rank, _, _) => rank,
        Task::Saturate(rank, _, _) => rank,
        Task::Eliminate(rank, _, _) => rank,
        Task::Syzygies(_, list) => list.len() as u64,
        Task::Preimage(_, _) => 1,
    }
}

/// The result of the operation. `Pairs` and `Degree` are those of one of its runs, `Trail` that of a product outside of
/// them.
pub fn operate<R: Threads + Wait + Sync, B: Groebner>(
    rt: &R,
    alloc: Global,
    engine: &mut B,
    ring: &Ring,
    task: Task<'_>,
) -> Result<VectList, OpStop>
    requires { HasParts ring.now (work_of task) }
    ensures result { IfOk result (IsResult ring.now (work_of task.entry)) }
    ensures same { OnOk result ((B.stops engine.new ≡ B.stops engine.old) × (B.stopped engine.new ≡ B.stopped engine.old)) }
    ensures stop { IfErr result (CallStops (AreRunsOf ring.now (work_of task.entry)) (AreTrailsOf ring.now (work_of task.entry))
        (B.stops engine.old) (B.stops engine.new) (B.stopped engine.old) (B.stopped engine.new)) }
    ensures later { B.stops engine.old ≤ B.stops engine.new }
    ensures runs { RoseAtMost (most_runs ring.now (work_of task.entry)) (B.runs engine.old) (B.runs engine.new) }
    ensures settings { B.settings engine.new ≡ B.settings engine.old }
{
    match task {
        Task::Sum(rank, left, right) => {
            sum(rt, alloc, engine, ring, u128::from(rank), left, right)
        }
        Task::Product(rank, left, right) => {
            product(rt, alloc, engine, ring, u128::from(rank), left, right)
        }
        Task::Intersect(rank, left, right) => {
            intersect(rt, alloc, engine, ring, u128::from(rank), left, right)
        }
        Task::Colon(rank, list, by) => {
            if by.len() as u64 > MOST_BLOCKS {
                return Err(OpStop::Memory);
            }
            colon(rt, alloc, engine, ring, u128::from(rank), list, by)
        }
        Task::Quotient(rank, list, f) => {
            quotient(rt, alloc, engine, ring, u128::from(rank), list, f)
        }
        Task::Saturate(rank, list, f) => {
            saturate(rt, alloc, engine, ring, u128::from(rank), list, f)
        }
        Task::Eliminate(rank, list, k) => {
            eliminate(rt, alloc, engine, ring, u128::from(rank), list, k)
        }
        Task::Syzygies(rank, list) => syzygies(rt, alloc, engine, ring, u128::from(rank), list),
        Task::Preimage(images, list) => preimage(rt, alloc, engine, ring, images, list),
    }
}
