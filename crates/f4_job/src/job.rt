// A job solved by its matrix.
ghost use Rattle.std.specs.Prelude.{◌≡◌, ◌<◌, IfOk, IfErr};
ghost use Rattle.term_lists.specs.Rings.{variables};
ghost use Rattle.basis_core.specs.Outcomes.{IsOutcomeOver};
ghost use Rattle.basis_core.specs.Members.{setting_of};
ghost use Rattle.basis_core.specs.Rows.{vectors_in};
ghost use Rattle.s_vectors.specs.Trails.{JobStops};
ghost use Rattle.f4_job.specs.Solved.{AreNewRows};

use crate::making::make_rows;
use crate::solving::{NewRows, new_rows};
use crate::stop::MatrixStop;
use basis_core::{Job, Outcome};
use member_products::Reduct;
use module_vectors::{Ring, WorkStop};
use monomial_orders::Mono;
use std::alloc::Global;
use std::thread::Threads;
use worker_gate::SharedGate;

// The new rows of the job's matrix, where `ring` is that of the job.
fn rows_over<R: Threads + Sync>(
    rt: &R,
    alloc: Global,
    ring: &Ring,
    job: &Job,
    helpers: u32,
    thread: usize,
    gate: &SharedGate,
) -> Result<NewRows, MatrixStop>
    requires over { ring.now ≡ job.now.shared.ring }
    requires helpers { 0 < helpers }
    ensures { let n = variables job.now.shared.ring in IfOk result (λ r. AreNewRows n (setting_of n job.now.shared)
        (vectors_in job.now.members) job.now.pairs r.products.items r.columns.items r.rows.items) }
{
    job.kept();
    let members = job.members();
    members.kept();
    let found = new_rows(rt, alloc, ring, members, job.pairs(), helpers, thread, gate)?;
    Ok(found)
}

// Rows of a job and the products that they are made of.
#[derive(Drop)]
struct Solution {
    rows: Vec<Reduct>,
    products: Vec<(u64, Mono)>,
}

// The rows of the job's matrix, where `ring` is that of the job.
fn solve_matrix<R: Threads + Sync>(
    rt: &R,
    alloc: Global,
    ring: &Ring,
    job: &Job,
    helpers: u32,
    thread: usize,
    gate: &SharedGate,
) -> Result<Solution, MatrixStop>
    requires over { ring.now ≡ job.now.shared.ring }
    requires helpers { 0 < helpers }
    ensures { IfOk result (λ s. IsOutcomeOver (record { job = job.now; rows = s.rows.items; products = s.products.items })) }
{
    job.kept();
    let members = job.members();
    members.kept();
    let found = rows_over(rt, alloc, ring, job, helpers, thread, gate)?;
    let rows = make_rows(alloc, ring, &found.columns, &found.products, &found.rows)?;
    Ok(Solution {
        rows,
        products: found.products,
    })
}

/// Solves a job by the echelon form of its matrix: the rows with new leads become the outcome's rows, each with the
/// products of which it is a combination (Faugère 1999, section 2). The matrix is that of the pairs of which a member has a
/// second term: the S-vectors of the others are zero. Where a product of it has a degree above 65,535, the job is solved by
/// plain division, which may need no such product.
///
/// So many helpers, one at least, bring the matrix into echelon form together: in each pass each claims the free columns and then the
/// lead columns of its share of the rows, passes the gate with its own number at `RowClaimed`, and reduces the rows whose column
/// another row has. The first works in the caller's thread, others in threads of their own, one more for each `thread` additions that
/// a pass makes. Division is by the caller alone.
///
/// `Degree` comes with a trail of the job to a product of degree above 65,535, `Memory` where there is none; both
/// give the job back.
pub fn solve<R: Threads + Sync>(
    rt: &R,
    alloc: Global,
    job: Job,
    helpers: u32,
    thread: usize,
    gate: &SharedGate,
) -> Result<Outcome, (WorkStop, Job)>
    requires helpers { 0 < helpers }
    ensures job { IfOk result (λ o. o.job ≡ job) }
    ensures back { IfErr result (λ e. e.1 ≡ job) }
    ensures stop { IfErr result (λ e. JobStops job e.0) }
{
    match solve_matrix(rt, alloc, &job.shared().ring, &job, helpers, thread, gate) {
        Ok(solution) => Ok(Outcome::new(job, solution.rows, solution.products)),
        Err(MatrixStop::Memory) => Err((WorkStop::Memory, job)),
        Err(MatrixStop::Degree) => s_vectors::solve(alloc, job),
    }
}
