// All pairs of a job.
ghost use Rattle.std.specs.Prelude.{◌≡◌, ◌++◌, IfOk, IfErr, OnOk};
ghost use Rattle.basis_core.specs.Outcomes.{IsOutcomeOver};
ghost use Rattle.s_vectors.specs.Solutions.{row_list};
ghost use Rattle.s_vectors.specs.Trails.{JobStops};

use crate::division::{Division, divide_pair};
use crate::stops::PairStop;
use crate::trails::keep_trail;
use basis_core::{Job, Outcome};
use member_products::Reduct;
use module_vectors::{NoMemory, WorkStop};
use monomial_orders::Mono;
use std::alloc::Global;

// Rows of a job and the products that they are made of.
#[derive(Drop)]
struct Solution {
    rows: Vec<Reduct>,
    products: Vec<(u64, Mono)>,
}

// Puts the row and the products of one pair behind those of others.
fn add_division(solution: &mut Solution, division: Division) -> Result<(), NoMemory>
    ensures rows { OnOk result (solution.new.rows.items ≡ solution.old.rows.items ++ row_list division.row) }
    ensures products { OnOk result (solution.new.products.items ≡ solution.old.products.items ++ division.products.items) }
{
    let mut products = division.products;
    solution.products.append(&mut products)?;
    if let Some(row) = division.row {
        solution.rows.push(row)?;
    }
    Ok(())
}

// The rows of all pairs of the job, one pair after another.
fn solve_pairs(alloc: Global, job: &Job) -> Result<Solution, WorkStop>
    ensures outcome { IfOk result (λ s. IsOutcomeOver (record { job = job.now; rows = s.rows.items; products = s.products.items })) }
    ensures stop { IfErr result (JobStops job.now) }
{
    job.kept();
    let mut solution = Solution {
        rows: Vec::new(alloc),
        products: Vec::new(alloc),
    };
    for (number, pair) in job.pairs().iter().enumerate() {
        match divide_pair(alloc, job.members(), pair) {
            Ok(division) => add_division(&mut solution, division)?,
            Err(PairStop::Memory) => return Err(WorkStop::Memory),
            Err(PairStop::Degree(chain)) => {
                return Err(WorkStop::Degree(keep_trail(alloc, job, number, chain)?));
            }
        }
    }
    Ok(solution)
}

/// Solves a job by plain division: the S-vector of each of its pairs is divided by its members, and what is left becomes
/// a row, with the products that make it. IVA chapter 2, section 7.
///
/// `Degree` comes with a trail of the job to a product of degree above 65,535, `Memory` where there is none; both
/// give the job back.
pub fn solve(alloc: Global, job: Job) -> Result<Outcome, (WorkStop, Job)>
    ensures job { IfOk result (λ o. o.job ≡ job) }
    ensures back { IfErr result (λ e. e.1 ≡ job) }
    ensures stop { IfErr result (λ e. JobStops job e.0) }
{
    match solve_pairs(alloc, &job) {
        Ok(solution) => Ok(Outcome::new(job, solution.rows, solution.products)),
        Err(stop) => Err((stop, job)),
    }
}
