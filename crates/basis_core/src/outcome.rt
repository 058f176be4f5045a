// What a worker hands in.
ghost use Rattle.std.specs.Prelude.{◌≡◌};

use crate::job::Job;
use member_products::Reduct;
use monomial_orders::Mono;
use std::marker::Model;

/// Rows over which, with the members of the job, the job's pairs have lcm representations. The rows are fewer than twice
/// the pairs, with leads below the job's greatest lcm; each is a sum of products (k, t) of member k and monomial t, with
/// coefficients, that the outcome lists; each of these begins with a pair of the job or a monomial of an earlier one.
pub struct Outcome {
    job: Job,
    rows: Vec<Reduct>,
    products: Vec<(u64, Mono)>,
}

// By hand, so that each drop of one is a call.
impl Drop for Outcome {
    fn drop(self) {
        let Outcome {
            job: _,
            rows: _,
            products: _,
        } = self;
    }
}

impl Model for Outcome {
    ghost use Rattle.basis_core.specs.Outcomes.{OutcomeShown, IsOutcomeOver};

    ghost Value = { OutcomeShown };

    ghost view = { λ o. record { job = o.job; rows = o.rows.items; products = o.products.items } };

    ghost invariant = { λ o. IsOutcomeOver (record { job = o.job; rows = o.rows.items; products = o.products.items }) };
}

impl Outcome {
    ghost use Rattle.basis_core.specs.Outcomes.{IsOutcomeOver};

    /// The outcome of a job, which must be one. It takes no memory.
    pub fn new(job: Job, rows: Vec<Reduct>, products: Vec<(u64, Mono)>) -> Outcome
        requires { IsOutcomeOver (record { job = job; rows = rows.items; products = products.items }) }
        ensures job { result.job ≡ job }
        ensures rows { result.rows ≡ rows.items }
        ensures products { result.products ≡ products.items }
    {
        Outcome {
            job,
            rows,
            products,
        }
    }

    /// What holds of each outcome.
    pub fn kept(&self)
        ensures { IsOutcomeOver self.now }
    {
        let _ = &self.rows;
    }

    /// Its job.
    pub fn job(&self) -> &Job
        ensures { result.now ≡ self.now.job }
    {
        &self.job
    }

    /// Its rows.
    pub fn rows(&self) -> &[Reduct]
        ensures { result.now ≡ self.now.rows }
    {
        &self.rows
    }

    /// Its products.
    pub fn products(&self) -> &[(u64, Mono)]
        ensures { result.now ≡ self.now.products }
    {
        &self.products
    }
}
