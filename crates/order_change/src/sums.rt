// Sums of multiples of forms.
ghost use Rattle.std.specs.Prelude.{◌≡◌, ◌<◌, ◌≤◌, ◌+◌, ◌*◌, ◌%◌, ℕ, IfOk, length, slice_index};
ghost use Rattle.residues.specs.Residues.{IsCongruent};

use crate::forms::Form;
use module_vectors::NoMemory;
use std::alloc::Global;
use std::marker::Model;
use zp_field::Modulus;

/// Numbers below p * p, each for its residue modulo p: a sum of products of residues is divided once, at its end. Contracts see the list of
/// numbers.
pub(crate) struct Sums {
    numbers: Vec<u64>,
}

// By hand, so that each drop of one is a call.
impl Drop for Sums {
    fn drop(self) {
        let Sums { numbers: _ } = self;
    }
}

impl Model for Sums {
    ghost use Rattle.std.specs.Prelude.{ℕ, List};

    ghost Value = { List ℕ };

    ghost view = { λ s. s.numbers.items };
}

// `sum` and a product of residues, less p * p where that is too great.
fn add_product(modulus: &Modulus, square: u64, sum: u64, factor: u32, residue: u32) -> u64
    requires square { square ≡ modulus.now.value * modulus.now.value }
    requires sum { sum < modulus.now.value * modulus.now.value }
    requires factor { factor < modulus.now.value }
    requires residue { residue < modulus.now.value }
    ensures small { result < modulus.now.value * modulus.now.value }
    ensures congruent { IsCongruent modulus.now.value result (sum + factor * residue) }
{
    modulus.domain();
    let more = sum + u64::from(factor) * u64::from(residue);
    if more < square { more } else { more - square }
}

impl Sums {
    /// So many zeros.
    pub(crate) fn zeros(alloc: Global, long: usize) -> Result<Sums, NoMemory>
        ensures long { IfOk result (λ s. length s ≡ long) }
        ensures zeros { IfOk result (λ s. (k : ℕ) → slice_index s k ≡ 0) }
    {
        Ok(Sums {
            numbers: vec![in alloc; 0; long]?,
        })
    }

    // The number at an index.
    fn at(&self, k: usize) -> u64
        requires { k < length self.now }
        ensures { result ≡ slice_index self.now k }
    {
        self.numbers[k]
    }

    // Puts a number at an index.
    fn put(&mut self, k: usize, number: u64)
        requires { k < length self.old }
        ensures long { length self.new ≡ length self.old }
        ensures at { slice_index self.new k ≡ number }
        ensures others { (j : ℕ) → (j ≡ k → ⊥) → slice_index self.new j ≡ slice_index self.old j }
    {
        self.numbers[k] = number;
    }

    /// The residues of a form.
    pub(crate) fn of_form(alloc: Global, form: &Form) -> Result<Sums, NoMemory>
        ensures long { IfOk result (λ s. length s ≡ length form.now) }
        ensures same { IfOk result (λ s. (k : ℕ) → k < length form.now → slice_index s k ≡ slice_index form.now k) }
    {
        let mut sums = Sums::zeros(alloc, form.len())?;
        for k in 0..form.len() {
            sums.put(k, u64::from(form.at(k)));
        }
        Ok(sums)
    }

    /// The residue at an index.
    pub(crate) fn residue_at(&self, modulus: &Modulus, k: usize) -> u32
        requires { k < length self.now }
        ensures value { result ≡ slice_index self.now k % modulus.now.value }
        ensures small { result < modulus.now.value }
    {
        modulus.domain();
        (self.numbers[k] % u64::from(modulus.value())) as u32
    }

    /// Adds c times a form, which is not longer.
    pub(crate) fn add_multiple(&mut self, modulus: &Modulus, c: u32, form: &Form)
        requires long { length form.now ≤ length self.old }
        requires factor { c < modulus.now.value }
        requires numbers { (j : ℕ) → slice_index self.old j < modulus.now.value * modulus.now.value }
        requires residues { (j : ℕ) → slice_index form.now j < modulus.now.value }
        ensures long { length self.new ≡ length self.old }
        ensures numbers { (j : ℕ) → slice_index self.new j < modulus.now.value * modulus.now.value }
        ensures sums { (j : ℕ) → IsCongruent modulus.now.value (slice_index self.new j) (slice_index self.old j + c * slice_index form.now j) }
    {
        modulus.domain();
        let square = u64::from(modulus.value()) * u64::from(modulus.value());
        for k in form.low()..form.high() {
            let sum = add_product(modulus, square, self.at(k), c, form.at(k));
            self.put(k, sum);
        }
    }

    /// The form of the residues.
    pub(crate) fn reduced(&self, alloc: Global, modulus: &Modulus) -> Result<Form, NoMemory>
        ensures long { IfOk result (λ f. length f ≡ length self.now) }
        ensures same { IfOk result (λ f. (k : ℕ) → k < length self.now → slice_index f k ≡ slice_index self.now k % modulus.now.value) }
    {
        let mut residues = Vec::with_capacity(alloc, self.numbers.len())?;
        for k in 0..self.numbers.len() {
            residues.push(self.residue_at(modulus, k))?;
        }
        Ok(Form::from_vec(residues))
    }
}
