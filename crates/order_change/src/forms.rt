// Normal forms by their residues over the standard monomials.
ghost use Rattle.std.specs.Prelude.{◌≡◌, ◌<◌, ◌≤◌, ◌+◌, ◌*◌, ◌%◌, ℕ, List, [], IfOk, IfSome, IfNone, get_or, length, slice_index};
ghost use Rattle.monomials.specs.Exponents.{Exponents};
ghost use Rattle.formal_sums.specs.FormalSums.{Each, FormalSum, scale};
ghost use Rattle.residues.specs.Residues.{IsCongruent};
ghost use Rattle.change_laws.specs.Combinations.{expansion};
ghost use Rattle.order_change.specs.Forms.{AreProductsOf, AreResidues, IsRowForm};

use crate::sums::Sums;
use module_vectors::NoMemory;
use std::alloc::Global;
use std::marker::Model;
use zp_field::Modulus;

/// The residues of a normal form, one for each standard monomial, and between which indices they stand: the others are 0. Contracts see
/// their list.
pub(crate) struct Form {
    residues: Vec<u32>,
    low: usize,
    high: usize,
}

// By hand, so that each drop of one is a call.
impl Drop for Form {
    fn drop(self) {
        let Form {
            residues: _,
            low: _,
            high: _,
        } = self;
    }
}

impl Model for Form {
    ghost use Rattle.std.specs.Prelude.{ℕ, List};
    ghost use Rattle.order_change.specs.Forms.{IsFormWithin};

    ghost Value = { List ℕ };

    ghost view = { λ f. f.residues.items };

    ghost invariant = { λ f. IsFormWithin f.low f.high f.residues.items };
}

// How many residues in front are 0.
fn zeros_in_front(residues: &[u32]) -> usize
    ensures { (j : ℕ) → j < result → slice_index residues.now j ≡ 0 }
{
    for k in 0..residues.len() {
        if residues[k] > 0 {
            return k;
        }
    }
    residues.len()
}

// The index behind the last residue that is not 0.
fn end_of(residues: &[u32]) -> usize
    ensures within { result ≤ length residues.now }
    ensures behind { (j : ℕ) → result ≤ j → slice_index residues.now j ≡ 0 }
{
    let mut end = 0;
    for k in 0..residues.len() {
        if residues[k] > 0 {
            end = k + 1;
        }
    }
    end
}

impl Form {
    /// So many zeros.
    pub(crate) fn zeros(alloc: Global, long: usize) -> Result<Form, NoMemory>
        ensures long { IfOk result (λ f. length f ≡ long) }
        ensures zeros { IfOk result (λ f. (k : ℕ) → slice_index f k ≡ 0) }
    {
        Ok(Form {
            residues: vec![in alloc; 0; long]?,
            low: long,
            high: 0,
        })
    }

    /// The form of these residues.
    pub(crate) fn from_vec(residues: Vec<u32>) -> Form
        ensures { result ≡ residues.items }
    {
        let low = zeros_in_front(&residues);
        let high = end_of(&residues);
        Form {
            residues,
            low,
            high,
        }
    }

    /// How many residues there are.
    pub(crate) fn len(&self) -> usize
        ensures { result ≡ length self.now }
    {
        self.residues.len()
    }

    /// The residue at an index.
    pub(crate) fn at(&self, k: usize) -> u32
        requires { k < length self.now }
        ensures { result ≡ slice_index self.now k }
    {
        self.residues[k]
    }

    /// An index before which all residues are 0.
    pub(crate) fn low(&self) -> usize
        ensures { (j : ℕ) → j < result → slice_index self.now j ≡ 0 }
    {
        self.low
    }

    /// An index from which on all residues are 0.
    pub(crate) fn high(&self) -> usize
        ensures within { result ≤ length self.now }
        ensures behind { (j : ℕ) → result ≤ j → slice_index self.now j ≡ 0 }
    {
        self.high
    }

    /// The first index with a residue that is not 0.
    pub(crate) fn first_nonzero(&self) -> Option<usize>
        ensures some { IfSome result (λ k. (k < length self.now) × (0 < slice_index self.now k)) }
        ensures none { IfNone result ((k : ℕ) → k < length self.now → slice_index self.now k ≡ 0) }
    {
        for k in 0..self.len() {
            if self.at(k) > 0 {
                return Some(k);
            }
        }
        None
    }

    /// Adds a residue at an index.
    pub(crate) fn add_at(&mut self, modulus: &Modulus, k: usize, c: u32)
        requires index { k < length self.old }
        requires residue { c < modulus.now.value }
        requires residues { (j : ℕ) → slice_index self.old j < modulus.now.value }
        ensures long { length self.new ≡ length self.old }
        ensures residues { (j : ℕ) → slice_index self.new j < modulus.now.value }
        ensures at { slice_index self.new k ≡ (slice_index self.old k + c) % modulus.now.value }
        ensures others { (j : ℕ) → (j ≡ k → ⊥) → slice_index self.new j ≡ slice_index self.old j }
    {
        let sum = modulus.add(self.residues[k], c);
        self.residues[k] = sum;
        self.low = self.low.min(k);
        self.high = self.high.max(k + 1);
    }
}

/// c times a form.
pub(crate) fn multiple_of(
    alloc: Global,
    modulus: &Modulus,
    c: u32,
    form: &Form,
) -> Result<Form, NoMemory>
    requires factor { c < modulus.now.value }
    requires residues { (j : ℕ) → slice_index form.now j < modulus.now.value }
    ensures long { IfOk result (λ f. length f ≡ length form.now) }
    ensures residues { IfOk result (λ f. (j : ℕ) → slice_index f j < modulus.now.value) }
    ensures multiple { IfOk result (λ f. (j : ℕ) → IsCongruent modulus.now.value (slice_index f j) (c * slice_index form.now j)) }
{
    modulus.domain();
    let mut multiple = Sums::zeros(alloc, form.len())?;
    multiple.add_multiple(modulus, c, form);
    multiple.reduced(alloc, modulus)
}

/// The form of a variable times what has this form, from the forms of its products with the standard monomials.
pub(crate) fn times_variable(
    alloc: Global,
    modulus: &Modulus,
    rows: &[Form],
    form: &Form,
) -> Result<Form, NoMemory>
    requires covered { (k : ℕ) → 0 < slice_index form.now k → k < length rows.now }
    requires rows { Each (AreResidues modulus.now.value (length form.now)) rows.now }
    requires residues { (j : ℕ) → slice_index form.now j < modulus.now.value }
    ensures residues { IfOk result (AreResidues modulus.now.value (length form.now)) }
    ensures zeros { IfOk result (λ out. (t : ℕ) → ((s : ℕ) → 0 < slice_index form.now s → slice_index (get_or rows.now s []) t ≡ 0) → slice_index out t ≡ 0) }
    ensures product { IfOk result (λ out. (n : ℕ) (F : List (FormalSum n)) (B : List (Exponents n)) (x : Exponents n) → length B ≡ length form.now
        → AreProductsOf modulus.now.value F B x rows.now form.now
        → IsRowForm modulus.now.value F B (scale 1 x (expansion B (slice_index form.now))) out) }
{
    modulus.domain();
    let mut product = Sums::zeros(alloc, form.len())?;
    for k in 0..form.len() {
        let c = form.at(k);
        if c > 0 {
            product.add_multiple(modulus, c, &rows[k]);
        }
    }
    product.reduced(alloc, modulus)
}
