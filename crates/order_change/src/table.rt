// The normal forms of the products of variables and standard monomials.
ghost use Rattle.std.specs.Prelude.{◌≡◌, ◌<◌, ◌+◌, ◌*◌, ◌++◌, ◌∷◌, ℕ, [], false, true, IfNone, IfOk, IfSome, OnOk, get_or, length, slice_index, sum};
ghost use Rattle.monomials.specs.Exponents.{Divides, exponents_of, unit};
ghost use Rattle.formal_sums.specs.FormalSums.{IsSame};
ghost use Rattle.monomial_orders.specs.Comparisons.{comparison};
ghost use Rattle.monomial_orders.specs.Kept.{IsWeighed, monomials};
ghost use Rattle.term_lists.specs.Vectors.{sum_of};
ghost use Rattle.change_laws.specs.Combinations.{expansion};
ghost use Rattle.change_laws.specs.Standard.{Has, IsStandard};
ghost use Rattle.order_change.specs.Forms.{AreResidues};
ghost use Rattle.order_change.specs.Lists.{AreMonomials};
ghost use Rattle.order_change.specs.Products.{HadAllItems, IsCandidate, IsLeast};
ghost use Rattle.order_change.specs.Tables.{AreFormsOver, AreTailTerms, IsFillingOver, IsFormOver, IsBasisGiven, IsSmaller, IsSpare, IsSupported, IsTableOver};

use crate::forms::{Form, times_variable};
use crate::leads::position;
use crate::products::{Candidate, Turns, least_product};
use module_vectors::{Key, NoMemory, Ring, VectList};
use monomial_orders::{Mono, Weights};
use std::alloc::Global;
use std::marker::Model;
use zp_field::Modulus;

/// The first rows of the multiplication matrix of a variable: the normal forms of its products with the first standard monomials
/// (Faugère, Gianni, Lazard, Mora 1993, section 3). Contracts see the list of rows.
pub(crate) struct Matrix {
    rows: Vec<Form>,
}

// By hand, so that each drop of one is a call.
impl Drop for Matrix {
    fn drop(self) {
        let Matrix { rows: _ } = self;
    }
}

impl Model for Matrix {
    ghost use Rattle.std.specs.Prelude.{ℕ, List};

    ghost Value = { List (List ℕ) };

    ghost view = { λ m. m.rows.items };
}

/// The matrix of each variable. Contracts see the list of their lists of rows.
pub(crate) struct Table {
    matrices: Vec<Matrix>,
}

// By hand, so that each drop of one is a call.
impl Drop for Table {
    fn drop(self) {
        let Table { matrices: _ } = self;
    }
}

impl Model for Table {
    ghost use Rattle.std.specs.Prelude.{ℕ, List};

    ghost Value = { List (List (List ℕ)) };

    ghost view = { λ t. t.matrices.items };
}

impl Table {
    // No row yet.
    fn empty(alloc: Global, variables: usize) -> Result<Table, NoMemory>
        ensures long { IfOk result (λ t. length t ≡ variables) }
        ensures rows { IfOk result (λ t. (v : ℕ) → get_or t v [] ≡ []) }
    {
        let mut matrices = Vec::with_capacity(alloc, variables)?;
        for _ in 0..variables {
            matrices.push_reserved(Matrix {
                rows: Vec::new(alloc),
            });
        }
        Ok(Table { matrices })
    }

    /// The rows of a variable.
    pub(crate) fn of_variable(&self, v: usize) -> &[Form]
        requires { v < length self.now }
        ensures { result.now ≡ get_or self.now v [] }
    {
        &self.matrices[v].rows
    }

    // One more row of a variable.
    fn push(&mut self, v: usize, form: Form) -> Result<(), NoMemory>
        requires { v < length self.old }
        ensures long { OnOk result (length self.new ≡ length self.old) }
        ensures at { OnOk result (get_or self.new v [] ≡ get_or self.old v [] ++ form ∷ []) }
        ensures others { OnOk result ((w : ℕ) → (w ≡ v → ⊥) → get_or self.new w [] ≡ get_or self.old w []) }
    {
        self.matrices[v].rows.push(form)?;
        Ok(())
    }
}

// The form of the standard monomial with an index.
fn standard_form(alloc: Global, modulus: &Modulus, long: usize, k: usize) -> Result<Form, NoMemory>
    requires index { k < long }
    ensures residues { IfOk result (AreResidues modulus.now.value long) }
    ensures at { IfOk result (λ f. slice_index f k ≡ 1) }
    ensures others { IfOk result (λ f. (j : ℕ) → (j ≡ k → ⊥) → slice_index f j ≡ 0) }
{
    modulus.domain();
    let mut form = Form::zeros(alloc, long)?;
    form.add_at(modulus, k, 1);
    Ok(form)
}

// Where a standard monomial stands.
fn place(weights: &Weights, standard: &[Mono], m: &Mono) -> usize
    requires standard { AreMonomials (length weights.now) weights.now standard.now }
    requires monomial { IsWeighed (length weights.now) weights.now m.now }
    requires has { let n = length weights.now in Has (monomials n standard.now) (exponents_of n m.now.exponents) }
    ensures within { result < length standard.now }
    ensures at { let n = length weights.now in get_or (monomials n standard.now) result (unit n) ≡ exponents_of n m.now.exponents }
{
    match position(weights, standard, m) {
        Some(k) => k,
        None => unreachable!(),
    }
}

// Minus the sum of these terms, whose monomials are standard.
fn negated(
    alloc: Global,
    ring: &Ring,
    standard: &[Mono],
    terms: &[(Key, u32)],
) -> Result<Form, NoMemory>
    requires standard { AreMonomials (length ring.now.weights) ring.now.weights standard.now }
    requires terms { let n = length ring.now.weights in AreTailTerms n ring.now.weights ring.now.modulus.value (monomials n standard.now) terms.now }
    ensures residues { IfOk result (AreResidues ring.now.modulus.value (length standard.now)) }
    ensures sum { let n = length ring.now.weights in
        IfOk result (λ f. IsSame ring.now.modulus.value (expansion (monomials n standard.now) (slice_index f) ++ sum_of n terms.now) []) }
    ensures support { let n = length ring.now.weights in IfOk result (IsSupported n (monomials n standard.now) terms.now (length terms.now)) }
{
    ring.modulus.domain();
    let mut form = Form::zeros(alloc, standard.len())?;
    for term in terms {
        let k = place(&ring.weights, standard, &term.0.monomial);
        form.add_at(&ring.modulus, k, ring.modulus.neg(term.1));
    }
    Ok(form)
}

// The form of a lead: minus the tail of its member, whose monomials are standard.
fn lead_form(
    alloc: Global,
    ring: &Ring,
    basis: &VectList,
    leads: &[Mono],
    standard: &[Mono],
    g: usize,
) -> Result<Form, NoMemory>
    requires given { IsBasisGiven (length ring.now.weights) ring.now basis.now leads.now standard.now }
    requires index { g < length leads.now }
    ensures { let n = length ring.now.weights in
        IfOk result (IsFormOver n ring.now basis.now standard.now (get_or (monomials n leads.now) g (unit n))) }
{
    match basis.as_slice()[g].terms().split_first() {
        Some((_, tail)) => negated(alloc, ring, standard, tail),
        None => unreachable!(),
    }
}

// The form of a monomial that is standard or a lead, or `None` where it is neither.
fn known_form(
    alloc: Global,
    ring: &Ring,
    basis: &VectList,
    leads: &[Mono],
    standard: &[Mono],
    m: &Mono,
) -> Result<Option<Form>, NoMemory>
    requires given { IsBasisGiven (length ring.now.weights) ring.now basis.now leads.now standard.now }
    requires monomial { IsWeighed (length ring.now.weights) ring.now.weights m.now }
    ensures some { let n = length ring.now.weights in
        IfOk result (λ answer. IfSome answer (IsFormOver n ring.now basis.now standard.now (exponents_of n m.now.exponents))) }
    ensures free { let n = length ring.now.weights in
        IfOk result (λ answer. IfNone answer (IsStandard (monomials n leads.now) (exponents_of n m.now.exponents) → ⊥)) }
    ensures other { let n = length ring.now.weights in
        IfOk result (λ answer. IfNone answer (Has (monomials n leads.now) (exponents_of n m.now.exponents) → ⊥)) }
{
    if let Some(k) = position(&ring.weights, standard, m) {
        let form = standard_form(alloc, &ring.modulus, standard.len(), k)?;
        return Ok(Some(form));
    }
    if let Some(g) = position(&ring.weights, leads, m) {
        let form = lead_form(alloc, ring, basis, leads, standard, g)?;
        return Ok(Some(form));
    }
    Ok(None)
}

// The first variable that m has.
fn first_variable(weights: &Weights, m: &Mono) -> Option<usize>
    requires { IsWeighed (length weights.now) weights.now m.now }
    ensures some { IfSome result (λ j. (j < length weights.now) × (0 < slice_index m.now.exponents j)) }
    ensures none { IfNone result ((j : ℕ) → j < length weights.now → slice_index m.now.exponents j ≡ 0) }
{
    for j in 0..weights.len() {
        if m.exponent(j) > 0 {
            return Some(j);
        }
    }
    None
}

// A variable by which m can be divided so that the lead still divides it.
fn spare_of(
    alloc: Global,
    weights: &Weights,
    lead: &Mono,
    m: &Mono,
) -> Result<Option<usize>, NoMemory>
    requires lead { IsWeighed (length weights.now) weights.now lead.now }
    requires monomial { IsWeighed (length weights.now) weights.now m.now }
    ensures some { let n = length weights.now in
        IfOk result (λ answer. IfSome answer (IsSpare n (exponents_of n lead.now.exponents ∷ []) (exponents_of n m.now.exponents))) }
    ensures none { let n = length weights.now in IfOk result (λ answer. IfNone answer
        (Divides (exponents_of n lead.now.exponents) (exponents_of n m.now.exponents) → exponents_of n lead.now.exponents ≡ exponents_of n m.now.exponents)) }
{
    match Mono::quotient(alloc, m, lead)? {
        Some(rest) => {
            let answer = first_variable(weights, &rest);
            drop(rest);
            Ok(answer)
        }
        None => Ok(None),
    }
}

// A variable by which m can be divided so that some lead still divides it, or `None` where each lead that divides m is m.
fn spare_variable(
    alloc: Global,
    weights: &Weights,
    leads: &[Mono],
    m: &Mono,
) -> Result<Option<usize>, NoMemory>
    requires leads { AreMonomials (length weights.now) weights.now leads.now }
    requires monomial { IsWeighed (length weights.now) weights.now m.now }
    ensures some { let n = length weights.now in
        IfOk result (λ answer. IfSome answer (IsSpare n (monomials n leads.now) (exponents_of n m.now.exponents))) }
    ensures none { let n = length weights.now in IfOk result (λ answer. IfNone answer ((k : ℕ) → k < length leads.now
        → Divides (get_or (monomials n leads.now) k (unit n)) (exponents_of n m.now.exponents)
        → get_or (monomials n leads.now) k (unit n) ≡ exponents_of n m.now.exponents)) }
{
    for lead in leads {
        match spare_of(alloc, weights, lead, m)? {
            Some(j) => return Ok(Some(j)),
            None => {}
        }
    }
    Ok(None)
}

// The index of a standard monomial without a variable that it has.
fn smaller_place(
    alloc: Global,
    weights: &Weights,
    standard: &[Mono],
    k: usize,
    j: usize,
) -> Result<Option<usize>, NoMemory>
    requires standard { AreMonomials (length weights.now) weights.now standard.now }
    requires index { k < length standard.now }
    requires variable { j < length weights.now }
    ensures some { let n = length weights.now in IfOk result (λ answer. IfSome answer (IsSmaller n (monomials n standard.now) k j)) }
    ensures none { let n = length weights.now in IfOk result (λ answer. IfNone answer ((h : ℕ) → IsSmaller n (monomials n standard.now) k j h → ⊥)) }
{
    let variable = Mono::variable(alloc, weights, j)?;
    match Mono::quotient(alloc, &standard[k], &variable)? {
        Some(smaller) => {
            let place = position(weights, standard, &smaller);
            drop(smaller);
            drop(variable);
            Ok(place)
        }
        None => {
            drop(variable);
            Ok(None)
        }
    }
}

// The form of a product that is not standard and no lead, where those of all lower products are known. It has a spare variable x_j:
// without it, it is the product of the candidate's variable and a standard monomial, is not standard and lower, so that its form
// is known, and so are those of x_j times the standard monomials in it.
fn border_form(
    alloc: Global,
    ring: &Ring,
    basis: &VectList,
    leads: &[Mono],
    standard: &[Mono],
    table: &Table,
    candidate: &Candidate,
) -> Result<Form, NoMemory>
    requires given { IsBasisGiven (length ring.now.weights) ring.now basis.now leads.now standard.now }
    requires table { length table.now ≡ length ring.now.weights }
    requires forms { AreFormsOver (length ring.now.weights) ring.now basis.now standard.now table.now }
    requires candidate { IsCandidate (length ring.now.weights) ring.now.weights standard.now (λ v. length (get_or table.now v [])) candidate.now }
    requires least { let n = length ring.now.weights in IsLeast n (comparison ring.now.order ring.now.weights n) (monomials n standard.now)
        (λ v. length (get_or table.now v [])) n (exponents_of n candidate.now.monomial.exponents) }
    requires free { let n = length ring.now.weights in IsStandard (monomials n leads.now) (exponents_of n candidate.now.monomial.exponents) → ⊥ }
    requires other { let n = length ring.now.weights in Has (monomials n leads.now) (exponents_of n candidate.now.monomial.exponents) → ⊥ }
    ensures { let n = length ring.now.weights in
        IfOk result (IsFormOver n ring.now basis.now standard.now (exponents_of n candidate.now.monomial.exponents)) }
{
    match spare_variable(alloc, &ring.weights, leads, &candidate.monomial)? {
        Some(j) => match smaller_place(alloc, &ring.weights, standard, candidate.parent, j)? {
            Some(k) => {
                let form = &table.of_variable(candidate.variable)[k];
                times_variable(alloc, &ring.modulus, table.of_variable(j), form)
            }
            None => unreachable!(),
        },
        None => unreachable!(),
    }
}

// The form of a product, where those of all lower products are known.
fn product_form(
    alloc: Global,
    ring: &Ring,
    basis: &VectList,
    leads: &[Mono],
    standard: &[Mono],
    table: &Table,
    candidate: &Candidate,
) -> Result<Form, NoMemory>
    requires given { IsBasisGiven (length ring.now.weights) ring.now basis.now leads.now standard.now }
    requires table { length table.now ≡ length ring.now.weights }
    requires forms { AreFormsOver (length ring.now.weights) ring.now basis.now standard.now table.now }
    requires candidate { IsCandidate (length ring.now.weights) ring.now.weights standard.now (λ v. length (get_or table.now v [])) candidate.now }
    requires least { let n = length ring.now.weights in IsLeast n (comparison ring.now.order ring.now.weights n) (monomials n standard.now)
        (λ v. length (get_or table.now v [])) n (exponents_of n candidate.now.monomial.exponents) }
    ensures { let n = length ring.now.weights in
        IfOk result (IsFormOver n ring.now basis.now standard.now (exponents_of n candidate.now.monomial.exponents)) }
{
    match known_form(alloc, ring, basis, leads, standard, &candidate.monomial)? {
        Some(form) => Ok(form),
        None => border_form(alloc, ring, basis, leads, standard, table, candidate),
    }
}

// The next row, that of the least product that is left, or false where there is none.
fn fill_next(
    alloc: Global,
    ring: &Ring,
    basis: &VectList,
    leads: &[Mono],
    standard: &[Mono],
    table: &mut Table,
    turns: &mut Turns,
) -> Result<bool, NoMemory>
    requires given { IsBasisGiven (length ring.now.weights) ring.now basis.now leads.now standard.now }
    requires filling { IsFillingOver (length ring.now.weights) ring.now basis.now standard.now turns.old table.old }
    ensures filling { OnOk result (IsFillingOver (length ring.now.weights) ring.now basis.now standard.now turns.new table.new) }
    ensures more { IfOk result (λ more. more ≡ true
        → (sum turns.new ≡ sum turns.old + 1) × (sum turns.old < length turns.old * length standard.now) × (length turns.new ≡ length turns.old)) }
    ensures over { IfOk result (λ more. more ≡ false → HadAllItems (slice_index turns.new) (length ring.now.weights) (length standard.now)) }
{
    match least_product(alloc, &ring.weights, ring.order, standard, turns)? {
        Some(candidate) => {
            let form = product_form(alloc, ring, basis, leads, standard, table, &candidate)?;
            let variable = candidate.variable;
            drop(candidate);
            table.push(variable, form)?;
            turns.pass(variable);
            Ok(true)
        }
        None => Ok(false),
    }
}

/// The table of all products, by ascending products in the ring's order.
pub(crate) fn product_forms(
    alloc: Global,
    ring: &Ring,
    basis: &VectList,
    leads: &[Mono],
    standard: &[Mono],
) -> Result<Table, NoMemory>
    requires { IsBasisGiven (length ring.now.weights) ring.now basis.now leads.now standard.now }
    ensures { IfOk result (IsTableOver (length ring.now.weights) ring.now basis.now standard.now) }
{
    let mut table = Table::empty(alloc, ring.weights.len())?;
    let mut turns = Turns::first(alloc, ring.weights.len())?;
    while fill_next(alloc, ring, basis, leads, standard, &mut table, &mut turns)? {}
    Ok(table)
}

/// The form of 1.
pub(crate) fn form_of_one(
    alloc: Global,
    ring: &Ring,
    basis: &VectList,
    leads: &[Mono],
    standard: &[Mono],
) -> Result<Form, NoMemory>
    requires { IsBasisGiven (length ring.now.weights) ring.now basis.now leads.now standard.now }
    ensures { let n = length ring.now.weights in IfOk result (IsFormOver n ring.now basis.now standard.now (unit n)) }
{
    let one = Mono::unit(alloc, ring.weights.len())?;
    match known_form(alloc, ring, basis, leads, standard, &one)? {
        Some(form) => {
            drop(one);
            Ok(form)
        }
        None => unreachable!(),
    }
}
