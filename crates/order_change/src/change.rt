// The reduced basis in another order, one member after another.
ghost use Rattle.std.specs.Prelude.{◌≡◌, ◌<◌, ◌≤◌, ◌+◌, ◌++◌, ◌∷◌, ◌*◌, ℕ, [], List, false, true, IfOk, OnOk, IsTrue, get_or, length, slice_index, sum};
ghost use Rattle.monomials.specs.Exponents.{Exponents, exponents_of, unit};
ghost use Rattle.formal_sums.specs.FormalSums.{Each, FormalSum, IsSame};
ghost use Rattle.monomial_orders.specs.Kept.{IsWeighed, monomials};
ghost use Rattle.term_lists.specs.Rings.{ring_comparison};
ghost use Rattle.term_lists.specs.Vectors.{IsVector, sum_of, sums_of};
ghost use Rattle.change_laws.specs.Combinations.{IsSameModulo, expansion};
ghost use Rattle.change_laws.specs.Standard.{Has};
ghost use Rattle.order_change.specs.Changing.{AreVariableProducts, IsMonomialAdded, IsChanged, IsChanging, IsFormModulo, IsKnownSoFar, IsNextMonomial, IsRest};
ghost use Rattle.order_change.specs.Forms.{AreResidues, IsRowForm, monomial_vector};
ghost use Rattle.order_change.specs.Lists.{AreMonomials};
ghost use Rattle.order_change.specs.Products.{HadAllItems, variable_product_at};
ghost use Rattle.order_change.specs.Rows.{AreRows, AreSame, IsCleared};
ghost use Rattle.order_change.specs.Tables.{IsBasisGiven, IsTableOver};
ghost use Rattle.order_change.specs.declared.rows.Row.{Row as RowValue};

use crate::enumeration::is_new;
use crate::forms::{Form, multiple_of, times_variable};
use crate::products::{Candidate, Turns, least_product};
use crate::rows::{Row, clear_pivots};
use crate::sums::Sums;
use crate::table::Table;
use module_vectors::{Key, NoMemory, Ring, Vect, VectList, lawful_setting};
use monomial_orders::{Mono, Weights};
use std::alloc::Global;
use zp_field::Modulus;

/// What is known so far: the standard monomials of the new order, ascending, with their forms and their rows; the members of the new basis
/// and their leads, the greatest first; and for each variable the standard monomial whose turn it is.
#[derive(Drop)]
pub(crate) struct Change {
    monomials: Vec<Mono>,
    forms: Vec<Form>,
    rows: Vec<Row>,
    leads: Vec<Mono>,
    pub(crate) members: Vec<Vect>,
    turns: Turns,
}

/// A form without the rows, and the combination of the new standard monomials that is left.
struct Rest {
    form: Form,
    combination: Form,
}

// By hand, so that each drop of one is a call.
impl Drop for Rest {
    fn drop(self) {
        let Rest {
            form: _,
            combination: _,
        } = self;
    }
}

// What is left of the form of one more monomial without the rows, which are of those before it.
fn rest_of(alloc: Global, modulus: &Modulus, rows: &[Row], form: &Form) -> Result<Rest, NoMemory>
    requires few { length rows.now < 65536 }
    requires rows { AreRows modulus.now.value (length form.now) (length rows.now + 1) rows.now }
    requires form { AreResidues modulus.now.value (length form.now) form.now }
    requires before { (l : ℕ) (row : RowValue) → l < length rows.now → get_or rows.now l row ≡ row → slice_index row.combination (length rows.now) ≡ 0 }
    ensures form { IfOk result (λ rest. AreResidues modulus.now.value (length form.now) rest.form) }
    ensures combination { IfOk result (λ rest. AreResidues modulus.now.value (length rows.now + 1) rest.combination) }
    ensures one { IfOk result (λ rest. slice_index rest.combination (length rows.now) ≡ 1) }
    ensures cleared { IfOk result (λ rest. IsCleared rows.now rest.form (length rows.now)) }
    ensures same { IfOk result (λ rest. (n : ℕ) (F : List (FormalSum n)) (B N : List (Exponents n)) → length rows.now < length N
        → AreSame modulus.now.value F B N rows.now → IsRowForm modulus.now.value F B (monomial_vector (get_or N (length rows.now) (unit n))) form.now
        → IsSameModulo modulus.now.value F (expansion B (slice_index rest.form)) (expansion N (slice_index rest.combination))) }
{
    modulus.domain();
    let at = rows.len();
    let mut unit = Form::zeros(alloc, at + 1)?;
    unit.add_at(modulus, at, 1);
    let mut left = Sums::of_form(alloc, form)?;
    let mut combination = Sums::of_form(alloc, &unit)?;
    clear_pivots(modulus, rows, &mut left, &mut combination);
    Ok(Rest {
        form: left.reduced(alloc, modulus)?,
        combination: combination.reduced(alloc, modulus)?,
    })
}

// The monomials with their residues.
fn terms_of(
    alloc: Global,
    weights: &Weights,
    modulus: &Modulus,
    list: &[Mono],
    residues: &Form,
) -> Result<Vec<(Key, u32)>, NoMemory>
    requires list { AreMonomials (length weights.now) weights.now list.now }
    requires residues { (k : ℕ) → slice_index residues.now k < modulus.now.value }
    requires long { length list.now ≤ length residues.now }
    ensures terms { IfOk result (λ terms. Each (λ t. IsWeighed (length weights.now) weights.now t.0.monomial × (t.1 < modulus.now.value)) terms.items) }
    ensures sum { let n = length weights.now in
        IfOk result (λ terms. sum_of n terms.items ≡ expansion (monomials n list.now) (slice_index residues.now)) }
{
    let mut terms = Vec::new(alloc);
    for k in 0..list.len() {
        let key = Key {
            position: 0,
            monomial: list[k].try_copy(alloc)?,
        };
        terms.push((key, residues.at(k)))?;
    }
    Ok(terms)
}

// The member whose terms are the monomials, and m behind them, with these residues.
fn member(
    alloc: Global,
    ring: &Ring,
    list: &[Mono],
    m: &Mono,
    residues: &Form,
) -> Result<Vect, NoMemory>
    requires list { AreMonomials (length ring.now.weights) ring.now.weights list.now }
    requires monomial { IsWeighed (length ring.now.weights) ring.now.weights m.now }
    requires residues { AreResidues ring.now.modulus.value (length list.now + 1) residues.now }
    requires one { slice_index residues.now (length list.now) ≡ 1 }
    ensures vector { let n = length ring.now.weights in IfOk result (IsVector n ring.now.weights ring.now.modulus.value (ring_comparison ring.now n)) }
    ensures sum { let n = length ring.now.weights in IfOk result (λ v. IsSame ring.now.modulus.value (sum_of n v)
        (expansion (monomials n list.now ++ exponents_of n m.now.exponents ∷ []) (slice_index residues.now))) }
{
    ring.modulus.domain();
    let mut terms = terms_of(alloc, &ring.weights, &ring.modulus, list, residues)?;
    let key = Key {
        position: 0,
        monomial: m.try_copy(alloc)?,
    };
    terms.push((key, 1))?;
    Vect::from_terms(alloc, ring, terms)
}

impl Change {
    /// Nothing yet.
    pub(crate) fn new(alloc: Global, weights: &Weights) -> Result<Change, NoMemory>
        ensures turns { IfOk result (λ c. length c.turns ≡ length weights.now) }
        ensures zeros { IfOk result (λ c. (v : ℕ) → slice_index c.turns v ≡ 0) }
        ensures monomials { IfOk result (λ c. c.monomials.items ≡ []) }
        ensures forms { IfOk result (λ c. c.forms.items ≡ []) }
        ensures rows { IfOk result (λ c. c.rows.items ≡ []) }
        ensures leads { IfOk result (λ c. c.leads.items ≡ []) }
        ensures members { IfOk result (λ c. c.members.items ≡ []) }
    {
        Ok(Change {
            monomials: Vec::new(alloc),
            forms: Vec::new(alloc),
            rows: Vec::new(alloc),
            leads: Vec::new(alloc),
            members: Vec::new(alloc),
            turns: Turns::first(alloc, weights.len())?,
        })
    }

    // m is the lead of a member, as its form is a combination of those of the standard monomials below it.
    fn add_member(
        &mut self,
        alloc: Global,
        ring: &Ring,
        _basis: &VectList,
        _standard: &[Mono],
        m: Mono,
        rest: &Rest,
    ) -> Result<(), NoMemory>
        requires known { let n = length ring.now.weights in IsKnownSoFar n ring.now (sums_of n _basis.now) (monomials n _standard.now) self.old }
        requires next { IsNextMonomial (length ring.now.weights) ring.now self.old m }
        requires rest { let n = length ring.now.weights in
            IsRest n ring.now (sums_of n _basis.now) (monomials n _standard.now) self.old m rest.now.form rest.now.combination }
        requires zero { (k : ℕ) → k < length rest.now.form → slice_index rest.now.form k ≡ 0 }
        ensures known { let n = length ring.now.weights in OnOk result (IsKnownSoFar n ring.now (sums_of n _basis.now) (monomials n _standard.now) self.new) }
        ensures added { OnOk result (IsMonomialAdded self.old self.new m) }
    {
        lawful_setting(ring);
        let vector = member(alloc, ring, &self.monomials, &m, &rest.combination)?;
        self.members.insert(0, vector)?;
        self.leads.insert(0, m)?;
        Ok(())
    }

    // m is standard, with a row of its own: what is left of its form has a residue at the pivot.
    fn add_standard(
        &mut self,
        alloc: Global,
        ring: &Ring,
        _basis: &VectList,
        _standard: &[Mono],
        m: Mono,
        form: Form,
        rest: &Rest,
        pivot: usize,
    ) -> Result<(), NoMemory>
        requires known { let n = length ring.now.weights in IsKnownSoFar n ring.now (sums_of n _basis.now) (monomials n _standard.now) self.old }
        requires next { IsNextMonomial (length ring.now.weights) ring.now self.old m }
        requires form { let n = length ring.now.weights in
            IsFormModulo n ring.now (sums_of n _basis.now) (monomials n _standard.now) (exponents_of n m.exponents) form }
        requires rest { let n = length ring.now.weights in
            IsRest n ring.now (sums_of n _basis.now) (monomials n _standard.now) self.old m rest.now.form rest.now.combination }
        requires pivot { pivot < length rest.now.form }
        requires nonzero { 0 < slice_index rest.now.form pivot }
        ensures known { let n = length ring.now.weights in OnOk result (IsKnownSoFar n ring.now (sums_of n _basis.now) (monomials n _standard.now) self.new) }
        ensures added { OnOk result (IsMonomialAdded self.old self.new m) }
    {
        lawful_setting(ring);
        let modulus = &ring.modulus;
        match modulus.invert(rest.form.at(pivot)) {
            Some(c) => {
                self.rows.push(Row {
                    form: multiple_of(alloc, modulus, c, &rest.form)?,
                    combination: multiple_of(alloc, modulus, c, &rest.combination)?,
                    pivot,
                })?;
                self.forms.push(form)?;
                self.monomials.push(m)?;
                Ok(())
            }
            None => unreachable!(),
        }
    }

    // A monomial that depends on the standard ones below it is the lead of a member; another one is standard.
    fn add(
        &mut self,
        alloc: Global,
        ring: &Ring,
        basis: &VectList,
        standard: &[Mono],
        m: Mono,
        form: Form,
    ) -> Result<(), NoMemory>
        requires known { let n = length ring.now.weights in IsKnownSoFar n ring.now (sums_of n basis.now) (monomials n standard.now) self.old }
        requires few { length standard.now ≤ 256 }
        requires next { IsNextMonomial (length ring.now.weights) ring.now self.old m }
        requires form { let n = length ring.now.weights in
            IsFormModulo n ring.now (sums_of n basis.now) (monomials n standard.now) (exponents_of n m.exponents) form }
        ensures known { let n = length ring.now.weights in OnOk result (IsKnownSoFar n ring.now (sums_of n basis.now) (monomials n standard.now) self.new) }
        ensures added { OnOk result (IsMonomialAdded self.old self.new m) }
    {
        lawful_setting(ring);
        let rest = rest_of(alloc, &ring.modulus, &self.rows, &form)?;
        match rest.form.first_nonzero() {
            None => self.add_member(alloc, ring, basis, standard, m, &rest),
            Some(pivot) => self.add_standard(alloc, ring, basis, standard, m, form, &rest, pivot),
        }
    }

    // The next product of a variable and a standard monomial, which is not standard yet and has no divisor among the leads.
    fn take(
        &mut self,
        alloc: Global,
        ring: &Ring,
        basis: &VectList,
        standard: &[Mono],
        table: &Table,
        candidate: Candidate,
    ) -> Result<(), NoMemory>
        requires known { let n = length ring.now.weights in IsKnownSoFar n ring.now (sums_of n basis.now) (monomials n standard.now) self.old }
        requires few { length standard.now ≤ 256 }
        requires table { let n = length ring.now.weights in AreVariableProducts n ring.now.modulus.value (sums_of n basis.now) (monomials n standard.now) table.now }
        requires next { IsNextMonomial (length ring.now.weights) ring.now self.old candidate.monomial }
        requires variable { candidate.variable < length ring.now.weights }
        requires parent { candidate.parent < length self.old.monomials.items }
        requires product { let n = length ring.now.weights in exponents_of n candidate.monomial.exponents
            ≡ variable_product_at n (monomials n self.old.monomials.items) candidate.variable candidate.parent }
        ensures known { let n = length ring.now.weights in OnOk result (IsKnownSoFar n ring.now (sums_of n basis.now) (monomials n standard.now) self.new) }
        ensures added { OnOk result (IsMonomialAdded self.old self.new candidate.monomial) }
    {
        let rows = table.of_variable(candidate.variable);
        let form = times_variable(alloc, &ring.modulus, rows, &self.forms[candidate.parent])?;
        self.add(alloc, ring, basis, standard, candidate.monomial, form)
    }

    /// Begins with 1, of which this is the form.
    pub(crate) fn begin(
        alloc: Global,
        ring: &Ring,
        basis: &VectList,
        standard: &[Mono],
        form: Form,
    ) -> Result<Change, NoMemory>
        requires few { length standard.now ≤ 256 }
        requires form { let n = length ring.now.weights in IsFormModulo n ring.now (sums_of n basis.now) (monomials n standard.now) (unit n) form }
        ensures { let n = length ring.now.weights in IfOk result (IsChanging n ring.now (sums_of n basis.now) (monomials n standard.now)) }
    {
        let one = Mono::unit(alloc, ring.weights.len())?;
        let mut change = Change::new(alloc, &ring.weights)?;
        change.add(alloc, ring, basis, standard, one, form)?;
        Ok(change)
    }

    /// Takes the least product whose turn it is, or answers false where there is none. What is standard already, or has a divisor among
    /// the leads, is passed over.
    pub(crate) fn advance(
        &mut self,
        alloc: Global,
        ring: &Ring,
        basis: &VectList,
        standard: &[Mono],
        table: &Table,
    ) -> Result<bool, NoMemory>
        requires changing { let n = length ring.now.weights in IsChanging n ring.now (sums_of n basis.now) (monomials n standard.now) self.old }
        requires few { length standard.now ≤ 256 }
        requires table { let n = length ring.now.weights in AreVariableProducts n ring.now.modulus.value (sums_of n basis.now) (monomials n standard.now) table.now }
        ensures changing { let n = length ring.now.weights in OnOk result (IsChanging n ring.now (sums_of n basis.now) (monomials n standard.now) self.new) }
        ensures more { IfOk result (λ more. more ≡ true → (sum self.new.turns ≡ sum self.old.turns + 1)
            × (sum self.old.turns < length self.old.turns * length standard.now) × (length self.new.turns ≡ length self.old.turns)) }
        ensures over { IfOk result (λ more. more ≡ false → HadAllItems (slice_index self.new.turns) (length ring.now.weights) (length self.new.monomials.items)) }
    {
        lawful_setting(ring);
        match least_product(
            alloc,
            &ring.weights,
            ring.order,
            &self.monomials,
            &self.turns,
        )? {
            Some(candidate) => {
                self.turns.pass(candidate.variable);
                if is_new(
                    &ring.weights,
                    &self.leads,
                    &self.monomials,
                    &candidate.monomial,
                ) {
                    self.take(alloc, ring, basis, standard, table, candidate)?;
                    Ok(true)
                } else {
                    drop(candidate);
                    Ok(true)
                }
            }
            None => Ok(false),
        }
    }
}

/// The members of the reduced basis in this ring's order, the greatest lead first, from the table of a basis in another order and the form
/// of 1.
pub(crate) fn changed(
    alloc: Global,
    ring: &Ring,
    basis: &VectList,
    standard: &[Mono],
    table: &Table,
    form: Form,
) -> Result<Vec<Vect>, NoMemory>
    requires few { length standard.now ≤ 256 }
    requires form { let n = length ring.now.weights in IsFormModulo n ring.now (sums_of n basis.now) (monomials n standard.now) (unit n) form }
    requires table { let n = length ring.now.weights in AreVariableProducts n ring.now.modulus.value (sums_of n basis.now) (monomials n standard.now) table.now }
    ensures { let n = length ring.now.weights in
        IfOk result (λ members. IsChanged n ring.now (sums_of n basis.now) (monomials n standard.now) members.items) }
{
    let mut change = Change::begin(alloc, ring, basis, standard, form)?;
    while change.advance(alloc, ring, basis, standard, table)? {}
    Ok(change.members)
}
