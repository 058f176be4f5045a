// A monomial.
ghost use Rattle.std.specs.Prelude.{ℕ, List, ◌≡◌, ◌≢◌, ◌<◌, ◌≤◌, ◌↔◌, ◌+◌, ◌*◌, ◌∷◌, drop, length, max, min, slice_index, take};
ghost use Rattle.std.specs.Prelude.{IsTrue, IsOk, Err, IfOk, IfErr, IfSome, OnOk};
ghost use Rattle.monomials.specs.Exponents.{Divides, IsWithin, exponents_of, lcm, times, unit};
ghost use Rattle.monomials.specs.Weights.{weighted_degree};
ghost use Rattle.monomial_orders.specs.Differences.{EndsDifferences};
ghost use Rattle.monomial_orders.specs.Kept.{HaveCommonWeights, IsWeighed};
ghost use Rattle.monomial_orders.specs.Storage.{IsFilled, IsKept, IsStored, monomial_of, places_of, stored_variables};
ghost use Rattle.monomial_orders.specs.Monomials.{IsMonomial, IsPlaceByPlace, IsQuotient, StopsAbove, variable};

use crate::places::total;
use crate::storage::{
    Stored, apart, differences, differing, divides, equal, maxima, one_at, store,
    store_behind_zero, sums, zeros,
};
use crate::{MonoStop, NoMemory, Weights};
use std::alloc::Global;
use std::marker::Model;

// The greatest degree of what `from_exponents` and `mul` make.
const MAX_DEGREE: u128 = 65535;

// The greatest degree that is kept.
const MAX_KEPT: u128 = 4294967295;

/// A monomial: an exponent for each variable of its ring, and its degree by the ring's weights.
///
/// Contracts see the two. Up to 16 variables need no memory of their own.
pub struct Mono {
    stored: Stored,
}

// By hand, so that each drop of one is a call.
impl Drop for Mono {
    fn drop(self) {
        let Mono { stored: _ } = self;
    }
}

impl Model for Mono {
    ghost use Rattle.monomial_orders.specs.Kept.{Monomial};
    ghost use Rattle.monomial_orders.specs.Storage.{IsKept, degree_kept, monomial_of, stored_variables};

    ghost Value = { Monomial };

    ghost view = { λ m. monomial_of (stored_variables m.stored) (degree_kept m.stored) m.stored };

    ghost invariant = { λ m. IsKept (stored_variables m.stored) (degree_kept m.stored) m.stored };
}

// The degree of these exponents of n variables by the weights.
fn degree_of(weights: &Weights, n: usize, stored: &Stored) -> u128
    requires weights { length weights.now ≡ n }
    requires filled { IsFilled n stored.now }
    ensures value { result ≡ weighted_degree weights.now (exponents_of n (take n (places_of stored.now))) }
    ensures held { (k : ℕ) → slice_index (places_of stored.now) k ≤ result }
    ensures small { result ≤ 16711425 * n }
{
    let (exponents, _) = stored.as_slice().split_at(n);
    total(weights.as_slice(), exponents)
}

impl Mono {
    // The monomial that is stored so, with this degree.
    fn keep(stored: Stored, degree: u128) -> Mono
        requires { IsKept (stored_variables stored) degree stored }
        ensures { result ≡ monomial_of (stored_variables stored) degree stored }
    {
        Mono {
            stored: stored.with_degree(degree),
        }
    }

    // How it is stored.
    fn kept(&self) -> &Stored
        ensures { IsStored self.now result.now }
    {
        &self.stored
    }

    /// The monomial with these exponents, in a ring of these weights. `Degree` exactly where its degree is above 65,535;
    /// `Memory` over more than 16 variables alone.
    pub fn from_exponents(
        alloc: Global,
        weights: &Weights,
        exponents: &[u16],
    ) -> Result<Mono, MonoStop>
        requires variables { length weights.now ≡ length exponents.now }
        ensures ok { IfOk result (λ m. m.exponents ≡ exponents.now) }
        ensures weighed { IfOk result (IsWeighed (length exponents.now) weights.now) }
        ensures small { OnOk result (weighted_degree weights.now (exponents_of (length exponents.now) exponents.now) ≤ 65535) }
        ensures above { 65535 < weighted_degree weights.now (exponents_of (length exponents.now) exponents.now)
            → result ≡ Err MonoStop.Degree }
        ensures stop { IfErr result (StopsAbove (weighted_degree weights.now (exponents_of (length exponents.now) exponents.now))) }
        ensures no_memory { length exponents.now ≤ 16 → result ≢ Err MonoStop.Memory }
    {
        let degree = total(weights.as_slice(), exponents);
        if degree > MAX_DEGREE {
            return Err(MonoStop::Degree);
        }
        let stored = store(alloc, exponents)?;
        Ok(Mono::keep(stored, degree))
    }

    /// The monomial 1 in n variables, of whatever weights.
    pub fn unit(alloc: Global, n: usize) -> Result<Mono, NoMemory>
        ensures ok { IfOk result (λ m. IsMonomial n (unit n) m.exponents) }
        ensures weighed { IfOk result (λ m. (ws : List ℕ) → IsWeighed n ws m) }
        ensures degree { IfOk result (λ m. m.degree ≡ 0) }
        ensures no_memory { n ≤ 16 → IsOk result }
    {
        let stored = zeros(alloc, n)?;
        Ok(Mono::keep(stored, 0))
    }

    /// The variable with the index i, from 0, in a ring of these weights.
    pub fn variable(alloc: Global, weights: &Weights, i: usize) -> Result<Mono, NoMemory>
        requires { i < length weights.now }
        ensures ok { IfOk result (λ m. IsMonomial (length weights.now) (variable (length weights.now) i) m.exponents) }
        ensures weighed { IfOk result (IsWeighed (length weights.now) weights.now) }
        ensures degree { IfOk result (λ m. m.degree ≡ slice_index weights.now i) }
        ensures no_memory { length weights.now ≤ 16 → IsOk result }
    {
        let stored = one_at(alloc, weights.len(), i)?;
        Ok(Mono::keep(stored, u128::from(weights.as_slice()[i])))
    }

    /// The number of variables.
    pub fn variables(&self) -> usize
        ensures { result ≡ length self.now.exponents }
    {
        self.kept().variables()
    }

    /// The exponents, one for each variable.
    pub fn exponents(&self) -> &[u16]
        ensures value { result.now ≡ self.now.exponents }
    {
        let (exponents, _) = self.kept().as_slice().split_at(self.variables());
        exponents
    }

    /// The exponent of the variable with this index, from 0.
    pub fn exponent(&self, i: usize) -> u16
        requires { i < length self.now.exponents }
        ensures { result ≡ slice_index self.now.exponents i }
    {
        self.exponents()[i]
    }

    /// The degree by the ring's weights, below 2^32.
    pub fn degree(&self) -> u128
        ensures value { result ≡ self.now.degree }
        ensures small { result < 4294967296 }
    {
        self.kept().degree()
    }

    /// Each exponent is at most 65,535. It does nothing: its contract is the law.
    pub fn bounds(&self)
        ensures within { (n : ℕ) → IsWithin 65535 (exponents_of n self.now.exponents) }
        ensures each { (k : ℕ) → slice_index self.now.exponents k ≤ 65535 }
        ensures held { (k : ℕ) → slice_index self.now.exponents k ≤ self.now.degree }
    {
        let _ = self.kept();
    }

    /// The degree has 32 bits. It does nothing: its contract is the law.
    pub(crate) fn narrow(&self)
        ensures { self.now.degree < 4294967296 }
    {
        let _ = self.kept();
    }

    /// The same monomial again.
    pub fn try_copy(&self, alloc: Global) -> Result<Mono, NoMemory>
        ensures ok { IfOk result (λ m. m ≡ self.now) }
        ensures no_memory { length self.now.exponents ≤ 16 → IsOk result }
    {
        let stored = self.kept().try_copy(alloc)?;
        Ok(Mono { stored })
    }

    /// The same monomial in one more variable, in front, which it has not, of whatever weight.
    pub fn with_front(&self, alloc: Global) -> Result<Mono, NoMemory>
        ensures ok { IfOk result (λ m. m.exponents ≡ 0 ∷ self.now.exponents) }
        ensures degree { IfOk result (λ m. m.degree ≡ self.now.degree) }
        ensures no_memory { length self.now.exponents < 16 → IsOk result }
    {
        let stored = store_behind_zero(alloc, self.exponents())?;
        Ok(Mono::keep(stored, self.kept().degree()))
    }

    /// The same monomial without the first variable, which it has not.
    pub fn without_front(self, alloc: Global) -> Result<Mono, NoMemory>
        requires some { 0 < length self.exponents }
        requires none { slice_index self.exponents 0 ≡ 0 }
        ensures ok { IfOk result (λ m. m.exponents ≡ drop 1 self.exponents) }
        ensures degree { IfOk result (λ m. m.degree ≡ self.degree) }
        ensures no_memory { length self.exponents ≤ 16 → IsOk result }
    {
        let stored = store(alloc, &self.exponents()[1..])?;
        Ok(Mono::keep(stored, self.kept().degree()))
    }

    /// The product a b. `Degree` exactly where its degree is above 65,535; `Memory` over more than 16 variables alone.
    pub fn mul(alloc: Global, a: &Mono, b: &Mono) -> Result<Mono, MonoStop>
        requires variables { length a.now.exponents ≡ length b.now.exponents }
        ensures ok { let n = length a.now.exponents in
            IfOk result (λ m. IsMonomial n (times (exponents_of n a.now.exponents) (exponents_of n b.now.exponents)) m.exponents) }
        ensures sums { IfOk result (λ m. IsPlaceByPlace ◌+◌ a.now.exponents b.now.exponents m.exponents) }
        ensures degree { IfOk result (λ m. m.degree ≡ a.now.degree + b.now.degree) }
        ensures weighed { let n = length a.now.exponents in
            IfOk result (λ m. (ws : List ℕ) → IsWeighed n ws a.now → IsWeighed n ws b.now → IsWeighed n ws m) }
        ensures small { OnOk result (a.now.degree + b.now.degree ≤ 65535) }
        ensures above { 65535 < a.now.degree + b.now.degree → result ≡ Err MonoStop.Degree }
        ensures stop { IfErr result (StopsAbove (a.now.degree + b.now.degree)) }
        ensures no_memory { length a.now.exponents ≤ 16 → result ≢ Err MonoStop.Memory }
    {
        let degree = a.degree().saturating_add(b.degree());
        if degree > MAX_DEGREE {
            return Err(MonoStop::Degree);
        }
        let stored = sums(alloc, a.variables(), a.kept(), b.kept())?;
        Ok(Mono::keep(stored, degree))
    }

    /// The least common multiple of a and b in a ring of these weights. A degree of 2^32 or more, which only more than 257 variables
    /// can have, has no room and answers `NoMemory`.
    pub fn lcm(alloc: Global, weights: &Weights, a: &Mono, b: &Mono) -> Result<Mono, NoMemory>
        requires variables { length a.now.exponents ≡ length b.now.exponents }
        requires weights { length weights.now ≡ length a.now.exponents }
        ensures ok { let n = length a.now.exponents in
            IfOk result (λ m. IsMonomial n (lcm (exponents_of n a.now.exponents) (exponents_of n b.now.exponents)) m.exponents) }
        ensures weighed { IfOk result (IsWeighed (length a.now.exponents) weights.now) }
        ensures maxima { IfOk result (λ m. IsPlaceByPlace max a.now.exponents b.now.exponents m.exponents) }
        ensures no_memory { length a.now.exponents ≤ 16 → IsOk result }
    {
        let n = a.variables();
        let stored = maxima(alloc, n, a.kept(), b.kept())?;
        let degree = degree_of(weights, n, &stored);
        if degree > MAX_KEPT {
            return Err(NoMemory);
        }
        Ok(Mono::keep(stored, degree))
    }

    /// The quotient a / b, or `None` exactly where b does not divide a.
    pub fn quotient(alloc: Global, a: &Mono, b: &Mono) -> Result<Option<Mono>, NoMemory>
        requires variables { length a.now.exponents ≡ length b.now.exponents }
        requires weights { HaveCommonWeights (length a.now.exponents) a.now b.now }
        ensures ok { IfOk result (IsQuotient (length a.now.exponents) a.now b.now) }
        ensures weighed { let n = length a.now.exponents in
            IfOk result (λ answer. IfSome answer (λ m. (ws : List ℕ) → IsWeighed n ws a.now → IsWeighed n ws b.now → IsWeighed n ws m)) }
        ensures no_memory { length a.now.exponents ≤ 16 → IsOk result }
    {
        if !b.divides(a) {
            return Ok(None);
        }
        let stored = differences(alloc, a.variables(), a.kept(), b.kept())?;
        Ok(Some(Mono::keep(stored, a.degree() - b.degree())))
    }

    /// Does this monomial divide b?
    pub fn divides(&self, b: &Mono) -> bool
        requires variables { length self.now.exponents ≡ length b.now.exponents }
        ensures value { let n = length self.now.exponents in
            IsTrue result ↔ Divides (exponents_of n self.now.exponents) (exponents_of n b.now.exponents) }
        ensures places { IsTrue result
            ↔ ((k : ℕ) → k < length self.now.exponents → slice_index self.now.exponents k ≤ slice_index b.now.exponents k) }
    {
        divides(self.variables(), self.kept(), b.kept())
    }

    /// Have the two no variable in common? Then their product is their least common multiple.
    pub fn coprime(&self, b: &Mono) -> bool
        requires variables { length self.now.exponents ≡ length b.now.exponents }
        ensures value { let n = length self.now.exponents in
            IsTrue result ↔ (times (exponents_of n self.now.exponents) (exponents_of n b.now.exponents)
            ≡ lcm (exponents_of n self.now.exponents) (exponents_of n b.now.exponents)) }
        ensures places { IsTrue result
            ↔ ((k : ℕ) → k < length self.now.exponents → min (slice_index self.now.exponents k) (slice_index b.now.exponents k) ≡ 0) }
    {
        apart(self.variables(), self.kept(), b.kept())
    }

    /// Of the first m exponents, how many there are up to and with the last that differs: 0 where none does.
    pub(crate) fn differing(&self, b: &Mono, m: usize) -> usize
        requires variables { length self.now.exponents ≡ length b.now.exponents }
        requires inside { m ≤ length self.now.exponents }
        ensures { EndsDifferences m self.now.exponents b.now.exponents result }
    {
        differing(self.variables(), self.kept(), b.kept(), m)
    }

    /// Are the two one monomial?
    pub fn equal(&self, b: &Mono) -> bool
        ensures value { IsTrue result ↔ (self.now ≡ b.now) }
        ensures exponents { let n = length self.now.exponents in
            (ws : List ℕ) → IsWeighed n ws self.now → IsWeighed n ws b.now
            → (IsTrue result ↔ (exponents_of n self.now.exponents ≡ exponents_of n b.now.exponents)) }
    {
        if self.degree() != b.degree() {
            return false;
        }
        let n = self.variables();
        if n != b.variables() {
            return false;
        }
        equal(n, self.kept(), b.kept())
    }
}
