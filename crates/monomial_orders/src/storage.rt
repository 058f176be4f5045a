// How a monomial stores its exponents.
ghost use Rattle.std.specs.Prelude.{ℕ, ◌≡◌, ◌≢◌, ◌<◌, ◌≤◌, ◌↔◌, ◌+◌, ◌-◌, ◌∷◌, length, max, min, slice_index};
ghost use Rattle.std.specs.Prelude.{IsTrue, IsOk, IfOk};
ghost use Rattle.monomial_orders.specs.Differences.{EndsDifferences};
ghost use Rattle.monomial_orders.specs.Monomials.{IsPlaceByPlace};
ghost use Rattle.monomial_orders.specs.Storage.{IsFilled, degree_kept, places_of, stored_variables};

use crate::places::{
    add_places, are_apart, copy_places, count, differing_places, divides_places, max_places,
    narrow, places_behind_zero, subtract_places,
};
use crate::sixteen::{
    add_sixteen, are_sixteen_apart, differing_sixteen, divides_sixteen, first_sixteen, max_sixteen,
    sixteen_behind_zero, subtract_sixteen,
};
use smallvec::SmallVec;
use std::alloc::{AllocError, Global};

// The greatest number of variables that is kept: more would take 8 GiB for each monomial, and are refused as memory.
const MAX_VARIABLES: usize = 4294967295;

/// A monomial's exponents at their places, and its degree: 16 places up to 16 variables, else one for each variable. The places
/// behind the last variable are 0, so that loops go over 16 places however many variables there are.
pub(crate) struct Stored {
    places: SmallVec<u16, 16>,
    variables: u32,
    degree: u32,
}

// By hand, so that each drop of one is a call.
impl Drop for Stored {
    fn drop(self) {
        let Stored {
            places: _,
            variables: _,
            degree: _,
        } = self;
    }
}

// So many variables at 16 places. The degree is set later, by `with_degree`.
fn stored_few(alloc: Global, places: [u16; 16], n: usize) -> Stored
    requires { n ≤ 16 }
    ensures variables { stored_variables result ≡ n }
    ensures places { places_of result ≡ places }
{
    Stored {
        places: SmallVec::from_buf(alloc, places),
        variables: count(n),
        degree: 0,
    }
}

// More than 16 variables at a place each. The degree is set later, by `with_degree`.
fn stored_many(places: SmallVec<u16, 16>) -> Result<Stored, AllocError>
    ensures variables { IfOk result (λ s. stored_variables s ≡ length places.items) }
    ensures places { IfOk result (λ s. places_of s ≡ places.items) }
{
    let n = places.len();
    if n > MAX_VARIABLES {
        return Err(AllocError);
    }
    Ok(Stored {
        places,
        variables: count(n),
        degree: 0,
    })
}

impl Stored {
    /// The places.
    pub(crate) fn as_slice(&self) -> &[u16]
        ensures { result.now ≡ places_of self.now }
    {
        self.places.as_slice()
    }

    /// The number of variables.
    pub(crate) fn variables(&self) -> usize
        ensures { result ≡ stored_variables self.now }
    {
        self.variables as usize
    }

    /// The degree.
    pub(crate) fn degree(&self) -> u128
        ensures value { result ≡ degree_kept self.now }
        ensures small { result < 4294967296 }
    {
        u128::from(self.degree)
    }

    /// The same places with this degree.
    pub(crate) fn with_degree(self, degree: u128) -> Stored
        requires { degree < 4294967296 }
        ensures variables { stored_variables result ≡ stored_variables self }
        ensures places { places_of result ≡ places_of self }
        ensures degree { degree_kept result ≡ degree }
    {
        let Stored {
            places,
            variables,
            degree: _,
        } = self;
        Stored {
            places,
            variables,
            degree: narrow(degree),
        }
    }

    /// The 16 places of up to 16 variables.
    #[inline(always)]
    fn sixteen(&self) -> &[u16; 16]
        requires { length (places_of self.now) ≡ 16 }
        ensures { result.now ≡ places_of self.now }
    {
        match self.places.as_slice().as_array::<16>() {
            Some(places) => places,
            None => unreachable!(),
        }
    }

    /// The same places again.
    #[inline]
    pub(crate) fn try_copy(&self, alloc: Global) -> Result<Stored, AllocError>
        requires { length (places_of self.now) ≡ max 16 (stored_variables self.now) }
        ensures variables { IfOk result (λ s. stored_variables s ≡ stored_variables self.now) }
        ensures places { IfOk result (λ s. places_of s ≡ places_of self.now) }
        ensures degree { IfOk result (λ s. degree_kept s ≡ degree_kept self.now) }
        ensures no_memory { stored_variables self.now ≤ 16 → IsOk result }
    {
        if self.variables <= 16 {
            return Ok(Stored {
                places: SmallVec::from_buf(alloc, *self.sixteen()),
                variables: self.variables,
                degree: self.degree,
            });
        }
        Ok(Stored {
            places: copy_places(alloc, self.places.as_slice())?,
            variables: self.variables,
            degree: self.degree,
        })
    }
}

/// These exponents, with zeros behind them.
pub(crate) fn store(alloc: Global, exponents: &[u16]) -> Result<Stored, AllocError>
    ensures variables { IfOk result (λ s. stored_variables s ≡ length exponents.now) }
    ensures long { IfOk result (λ s. length (places_of s) ≡ max 16 (length exponents.now)) }
    ensures places { IfOk result (λ s. (k : ℕ) → slice_index (places_of s) k ≡ slice_index exponents.now k) }
    ensures bounded { IfOk result (λ s. (k : ℕ) → slice_index (places_of s) k < 65536) }
    ensures no_memory { length exponents.now ≤ 16 → IsOk result }
{
    if exponents.len() <= 16 {
        return Ok(stored_few(alloc, first_sixteen(exponents), exponents.len()));
    }
    stored_many(copy_places(alloc, exponents)?)
}

/// 0 and then these exponents, with zeros behind them.
pub(crate) fn store_behind_zero(alloc: Global, exponents: &[u16]) -> Result<Stored, AllocError>
    ensures variables { IfOk result (λ s. stored_variables s ≡ length (0 ∷ exponents.now)) }
    ensures long { IfOk result (λ s. length (places_of s) ≡ max 16 (length (0 ∷ exponents.now))) }
    ensures places { IfOk result (λ s. (k : ℕ) → slice_index (places_of s) k ≡ slice_index (0 ∷ exponents.now) k) }
    ensures bounded { IfOk result (λ s. (k : ℕ) → slice_index (places_of s) k < 65536) }
    ensures no_memory { length exponents.now < 16 → IsOk result }
{
    let n = exponents.len();
    if n < 16 {
        return Ok(stored_few(alloc, sixteen_behind_zero(exponents), n + 1));
    }
    stored_many(places_behind_zero(alloc, exponents)?)
}

/// The places of n variables, all 0.
pub(crate) fn zeros(alloc: Global, n: usize) -> Result<Stored, AllocError>
    ensures variables { IfOk result (λ s. stored_variables s ≡ n) }
    ensures long { IfOk result (λ s. length (places_of s) ≡ max 16 n) }
    ensures places { IfOk result (λ s. (k : ℕ) → slice_index (places_of s) k ≡ 0) }
    ensures no_memory { n ≤ 16 → IsOk result }
{
    if n <= 16 {
        return Ok(stored_few(alloc, [0; 16], n));
    }
    stored_many(SmallVec::from_vec(vec![in alloc; 0; n]?))
}

/// The places of n variables, 1 at i and else 0.
pub(crate) fn one_at(alloc: Global, n: usize, i: usize) -> Result<Stored, AllocError>
    requires { i < n }
    ensures variables { IfOk result (λ s. stored_variables s ≡ n) }
    ensures long { IfOk result (λ s. length (places_of s) ≡ max 16 n) }
    ensures one { IfOk result (λ s. slice_index (places_of s) i ≡ 1) }
    ensures others { IfOk result (λ s. (k : ℕ) → k ≢ i → slice_index (places_of s) k ≡ 0) }
    ensures no_memory { n ≤ 16 → IsOk result }
{
    if n <= 16 {
        let mut sixteen = [0; 16];
        sixteen[i] = 1;
        return Ok(stored_few(alloc, sixteen, n));
    }
    let mut places = vec![in alloc; 0; n]?;
    places[i] = 1;
    stored_many(SmallVec::from_vec(places))
}

/// The sums, which have room.
pub(crate) fn sums(alloc: Global, n: usize, a: &Stored, b: &Stored) -> Result<Stored, AllocError>
    requires left { IsFilled n a.now }
    requires right { IsFilled n b.now }
    requires room { (k : ℕ) → slice_index (places_of a.now) k + slice_index (places_of b.now) k ≤ 65535 }
    ensures variables { IfOk result (λ s. stored_variables s ≡ n) }
    ensures places { IfOk result (λ s. IsPlaceByPlace ◌+◌ (places_of a.now) (places_of b.now) (places_of s)) }
    ensures bounded { IfOk result (λ s. (k : ℕ) → slice_index (places_of s) k < 65536) }
    ensures no_memory { n ≤ 16 → IsOk result }
{
    if n <= 16 {
        return Ok(stored_few(alloc, add_sixteen(a.sixteen(), b.sixteen()), n));
    }
    stored_many(add_places(alloc, a.as_slice(), b.as_slice())?)
}

/// The larger of each two.
pub(crate) fn maxima(alloc: Global, n: usize, a: &Stored, b: &Stored) -> Result<Stored, AllocError>
    requires left { IsFilled n a.now }
    requires right { IsFilled n b.now }
    ensures variables { IfOk result (λ s. stored_variables s ≡ n) }
    ensures places { IfOk result (λ s. IsPlaceByPlace max (places_of a.now) (places_of b.now) (places_of s)) }
    ensures bounded { IfOk result (λ s. (k : ℕ) → slice_index (places_of s) k < 65536) }
    ensures no_memory { n ≤ 16 → IsOk result }
{
    if n <= 16 {
        return Ok(stored_few(alloc, max_sixteen(a.sixteen(), b.sixteen()), n));
    }
    stored_many(max_places(alloc, a.as_slice(), b.as_slice())?)
}

/// The differences, where none is negative.
pub(crate) fn differences(
    alloc: Global,
    n: usize,
    a: &Stored,
    b: &Stored,
) -> Result<Stored, AllocError>
    requires left { IsFilled n a.now }
    requires right { IsFilled n b.now }
    requires room { (k : ℕ) → slice_index (places_of b.now) k ≤ slice_index (places_of a.now) k }
    ensures variables { IfOk result (λ s. stored_variables s ≡ n) }
    ensures places { IfOk result (λ s. IsPlaceByPlace ◌-◌ (places_of a.now) (places_of b.now) (places_of s)) }
    ensures bounded { IfOk result (λ s. (k : ℕ) → slice_index (places_of s) k < 65536) }
    ensures no_memory { n ≤ 16 → IsOk result }
{
    if n <= 16 {
        return Ok(stored_few(alloc, subtract_sixteen(a.sixteen(), b.sixteen()), n));
    }
    stored_many(subtract_places(alloc, a.as_slice(), b.as_slice())?)
}

/// Is each exponent at most the other's?
pub(crate) fn divides(n: usize, a: &Stored, b: &Stored) -> bool
    requires left { IsFilled n a.now }
    requires right { IsFilled n b.now }
    ensures { IsTrue result
        ↔ ((k : ℕ) → k < length (places_of a.now) → slice_index (places_of a.now) k ≤ slice_index (places_of b.now) k) }
{
    if n <= 16 {
        return divides_sixteen(a.sixteen(), b.sixteen());
    }
    divides_places(a.as_slice(), b.as_slice())
}

/// Is one of each two exponents 0?
pub(crate) fn apart(n: usize, a: &Stored, b: &Stored) -> bool
    requires left { IsFilled n a.now }
    requires right { IsFilled n b.now }
    ensures { IsTrue result
        ↔ ((k : ℕ) → k < length (places_of a.now) → min (slice_index (places_of a.now) k) (slice_index (places_of b.now) k) ≡ 0) }
{
    if n <= 16 {
        return are_sixteen_apart(a.sixteen(), b.sixteen());
    }
    are_apart(a.as_slice(), b.as_slice())
}

/// Of the first m places, how many there are up to and with the last that differs: 0 where none does.
pub(crate) fn differing(n: usize, a: &Stored, b: &Stored, m: usize) -> usize
    requires left { IsFilled n a.now }
    requires right { IsFilled n b.now }
    requires inside { m ≤ n }
    ensures { EndsDifferences m (places_of a.now) (places_of b.now) result }
{
    if n <= 16 {
        return differing_sixteen(a.sixteen(), b.sixteen(), m);
    }
    differing_places(a.as_slice(), b.as_slice(), m)
}

/// Are the places one list?
pub(crate) fn equal(n: usize, a: &Stored, b: &Stored) -> bool
    requires left { IsFilled n a.now }
    requires right { IsFilled n b.now }
    ensures { IsTrue result ↔ (places_of a.now ≡ places_of b.now) }
{
    if n <= 16 {
        return a.sixteen() == b.sixteen();
    }
    a.as_slice() == b.as_slice()
}
