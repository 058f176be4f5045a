// A vector and what is computed of it.
ghost use Rattle.std.specs.Prelude.{◌≡◌, ◌<◌, ◌++◌, ◌↔◌, [], ◌∷◌, List, ℕ, drop, length};
ghost use Rattle.std.specs.Prelude.{IsTrue, IfOk, IfErr, OnOk, OnErr, MatchOption};
ghost use Rattle.monomials.specs.Exponents.{exponents_of, unit};
ghost use Rattle.formal_sums.specs.FormalSums.{Each, scale};
ghost use Rattle.formal_sums.specs.Combinations.{combination};
ghost use Rattle.term_lists.specs.Rings.{variables};
ghost use Rattle.term_lists.specs.Vectors.{sum_of, sums_of, IsMonomialOver, IsVectorOver, AreVectorsOver, AreTermsOver};
ghost use Rattle.term_lists.specs.Vectors.{StandsFor, HasPositions, IsMonicOf, IsTerm};
ghost use Rattle.term_lists.specs.Multiples.{rescaled};
ghost use Rattle.term_lists.specs.Stops.{Fits, ScaledStops};
ghost use Rattle.module_vectors.specs.Products.{sum_of_product_list};
ghost use Rattle.module_vectors.specs.ProductStops.{ProductsStop, ProductsFit, CombinationStops, CombinationFits};

use crate::sums::{products_of, sum_terms};
use crate::{Frame, Key, NoMemory, Product, Room, VectList, VectStop};
use monomial_orders::Mono;
use std::alloc::Global;
use std::marker::Model;
use std::mem::replace;
use term_lists::{are_below, copy_terms, equal_terms, gather, merge, rescale_terms, scaled_terms};

/// A vector of a free module over a polynomial ring: its terms, strictly descending in a frame's order, with residues
/// that are not 0. Contracts see the list of its terms.
pub struct Vect {
    terms: Vec<(Key, u32)>,
}

// By hand, so that each drop of one is a call.
impl Drop for Vect {
    fn drop(self) {
        let Vect { terms: _ } = self;
    }
}

impl Model for Vect {
    ghost use Rattle.std.specs.Prelude.{ℕ, List};
    ghost use Rattle.term_lists.specs.declared.key.Key.{Key};

    ghost Value = { List (Key × ℕ) };

    ghost view = { λ v. v.terms.items };
}

/// The greatest term of a vector that is not zero.
#[derive(Clone, Copy)]
pub struct LeadTerm<'a> {
    pub key: &'a Key,
    pub residue: u32,
}

impl Vect {
    /// The zero vector.
    pub fn zero(alloc: Global) -> Vect
        ensures { result ≡ [] }
    {
        Vect {
            terms: Vec::new(alloc),
        }
    }

    /// The vector of these terms, which may stand in any order, share keys and have residue 0. They are put in order, terms with
    /// one key are added up, and what is 0 is left out. `NoMemory` where there is none.
    pub fn from_terms<F: Frame>(
        alloc: Global,
        frame: &F,
        terms: Vec<(Key, u32)>,
    ) -> Result<Vect, NoMemory>
        requires { AreTermsOver (F.over frame.now) terms.items }
        ensures vector { IfOk result (λ v. IsVectorOver (F.over frame.now) (F.compare frame.now) v) }
        ensures same { IfOk result (λ v. StandsFor (F.over frame.now) v (sum_of (variables (F.over frame.now)) terms.items)) }
    {
        Ok(Vect {
            terms: gather(alloc, frame, terms)?,
        })
    }

    /// The vector of these terms as they stand, which are one: strictly descending in the frame's order, with residues that
    /// are not 0. No memory.
    pub fn from_ordered<F: Frame>(_frame: &F, terms: Vec<(Key, u32)>) -> Vect
        requires { IsVectorOver (F.over _frame.now) (F.compare _frame.now) terms.items }
        ensures { result ≡ terms.items }
    {
        Vect { terms }
    }

    /// The terms, the greatest first.
    pub fn terms(&self) -> &[(Key, u32)]
        ensures { result.now ≡ self.now }
    {
        &self.terms
    }

    /// The terms as a list of its own, the greatest first, without taking memory.
    pub fn into_terms(self) -> Vec<(Key, u32)>
        ensures { result.items ≡ self }
    {
        let Vect { terms } = self;
        terms
    }

    /// The greatest term, or `None` exactly at zero.
    pub fn lead(&self) -> Option<LeadTerm<'_>>
        ensures { MatchOption result (self.now ≡ []) (λ lead. (rest : List (_ × ℕ)) × (self.now ≡ (lead.key.now, lead.residue) ∷ rest)) }
    {
        match self.terms.first() {
            Some(term) => Some(LeadTerm {
                key: &term.0,
                residue: term.1,
            }),
            None => None,
        }
    }

    /// Adds v, by one merge that moves each term once. `NoMemory` where there is none; then the vector is as before.
    pub fn add<F: Frame>(&mut self, alloc: Global, frame: &F, v: Vect) -> Result<(), NoMemory>
        requires left { IsVectorOver (F.over frame.now) (F.compare frame.now) self.old }
        requires right { IsVectorOver (F.over frame.now) (F.compare frame.now) v }
        ensures vector { OnOk result (IsVectorOver (F.over frame.now) (F.compare frame.now) self.new) }
        ensures sum { let n = variables (F.over frame.now) in OnOk result (StandsFor (F.over frame.now) self.new (sum_of n self.old ++ sum_of n v)) }
        ensures err { OnErr result (self.new ≡ self.old) }
    {
        let out = Vec::with_capacity(alloc, self.terms.len() + v.terms.len())?;
        let left = replace(&mut self.terms, Vec::new(alloc));
        self.terms = merge(frame, left, v.into_terms(), out);
        Ok(())
    }

    /// Adds c t v, for a residue c and a monomial t, by one merge that moves each term once. Where c is 0 nothing changes.
    ///
    /// `Degree` exactly where c is not 0 and t times a monomial of v has a degree above 65,535; it carries the two.
    /// `Memory` where there is none. After an error the vector is as before.
    pub fn add_scaled<F: Frame>(
        &mut self,
        alloc: Global,
        frame: &F,
        c: u32,
        t: &Mono,
        v: &Vect,
    ) -> Result<(), VectStop>
        requires factor { c < (F.over frame.now).modulus.value }
        requires variables { IsMonomialOver (F.over frame.now) t.now }
        requires left { IsVectorOver (F.over frame.now) (F.compare frame.now) self.old }
        requires right { IsVectorOver (F.over frame.now) (F.compare frame.now) v.now }
        ensures vector { OnOk result (IsVectorOver (F.over frame.now) (F.compare frame.now) self.new) }
        ensures sum { let n = variables (F.over frame.now) in
            OnOk result (StandsFor (F.over frame.now) self.new (sum_of n self.old ++ scale c (exponents_of n t.now.exponents) (sum_of n v.now))) }
        ensures fits { OnOk result (0 < c → Fits t.now v.now) }
        ensures stop { IfErr result (ScaledStops c t.now v.now) }
        ensures err { OnErr result (self.new ≡ self.old) }
    {
        if c == 0 {
            return Ok(());
        }
        let right = scaled_terms(alloc, frame, c, t, &v.terms)?;
        let out = Vec::with_capacity(alloc, self.terms.len() + right.len())?;
        let left = replace(&mut self.terms, Vec::new(alloc));
        self.terms = merge(frame, left, right, out);
        Ok(())
    }

    /// c t v, for a residue c that is not 0 and a monomial t.
    ///
    /// `Degree` exactly where t times a monomial of v has a degree above 65,535; it carries the two. `Memory` where there
    /// is none.
    pub fn scaled<F: Frame>(
        alloc: Global,
        frame: &F,
        c: u32,
        t: &Mono,
        v: &Vect,
    ) -> Result<Vect, VectStop>
        requires nonzero { 0 < c }
        requires factor { c < (F.over frame.now).modulus.value }
        requires variables { IsMonomialOver (F.over frame.now) t.now }
        requires vector { IsVectorOver (F.over frame.now) (F.compare frame.now) v.now }
        ensures vector { IfOk result (λ u. IsVectorOver (F.over frame.now) (F.compare frame.now) u) }
        ensures sum { let n = variables (F.over frame.now) in
            IfOk result (λ u. StandsFor (F.over frame.now) u (scale c (exponents_of n t.now.exponents) (sum_of n v.now))) }
        ensures fits { OnOk result (Fits t.now v.now) }
        ensures stop { IfErr result (ScaledStops c t.now v.now) }
    {
        Ok(Vect {
            terms: scaled_terms(alloc, frame, c, t, &v.terms)?,
        })
    }

    /// c t v without its first term, for a residue c that is not 0, a monomial t and a vector v that is not zero.
    ///
    /// `Degree` exactly where t times a monomial of v behind the first has a degree above 65,535; it carries the
    /// two. `Memory` where there is none.
    pub fn scaled_tail<F: Frame>(
        alloc: Global,
        frame: &F,
        c: u32,
        t: &Mono,
        v: &Vect,
    ) -> Result<Vect, VectStop>
        requires nonzero { 0 < c }
        requires factor { c < (F.over frame.now).modulus.value }
        requires variables { IsMonomialOver (F.over frame.now) t.now }
        requires vector { IsVectorOver (F.over frame.now) (F.compare frame.now) v.now }
        requires some { 0 < length v.now }
        ensures vector { IfOk result (λ u. IsVectorOver (F.over frame.now) (F.compare frame.now) u) }
        ensures sum { let n = variables (F.over frame.now) in
            IfOk result (λ u. StandsFor (F.over frame.now) u (scale c (exponents_of n t.now.exponents) (sum_of n (drop 1 v.now)))) }
        ensures fits { OnOk result (Fits t.now (drop 1 v.now)) }
        ensures stop { IfErr result (ScaledStops c t.now (drop 1 v.now)) }
    {
        Ok(Vect {
            terms: scaled_terms(alloc, frame, c, t, &v.terms[1..])?,
        })
    }

    /// The sum of products of terms and vectors, by halves: each term is moved about as often as the list can be halved. Its parts
    /// and the sum itself stand in the room's lists.
    ///
    /// `Degree` exactly where a product by a residue that is not 0 has a degree above 65,535; it carries the two
    /// monomials. `Memory` where there is none.
    pub fn sum_of_products_in<F: Frame>(
        alloc: Global,
        frame: &F,
        room: &mut Room,
        products: &[Product<'_>],
    ) -> Result<Vect, VectStop>
        requires factors { Each (λ x. (x.residue < (F.over frame.now).modulus.value) × IsMonomialOver (F.over frame.now) x.monomial.now) products.now }
        requires vectors { Each (λ x. IsVectorOver (F.over frame.now) (F.compare frame.now) x.vector.now) products.now }
        ensures vector { IfOk result (λ v. IsVectorOver (F.over frame.now) (F.compare frame.now) v) }
        ensures sum { IfOk result (λ v. StandsFor (F.over frame.now) v (sum_of_product_list (variables (F.over frame.now)) products.now)) }
        ensures fits { OnOk result (ProductsFit products.now) }
        ensures stop { IfErr result (ProductsStop products.now) }
    {
        Ok(Vect {
            terms: sum_terms(alloc, frame, room, products)?,
        })
    }

    /// The same in room of its own.
    ///
    /// `Degree` exactly where a product by a residue that is not 0 has a degree above 65,535; it carries the two
    /// monomials. `Memory` where there is none.
    pub fn sum_of_products<F: Frame>(
        alloc: Global,
        frame: &F,
        products: &[Product<'_>],
    ) -> Result<Vect, VectStop>
        requires factors { Each (λ x. (x.residue < (F.over frame.now).modulus.value) × IsMonomialOver (F.over frame.now) x.monomial.now) products.now }
        requires vectors { Each (λ x. IsVectorOver (F.over frame.now) (F.compare frame.now) x.vector.now) products.now }
        ensures vector { IfOk result (λ v. IsVectorOver (F.over frame.now) (F.compare frame.now) v) }
        ensures sum { IfOk result (λ v. StandsFor (F.over frame.now) v (sum_of_product_list (variables (F.over frame.now)) products.now)) }
        ensures fits { OnOk result (ProductsFit products.now) }
        ensures stop { IfErr result (ProductsStop products.now) }
    {
        let mut room = Room::new(alloc);
        Vect::sum_of_products_in(alloc, frame, &mut room, products)
    }

    /// The combination of the list's vectors, the cofactor of member i at position i of `cofactors` (UAG chapter 5,
    /// section 1).
    ///
    /// `Degree` exactly where a cofactor's monomial times one of its member has a degree above 65,535; it carries the
    /// two. `Memory` where there is none.
    pub fn combine<F: Frame>(
        alloc: Global,
        frame: &F,
        cofactors: &Vect,
        list: &VectList,
    ) -> Result<Vect, VectStop>
        requires cofactors { Each (IsTerm (variables (F.over frame.now)) (F.over frame.now).weights (F.over frame.now).modulus.value) cofactors.now }
        requires positions { HasPositions (length list.now) cofactors.now }
        requires list { AreVectorsOver (F.over frame.now) (F.compare frame.now) list.now }
        ensures vector { IfOk result (λ v. IsVectorOver (F.over frame.now) (F.compare frame.now) v) }
        ensures sum { let n = variables (F.over frame.now) in
            IfOk result (λ v. StandsFor (F.over frame.now) v (combination (sums_of n list.now) (sum_of n cofactors.now))) }
        ensures fits { OnOk result (CombinationFits cofactors.now list.now) }
        ensures stop { IfErr result (CombinationStops cofactors.now list.now) }
    {
        let products = products_of(alloc, &cofactors.terms, list.as_slice())?;
        Vect::sum_of_products(alloc, frame, &products)
    }

    /// The same vector again. `NoMemory` where there is none.
    pub fn try_copy(&self, alloc: Global) -> Result<Vect, NoMemory>
        ensures { IfOk result (λ v. v ≡ self.now) }
    {
        Ok(Vect {
            terms: copy_terms(alloc, &self.terms)?,
        })
    }

    /// Are the two one list of terms? Over one frame these are the vectors that are equal (`one_list`). No memory.
    pub fn equal(&self, v: &Vect) -> bool
        ensures { IsTrue result ↔ (self.now ≡ v.now) }
    {
        equal_terms(&self.terms, &v.terms)
    }

    /// Are all positions below the rank? No memory.
    pub fn has_positions(&self, rank: u128) -> bool
        ensures { IsTrue result ↔ HasPositions rank self.now }
    {
        are_below(&self.terms, rank)
    }

    /// Multiplies by a residue that is not 0, in place. No memory.
    pub fn scale<F: Frame>(&mut self, frame: &F, c: u32)
        requires nonzero { 0 < c }
        requires factor { c < (F.over frame.now).modulus.value }
        requires vector { IsVectorOver (F.over frame.now) (F.compare frame.now) self.old }
        ensures vector { IsVectorOver (F.over frame.now) (F.compare frame.now) self.new }
        ensures multiple { let n = variables (F.over frame.now) in StandsFor (F.over frame.now) self.new (scale c (unit n) (sum_of n self.old)) }
        ensures residues { self.new ≡ rescaled (F.over frame.now).modulus.value c self.old }
    {
        let modulus = &frame.ring().modulus;
        modulus.domain();
        rescale_terms(modulus, c, &mut self.terms);
    }

    /// Divides by the residue of the greatest term, so that it is 1, in place. Zero stays zero. No memory.
    pub fn monic<F: Frame>(&mut self, frame: &F)
        requires { IsVectorOver (F.over frame.now) (F.compare frame.now) self.old }
        ensures vector { IsVectorOver (F.over frame.now) (F.compare frame.now) self.new }
        ensures monic { IsMonicOf (F.over frame.now) self.old self.new }
    {
        let modulus = &frame.ring().modulus;
        modulus.domain();
        if self.terms.is_empty() {
            return;
        }
        if let Some(c) = modulus.invert(self.terms[0].1) {
            self.scale(frame, c);
        }
    }
}
