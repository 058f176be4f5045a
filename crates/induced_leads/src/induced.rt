// The order that the columns of maps induce.
ghost use Rattle.std.specs.Prelude.{◌≡◌, ◌<◌, ◌++◌, ◌∷◌, [], IfOk, length};
ghost use Rattle.monomials.specs.Exponents.{exponents_of};
ghost use Rattle.term_lists.specs.Rings.{ring_comparison, variables};
ghost use Rattle.term_lists.specs.Vectors.{IsMonomialOver};
ghost use Rattle.induced_leads.specs.Heads.{AreHeads, IsHeadOver, summed};
ghost use Rattle.induced_leads.specs.Ways.{by_way};

use crate::comparing::compare_products;
use crate::head::{Head, Heads, first_heads, next_heads};
use crate::hints::hint_of;
use module_vectors::{Frame, Key, NoMemory, Ring, VectList};
use monomial_orders::{ModOrder, MonomialOrder};
use std::alloc::Global;
use std::cmp::Ordering;
use std::marker::Model;

/// The order of the cofactors of the last map's columns. A key is first compared by where the leads of the maps take it, in
/// the ring's own order, and then by the positions on the way there (Schreyer's order; UAG chapter 5, section 3).
/// Contracts see the ring and the columns of the maps.
#[derive(Drop)]
pub struct Induced<'a> {
    ring: &'a Ring,
    maps: &'a [VectList],
    heads: Heads,
}

impl<'a> Model for Induced<'a> {
    ghost use Rattle.term_lists.specs.Rings.{variables};
    ghost use Rattle.induced_leads.specs.Heads.{AreHeads};
    ghost use Rattle.resolution_maps.specs.Inducing.{Tower};

    ghost Value = { Tower };

    ghost view = { λ f. record { ring = f.ring.now; maps = f.maps.now } };

    ghost invariant = { λ f. AreHeads (variables f.ring.now) f.ring.now.weights f.maps.now f.heads };
}

// Compares two ways: the first positions that differ decide, and the earlier one is the greater.
fn compare_ways(left: &[u64], right: &[u64]) -> Ordering
    requires { length left.now ≡ length right.now }
    ensures { result ≡ by_way left.now right.now }
{
    for k in 0..left.len() {
        if left[k] != right[k] {
            return right[k].cmp(&left[k]);
        }
    }
    Ordering::Equal
}

// Compares two keys by where their heads take them, in the ring's own order.
fn compare_bottoms(ring: &Ring, a: &Key, left: &Head, b: &Key, right: &Head) -> Ordering
    requires left { IsMonomialOver ring.now a.now.monomial }
    requires right { IsMonomialOver ring.now b.now.monomial }
    requires left_head { IsHeadOver (variables ring.now) ring.now.weights left.now }
    requires right_head { IsHeadOver (variables ring.now) ring.now.weights right.now }
    ensures { let n = variables ring.now in result ≡ ring_comparison ring.now n
        (left.now.position, exponents_of n (summed a.now.monomial.exponents left.now.exponents.items))
        (right.now.position, exponents_of n (summed b.now.monomial.exponents right.now.exponents.items)) }
{
    match ring.module_order {
        ModOrder::Pot => match right.position.cmp(&left.position) {
            Ordering::Equal => compare_products(ring, &a.monomial, left, &b.monomial, right),
            other => other,
        },
        ModOrder::Top => match compare_products(ring, &a.monomial, left, &b.monomial, right) {
            Ordering::Equal => right.position.cmp(&left.position),
            other => other,
        },
    }
}

impl<'a> Induced<'a> {
    /// The order that the columns of these maps, of which there is one at least, induce over the ring. `NoMemory` where
    /// there is none, and where a product of leads has an exponent that more than 65,537 maps would take.
    pub fn through(
        alloc: Global,
        ring: &'a Ring,
        maps: &'a [VectList],
    ) -> Result<Induced<'a>, NoMemory>
        requires { 0 < length maps.now }
        ensures ring { IfOk result (λ f. f.ring ≡ ring.now) }
        ensures maps { IfOk result (λ f. f.maps ≡ maps.now) }
    {
        let mut heads = first_heads(alloc, ring, &maps[0])?;
        for k in 1..maps.len() {
            heads = next_heads(alloc, ring, &heads, &maps[k])?;
        }
        Ok(Induced { ring, maps, heads })
    }

    /// The order that these columns induce above this one, by whose heads theirs are made; the maps are all of them. `NoMemory`
    /// where there is none, and where `through` would have it.
    pub fn above(
        alloc: Global,
        ring: &'a Ring,
        maps: &'a [VectList],
        below: &Induced<'_>,
        columns: &VectList,
    ) -> Result<Induced<'a>, NoMemory>
        requires over { below.now.ring ≡ ring.now }
        requires maps { maps.now ≡ below.now.maps ++ columns.now ∷ [] }
        ensures ring { IfOk result (λ f. f.ring ≡ ring.now) }
        ensures maps { IfOk result (λ f. f.maps ≡ maps.now) }
    {
        let heads = next_heads(alloc, ring, &below.heads, columns)?;
        Ok(Induced { ring, maps, heads })
    }

    /// The order that the columns of these maps induce, whose heads are at hand.
    pub fn by_heads(ring: &'a Ring, maps: &'a [VectList], heads: Heads) -> Induced<'a>
        requires { AreHeads (variables ring.now) ring.now.weights maps.now heads }
        ensures ring { result.ring ≡ ring.now }
        ensures maps { result.maps ≡ maps.now }
    {
        Induced { ring, maps, heads }
    }

    /// The heads of the maps, by which `by_heads` makes this order again.
    pub fn into_heads(self) -> Heads
        ensures { AreHeads (variables self.entry.ring) self.entry.ring.weights self.entry.maps result }
    {
        let Induced {
            ring: _,
            maps: _,
            heads,
        } = self;
        heads
    }
}

impl<'a> Frame for Induced<'a> {
    ghost use Rattle.resolution_maps.specs.Inducing.{tower_comparison};
    ghost use Rattle.induced_leads.specs.Laws.{tower_order};

    ghost over = { λ f. f.ring };

    ghost compare = { tower_comparison };

    fn ring(&self) -> &Ring {
        self.ring
    }

    fn hint(&self, key: &Key) -> u64 {
        let head = self.heads.at(key.position);
        hint_of(self.ring, &key.monomial, key.position, head)
    }

    fn cmp(&self, a: &Key, b: &Key) -> Ordering {
        if a.position == b.position {
            return self
                .ring
                .order
                .cmp(&self.ring.weights, &a.monomial, &b.monomial);
        }
        let left = self.heads.at(a.position);
        let right = self.heads.at(b.position);
        match compare_bottoms(self.ring, a, left, b, right) {
            Ordering::Equal => match compare_ways(&left.way, &right.way) {
                Ordering::Equal => b.position.cmp(&a.position),
                other => other,
            },
            other => other,
        }
    }

    ghost laws = { tower_order };
}
