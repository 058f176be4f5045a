// Unit vectors, products and differences.
ghost use Rattle.std.specs.Prelude.{◌≡◌, ◌<◌, IfOk, IfErr, OnOk, OnErr};
ghost use Rattle.term_lists.specs.Stops.{Fits, ScaledStops};
ghost use Rattle.member_products.specs.Generators.{IsVectorOf};
ghost use Rattle.term_lists.specs.Vectors.{IsMonomialOver};
ghost use Rattle.cofactor_track.specs.Changes.{IsLess, IsTimes, IsUnitVector};

use module_vectors::{Key, NoMemory, Product, Ring, Vect, VectStop};
use monomial_orders::Mono;
use std::alloc::Global;

/// The vector with the monomial 1 at position i alone.
pub(crate) fn unit_vector(alloc: Global, ring: &Ring, i: u64) -> Result<Vect, NoMemory>
    ensures vector { IfOk result (IsVectorOf ring.now) }
    ensures unit { IfOk result (IsUnitVector ring.now i) }
{
    let monomial = Mono::unit(alloc, ring.vars.len())?;
    let key = Key {
        position: i,
        monomial,
    };
    let terms = vec![in alloc; (key, 1)]?;
    ring.modulus.domain();
    Vect::from_terms(alloc, ring, terms)
}

/// t v.
pub(crate) fn times_vector(alloc: Global, ring: &Ring, t: &Mono, v: &Vect) -> Result<Vect, VectStop>
    requires variables { IsMonomialOver ring.now t.now }
    requires vector { IsVectorOf ring.now v.now }
    ensures vector { IfOk result (IsVectorOf ring.now) }
    ensures times { IfOk result (IsTimes ring.now t.now v.now) }
    ensures fits { OnOk result (Fits t.now v.now) }
    ensures stop { IfErr result (ScaledStops 1 t.now v.now) }
{
    ring.modulus.domain();
    Vect::sum_of_products(
        alloc,
        ring,
        &[Product {
            residue: 1,
            monomial: t,
            vector: v,
        }],
    )
}

/// Takes c t v from u. After an error u is as before.
pub(crate) fn subtract_vector(
    alloc: Global,
    ring: &Ring,
    u: &mut Vect,
    c: u32,
    t: &Mono,
    v: &Vect,
) -> Result<(), VectStop>
    requires factor { c < ring.now.modulus.value }
    requires variables { IsMonomialOver ring.now t.now }
    requires left { IsVectorOf ring.now u.old }
    requires right { IsVectorOf ring.now v.now }
    ensures vector { OnOk result (IsVectorOf ring.now u.new) }
    ensures less { OnOk result (IsLess ring.now c t.now u.old v.now u.new) }
    ensures fits { OnOk result (0 < c → Fits t.now v.now) }
    ensures stop { IfErr result (ScaledStops c t.now v.now) }
    ensures err { OnErr result (u.new ≡ u.old) }
{
    let minus = ring.modulus.neg(c);
    u.add_scaled(alloc, ring, minus, t, v)
}
