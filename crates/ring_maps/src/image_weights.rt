// Weights by which the graph of a map is homogeneous, and the ring of a graph with such weights.
ghost use Rattle.std.specs.Prelude.{◌≡◌, ◌<◌, ◌++◌, IfOk, IfSome, IsTrue, length};
ghost use Rattle.term_lists.specs.Rings.{variables};
ghost use Rattle.ring_maps.specs.GraphRings.{IsGraphRing};
ghost use Rattle.ring_maps.specs.Multiples.{AreWeightMultiples};

use module_vectors::{NoMemory, Ring, Vect, VectList};
use monomial_orders::Weights;
use std::alloc::Global;

// Have all terms of the vector one degree?
fn is_homogeneous(v: &Vect) -> bool {
    let Some(lead) = v.lead() else {
        return true;
    };
    let degree = lead.key.monomial.degree();
    for term in v.terms() {
        if term.0.monomial.degree() != degree {
            return false;
        }
    }
    true
}

// Have all terms of each vector one degree?
fn are_homogeneous(list: &VectList) -> bool {
    for v in list.as_slice() {
        if !is_homogeneous(v) {
            return false;
        }
    }
    true
}

// The weight for the second variable of this image: the degree of its terms, where they have one from the variable's own weight
// to 255, and that weight for zero. Since none is less than the variable's own, no degree grows on the way back from the graph
// to the ring: where a monomial there says that memory is wanting, this is no degree that is too great.
fn weight_of(image: &Vect, own: u8) -> Option<u8>
    requires { 0 < own }
    ensures { IfSome result (λ weight. 0 < weight) }
{
    let Some(lead) = image.lead() else {
        return Some(own);
    };
    if !is_homogeneous(image) {
        return None;
    }
    match u8::try_from(lead.key.monomial.degree()) {
        Ok(weight) if weight >= own => Some(weight),
        _ => None,
    }
}

// The weights for the second variables of the images, if each has one.
fn weights_of(alloc: Global, ring: &Ring, images: &VectList) -> Result<Option<Weights>, NoMemory>
    requires count { length images.now ≡ variables ring.now }
    ensures { IfOk result (λ found. IfSome found (λ weights. length weights ≡ variables ring.now)) }
{
    let own = ring.weights.as_slice();
    let mut weights = Vec::with_capacity(alloc, images.len())?;
    for i in 0..images.len() {
        let Some(weight) = weight_of(&images.as_slice()[i], own[i]) else {
            return Ok(None);
        };
        weights.push(weight)?;
    }
    Ok(Some(Weights::from_vec(weights)))
}

/// Weights of the second variables by which the graph of the map and the list is homogeneous: each image's degree. None where
/// an image or a vector of the list is not homogeneous, or a degree does not serve as a weight. None either where these are the
/// weights of the ring's own variables: the ring that is doubled has them already.
pub(crate) fn image_weights(
    alloc: Global,
    ring: &Ring,
    images: &VectList,
    list: &VectList,
) -> Result<Option<Weights>, NoMemory>
    requires count { length images.now ≡ variables ring.now }
    ensures { IfOk result (λ found. IfSome found (λ weights. length weights ≡ variables ring.now)) }
{
    if !are_homogeneous(list) {
        return Ok(None);
    }
    let Some(weights) = weights_of(alloc, ring, images)? else {
        return Ok(None);
    };
    if weights.as_slice() == ring.weights.as_slice() {
        return Ok(None);
    }
    Ok(Some(weights))
}

/// Are the other weights one multiple of these? Then both compare monomials alike.
pub(crate) fn are_multiples(weights: &Weights, others: &Weights) -> bool
    requires count { length weights.now ≡ length others.now }
    ensures { IsTrue result → AreWeightMultiples weights.now others.now }
{
    let weights = weights.as_slice();
    let others = others.as_slice();
    if weights.is_empty() {
        return false;
    }
    let factor = others[0] / weights[0];
    for i in 0..weights.len() {
        if factor.checked_mul(weights[i]) != Some(others[i]) {
            return false;
        }
    }
    factor > 0
}

// The weights, and the others behind them.
fn both_weights(alloc: Global, first: &Weights, second: &Weights) -> Result<Weights, NoMemory>
    ensures { IfOk result (λ both. both ≡ first.now ++ second.now) }
{
    let mut both = Vec::with_capacity(alloc, first.len().saturating_add(second.len()))?;
    both.extend_from_slice(first.as_slice())?;
    both.extend_from_slice(second.as_slice())?;
    Ok(Weights::from_vec(both))
}

/// The ring of the graph of a map to this ring, with these weights of its second variables.
pub(crate) fn weighted_graph(alloc: Global, ring: &Ring, second: &Weights) -> Result<Ring, NoMemory>
    requires count { length second.now ≡ variables ring.now }
    ensures ring { IfOk result (IsGraphRing ring.now) }
    ensures weights { IfOk result (λ graph. graph.weights ≡ ring.now.weights ++ second.now) }
{
    let weights = both_weights(alloc, &ring.weights, second)?;
    let doubled = ring.doubled(alloc)?;
    Ok(Ring {
        modulus: doubled.modulus,
        vars: doubled.vars.try_copy(alloc)?,
        order: doubled.order,
        module_order: doubled.module_order,
        weights,
    })
}
