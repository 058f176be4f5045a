// Which lists are run as they stand. No clause speaks of it: what an engine answers does not hang on it.
use module_vectors::{Key, NoMemory, Ring, Vect, VectList};
use monomial_orders::Order;
use std::alloc::Global;

// The most positions for which degrees are looked for.
const MOST_POSITIONS: u128 = 65_536;

// The degree of a key; without the first variable where the order eliminates that one alone, as that of intersections does.
fn degree_of(ring: &Ring, key: &Key) -> u128 {
    let degree = key.monomial.degree();
    match (ring.order, key.monomial.exponents().first()) {
        (Order::Elim(1), Some(power)) => degree.saturating_sub(u128::from(*power)),
        _ => degree,
    }
}

// The degree that this position has, where it is known.
fn shift_at(shifts: &[Option<u128>], position: u64) -> Option<u128> {
    match usize::try_from(position) {
        Ok(position) => match shifts.get(position) {
            Some(shift) => *shift,
            None => None,
        },
        Err(_) => None,
    }
}

// The degree of the vector by the first term whose position has one, or else that of its lead.
fn total_degree(ring: &Ring, shifts: &[Option<u128>], v: &Vect) -> u128 {
    for term in v.terms() {
        if let Some(shift) = shift_at(shifts, term.0.position) {
            return degree_of(ring, &term.0).wrapping_add(shift);
        }
    }
    match v.lead() {
        Some(lead) => degree_of(ring, lead.key),
        None => 0,
    }
}

// Can all terms have this degree? Positions without one get that which they need.
fn have_total(
    ring: &Ring,
    shifts: &mut Vec<Option<u128>>,
    terms: &[(Key, u32)],
    degree: u128,
) -> bool {
    for term in terms {
        let shift = degree.wrapping_sub(degree_of(ring, &term.0));
        let Ok(position) = usize::try_from(term.0.position) else {
            return false;
        };
        match shifts.get_mut(position) {
            Some(place) => match *place {
                Some(known) => {
                    if known != shift {
                        return false;
                    }
                }
                None => *place = Some(shift),
            },
            None => return false,
        }
    }
    true
}

// Are there degrees of the positions by which all terms of each vector have one degree? Marks of a homogeneous list have such.
fn is_graded(alloc: Global, ring: &Ring, rank: u128, list: &VectList) -> Result<bool, NoMemory> {
    if rank > MOST_POSITIONS {
        return Ok(false);
    }
    let mut shifts: Vec<Option<u128>> = vec![in alloc; None; rank as usize]?;
    for v in list.as_slice() {
        let degree = total_degree(ring, &shifts, v);
        if !have_total(ring, &mut shifts, v.terms(), degree) {
            return Ok(false);
        }
    }
    Ok(true)
}

// Have all variables one weight?
fn have_one_weight(weights: &[u8]) -> bool {
    for k in 1..weights.len() {
        if weights[k] != weights[0] {
            return false;
        }
    }
    true
}

// Is the list one of polynomials in the graded order?
fn are_graded_polynomials(ring: &Ring, rank: u128) -> bool {
    rank <= 1 && ring.order == Order::Grevlex
}

/// Is the list run by all workers at once? It is where pairs go by degrees in any case: polynomials in the graded order without weights.
pub(crate) fn goes_directly(ring: &Ring, rank: u128) -> bool {
    are_graded_polynomials(ring, rank) && have_one_weight(ring.weights.as_slice())
}

/// Does the list gain nothing by another form? It has homogeneous vectors, for some degrees of the positions, or polynomials in the
/// graded order.
pub(crate) fn stands_well(
    alloc: Global,
    ring: &Ring,
    rank: u128,
    list: &VectList,
) -> Result<bool, NoMemory> {
    if are_graded_polynomials(ring, rank) {
        return Ok(true);
    }
    is_graded(alloc, ring, rank, list)
}
