// A resolution by its maps.
ghost use Rattle.std.specs.Prelude.{◌≡◌, ◌+◌, IfOk, get_or, length, map, replicate};
ghost use Rattle.formal_sums.specs.FormalSums.{Each};
ghost use Rattle.bases.specs.Leads.{head_key};
ghost use Rattle.monomials.specs.Weights.{weighted_degree};
ghost use Rattle.term_lists.specs.Rings.{variables};
ghost use Rattle.term_lists.specs.Vectors.{IsMonomialOver, sum_of};
ghost use Rattle.vector_division.specs.Progress.{AreWeighed};
ghost use Rattle.resolution_maps.specs.Resolved.{AreJoined, HavePositions, degrees_of};

use module_vectors::{NoMemory, Ring, Vect, VectList};
use std::alloc::Global;
use std::collections::VecDeque;

/// A map of free modules by its columns: column c is the image of position c.
#[derive(Drop)]
pub struct Map {
    /// The number of rows.
    pub rows: u64,
    pub columns: VectList,
    /// The degrees of the rows.
    pub row_degrees: Vec<u32>,
}

/// A resolution: the degrees of the positions at step 0, and the maps, the one into these positions first. The rows of each
/// further map are the columns of the one before.
pub struct Resolution {
    pub positions: Vec<u32>,
    pub maps: Vec<Map>,
}

// By hand, so that each drop of one is a call.
impl Drop for Resolution {
    fn drop(self) {
        let Resolution {
            positions: _,
            maps: _,
        } = self;
    }
}

// The degree of a row, 0 past the end.
fn row_degree(rows: &[u32], position: u64) -> u32
    ensures { result ≡ get_or rows.now position 0 }
{
    if position < rows.len() as u64 {
        rows[position as usize]
    } else {
        0
    }
}

// The sum, where it is below 2^32.
fn narrow_sum(row: u32, degree: u128) -> Result<u32, NoMemory>
    ensures { IfOk result (λ sum. sum ≡ row + degree) }
{
    let room = u32::MAX - row;
    if degree > u128::from(room) {
        return Err(NoMemory);
    }
    Ok(row + degree as u32)
}

// The degree of the lead; that of 1 at the first position where the vector is zero.
fn lead_degree(ring: &Ring, rows: &[u32], v: &Vect) -> Result<u32, NoMemory>
    requires { Each (λ t. IsMonomialOver ring.now t.0.monomial) v.now }
    ensures { let n = variables ring.now in
        IfOk result (λ d. d ≡ get_or rows.now (head_key (sum_of n v.now)).0 0 + weighted_degree ring.now.weights (head_key (sum_of n v.now)).1) }
{
    let _ring = ring;
    match v.lead() {
        Some(lead) => narrow_sum(
            row_degree(rows, lead.key.position),
            lead.key.monomial.degree(),
        ),
        None => Ok(row_degree(rows, 0)),
    }
}

/// The degrees of the columns of a map whose rows have these degrees: of each column that of its lead, which is the degree of
/// the lead's row and that of its monomial by the ring's weights. `NoMemory` where there is none, and where a degree is 2^32 or
/// more.
pub fn column_degrees(
    alloc: Global,
    ring: &Ring,
    rows: &[u32],
    columns: &VectList,
) -> Result<Vec<u32>, NoMemory>
    requires { AreWeighed (variables ring.now) ring.now.weights columns.now }
    ensures { IfOk result (λ degrees. degrees.items ≡ degrees_of ring.now rows.now columns.now) }
{
    let mut degrees = Vec::with_capacity(alloc, columns.len())?;
    for v in columns.as_slice() {
        degrees.push(lead_degree(ring, rows, v)?)?;
    }
    Ok(degrees)
}

// How many rows there are.
fn count(rows: &[u32]) -> u64
    ensures { result ≡ length rows.now }
{
    rows.len() as u64
}

/// So many positions of degree 0. `NoMemory` where there is none, and where there are 2^64 or more.
pub fn positions_of_zero(alloc: Global, rank: u128) -> Result<Vec<u32>, NoMemory>
    ensures { IfOk result (λ positions. positions.items ≡ replicate rank 0) }
{
    if rank > u128::from(u64::MAX) {
        return Err(NoMemory);
    }
    Ok(vec![in alloc; 0; rank as usize]?)
}

/// The maps with these columns, the rows of the first with these degrees. `NoMemory` where there is none, and where the degree
/// of a column is 2^32 or more.
pub fn joined_maps(
    alloc: Global,
    ring: &Ring,
    positions: &[u32],
    columns: Vec<VectList>,
) -> Result<Vec<Map>, NoMemory>
    requires weighed { Each (AreWeighed (variables ring.now) ring.now.weights) columns.items }
    requires positions { HavePositions (length positions.now) columns.items }
    ensures columns { IfOk result (λ maps. map (λ m. m.columns) maps.items ≡ columns.items) }
    ensures joined { IfOk result (λ maps. AreJoined ring.now positions.now maps.items) }
{
    let mut maps = Vec::with_capacity(alloc, columns.len())?;
    let mut row_degrees = Vec::from_slice(alloc, positions)?;
    let mut rest = VecDeque::from_vec(columns);
    while let Some(columns) = rest.pop_front() {
        let degrees = column_degrees(alloc, ring, &row_degrees, &columns)?;
        maps.push(Map {
            rows: count(&row_degrees),
            columns,
            row_degrees,
        })?;
        row_degrees = degrees;
    }
    Ok(maps)
}
