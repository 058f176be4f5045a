// Lists of terms.
ghost use Rattle.std.specs.Prelude.{◌≡◌, ◌<◌, ◌↔◌, IsTrue, IfOk, length};
ghost use Rattle.formal_sums.specs.FormalSums.{Each};
ghost use Rattle.term_lists.specs.Vectors.{HasPositions};
ghost use Rattle.term_lists.specs.Multiples.{rescaled};

use crate::{Key, NoMemory};
use std::alloc::Global;
use zp_field::Modulus;

/// The same terms again. `NoMemory` where there is none.
pub fn copy_terms(alloc: Global, terms: &[(Key, u32)]) -> Result<Vec<(Key, u32)>, NoMemory>
    ensures { IfOk result (λ copy. copy.items ≡ terms.now) }
{
    let mut copy = Vec::with_capacity(alloc, terms.len())?;
    for term in terms {
        copy.push_reserved((term.0.try_copy(alloc)?, term.1));
    }
    Ok(copy)
}

// Are the two one term?
fn equal_term(a: &(Key, u32), b: &(Key, u32)) -> bool
    ensures { IsTrue result ↔ (a.now ≡ b.now) }
{
    if a.1 != b.1 {
        return false;
    }
    a.0.equal(&b.0)
}

/// Are the two one list? No memory.
pub fn equal_terms(a: &[(Key, u32)], b: &[(Key, u32)]) -> bool
    ensures { IsTrue result ↔ (a.now ≡ b.now) }
{
    if a.len() != b.len() {
        return false;
    }
    for i in 0..a.len() {
        if !equal_term(&a[i], &b[i]) {
            return false;
        }
    }
    true
}

/// Are all positions below the rank? No memory.
pub fn are_below(terms: &[(Key, u32)], rank: u128) -> bool
    ensures { IsTrue result ↔ HasPositions rank terms.now }
{
    for term in terms {
        if rank <= u128::from(term.0.position) {
            return false;
        }
    }
    true
}

/// Multiplies each residue by c, in place. No memory.
pub fn rescale_terms(modulus: &Modulus, c: u32, terms: &mut Vec<(Key, u32)>)
    requires factor { c < modulus.now.value }
    requires residues { Each (λ t. t.1 < modulus.now.value) terms.old.items }
    ensures { terms.new.items ≡ rescaled modulus.now.value c terms.old.items }
{
    for i in 0..terms.len() {
        let residue = modulus.mul(c, terms[i].1);
        terms[i].1 = residue;
    }
}
