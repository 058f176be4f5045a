// Which keys the code can hold.
ghost use Rattle.std.specs.Prelude.{◌≤◌, ℕ, drop};
ghost use Rattle.term_lists.specs.Vectors.{sum_of};
ghost use Rattle.vector_division.specs.Progress.{HasBoundedHead, last_position};

use module_vectors::Vect;

/// A position is a number of 64 bits.
pub(crate) fn bound_position(position: u64)
    ensures { position ≤ last_position }
{
    let _position = position;
}

/// The first key from this index on has a position and exponents that the code can hold. It does nothing: its contract
/// is the law.
pub(crate) fn bound_key(v: &Vect, at: usize)
    ensures { (n : ℕ) → HasBoundedHead (drop at (sum_of n v.now)) }
{
    if at < v.terms().len() {
        let term = &v.terms()[at];
        term.0.monomial.bounds();
        bound_position(term.0.position);
    }
}
