//! Operations on values.

use module_vectors::{Vect, VectList};

/// An operation on values, by their names. A polynomial is a vector of rank 1 in the order of the ring.
#[derive(Drop)]
pub enum Operation {
    /// The sum of two values.
    Sum(String, String),
    /// The product of an ideal and a value.
    Product(String, String),
    /// The intersection of two values.
    Intersect(String, String),
    /// The ideal of the polynomials that bring the second value into the first one.
    Colon(String, String),
    /// What a polynomial brings into a value.
    Quotient(String, Vect),
    /// What a power of a polynomial brings into a value.
    Saturate(String, Vect),
    /// What a value has without its first variables, of which there are so many.
    Eliminate(String, u32),
    /// The syzygies of a value's stored list.
    Syzygies(String),
    /// The polynomials whose image is in an ideal, under the map that sends each variable, in order, to one of these.
    Preimage(String, VectList),
}
