//! What a line states.

use crate::operation::Operation;
use module_vectors::{Ring, Vect, VectList};
use monomial_orders::Order;

/// What a line states. Its vectors are in the order of the ring, and its names are those of values.
#[derive(Drop)]
pub enum Statement {
    /// Nothing: a blank line.
    Nothing,
    /// A ring, from here on in place of any before.
    Ring(Ring),
    /// A polynomial of the ring that is to be printed: a vector of rank 1.
    Show(Vect),
    /// A name that is given to the ideal of these polynomials, which are vectors of rank 1.
    Ideal(String, VectList),
    /// A name that is given to the module of this rank, from 1 to 64, that these vectors of the rank generate.
    Module(String, u64, VectList),
    /// A name that is given to what an operation on values gives.
    Let(String, Operation),
    /// The stored list of a value is to be printed.
    Gens(String),
    /// The reduced basis of a value is to be printed.
    Gb(String),
    /// How many leads a value has of each degree is to be printed.
    Size(String),
    /// The Hilbert numbers of a value are to be printed.
    Hilbert(String),
    /// The canonical resolution of a value is to be printed.
    Resolution(String),
    /// The minimal resolution of a value is to be printed.
    Minimal(String),
    /// The Betti numbers of a value are to be printed.
    Betti(String),
    /// The projective dimension and the regularity of a value are to be printed.
    Regularity(String),
    /// The normal form of a vector modulo a value is to be printed.
    NormalForm(String, Vect),
    /// Whether a vector is in a value is to be printed.
    Member(String, Vect),
    /// The cofactors of a vector over the stored list of a value are to be printed, or that it has none.
    Lift(String, Vect),
    /// Whether two values are equal is to be printed.
    Equal(String, String),
    /// The reduced basis of a value in this order is to be printed.
    Change(String, Order),
    /// A polynomial with this image is to be printed, or that there is none, under the map that sends each variable, in order, to
    /// one of the list. All are vectors of rank 1.
    Express(Vect, VectList),
    /// A presentation of an Ext module of a value is to be printed, by its number, which is at most that of the variables.
    Ext(String, u64),
}
