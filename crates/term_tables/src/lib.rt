//! Products of two polynomials by a table of coefficients, with monomials as numbers.
//!
//! A monomial is the number whose digits are its exponents, to a base for each variable that no sum of two exponents reaches. So the
//! number of a product is the sum of two numbers (Kronecker substitution: von zur Gathen and Gerhard, *Modern Computer Algebra*,
//! section 8.4). A table has a place for each number, or, where they reach too far, a slot for each that occurs, found by its hash.
#![tactic(auto)]

mod packing;
mod product;
mod ranks;
mod slots;
mod table;
mod unpacking;

pub use product::multiply;
