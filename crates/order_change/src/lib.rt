//! From the reduced Gröbner basis of an ideal with finitely many standard monomials to the one in another order, by linear
//! algebra on normal forms (Faugère, Gianni, Lazard, Mora, Journal of Symbolic Computation 16, 1993).
#![tactic(auto)]

mod ascending;
mod change;
mod conversion;
mod enumeration;
mod forms;
mod leads;
mod listing;
mod products;
mod rows;
mod stop;
mod sums;
mod table;

pub use conversion::convert;
pub use listing::standard;
pub use stop::ChangeStop;
