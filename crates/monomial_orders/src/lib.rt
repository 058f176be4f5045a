//! Monomials as lists of exponents with their degree by weights, and the orders of monomials and of module monomials.
//!
//! A monomial is seen as its exponents and the degree that is kept; the comparisons are those of the crate `orders`, and each order
//! comes with its laws: total, kept under multiplication, 1 is least, well-founded.
#![tactic(auto)]

mod compare;
mod hints;
mod mono;
mod order;
mod order_laws;
mod places;
mod sixteen;
mod stop;
mod storage;
mod weights;

pub use mono::Mono;
pub use no_memory::NoMemory;
pub use order::{ModOrder, MonomialOrder, Order};
pub use order_laws::key_orders;
pub use stop::MonoStop;
pub use weights::Weights;
