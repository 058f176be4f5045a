//! Operations on ideals and modules, over any engine that computes reduced Gröbner bases.
//!
//! Each operation is one run or two: a list is made, and where the answer is part of its basis, the members that have the
//! property are run again in the ring's own order (IVA chapter 3, section 1 and chapter 4, section 3), unless this compares
//! them as the order of the first run did: so in graded reverse lexicographic order, term over position. Quotient and colon
//! are syzygies of one list modulo another (`syzygy_engine::kernel_modulo`): only the one gets marks, and what the basis has
//! behind them is the answer, but for a second run where the ring's order is term over position and there are more marks
//! than one (UAG chapter 5, section 3). Before a colon has such a run, the basis of the ideal itself is attempted where this
//! may be the answer.
#![tactic(auto)]

mod adding;
mod back;
mod colons;
mod comparing;
mod coprime_leads;
mod eliminating;
mod front;
mod intersecting;
mod multiplying;
mod quotients;
mod saturating;
mod sorting;
mod stacking;

pub use adding::sum;
pub use colons::colon;
pub use comparing::equal;
pub use eliminating::{eliminate, is_free, is_grevlex};
pub use groebner_iface::OpStop;
pub use intersecting::intersect;
pub use multiplying::product;
pub use quotients::quotient;
pub use saturating::saturate;
