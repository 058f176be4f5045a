//! How the run of an engine ends, whatever the number of its workers: closed, with the reduced basis of its members; or
//! stopped by its budget, by a degree or by its interreduction, with what is kept of it.
#![tactic(auto)]

mod closing;
mod copies;
mod stop;

pub use closing::close;
pub use copies::copy_trail;
pub use stop::RunStop;
