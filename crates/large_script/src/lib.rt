//! The generated script: a system of six random quadrics, with two questions about it.
#![tactic(auto)]

mod script;

pub use no_memory::NoMemory;
pub use script::large_script;
