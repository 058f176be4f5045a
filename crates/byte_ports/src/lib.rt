//! Where the bytes of a script come from and where its text goes: a source and a sink that tell
//! their bytes where they can, and count each read or write that failed.
#![tactic(auto)]

mod line_reader;
mod memory;
mod ports;
mod std_ports;
mod sure;

pub use line_reader::{Lines, LinesStop, Next};
pub use memory::{MemSink, MemSource};
pub use no_memory::NoMemory;
pub use ports::{Failed, Sink, Source, write_all_to};
pub use std_ports::{StdSink, StdSource};
pub use sure::{SureSink, SureSource};
