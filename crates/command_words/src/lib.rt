//! The words of the program's command, read by a command of `clap`: which words are of the form, and what they ask for.
#![tactic(auto)]

mod words;

pub use words::{Command, Request, WordStop, read_words};
