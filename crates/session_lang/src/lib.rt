//! A session: what the lines of a script do, one after another, over any engine for reduced Gröbner bases.
//!
//! From line to line it has the ring that was stated last, and values by name: each a list of vectors as it was typed, or as
//! an operation on other values gave it. With a value its reduced basis is kept: a run of the engine makes it when it is first
//! needed, and it is forgotten when the name is given again or a ring is stated. The result of an operation is its own reduced
//! basis. `Session::step` does a line and appends its text; or it answers for which kind the
//! line is refused, or why it was not done, and leaves session and text as they were.
#![tactic(auto)]

mod line_laws;
mod session;

pub use line_laws::{few_runs, no_run_of_refused, one_result, one_statement, same_members};
pub use session::Session;
pub use session_reports::Step;
