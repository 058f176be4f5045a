// What became of a line.
use script_parse::Kind;

/// What became of a line.
#[derive(Clone, Copy, Debug, PartialEq, Eq)]
pub enum Step {
    /// It was done, and its text was appended.
    Done,

    /// It was refused, for the first kind that holds of it.
    Refused(Kind),
}
