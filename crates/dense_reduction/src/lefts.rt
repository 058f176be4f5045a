// Rows that lost their columns, and what helpers leave of them.
use row_matrix::Row;

/// A row that did not win its column.
#[derive(Clone, Copy)]
pub struct Lost {
    /// Its number among the rows of the pass.
    pub number: u64,
    /// The number of the row that has its column.
    pub winner: u64,
}

/// What is left of a row, which takes its place in the next pass.
#[derive(Drop)]
pub struct Left {
    /// The number of the row in whose place it stands.
    pub number: u64,
    /// The row that is left, monic.
    pub row: Row,
}
