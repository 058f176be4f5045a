// The rule of a pass's words, and what a seat is told.
use atomic_table::{Seat, TableRule};
use std::collections::LinkedList;

/// What one step told: the column, and its word before and after the step.
pub struct Entry {
    pub column: u64,
    pub before: u64,
    pub after: u64,
}

/// What a seat was told, with the leads of the rows and its shares of the pass: each was halved so many times. No value of it is made.
pub struct View {
    pub leads: LinkedList<u64>,
    pub told: LinkedList<Entry>,
    pub shares: LinkedList<u64>,
}

/// The lead column of each row, and the old row of each column.
#[derive(Drop)]
pub struct Rows {
    pub leads: Vec<u64>,
    pub held: Vec<Option<u64>>,
}

/// The rule: what holds of the words between any two steps.
pub struct Law;

impl<S> TableRule<S, View, Rows> for Law {
    ghost use Rattle.std.specs.Prelude.{[], ◌∷◌};
    ghost use Rattle.pivot_table.specs.Law.{Kept, view};

    ghost holds = { λ key. Kept key.leads.items key.held.items };

    ghost first = { λ key. view key.leads.items [] (0 ∷ []) };
}

/// The seat of one helper: what it was told, and its shares of the pass.
pub type ClaimSeat = Seat<(), View>;
