//! What a basis run queues as a member comes.
#![tactic(auto)]

/// Which pairs of a new member are queued.
#[derive(Clone, Copy, Debug, PartialEq, Eq)]
pub enum Update {
    /// All of them; a criterion is tested as pairs are taken. IVA chapter 2, section 10.
    Plain,

    /// Those that three rules leave, by which pairs leave the queue too. Gebauer and Möller 1988.
    Gebauer,
}
