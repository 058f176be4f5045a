// What a worker is given.
use pair_criteria::Pair;

/// The answer to a worker that asks for pairs.
#[derive(Drop)]
pub struct Given {
    /// The pairs that were skipped, one after another.
    pub skipped: Vec<(u64, u64)>,
    /// The members of the pairs that the worker gets.
    pub given: Vec<(u64, u64)>,
    /// These pairs, each with its lcm.
    pub pairs: Vec<Pair>,
    /// Was no pair left before the worker got its share?
    pub none_left: bool,
}
