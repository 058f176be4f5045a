//! What the lock needs to know of its core.
ghost use Rattle.std.specs.Prelude.{◌≡◌, ℕ, List, length};

/// A state with a history, as a lock holds it. Contracts see its events as values of N and what never changes in it as one
/// of B; of neither type is a value made. `base` and `log` read both in a state, `by` is the worker of an event, and
/// `workers` says how many workers there are, who have the numbers below it.
pub trait Core<N, B>: Drop {
    ghost base: { Self → B };

    ghost log: { Self → List N };

    ghost by: { N → ℕ };

    ghost workers: { B → ℕ };

    /// The number of events in the log.
    fn count(&self) -> u64
        ensures { result ≡ length (log self.now) };
}
