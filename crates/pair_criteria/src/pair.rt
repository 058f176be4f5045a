// A pair of leads.
use module_vectors::Key;

/// The leads with the indices i < j, at one position, and their least common multiple.
pub struct Pair {
    pub i: u64,
    pub j: u64,
    pub lcm: Key,
}

// By hand, so that each drop of one is a call.
impl Drop for Pair {
    fn drop(self) {
        let Pair { i: _, j: _, lcm: _ } = self;
    }
}
