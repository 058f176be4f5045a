// Memory for sums of products.
ghost use Rattle.std.specs.Prelude.{◌≡◌, []};

use crate::{Key, Vect};
use std::alloc::Global;

/// Lists that are needed no more. A sum of products takes them for its own parts and its answer, so that one sum after another
/// takes little memory from the system.
pub struct Room {
    lists: Vec<Vec<(Key, u32)>>,
}

// By hand, so that each drop of one is a call.
impl Drop for Room {
    fn drop(self) {
        let Room { lists: _ } = self;
    }
}

impl Room {
    /// No lists. No memory.
    pub fn new(alloc: Global) -> Room
        ensures { result.lists.items ≡ [] }
    {
        Room {
            lists: Vec::new(alloc),
        }
    }

    /// Keeps the memory of a vector that is needed no more.
    pub fn keep(&mut self, v: Vect) {
        self.put_back(v.into_terms());
    }

    /// Keeps the memory of a list. Where there is none to note it, the list's own goes back to the system.
    pub(crate) fn put_back(&mut self, list: Vec<(Key, u32)>) {
        drop(self.lists.push(list));
    }

    /// An empty list: the one that was put back last, where there is any.
    pub(crate) fn take(&mut self, alloc: Global) -> Vec<(Key, u32)>
        ensures { result.items ≡ [] }
    {
        match self.lists.pop() {
            Some(mut list) => {
                list.clear();
                list
            }
            None => Vec::new(alloc),
        }
    }
}
